use crate::fault::Fault;
use crate::layer::Layer;
use crate::load::LoadFault;
use thiserror::Error;

// Why a call is refused: the fault of the table that it was handed, whole; or the number at fault, or the length that
// is needed.
#[derive(Clone, Copy, Debug, PartialEq, Eq, Error)]
pub enum CallFault {
    #[error(transparent)]
    Load(LoadFault),
    // No path has this number.
    #[error("path {0} is not declared")]
    UndeclaredPath(u32),
    // No router has this number.
    #[error("router {0} is not declared")]
    UndeclaredRouter(u32),
    // A step of no router.
    #[error("no router is named")]
    NoRouterNamed,
    // The path is injected, and cannot be again.
    #[error("path {0} is injected already")]
    AlreadyInjected(u32),
    // The path is not injected, and cannot be withdrawn.
    #[error("path {0} is not injected")]
    NotInjected(u32),
    // The buffer is shorter than this.
    #[error("the buffer is shorter than {0} bytes")]
    ShortBuffer(usize),
}

impl From<LoadFault> for CallFault {
    ghost use Rattle.std.specs.Prelude.{◌≡◌};
    ghost use Rattle.faults.specs.declared.call.CallFault.TheVariants.{Load};

    ghost from_gives = { λ fault whole. whole ≡ Load fault };

    fn from(fault: LoadFault) -> CallFault {
        CallFault::Load(fault)
    }
}

impl Fault for CallFault {
    ghost use Rattle.faults.specs.Faults.{call_number_of, call_layer_of, call_place_of};

    ghost number = { call_number_of };

    ghost layer = { call_layer_of };

    ghost place = { call_place_of };

    fn number(self) -> u8 {
        match self {
            CallFault::Load(fault) => fault.number(),
            CallFault::UndeclaredPath(_) => 11,
            CallFault::UndeclaredRouter(_) => 12,
            CallFault::NoRouterNamed => 13,
            CallFault::AlreadyInjected(_) => 14,
            CallFault::NotInjected(_) => 15,
            CallFault::ShortBuffer(_) => 16,
        }
    }

    fn layer(self) -> Layer {
        match self {
            CallFault::Load(fault) => fault.layer(),
            CallFault::UndeclaredPath(_)
            | CallFault::UndeclaredRouter(_)
            | CallFault::NoRouterNamed
            | CallFault::AlreadyInjected(_)
            | CallFault::NotInjected(_)
            | CallFault::ShortBuffer(_) => Layer::Call,
        }
    }

    fn place(self) -> usize {
        match self {
            CallFault::Load(fault) => fault.place(),
            CallFault::UndeclaredPath(path)
            | CallFault::AlreadyInjected(path)
            | CallFault::NotInjected(path) => path as usize,
            CallFault::UndeclaredRouter(router) => router as usize,
            CallFault::NoRouterNamed => 0,
            CallFault::ShortBuffer(needed) => needed,
        }
    }
}
