ghost use Rattle.std.specs.Prelude.{◌≡◌, ℕ};
ghost use Rattle.faults.specs.declared.layer.Layer.{Layer};

use crate::layer::Layer;

// What every fault tells: its number, the layer that refuses, and the place of what is at fault. A number beside the enum,
// since programs print it and hosts are handed it. An impl for each layer:
// a kind with a place beside it would have a place even where there is none, as in a table without a router.
pub trait Fault {
    ghost number: { Self → ℕ };

    ghost layer: { Self → Layer };

    ghost place: { Self → ℕ };

    fn number(self) -> u8
        ensures { result ≡ number self };

    fn layer(self) -> Layer
        ensures { result ≡ layer self };

    fn place(self) -> usize
        ensures { result ≡ place self };
}
