ghost use Rattle.std.specs.Prelude.{◌≡◌};
ghost use Rattle.records.specs.Kinds.{body_length, kind_byte, IsKindOf};

use thiserror::Error;

// What a record declares; a table has its records in this order.
#[derive(Clone, Copy, Debug, PartialEq, Eq, PartialOrd, Ord)]
pub enum Kind {
    Router,
    Link,
    Session,
    Path,
}

// A byte that begins no record. Not the error of a role's byte too: each says in words what the byte is not.
#[derive(Clone, Copy, Debug, PartialEq, Eq, Error)]
#[error("no record begins with byte {0}")]
pub struct NoKind(pub u8);

// The kind that a byte begins.
impl TryFrom<u8> for Kind {
    type Error = NoKind;

    ghost try_from_gives = { IsKindOf };

    fn try_from(byte: u8) -> Result<Kind, NoKind> {
        match byte {
            1 => Ok(Kind::Router),
            2 => Ok(Kind::Link),
            3 => Ok(Kind::Session),
            4 => Ok(Kind::Path),
            _ => Err(NoKind(byte)),
        }
    }
}

// The byte that begins a record of a kind.
impl From<Kind> for u8 {
    ghost from_gives = { λ kind byte. byte ≡ kind_byte kind };

    fn from(kind: Kind) -> u8 {
        match kind {
            Kind::Router => 1,
            Kind::Link => 2,
            Kind::Session => 3,
            Kind::Path => 4,
        }
    }
}

impl Kind {
    // How many bytes follow that one.
    pub fn body_len(self) -> usize
        ensures { result ≡ body_length self }
    {
        match self {
            Kind::Router => 2,
            Kind::Link => 4,
            Kind::Session => 2,
            Kind::Path => 20,
        }
    }
}
