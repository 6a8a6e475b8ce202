ghost use Rattle.std.specs.Prelude.{◌≡◌};

use std::fmt;
use thiserror::Error;

// What a router is in its cluster.
#[derive(Clone, Copy, Debug, Default, PartialEq, Eq)]
pub enum Role {
    #[default]
    Client,
    Reflector,
}

// A byte that stands for no role. Not the error of a kind's byte too: each says in words what the byte is not.
#[derive(Clone, Copy, Debug, PartialEq, Eq, Error)]
#[error("no role has byte {0}")]
pub struct NoRole(pub u8);

// A router; its number is its place among the routers.
#[derive(Clone, Copy, Debug, Default, PartialEq, Eq)]
pub struct Router {
    pub cluster: u8,
    pub role: Role,
}

// The role that a byte stands for.
impl TryFrom<u8> for Role {
    type Error = NoRole;

    ghost use Rattle.layout.specs.Roles.{IsRoleOf};

    ghost try_from_gives = { IsRoleOf };

    fn try_from(byte: u8) -> Result<Role, NoRole> {
        match byte {
            0 => Ok(Role::Client),
            1 => Ok(Role::Reflector),
            _ => Err(NoRole(byte)),
        }
    }
}

// The byte that stands for a role.
impl From<Role> for u8 {
    ghost use Rattle.layout.specs.Encoding.{role_byte};

    ghost from_gives = { λ role byte. byte ≡ role_byte role };

    fn from(role: Role) -> u8 {
        match role {
            Role::Client => 0,
            Role::Reflector => 1,
        }
    }
}

// The name of a role.
impl fmt::Display for Role {
    ghost use Rattle.std.specs.Prelude.{Some};
    ghost use Rattle.layout.specs.Roles.{role_name};

    ghost output = { λ role. Some (role_name role) };

    fn fmt<W: fmt::Write>(&self, f: &mut fmt::Formatter<W>) -> fmt::Result {
        f.write_str(match self {
            Role::Client => "client",
            Role::Reflector => "reflector",
        })
    }
}

impl Role {
    ghost use Rattle.layout.specs.Checks.{is_client};

    pub fn is_client(self) -> bool
        ensures { result ≡ is_client self }
    {
        self == Role::Client
    }
}
