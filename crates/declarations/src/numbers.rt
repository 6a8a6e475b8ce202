ghost use Rattle.std.specs.Prelude.{◌≡◌, ◌+◌, ◌<◌};
ghost use Rattle.layout.specs.Bodies.{four};

// The number in the four bytes of a path's body from `at` on, the highest byte first.
pub(crate) fn four_bytes(body: &[u8; 20], at: usize) -> u32
    requires { at + 3 < 20 }
    ensures { result ≡ four body.now at }
{
    u32::from_be_bytes([body[at], body[at + 1], body[at + 2], body[at + 3]])
}
