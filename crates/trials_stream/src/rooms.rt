// Rooms for slices: what the largest circuit needs, and some bytes more. What stands in one at first is nobody's business, and a proof that goes past a room need not carry its bytes.
ghost use Rattle.std.specs.Prelude.{◌≡◌, length};

pub fn room<const N: usize>() -> [u8; N]
    ensures { N ≡ length result }
{
    [0; N]
}
