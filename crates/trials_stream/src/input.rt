// Bytes, numbers and slices from standard input. Where the stream ends in the middle of a call, or a slice has no room, the line that says so is printed here, and the answer is None: the program ends.
ghost use Rattle.std.specs.Prelude.{length, IfSome};
ghost use Rattle.io.specs.Counts.{IsPrefixLen};

use crate::print;

// The number of standard input.
const STDIN_FILENO: i32 = 0;

// The byte that a call begins with. A stream may end before it.
pub fn byte() -> Option<usize> {
    let mut one = [0u8; 1];
    if io::read_full(STDIN_FILENO, &mut one) != 1 {
        return None;
    }
    Some(usize::from(one[0]))
}

// A number of four bytes, the lowest first.
pub fn number() -> Option<usize> {
    let mut four = [0u8; 4];
    if io::read_full(STDIN_FILENO, &mut four) != 4 {
        print::word(b"stream cut short\n");
        return None;
    }
    Some(u32::from_le_bytes(four) as usize)
}

// A slice: its length, and that many bytes, which are put at the start of `room`. That start is the answer, so it is no longer than the room.
pub fn slice(room: &mut [u8]) -> Option<&mut [u8]>
    ensures { IfSome result (λ s. IsPrefixLen (length s.now) room.old) }
{
    let n = number()?;
    if n > room.len() {
        print::word(b"slice too long\n");
        return None;
    }
    let bytes = &mut room[..n];
    if io::read_full(STDIN_FILENO, bytes) != n {
        print::word(b"stream cut short\n");
        return None;
    }
    Some(bytes)
}
