// Bytes and numbers written into a lent buffer: each writer is told the place where it starts and answers the place after what it wrote, so
// that the next goes on there. No struct holds the buffer with the place: a `&mut` in it would put a borrow into each caller's contract.
#![tactic(auto)]

ghost use Rattle.std.specs.Prelude.{◌≡◌, ◌+◌, ◌≤◌, length};
ghost use Rattle.theory_files.specs.Written.{two, four};
ghost use Rattle.file_writer.specs.Mirror.{write};

// Bytes, one after the other.
#[tactic(auto, unfolding(crate::specs::Mirror::write))]
pub fn put_bytes(to: &mut [u8], at: usize, bytes: &[u8]) -> usize
    requires { at + length bytes.now ≤ length to.old }
    ensures to_after { to.new ≡ write at bytes.now to.old }
    ensures value { result ≡ at + length bytes.now }
{
    let end = at + bytes.len();
    to[at..end].copy_from_slice(bytes);
    end
}

// A number in two bytes, the lowest first.
#[tactic(auto, unfolding(theory_files::specs::Written::two))]
pub fn put_u16(to: &mut [u8], at: usize, n: u16) -> usize
    requires { at + 2 ≤ length to.old }
    ensures to_after { to.new ≡ write at (two n) to.old }
    ensures value { result ≡ at + 2 }
{
    let bytes = n.to_le_bytes();
    put_bytes(to, at, &bytes)
}

// A number in four bytes.
#[tactic(auto, unfolding(theory_files::specs::Written::four, theory_files::specs::Written::two))]
pub fn put_u32(to: &mut [u8], at: usize, n: u32) -> usize
    requires { at + 4 ≤ length to.old }
    ensures to_after { to.new ≡ write at (four n) to.old }
    ensures value { result ≡ at + 4 }
{
    put_bytes(to, at, &n.to_le_bytes())
}
