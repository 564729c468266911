// Numbers in a slice, the lowest byte first, as a circuit file and a job have them; a copy of a slice.
#![tactic(auto)]

ghost use Rattle.std.specs.Prelude.{◌≡◌, ◌+◌, ◌≤◌, length, take};
ghost use Rattle.theory_sharing.specs.Store.{fill};
ghost use Rattle.theory_calls.specs.File.{le16, le32};

// Two bytes and four, the lowest first.
#[tactic(auto, unfolding(theory_calls::specs::File::le16))]
pub fn u16_at(file: &[u8], at: usize) -> u16
    requires { at + 2 ≤ length file.now }
    ensures { result ≡ le16 file.now at }
{
    u16::from_le_bytes([file[at], file[at + 1]])
}

#[tactic(auto, unfolding(theory_calls::specs::File::le16, theory_calls::specs::File::le32))]
pub fn u32_at(file: &[u8], at: usize) -> u32
    requires { at + 4 ≤ length file.now }
    ensures { result ≡ le32 file.now at }
{
    u32::from_le_bytes([file[at], file[at + 1], file[at + 2], file[at + 3]])
}

// The first n bytes of a slice, into the front of one as long. A loop and not std's `copy_from_slice`: that is compiled to a call of `memmove`,
// which the library for C would newly need from outside.
pub fn copy_first(from: &[u8], n: usize, to: &mut [u8])
    requires { (n ≤ length from.now) × (length from.now ≡ length to.old) }
    ensures { to.new ≡ fill to.old (take n from.now) }
{
    for k in 0..n {
        to[k] = from[k];
    }
}

// A copy of a slice, into one as long.
pub fn copy(from: &[u8], to: &mut [u8])
    requires { length from.now ≡ length to.old }
    ensures { to.new ≡ from.now }
{
    copy_first(from, from.len(), to);
}
