// Checks 7 to 10, 12 and 14: the first fault of a slice of bits, of the buffers' lengths, of a job's header.
#![tactic(auto)]

ghost use Rattle.std.specs.Prelude.{◌≡◌, ◌+◌, not, length, leb, eqb, position};
ghost use Rattle.theory_calls.specs.Checks.{fault, row_job, verdict};
ghost use Rattle.theory_calls.specs.AtBits.{bits_row};
ghost use Rattle.check_refusal.specs.Found.{some_below, found};
ghost use Rattle.check_slices.specs.Mirror.{Under, Faults, sizes_checks};

use check_refusal::Refusal;

// No byte of the slice is above the answer. Nothing stops this loop in the middle, so that a compiler may take many bytes at a time.
fn largest(s: &[u8]) -> u8
    ensures { Under s.now result (length s.now) }
{
    let mut most = 0u8;
    for byte in s {
        most = most.max(*byte);
    }
    most
}

// The first byte above 1. As a rule there is none, and then no byte is looked at alone.
pub fn first_above(s: &[u8]) -> Option<usize>
    ensures { result ≡ position (λ b. not (leb b 1)) s.now }
{
    if largest(s) <= 1 {
        return None;
    }
    s.iter().position(|byte| check_tests::above_one(*byte))
}

// 7, 8, 9, 12: the place of the fault of a slice of bits, the wanted length or an index.
pub fn bits_fault(s: &[u8], want: usize) -> Option<usize>
    ensures { result ≡ some_below (fault (bits_row s.now want)) (want + 1) }
{
    if s.len() != want {
        return Some(want);
    }
    first_above(s)
}

// The same as a refusal. Which of the four it is, the caller lends.
pub fn bits<F: Fn(usize) -> Refusal>(s: &[u8], want: usize, refusal: F) -> Result<(), Refusal>
    requires { F.IsAlwaysCallable refusal }
    ensures { Faults (F.post refusal) s.now want result }
{
    match bits_fault(s, want) {
        Some(place) => Err(refusal(place)),
        None => Ok(()),
    }
}

// The first buffer that has not its length, by number.
fn wrong_size(buffers: &[(usize, usize)]) -> Option<usize>
    ensures { result ≡ position (λ b. not (eqb b.0 b.1)) buffers.now }
{
    buffers
        .iter()
        .position(|b| check_tests::size_wrong(b.0, b.1))
}

// 10: every buffer has its length; of each its length and the one that it should have.
pub fn first_size(buffers: &[(usize, usize)]) -> Result<(), Refusal>
    ensures { found result ≡ verdict (sizes_checks buffers.now) }
{
    match wrong_size(buffers) {
        Some(buffer) => Err(Refusal::Buffer(buffer)),
        None => Ok(()),
    }
}

// 14: the place of the fault of a job's header. No refusal, as the listing alone asks it: a Result here would be one more match on judge_job's answer.
pub fn job_fault(job: &[u8]) -> Option<usize>
    ensures { result ≡ some_below (fault (row_job job.now)) 13 }
{
    if job.len() < 16 {
        return Some(0);
    }
    check_tests::judge_job(
        job.len(),
        file_numbers::u32_at(job, 0),
        file_numbers::u32_at(job, 4),
        file_numbers::u32_at(job, 8),
        file_numbers::u32_at(job, 12),
    )
}
