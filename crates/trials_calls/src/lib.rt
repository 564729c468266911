// Trials of the calls that take the circuit, alone, with a reader's counts or with inputs: those with one slice, the questions to a reader,
// and plain values; and of the one that writes a circuit from a text.
#![tactic(auto)]

pub mod readers;
pub mod single;
pub mod texts;
pub mod values;

use check_refusal::Refusal;
use trials_stream::print;

// The line of an answer, behind the call's name: its numbers where it is good, else the refusal's.
pub fn answered<const N: usize>(answer: Result<[usize; N], Refusal>) {
    match answer {
        Ok(numbers) => print::good(&numbers),
        Err(refusal) => print::refused(refusal.number(), refusal.place()),
    }
}
