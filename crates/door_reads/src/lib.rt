// What the questions to a circuit file answer for C: opened, by number, checked. The door hands each on.
#![tactic(auto)]

ghost use Rattle.std.specs.Prelude.{◌≡◌};
ghost use Rattle.theory_calls.specs.Calls.{Open, GateAt, OwnerAt, OutputAt, Check, does};
ghost use Rattle.door_answers.specs.Told.{told_counts, told_gate, told_owner, told_output};

use door_answers::{CountsAnswer, GateAnswer, OutputAnswer, OwnerAnswer};

// The reader is opened: checks 1 to 3, and the counts.
pub fn open_for_c(file: &[u8]) -> CountsAnswer
    ensures { result ≡ told_counts (does (Open file.now)).answer }
{
    CountsAnswer::from(file_header::open_file(file))
}

// Gate k of a file.
pub fn gate_for_c(file: &[u8], k: usize) -> GateAnswer
    ensures { result ≡ told_gate (does (GateAt file.now k)).answer }
{
    GateAnswer::from(file_reader::gate_of(file, k))
}

// The owner of input k of a file.
pub fn owner_for_c(file: &[u8], k: usize) -> OwnerAnswer
    ensures { result ≡ told_owner (does (OwnerAt file.now k)).answer }
{
    OwnerAnswer::from(file_reader::owner_of(file, k))
}

// The wire of output k of a file.
pub fn output_for_c(file: &[u8], k: usize) -> OutputAnswer
    ensures { result ≡ told_output (does (OutputAt file.now k)).answer }
{
    OutputAnswer::from(file_reader::output_of(file, k))
}

// The whole circuit: checks 1 to 6, and the counts.
pub fn check_for_c(file: &[u8]) -> CountsAnswer
    ensures { result ≡ told_counts (does (Check file.now)).answer }
{
    CountsAnswer::from(check_circuit::check_file(file))
}
