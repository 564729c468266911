// A reader that anybody made: the counts beside its file are only claimed, so it is its file that is asked, and nothing is read by them.
#![tactic(auto)]

ghost use Rattle.std.specs.Prelude.{◌≡◌};
ghost use Rattle.theory_calls.specs.Calls.{GateAt, OwnerAt, OutputAt, answers, does};
ghost use Rattle.file_parts.specs.Answers.{gate_answer, owner_answer, output_answer};

use check_refusal::Refusal;
use file_parts::Gate;
use file_reader::Reader;

// PUBLIC. Gate k of a reader, whatever number k is and whoever made the reader: what the file's own call answers, whatever its counts are.
pub fn gate_read(r: Reader<'_>, k: usize) -> Result<Gate, Refusal>
    ensures { answers (gate_answer result) ≡ does (GateAt r.entry.file.now k) }
{
    file_reader::gate_of(r.file, k)
}

// PUBLIC. The owner of input k of a reader.
pub fn owner_read(r: Reader<'_>, k: usize) -> Result<u8, Refusal>
    ensures { answers (owner_answer result) ≡ does (OwnerAt r.entry.file.now k) }
{
    file_reader::owner_of(r.file, k)
}

// PUBLIC. The wire of output k of a reader.
pub fn output_read(r: Reader<'_>, k: usize) -> Result<u16, Refusal>
    ensures { answers (output_answer result) ≡ does (OutputAt r.entry.file.now k) }
{
    file_reader::output_of(r.file, k)
}
