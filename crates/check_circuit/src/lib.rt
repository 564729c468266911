// Checks 4 to 6: one test each, the first fault by index, and the whole circuit's check.
#![tactic(auto)]

ghost use Rattle.std.specs.Prelude.{◌≡◌, ◌<◌, IfOk};
ghost use Rattle.theory_sharing.specs.First.{first};
ghost use Rattle.theory_calls.specs.Calls.{Check, answers, does};
ghost use Rattle.check_refusal.specs.Found.{some_below};
ghost use Rattle.file_header.specs.Answers.{header_answer};
ghost use Rattle.check_tests.specs.Mirror.{bad_owner, bad_gate, bad_output};
ghost use Rattle.check_circuit.specs.Answers.{circuit_answer};
ghost use Rattle.check_circuit.specs.Mirror.{checked_of};
ghost use Rattle.file_parts.specs.Checked.{IsChecked};

use check_refusal::Refusal;
use file_header::Counts;
use file_parts::OpenFile;
use file_reader::Circuit;

// 4: an owner not 1 to 3.
#[tactic(auto, unfolding(check_tests::specs::Mirror::bad_owner))]
pub fn owner_bad(f: &OpenFile<'_>, k: usize) -> bool
    requires { k < f.now.counts.inputs }
    ensures { result ≡ bad_owner f.now.file.now k }
{
    let owner = f.owner_at(k);
    !((1 <= owner) & (owner <= 3))
}

// 5: unknown kind, operand not a lower wire, or NOT with second not 0.
#[tactic(auto, unfolding(check_tests::specs::Mirror::bad_gate))]
pub fn gate_bad(f: &OpenFile<'_>, k: usize) -> bool
    requires { k < f.now.counts.gates }
    ensures { result ≡ bad_gate f.now.file.now f.now.counts.inputs k }
{
    let gate = f.gate_at(k);
    check_tests::kind_bad(gate.kind, gate.first, gate.second, f.counts.inputs + k)
}

// 6: output wire not below W.
#[tactic(auto, unfolding(check_tests::specs::Mirror::bad_output))]
pub fn output_bad(f: &OpenFile<'_>, k: usize) -> bool
    requires { k < f.now.counts.outputs }
    ensures { result ≡ bad_output f.now.file.now f.now.counts.inputs f.now.counts.gates k }
{
    let wire = f.output_at(k) as usize;
    !(wire < f.counts.inputs + f.counts.gates)
}

// The first bad owner, gate, output. Each asks in a loop of its own: with `find` and a closure a check cost 1.12 of what C costs, with these 1.05,
// and 1.1 is the bar.
pub fn first_owner(f: &OpenFile<'_>) -> Option<usize>
    ensures { result ≡ some_below (first (bad_owner f.now.file.now) f.now.counts.inputs) f.now.counts.inputs }
{
    for k in 0..f.counts.inputs {
        if owner_bad(f, k) {
            return Some(k);
        }
    }
    None
}

pub fn first_gate(f: &OpenFile<'_>) -> Option<usize>
    ensures { result ≡ some_below (first (bad_gate f.now.file.now f.now.counts.inputs) f.now.counts.gates) f.now.counts.gates }
{
    for k in 0..f.counts.gates {
        if gate_bad(f, k) {
            return Some(k);
        }
    }
    None
}

pub fn first_output(f: &OpenFile<'_>) -> Option<usize>
    ensures { result
        ≡ some_below (first (bad_output f.now.file.now f.now.counts.inputs f.now.counts.gates) f.now.counts.outputs) f.now.counts.outputs }
{
    for k in 0..f.counts.outputs {
        if output_bad(f, k) {
            return Some(k);
        }
    }
    None
}

// Checks 4 to 6 on a file whose header is good.
fn judge_parts(f: &OpenFile<'_>) -> Result<Counts, Refusal>
    ensures { result ≡ checked_of f.now.file.now f.now.counts }
{
    if let Some(input) = first_owner(f) {
        return Err(Refusal::Owner(input));
    }
    if let Some(gate) = first_gate(f) {
        return Err(Refusal::Gate(gate));
    }
    if let Some(output) = first_output(f) {
        return Err(Refusal::Output(output));
    }
    Ok(f.counts)
}

// PUBLIC. The whole circuit: checks 1 to 6. The header's answer is taken apart before any gate is read, and its refusal goes out as it came.
pub fn check_file(file: &[u8]) -> Result<Counts, Refusal>
    ensures value { answers (header_answer result) ≡ does (Check file.now) }
    ensures checked { IsChecked result file.now }
{
    let header = file_header::read_header(file);
    let Ok(counts) = header else {
        return header;
    };
    judge_parts(&OpenFile { file, counts })
}

// The same, with the circuit for an answer: what a call asks that goes on with it.
pub fn circuit(file: &[u8]) -> Result<Circuit<'_>, Refusal>
    ensures value { answers (circuit_answer result) ≡ does (Check file.now) }
    ensures lent { IfOk result (λ c. c.file.now ≡ file.now) }
{
    let counts = check_file(file)?;
    Ok(Circuit { file, counts })
}
