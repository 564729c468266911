// Checks 7 to 10 on a circuit of which A is known: 7 and 8 are what run, view, re-taping and listing are all given, 9 and 10 the run's own.
#![tactic(auto)]

ghost use Rattle.std.specs.Prelude.{◌≡◌, ◌≤◌};
ghost use Rattle.theory_sharing.specs.Circuit.{ands as ands_of};
ghost use Rattle.theory_calls.specs.File.{circuit as circuit_of};
ghost use Rattle.theory_calls.specs.Checks.{verdict};
ghost use Rattle.check_refusal.specs.Found.{found};
ghost use Rattle.check_given.specs.Mirror.{slices_checks, run_checks};

use check_refusal::Refusal;
use file_counts::Counted;
use file_parts::OpenFile;

// 7, then 8, on a file whose header is good and which has a AND and OR gates: inputs, then tapes.
pub fn slices_fault(f: &OpenFile<'_>, a: usize, inputs: &[u8], tapes: &[u8]) -> Result<(), Refusal>
    requires counted { (a ≡ ands_of (circuit_of f.now.file.now).gate f.now.counts.gates) × (a ≤ f.now.counts.gates) }
    ensures { found result ≡ verdict (slices_checks f.now.file.now inputs.now tapes.now) }
{
    let counts = f.counts;
    check_slices::bits(inputs, counts.inputs, Refusal::Inputs)?;
    check_slices::bits(tapes, 2 * counts.inputs + 6 * a, Refusal::Tapes)?;
    Ok(())
}

// 7 to 10 of a run: slices, then the lengths of the three buffers.
pub fn given_fault(
    f: &OpenFile<'_>,
    a: usize,
    inputs: &[u8],
    tapes: &[u8],
    line: &[u8],
    outputs: usize,
    transcript: usize,
    store: usize,
) -> Result<(), Refusal>
    requires counted { (a ≡ ands_of (circuit_of f.now.file.now).gate f.now.counts.gates) × (a ≤ f.now.counts.gates) }
    ensures { found result ≡ verdict (run_checks f.now.file.now inputs.now tapes.now line.now outputs transcript store) }
{
    slices_fault(f, a, inputs, tapes)?;
    let counts = f.counts;
    let bits = 4 * counts.inputs + 12 * a + 6 * counts.outputs;
    check_slices::bits(line, bits, Refusal::Line)?;
    let buffers = [
        (outputs, 3 * counts.outputs),
        (transcript, bits),
        (store, 6 * (counts.inputs + counts.gates)),
    ];
    check_slices::first_size(&buffers)
}

// Both of a circuit that was checked and counted, as every call has it.
pub fn slices(c: &Counted<'_>, inputs: &[u8], tapes: &[u8]) -> Result<(), Refusal>
    ensures { found result ≡ verdict (slices_checks c.now.circuit.file.now inputs.now tapes.now) }
{
    let f = OpenFile {
        file: c.circuit.file,
        counts: c.circuit.counts,
    };
    slices_fault(&f, c.ands, inputs, tapes)
}

pub fn run(
    c: &Counted<'_>,
    inputs: &[u8],
    tapes: &[u8],
    line: &[u8],
    outputs: usize,
    transcript: usize,
    store: usize,
) -> Result<(), Refusal>
    ensures { found result ≡ verdict (run_checks c.now.circuit.file.now inputs.now tapes.now line.now outputs transcript store) }
{
    let f = OpenFile {
        file: c.circuit.file,
        counts: c.circuit.counts,
    };
    given_fault(&f, c.ands, inputs, tapes, line, outputs, transcript, store)
}
