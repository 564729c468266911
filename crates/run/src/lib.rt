// The run: every check, then inputs and gates in one pass, openings judged, outputs handed over.
#![tactic(auto)]

ghost use Rattle.std.specs.Prelude.{◌≡◌, ◌+◌, ◌*◌, length, Ok};
ghost use Rattle.theory_sharing.specs.Circuit.{all_ands};
ghost use Rattle.theory_sharing.specs.Store.{fill};
ghost use Rattle.theory_calls.specs.File.{circuit};
ghost use Rattle.theory_calls.specs.Calls.{Run, does};
ghost use Rattle.theory_calls.specs.AtBits.{ran_on, store_on, told_on};
ghost use Rattle.run.specs.Answers.{run_after};
ghost use Rattle.run.specs.Mirror.{Ready};

use check_refusal::Refusal;
use file_counts::Counted;
use file_reader::Circuit;

// How a run ends that nothing refuses: good, or with an abort's output and the sum of its objecting sites.
#[derive(Clone, Copy, Debug, PartialEq, Eq)]
pub enum Ran {
    Good,
    Abort(usize, usize),
}

// Inputs and gates: the store of all wires, and the delivered bits so far. Gives the place where the openings begin.
fn shares(
    c: &Counted<'_>,
    inputs: &[u8],
    tapes: &[u8],
    line: &[u8],
    store: &mut [u8],
    transcript: &mut [u8],
) -> usize
    requires { Ready c.now.circuit.file.now c.now.circuit.counts (length inputs.now) (length tapes.now) (length line.now) (length transcript.old) (length store.old) }
    ensures value { result ≡ 4 * (circuit c.now.circuit.file.now).ins + 12 * all_ands (circuit c.now.circuit.file.now) }
    ensures store_after { store.new ≡ store_on c.now.circuit.file.now inputs.now tapes.now line.now }
    ensures transcript_after { transcript.new ≡ fill transcript.old (told_on c.now.circuit.file.now inputs.now tapes.now line.now) }
{
    let pos = run_start::begin(c);
    let q = run_passes::inputs_pass(&c.circuit, inputs, tapes, line, store, transcript, pos);
    let z = run_passes::gates_pass(&c.circuit, tapes, line, store, transcript, q);
    z.at
}

// Behind all checks: shares, openings judged, outputs handed over only after the last opening is known to be good. What is behind 1 to 6 asks
// it, and the listing, whose rooms need no check.
pub fn run_checked(
    c: &Counted<'_>,
    inputs: &[u8],
    tapes: &[u8],
    line: &[u8],
    outs: &mut [u8],
    transcript: &mut [u8],
    store: &mut [u8],
) -> Ran
    requires ready { Ready c.now.circuit.file.now c.now.circuit.counts (length inputs.now) (length tapes.now) (length line.now) (length transcript.old) (length store.old) }
    requires outs_len { length outs.old ≡ 3 * c.now.circuit.counts.outputs }
    ensures { run_after (Ok result) outs.new transcript.new store.new
        ≡ ran_on c.now.circuit.file.now inputs.now tapes.now line.now outs.old transcript.old }
{
    // A copy, since what is behind a reference would be read anew at each gate: bytes are written between.
    let c = *c;
    let at = shares(&c, inputs, tapes, line, store, transcript);
    if let Some(stop) = run_openings::judge(&c.circuit, line, store, transcript, at) {
        return Ran::Abort(stop.output, stop.sites);
    }
    run_openings::hand_over(&c.circuit, store, transcript, outs, at);
    Ran::Good
}

// Behind checks 1 to 6: A is counted, 7 to 10 are made, then the run. The public run asks it, and any other form of a run that has its circuit
// checked first.
pub fn run_opened(
    c: &Circuit<'_>,
    inputs: &[u8],
    tapes: &[u8],
    line: &[u8],
    outputs: &mut [u8],
    transcript: &mut [u8],
    store: &mut [u8],
) -> Result<Ran, Refusal>
    ensures { run_after result outputs.new transcript.new store.new
        ≡ does (Run c.now.file.now inputs.now tapes.now line.now outputs.old transcript.old store.old) }
{
    let c = Counted::from(*c);
    check_given::run(
        &c,
        inputs,
        tapes,
        line,
        outputs.len(),
        transcript.len(),
        store.len(),
    )?;
    Ok(run_checked(&c, inputs, tapes, line, outputs, transcript, store))
}

// PUBLIC. The run of the three sites on a line, whatever is given. Outputs, transcript and store are lent; a refusal leaves all three as they
// were, an abort the outputs and the transcript behind that opening's six bits.
pub fn run(
    file: &[u8],
    inputs: &[u8],
    tapes: &[u8],
    line: &[u8],
    outputs: &mut [u8],
    transcript: &mut [u8],
    store: &mut [u8],
) -> Result<Ran, Refusal>
    ensures { run_after result outputs.new transcript.new store.new
        ≡ does (Run file.now inputs.now tapes.now line.now outputs.old transcript.old store.old) }
{
    let c = check_circuit::circuit(file)?;
    run_opened(&c, inputs, tapes, line, outputs, transcript, store)
}
