// The listing: from a job's bytes to its text, in a lent buffer. The rooms of its run are of fixed size, what the largest circuit needs: 42,496
// bytes of line and as many of transcript, 24,576 of store and 768 of outputs.
#![tactic(auto)]

ghost use Rattle.std.specs.Prelude.{◌≡◌, ◌*◌, ◌-◌, ◌≤◌, length, take, drop, Ok};
ghost use Rattle.theory_calls.specs.Statements.{Clean};
ghost use Rattle.theory_calls.specs.Calls.{Listing, does};
ghost use Rattle.theory_calls.specs.AtBits.{clean_outputs};
ghost use Rattle.listing.specs.Answers.{listed_after};
ghost use Rattle.listing.specs.Mirror.{Fit, says_good, says};

use check_refusal::Refusal;
use file_counts::Counted;
use file_reader::Circuit;

// A room of so many bytes, all 0; as a line it is clean.
#[tactic(auto, using(crate::proofs::CleanLaws::zeros_clean))]
fn zeros<const N: usize>() -> [u8; N]
    ensures len { length result ≡ N }
    ensures clean { Clean result }
{
    [0; N]
}

// The run on a clean line: what the three sites open, output by output.
fn clean_run(c: &Counted<'_>, inputs: &[u8], tapes: &[u8], outs: &mut [u8])
    requires fit { Fit c.now inputs.now tapes.now }
    requires outs_len { length outs.old ≡ 3 * c.now.circuit.counts.outputs }
    ensures { outs.new ≡ clean_outputs c.now.circuit.file.now inputs.now tapes.now }
{
    let line = zeros::<42496>();
    let mut room = zeros::<42496>();
    let mut store = zeros::<24576>();
    let counts = c.circuit.counts;
    let n = 4 * counts.inputs + 12 * c.ands + 6 * counts.outputs;
    let s = 6 * (counts.inputs + counts.gates);
    let _ = run::run_checked(
        c,
        inputs,
        tapes,
        &line[..n],
        outs,
        &mut room[..n],
        &mut store[..s],
    );
}

// The run, and the text of what it opened: how many bytes of the buffer it is.
fn tell(c: &Counted<'_>, inputs: &[u8], tapes: &[u8], outs: &mut [u8], text: &mut [u8]) -> usize
    requires fit { Fit c.now inputs.now tapes.now }
    requires outs_len { length outs.old ≡ 3 * c.now.circuit.counts.outputs }
    requires text_len { 2624 ≤ length text.old }
    ensures { listed_after (Ok result) text.new ≡ says_good c.now.circuit.file.now inputs.now tapes.now text.old }
{
    let counts = c.circuit.counts;
    let total = 4 * counts.inputs + 12 * c.ands + 3 * counts.outputs;
    clean_run(c, inputs, tapes, outs);
    listing_text::good_text(text, counts, total, outs)
}

// Behind all checks: the run, and its text. What is behind 1 to 6 asks it.
pub fn good(c: &Counted<'_>, inputs: &[u8], tapes: &[u8], text: &mut [u8]) -> usize
    requires fit { Fit c.now inputs.now tapes.now }
    requires text_len { 2624 ≤ length text.old }
    ensures { listed_after (Ok result) text.new ≡ says_good c.now.circuit.file.now inputs.now tapes.now text.old }
{
    let mut opened = zeros::<768>();
    let k = 3 * c.circuit.counts.outputs;
    tell(c, inputs, tapes, &mut opened[..k], text)
}

// Behind checks 1 to 6: A is counted, 7, 8 and 10 are made, then the text. What lists a job's parts asks it.
pub fn list_opened(
    c: &Circuit<'_>,
    inputs: &[u8],
    tapes: &[u8],
    text: &mut [u8],
) -> Result<usize, Refusal>
    ensures { listed_after result text.new ≡ says c.now.file.now inputs.now tapes.now text.old }
{
    let c = Counted::from(*c);
    check_given::slices(&c, inputs, tapes)?;
    if text.len() != 2624 {
        return Err(Refusal::Buffer(0));
    }
    Ok(good(&c, inputs, tapes, text))
}

// A job's three parts: 1 to 6, then what is behind them.
fn list(file: &[u8], inputs: &[u8], tapes: &[u8], text: &mut [u8]) -> Result<usize, Refusal>
    ensures { listed_after result text.new ≡ says file.now inputs.now tapes.now text.old }
{
    let c = check_circuit::circuit(file)?;
    list_opened(&c, inputs, tapes, text)
}

// A job by its offsets: "the parts run each to the next and the last to the end".
fn list_parts(job: &[u8], i: usize, t: usize, text: &mut [u8]) -> Result<usize, Refusal>
    requires { (16 ≤ i) × (i ≤ t) × (t ≤ length job.now) }
    ensures { listed_after result text.new
        ≡ says (take (i - 16) (drop 16 job.now)) (take (t - i) (drop i job.now)) (drop t job.now) text.old }
{
    list(&job[16..i], &job[i..t], &job[t..], text)
}

// PUBLIC. The listing of a job, whatever its bytes: 14, then the parts. The text stands in front in the lent buffer of 2,624 bytes, and what is
// behind it is as it was; a refusal leaves all of it as it was. The answer is how many bytes of the buffer are text.
pub fn listing(job: &[u8], text: &mut [u8]) -> Result<usize, Refusal>
    ensures { listed_after result text.new ≡ does (Listing job.now text.old) }
{
    if let Some(place) = check_slices::job_fault(job) {
        return Err(Refusal::Job(place));
    }
    let i = file_numbers::u32_at(job, 8) as usize;
    let t = file_numbers::u32_at(job, 12) as usize;
    list_parts(job, i, t, text)
}
