// The circuit file's header, read from the caller's slice: checks 1 to 3.
#![tactic(auto)]

ghost use Rattle.std.specs.Prelude.{◌≡◌, ◌+◌, ◌*◌, ◌<◌, ◌≤◌};
ghost use Rattle.theory_calls.specs.Calls.{Open, answers, does};
ghost use Rattle.file_header.specs.Answers.{header_answer};
ghost use Rattle.file_header.specs.Mirror.{fields_of, fields_judged, judged, header_of, Fine};
ghost use Rattle.file_header.specs.Opened.{IsOpened};

use check_refusal::Refusal;

// The counts of a file whose header is good.
#[derive(Clone, Copy, Debug, PartialEq, Eq)]
pub struct Counts {
    pub inputs: usize,
    pub gates: usize,
    pub outputs: usize,
}

// The header's eight numbers, as they stand in the file.
#[derive(Clone, Copy)]
pub struct Fields {
    pub length: u32,
    pub inputs: u32,
    pub gates: u32,
    pub outputs: u32,
    pub owners_at: u32,
    pub gates_at: u32,
    pub outputs_at: u32,
    pub last: u32,
}

// Check 3 on the header's numbers, which are within their limits, so that no sum can wrap.
fn judge_fields(len: usize, f: Fields) -> Result<Counts, Refusal>
    requires { (f.inputs ≤ 1024) × (f.gates ≤ 3072) × (f.outputs ≤ 256) }
    ensures value { result ≡ fields_judged len f }
    ensures fine { Fine result len f }
{
    if f.length != 32 + f.inputs + 6 * f.gates + 2 * f.outputs {
        return Err(Refusal::Header(0));
    }
    if len != f.length as usize {
        return Err(Refusal::Header(0));
    }
    if f.owners_at != 32 {
        return Err(Refusal::Header(16));
    }
    if f.gates_at != 32 + f.inputs {
        return Err(Refusal::Header(20));
    }
    if f.outputs_at != 32 + f.inputs + 6 * f.gates {
        return Err(Refusal::Header(24));
    }
    if f.last != 0 {
        return Err(Refusal::Header(28));
    }
    Ok(Counts {
        inputs: f.inputs as usize,
        gates: f.gates as usize,
        outputs: f.outputs as usize,
    })
}

// Checks 2 and 3 on the header's eight numbers.
fn judge(len: usize, f: Fields) -> Result<Counts, Refusal>
    ensures value { result ≡ judged len f }
    ensures fine { Fine result len f }
{
    if let Some(place) = check_limits::too_large(f.inputs, f.gates, f.outputs) {
        return Err(Refusal::Limit(place));
    }
    judge_fields(len, f)
}

// Checks 1 to 3.
pub fn read_header(file: &[u8]) -> Result<Counts, Refusal>
    ensures value { result ≡ header_of file.now }
    ensures opened { IsOpened result file.now }
{
    if file.len() < 32 {
        return Err(Refusal::Short);
    }
    let fields = Fields {
        length: file_numbers::u32_at(file, 0),
        inputs: file_numbers::u32_at(file, 4),
        gates: file_numbers::u32_at(file, 8),
        outputs: file_numbers::u32_at(file, 12),
        owners_at: file_numbers::u32_at(file, 16),
        gates_at: file_numbers::u32_at(file, 20),
        outputs_at: file_numbers::u32_at(file, 24),
        last: file_numbers::u32_at(file, 28),
    };
    judge(file.len(), fields)
}

// PUBLIC. The reader is opened by checks 1 to 3.
pub fn open_file(file: &[u8]) -> Result<Counts, Refusal>
    ensures { answers (header_answer result) ≡ does (Open file.now) }
{
    read_header(file)
}
