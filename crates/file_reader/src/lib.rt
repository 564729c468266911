// The reader: a small struct over the caller's file with its counts, so that a gate, an owner or an output is had by its number with no
// second copy; and a circuit, which is a file that was checked whole.
#![tactic(auto)]

ghost use Rattle.std.specs.Prelude.{◌≡◌, ◌+◌, ◌<◌, ◌≤◌};
ghost use Rattle.theory_calls.specs.Calls.{GateAt, OwnerAt, OutputAt, answers, does};
ghost use Rattle.file_parts.specs.Answers.{gate_answer, owner_answer, output_answer};
ghost use Rattle.file_parts.specs.Checked.{Checked, checked_prop};

use check_refusal::Refusal;
use file_header::Counts;
use file_parts::{Gate, OpenFile};

// The caller's file, and the counts of its header. Anybody can make one, so no function that a caller outside can reach trusts the counts.
#[derive(Clone, Copy)]
pub struct Reader<'a> {
    pub file: &'a [u8],
    pub inputs: usize,
    pub gates: usize,
    pub outputs: usize,
}

// A reader on a file, with the counts that its header answered.
pub fn reader_on<'a>(file: &'a [u8], c: Counts) -> Reader<'a>
    ensures { result ≡ record { file = file.entry; inputs = c.inputs; gates = c.gates; outputs = c.outputs } }
{
    Reader {
        file,
        inputs: c.inputs,
        gates: c.gates,
        outputs: c.outputs,
    }
}

// What checks 1 to 6 leave: the caller's file with its counts, every owner, gate and output of which is good. Every loop reads through it.
#[derive(Clone, Copy)]
pub struct Circuit<'a> {
    pub file: &'a [u8],
    pub counts: Counts,
    pub ghost checked: { Checked file.now counts } by { checked_prop file.now counts },
}

impl<'a> Circuit<'a> {
    ghost use Rattle.theory_calls.specs.File.{circuit, gate_of, owner_at, output_at, site_of};
    ghost use Rattle.file_parts.specs.Mirror.{gate_stored};

    // The file as checks 1 to 3 leave it.
    fn open(&self) -> OpenFile<'a>
        ensures file { result.file ≡ self.now.file }
        ensures counts { result.counts ≡ self.now.counts }
    {
        OpenFile {
            file: self.file,
            counts: self.counts,
        }
    }

    // Gate k: an XOR, AND, NOT or OR of lower wires.
    pub fn gate(&self, k: usize) -> Gate
        requires { k < self.now.counts.gates }
        ensures stored { result ≡ gate_stored self.now.file.now self.now.counts k }
        ensures is { gate_of result.kind result.first result.second ≡ (circuit self.now.file.now).gate k }
        ensures known { (1 ≤ result.kind) × (result.kind ≤ 4) }
        ensures lower { (result.first < self.now.counts.inputs + k) × (result.second < self.now.counts.inputs + k) }
    {
        self.open().gate_at(k)
    }

    // The owner of input k: 1, 2 or 3, as stored.
    pub fn owner(&self, k: usize) -> u8
        requires { k < self.now.counts.inputs }
        ensures stored { result ≡ owner_at self.now.file.now k }
        ensures is { site_of result ≡ (circuit self.now.file.now).owner k }
        ensures known { (1 ≤ result) × (result ≤ 3) }
    {
        self.open().owner_at(k)
    }

    // The wire of output k: one of the circuit's.
    pub fn output(&self, k: usize) -> u16
        requires { k < self.now.counts.outputs }
        ensures stored { result ≡ output_at self.now.file.now self.now.counts.inputs self.now.counts.gates k }
        ensures is { result ≡ (circuit self.now.file.now).out k }
        ensures below { result < self.now.counts.inputs + self.now.counts.gates }
    {
        self.open().output_at(k)
    }

    // W: how many wires there are.
    pub fn wires(&self) -> usize
        ensures { (result ≡ self.now.counts.inputs + self.now.counts.gates) × (result ≤ 4096) }
    {
        self.counts.inputs + self.counts.gates
    }
}

// PUBLIC. Gate k of a file, whatever number k is. The header's answer is taken apart before any gate is read, and its refusal goes out as it came.
pub fn gate_of(file: &[u8], k: usize) -> Result<Gate, Refusal>
    ensures { answers (gate_answer result) ≡ does (GateAt file.now k) }
{
    let counts = file_header::read_header(file)?;
    OpenFile { file, counts }.gate(k)
}

// PUBLIC. The owner of input k of a file.
pub fn owner_of(file: &[u8], k: usize) -> Result<u8, Refusal>
    ensures { answers (owner_answer result) ≡ does (OwnerAt file.now k) }
{
    let counts = file_header::read_header(file)?;
    OpenFile { file, counts }.owner(k)
}

// PUBLIC. The wire of output k of a file.
pub fn output_of(file: &[u8], k: usize) -> Result<u16, Refusal>
    ensures { answers (output_answer result) ≡ does (OutputAt file.now k) }
{
    let counts = file_header::read_header(file)?;
    OpenFile { file, counts }.output(k)
}
