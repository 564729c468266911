// Answers as C gets them: structs of numbers. 0 is good, 100 an abort with its output and its sites, and every other number is a refusal's, with its
// place.
#![tactic(auto)]

ghost use Rattle.std.specs.Prelude.{◌≡◌, ◌≤◌};
ghost use Rattle.theory_calls.specs.Answer.{refused};
ghost use Rattle.check_refusal.specs.Number.{number_of, place_of};
ghost use Rattle.door_answers.specs.Told.{told, told_counts, told_gate, told_owner, told_output, told_listing, told_file, nine};
ghost use Rattle.door_answers.specs.Sizes.{no_sizes};
ghost use Rattle.door_answers.specs.Mirror.{sizes_from};

use check_refusal::Refusal;
use file_header::Counts;
use file_parts::Gate;

// The answer of plain values, run, view and re-taping: number and place; for an abort (100) place is the output, and sites the objecting ones.
#[repr(C)]
#[derive(Clone, Copy, Debug, PartialEq, Eq)]
pub struct Answer {
    pub number: usize,
    pub place: usize,
    pub sites: usize,
}

// The answer of open and check.
#[repr(C)]
#[derive(Clone, Copy, Debug, PartialEq, Eq)]
pub struct CountsAnswer {
    pub number: usize,
    pub place: usize,
    pub inputs: usize,
    pub gates: usize,
    pub outputs: usize,
}

// The answers to the reader's three questions.
#[repr(C)]
#[derive(Clone, Copy, Debug, PartialEq, Eq)]
pub struct GateAnswer {
    pub number: usize,
    pub place: usize,
    pub kind: u16,
    pub first: u16,
    pub second: u16,
}

#[repr(C)]
#[derive(Clone, Copy, Debug, PartialEq, Eq)]
pub struct OwnerAnswer {
    pub number: usize,
    pub place: usize,
    pub owner: u8,
}

#[repr(C)]
#[derive(Clone, Copy, Debug, PartialEq, Eq)]
pub struct OutputAnswer {
    pub number: usize,
    pub place: usize,
    pub wire: u16,
}

// The traffic table, three senders by three receivers, row after row.
#[repr(C)]
#[derive(Clone, Copy, Debug, PartialEq, Eq)]
pub struct TrafficAnswer {
    pub number: usize,
    pub place: usize,
    pub bits: [u32; 9],
}

// How many bytes of the lent buffer are text.
#[repr(C)]
#[derive(Clone, Copy, Debug, PartialEq, Eq)]
pub struct ListingAnswer {
    pub number: usize,
    pub place: usize,
    pub length: usize,
}

// How many bytes of the lent room are the file.
#[repr(C)]
#[derive(Clone, Copy, Debug, PartialEq, Eq)]
pub struct FileAnswer {
    pub number: usize,
    pub place: usize,
    pub length: usize,
}

// The lengths of all slices and buffers that go with a circuit; the view's by site.
#[repr(C)]
#[derive(Clone, Copy, Debug, Default, PartialEq, Eq)]
pub struct SizesAnswer {
    pub number: usize,
    pub place: usize,
    pub inputs: usize,
    pub tapes: usize,
    pub line: usize,
    pub values: usize,
    pub outputs: usize,
    pub transcript: usize,
    pub store: usize,
    pub view: [usize; 3],
    pub room: usize,
}

// A refusal by its number and its place, which stand in front in every struct; what stands behind them is then 0.
#[tactic(auto, unfolding(theory_calls::specs::Answer::number_of, theory_calls::specs::Answer::place_of, crate::specs::Told::sites_of))]
pub fn refused_told(number: usize, place: usize) -> Answer
    ensures { result ≡ told (refused number place) }
{
    Answer {
        number,
        place,
        sites: 0,
    }
}

#[tactic(auto, unfolding(theory_calls::specs::Answer::number_of, theory_calls::specs::Answer::place_of, crate::specs::Told::value_of))]
fn counts_refused(number: usize, place: usize) -> CountsAnswer
    ensures { result ≡ told_counts (refused number place) }
{
    CountsAnswer {
        number,
        place,
        inputs: 0,
        gates: 0,
        outputs: 0,
    }
}

#[tactic(auto, unfolding(theory_calls::specs::Answer::number_of, theory_calls::specs::Answer::place_of, crate::specs::Told::value_of))]
fn gate_refused(number: usize, place: usize) -> GateAnswer
    ensures { result ≡ told_gate (refused number place) }
{
    GateAnswer {
        number,
        place,
        kind: 0,
        first: 0,
        second: 0,
    }
}

#[tactic(auto, unfolding(theory_calls::specs::Answer::number_of, theory_calls::specs::Answer::place_of, crate::specs::Told::value_of))]
fn owner_refused(number: usize, place: usize) -> OwnerAnswer
    ensures { result ≡ told_owner (refused number place) }
{
    OwnerAnswer {
        number,
        place,
        owner: 0,
    }
}

#[tactic(auto, unfolding(theory_calls::specs::Answer::number_of, theory_calls::specs::Answer::place_of, crate::specs::Told::value_of))]
fn output_refused(number: usize, place: usize) -> OutputAnswer
    ensures { result ≡ told_output (refused number place) }
{
    OutputAnswer {
        number,
        place,
        wire: 0,
    }
}

#[tactic(auto, unfolding(theory_calls::specs::Answer::number_of, theory_calls::specs::Answer::place_of, crate::specs::Told::value_of))]
fn listing_refused(number: usize, place: usize) -> ListingAnswer
    ensures { result ≡ told_listing (refused number place) }
{
    ListingAnswer {
        number,
        place,
        length: 0,
    }
}

#[tactic(auto, unfolding(theory_calls::specs::Answer::number_of, theory_calls::specs::Answer::place_of, crate::specs::Told::value_of))]
fn file_refused(number: usize, place: usize) -> FileAnswer
    ensures { result ≡ told_file (refused number place) }
{
    let length = 0;
    FileAnswer {
        number,
        place,
        length,
    }
}

impl From<Refusal> for Answer {
    ghost use Rattle.check_refusal.specs.Number.{refused_by};
    ghost use Rattle.door_answers.specs.Told.{told};

    ghost from_gives = { λ e a. a ≡ told (refused_by e) };

    fn from(e: Refusal) -> Answer {
        refused_told(e.number(), e.place())
    }
}

// Of a call that only fills its buffers.
impl From<Result<(), Refusal>> for Answer {
    ghost use Rattle.check_circuit.specs.Answers.{done_answer};
    ghost use Rattle.door_answers.specs.Told.{told};

    ghost from_gives = { λ r a. a ≡ told (done_answer r) };

    fn from(r: Result<(), Refusal>) -> Answer {
        match r {
            Ok(()) => Answer {
                number: 0,
                place: 0,
                sites: 0,
            },
            Err(e) => Answer::from(e),
        }
    }
}

// Of open and check, and of the reader's three questions.
impl From<Result<Counts, Refusal>> for CountsAnswer {
    ghost use Rattle.file_header.specs.Answers.{header_answer};
    ghost use Rattle.door_answers.specs.Told.{told_counts};

    ghost from_gives = { λ r a. a ≡ told_counts (header_answer r) };

    fn from(r: Result<Counts, Refusal>) -> CountsAnswer {
        match r {
            Ok(c) => CountsAnswer {
                number: 0,
                place: 0,
                inputs: c.inputs,
                gates: c.gates,
                outputs: c.outputs,
            },
            Err(e) => counts_refused(e.number(), e.place()),
        }
    }
}

impl From<Result<Gate, Refusal>> for GateAnswer {
    ghost use Rattle.file_parts.specs.Answers.{gate_answer};
    ghost use Rattle.door_answers.specs.Told.{told_gate};

    ghost from_gives = { λ r a. a ≡ told_gate (gate_answer r) };

    fn from(r: Result<Gate, Refusal>) -> GateAnswer {
        match r {
            Ok(g) => GateAnswer {
                number: 0,
                place: 0,
                kind: g.kind,
                first: g.first,
                second: g.second,
            },
            Err(e) => gate_refused(e.number(), e.place()),
        }
    }
}

impl From<Result<u8, Refusal>> for OwnerAnswer {
    ghost use Rattle.file_parts.specs.Answers.{owner_answer};
    ghost use Rattle.door_answers.specs.Told.{told_owner};

    ghost from_gives = { λ r a. a ≡ told_owner (owner_answer r) };

    fn from(r: Result<u8, Refusal>) -> OwnerAnswer {
        match r {
            Ok(owner) => OwnerAnswer {
                number: 0,
                place: 0,
                owner,
            },
            Err(e) => owner_refused(e.number(), e.place()),
        }
    }
}

impl From<Result<u16, Refusal>> for OutputAnswer {
    ghost use Rattle.file_parts.specs.Answers.{output_answer};
    ghost use Rattle.door_answers.specs.Told.{told_output};

    ghost from_gives = { λ r a. a ≡ told_output (output_answer r) };

    fn from(r: Result<u16, Refusal>) -> OutputAnswer {
        match r {
            Ok(wire) => OutputAnswer {
                number: 0,
                place: 0,
                wire,
            },
            Err(e) => output_refused(e.number(), e.place()),
        }
    }
}

// Of the listing, with the length of its text, and of a text, with that of its file.
impl From<Result<usize, Refusal>> for ListingAnswer {
    ghost use Rattle.door_answers.specs.Told.{length_answer, told_listing};

    ghost from_gives = { λ r a. a ≡ told_listing (length_answer r) };

    fn from(r: Result<usize, Refusal>) -> ListingAnswer {
        match r {
            Ok(length) => ListingAnswer {
                number: 0,
                place: 0,
                length,
            },
            Err(e) => listing_refused(e.number(), e.place()),
        }
    }
}

impl From<Result<usize, Refusal>> for FileAnswer {
    ghost use Rattle.door_answers.specs.Told.{length_answer, told_file};

    ghost from_gives = { λ r a. a ≡ told_file (length_answer r) };

    fn from(r: Result<usize, Refusal>) -> FileAnswer {
        match r {
            Ok(length) => FileAnswer {
                number: 0,
                place: 0,
                length,
            },
            Err(e) => file_refused(e.number(), e.place()),
        }
    }
}

// The table's rows, one after the other.
pub fn rows_told(t: [[u32; 3]; 3]) -> [u32; 9]
    ensures { result ≡ nine t }
{
    [
        t[0][0], t[0][1], t[0][2], t[1][0], t[1][1], t[1][2], t[2][0], t[2][1], t[2][2],
    ]
}

// The lengths, from the counts: a AND and OR gates, s1, s2 and s3 inputs of the three sites.
pub fn sizes_from(c: Counts, a: usize, s1: usize, s2: usize, s3: usize) -> SizesAnswer
    requires inputs_bound { (c.inputs ≤ 1024) × (c.gates ≤ 3072) × (c.outputs ≤ 256) × (a ≤ c.gates) }
    requires s1_le_inputs { (s1 ≤ c.inputs) × (s2 ≤ c.inputs) × (s3 ≤ c.inputs) }
    ensures { result ≡ sizes_from c.inputs c.gates c.outputs a s1 s2 s3 }
{
    let w = c.inputs + c.gates;
    let line = 4 * c.inputs + 12 * a + 6 * c.outputs;
    let twice = 2 * c.inputs;
    let gates = 6 * a;
    let opened = 3 * c.outputs;
    SizesAnswer {
        number: 0,
        place: 0,
        inputs: c.inputs,
        tapes: twice + gates,
        line,
        values: w,
        outputs: opened,
        transcript: line,
        store: 6 * w,
        view: [
            twice + s1 + gates + opened,
            twice + s2 + gates + opened,
            twice + s3 + gates + opened,
        ],
        room: 4 * w,
    }
}

// A refusal of the circuit: there are no lengths.
pub fn no_sizes(number: usize, place: usize) -> SizesAnswer
    ensures { result ≡ no_sizes number place }
{
    SizesAnswer {
        number,
        place,
        ..SizesAnswer::default()
    }
}

impl From<Refusal> for SizesAnswer {
    ghost use Rattle.door_answers.specs.Sizes.{no_sizes};

    ghost from_gives = { λ e a. a ≡ no_sizes (number_of e) (place_of e) };

    fn from(e: Refusal) -> SizesAnswer {
        no_sizes(e.number(), e.place())
    }
}
