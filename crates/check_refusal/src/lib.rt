// What a call answers that refuses: which check of document 01 it is, and the place that it names.
#![tactic(auto)]

ghost use Rattle.std.specs.Prelude.{◌≡◌};

use std::error::Error;
use std::fmt;

// A refusal, by what is wrong; in it the place, where 01 names more than one.
#[derive(Clone, Copy, Debug, PartialEq, Eq)]
pub enum Refusal {
    Short,
    Limit(usize),
    Header(usize),
    Owner(usize),
    Gate(usize),
    Output(usize),
    Inputs(usize),
    Tapes(usize),
    Line(usize),
    Buffer(usize),
    Site,
    Second(usize),
    Differs(usize),
    Job(usize),
    TextLine(usize),
    GateWord(usize),
    TextWire(usize),
}

impl Refusal {
    ghost use Rattle.check_refusal.specs.Number.{number_of, place_of};

    // 01's number of the check that refuses.
    pub fn number(self) -> usize
        ensures { result ≡ number_of self }
    {
        match self {
            Refusal::Short => 1,
            Refusal::Limit(_) => 2,
            Refusal::Header(_) => 3,
            Refusal::Owner(_) => 4,
            Refusal::Gate(_) => 5,
            Refusal::Output(_) => 6,
            Refusal::Inputs(_) => 7,
            Refusal::Tapes(_) => 8,
            Refusal::Line(_) => 9,
            Refusal::Buffer(_) => 10,
            Refusal::Site => 11,
            Refusal::Second(_) => 12,
            Refusal::Differs(_) => 13,
            Refusal::Job(_) => 14,
            Refusal::TextLine(_) => 15,
            Refusal::GateWord(_) => 16,
            Refusal::TextWire(_) => 17,
        }
    }

    // The place that goes with the number.
    pub fn place(self) -> usize
        ensures { result ≡ place_of self }
    {
        match self {
            Refusal::Short | Refusal::Site => 0,
            Refusal::Limit(place)
            | Refusal::Header(place)
            | Refusal::Owner(place)
            | Refusal::Gate(place)
            | Refusal::Output(place)
            | Refusal::Inputs(place)
            | Refusal::Tapes(place)
            | Refusal::Line(place)
            | Refusal::Buffer(place)
            | Refusal::Second(place)
            | Refusal::Differs(place)
            | Refusal::Job(place)
            | Refusal::TextLine(place)
            | Refusal::GateWord(place)
            | Refusal::TextWire(place) => place,
        }
    }
}

// "A refusal prints only `refused N P`, number and place."
impl fmt::Display for Refusal {
    fn fmt<W: fmt::Write>(&self, f: &mut fmt::Formatter<W>) -> fmt::Result {
        let number = self.number();
        let place = self.place();
        write!(f, "refused {number} {place}")
    }
}

impl Error for Refusal {}
