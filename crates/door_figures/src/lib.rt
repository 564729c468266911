// What is told of a circuit and a job for C: lengths, traffic, the listing's text. The door hands each on.
#![tactic(auto)]

ghost use Rattle.std.specs.Prelude.{◌≡◌, [], ◌∷◌};
ghost use Rattle.theory_calls.specs.Calls.{Check, Traffic, Listing, does};
ghost use Rattle.door_answers.specs.Told.{told_traffic, TellsText};
ghost use Rattle.door_answers.specs.Sizes.{sized};

use door_answers::{ListingAnswer, SizesAnswer, TrafficAnswer};

// The lengths of all slices and buffers that go with a circuit: checks 1 to 6, and what the calls' own checks ask for.
pub fn sizes_for_c(file: &[u8]) -> SizesAnswer
    ensures { result ≡ sized file.now (does (Check file.now)).answer }
{
    match check_circuit::circuit(file) {
        Ok(c) => door_replies::sizes(&c),
        Err(e) => SizesAnswer::from(e),
    }
}

// The table of sent bits, all zeros at a refusal.
pub fn traffic_for_c(file: &[u8]) -> TrafficAnswer
    ensures { result ≡ told_traffic (does (Traffic file.now)) }
{
    let mut number: usize = 0;
    let mut place: usize = 0;
    let t = traffic::traffic_of(file, &mut number, &mut place);
    let bits = door_answers::rows_told(t);
    TrafficAnswer {
        number,
        place,
        bits,
    }
}

// The text of a job's listing, in front in the lent buffer; a refusal leaves it as it was.
pub fn listing_for_c(job: &[u8], text: &mut [u8]) -> ListingAnswer
    ensures { TellsText result (text.new ∷ []) (Listing job.now text.old) }
{
    ListingAnswer::from(listing::listing(job, text))
}
