// The panel's door: every public call as C has it. A slice is a pointer and a length there; an answer is a struct of numbers, by value: 0
// good, 100 abort with output and sites, else a refusal's number and place. door_c exports these functions under their own names.
#![tactic(auto)]

ghost use Rattle.std.specs.Prelude.{◌≡◌, [], ◌∷◌};
ghost use Rattle.theory_calls.specs.Calls.{Open, GateAt, OwnerAt, OutputAt, Check, Plain, Run, View, Retape, Traffic, Listing, does};
ghost use Rattle.bristol_text.specs.Call.{FromBristol};
ghost use Rattle.door_answers.specs.Told.{Tells, told_counts, told_gate, told_owner, told_output, told_traffic, TellsText, TellsFile};
ghost use Rattle.door_answers.specs.Sizes.{sized};

use door_answers::{
    Answer, CountsAnswer, FileAnswer, GateAnswer, ListingAnswer, OutputAnswer, OwnerAnswer,
    SizesAnswer, TrafficAnswer,
};

// PUBLIC. The reader is opened: checks 1 to 3, and the counts.
pub fn bakebutton_open(file: &[u8]) -> CountsAnswer
    ensures { result ≡ told_counts (does (Open file.now)).answer }
{
    door_reads::open_for_c(file)
}

// PUBLIC. Gate k of a file.
pub fn bakebutton_gate(file: &[u8], k: usize) -> GateAnswer
    ensures { result ≡ told_gate (does (GateAt file.now k)).answer }
{
    door_reads::gate_for_c(file, k)
}

// PUBLIC. The owner of input k of a file.
pub fn bakebutton_owner(file: &[u8], k: usize) -> OwnerAnswer
    ensures { result ≡ told_owner (does (OwnerAt file.now k)).answer }
{
    door_reads::owner_for_c(file, k)
}

// PUBLIC. The wire of output k of a file.
pub fn bakebutton_output(file: &[u8], k: usize) -> OutputAnswer
    ensures { result ≡ told_output (does (OutputAt file.now k)).answer }
{
    door_reads::output_for_c(file, k)
}

// PUBLIC. The whole circuit: checks 1 to 6, and the counts.
pub fn bakebutton_check(file: &[u8]) -> CountsAnswer
    ensures { result ≡ told_counts (does (Check file.now)).answer }
{
    door_reads::check_for_c(file)
}

// PUBLIC. The lengths of all slices and buffers that go with a circuit: checks 1 to 6, and what the calls' own checks ask for.
pub fn bakebutton_sizes(file: &[u8]) -> SizesAnswer
    ensures { result ≡ sized file.now (does (Check file.now)).answer }
{
    door_figures::sizes_for_c(file)
}

// PUBLIC. The plain values of all wires.
pub fn bakebutton_plain(file: &[u8], inputs: &[u8], values: &mut [u8]) -> Answer
    ensures { Tells result (values.new ∷ []) (Plain file.now inputs.now values.old) }
{
    door_runs::plain_for_c(file, inputs, values)
}

// PUBLIC. The run of the three sites on a line.
pub fn bakebutton_run(
    file: &[u8],
    inputs: &[u8],
    tapes: &[u8],
    line: &[u8],
    outputs: &mut [u8],
    transcript: &mut [u8],
    store: &mut [u8],
) -> Answer
    ensures { Tells result (outputs.new ∷ transcript.new ∷ store.new ∷ [])
        (Run file.now inputs.now tapes.now line.now outputs.old transcript.old store.old) }
{
    door_runs::run_for_c(file, inputs, tapes, line, outputs, transcript, store)
}

// PUBLIC. What a site sees of a run on a clean line.
pub fn bakebutton_view(
    file: &[u8],
    inputs: &[u8],
    tapes: &[u8],
    site: usize,
    view: &mut [u8],
    store: &mut [u8],
) -> Answer
    ensures { Tells result (view.new ∷ store.new ∷ []) (View file.now inputs.now tapes.now site view.old store.old) }
{
    door_runs::view_for_c(file, inputs, tapes, site, view, store)
}

// PUBLIC. Re-taping: the tapes that explain a site's view by other inputs.
pub fn bakebutton_retape(
    file: &[u8],
    inputs: &[u8],
    tapes: &[u8],
    second: &[u8],
    site: usize,
    fresh: &mut [u8],
    room: &mut [u8],
) -> Answer
    ensures { Tells result (fresh.new ∷ room.new ∷ [])
        (Retape file.now inputs.now tapes.now second.now site fresh.old room.old) }
{
    door_runs::retape_for_c(file, inputs, tapes, second, site, fresh, room)
}

// PUBLIC. The table of sent bits, all zeros at a refusal.
pub fn bakebutton_traffic(file: &[u8]) -> TrafficAnswer
    ensures { result ≡ told_traffic (does (Traffic file.now)) }
{
    door_figures::traffic_for_c(file)
}

// PUBLIC. How many bytes a listing is lent: a number for C, and no call.
pub fn bakebutton_text_bytes() -> usize
    ensures { result ≡ 2624 }
{
    2624
}

// PUBLIC. The text of a job's listing, in front in the lent buffer; a refusal leaves it as it was.
pub fn bakebutton_listing(job: &[u8], text: &mut [u8]) -> ListingAnswer
    ensures { TellsText result (text.new ∷ []) (Listing job.now text.old) }
{
    door_figures::listing_for_c(job, text)
}

// PUBLIC. The circuit file of a Bristol Fashion text, in front in the lent room; a refusal leaves it as it was.
pub fn bakebutton_from_bristol(text: &[u8], owners: &[u8], room: &mut [u8]) -> FileAnswer
    ensures { TellsFile result (room.new ∷ []) (FromBristol text.now owners.now room.old) }
{
    door_texts::from_bristol_for_c(text, owners, room)
}
