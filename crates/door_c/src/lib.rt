// What the panel links: each function of `door`, under its name, as a function that C can call and include/bakebutton.h declares, with the
// clauses that it has there. This crate is the static library, and on a static library no crate can stand: what its contracts promise is pinned at
// door's, and .ci/layout.py holds the two to one another, word for word.
#![tactic(auto)]

ghost use Rattle.std.specs.Prelude.{◌≡◌, [], ◌∷◌};
ghost use Rattle.theory_calls.specs.Calls.{Open, GateAt, OwnerAt, OutputAt, Check, Plain, Run, View, Retape, Traffic, Listing, does};
ghost use Rattle.bristol_text.specs.Call.{FromBristol};
ghost use Rattle.door_answers.specs.Told.{Tells, told_counts, told_gate, told_owner, told_output, told_traffic, TellsText, TellsFile};
ghost use Rattle.door_answers.specs.Sizes.{sized};

use door_answers::{
    Answer, CountsAnswer, FileAnswer, GateAnswer, ListingAnswer, OutputAnswer, OwnerAnswer,
    SizesAnswer, TrafficAnswer,
};

// The reader is opened: checks 1 to 3, and the counts.
#[unsafe(no_mangle)]
pub extern "C" fn bakebutton_open(file: &[u8]) -> CountsAnswer
    ensures { result ≡ told_counts (does (Open file.now)).answer }
{
    door::bakebutton_open(file)
}

// Gate k of a file.
#[unsafe(no_mangle)]
pub extern "C" fn bakebutton_gate(file: &[u8], k: usize) -> GateAnswer
    ensures { result ≡ told_gate (does (GateAt file.now k)).answer }
{
    door::bakebutton_gate(file, k)
}

// The owner of input k of a file.
#[unsafe(no_mangle)]
pub extern "C" fn bakebutton_owner(file: &[u8], k: usize) -> OwnerAnswer
    ensures { result ≡ told_owner (does (OwnerAt file.now k)).answer }
{
    door::bakebutton_owner(file, k)
}

// The wire of output k of a file.
#[unsafe(no_mangle)]
pub extern "C" fn bakebutton_output(file: &[u8], k: usize) -> OutputAnswer
    ensures { result ≡ told_output (does (OutputAt file.now k)).answer }
{
    door::bakebutton_output(file, k)
}

// The whole circuit: checks 1 to 6, and the counts.
#[unsafe(no_mangle)]
pub extern "C" fn bakebutton_check(file: &[u8]) -> CountsAnswer
    ensures { result ≡ told_counts (does (Check file.now)).answer }
{
    door::bakebutton_check(file)
}

// The lengths of all slices and buffers that go with a circuit: checks 1 to 6, and what the calls' own checks ask for.
#[unsafe(no_mangle)]
pub extern "C" fn bakebutton_sizes(file: &[u8]) -> SizesAnswer
    ensures { result ≡ sized file.now (does (Check file.now)).answer }
{
    door::bakebutton_sizes(file)
}

// The plain values of all wires.
#[unsafe(no_mangle)]
pub extern "C" fn bakebutton_plain(file: &[u8], inputs: &[u8], values: &mut [u8]) -> Answer
    ensures { Tells result (values.new ∷ []) (Plain file.now inputs.now values.old) }
{
    door::bakebutton_plain(file, inputs, values)
}

// The run of the three sites on a line.
#[unsafe(no_mangle)]
pub extern "C" fn bakebutton_run(
    file: &[u8],
    inputs: &[u8],
    tapes: &[u8],
    line: &[u8],
    outputs: &mut [u8],
    transcript: &mut [u8],
    store: &mut [u8],
) -> Answer
    ensures { Tells result (outputs.new ∷ transcript.new ∷ store.new ∷ [])
        (Run file.now inputs.now tapes.now line.now outputs.old transcript.old store.old) }
{
    door::bakebutton_run(file, inputs, tapes, line, outputs, transcript, store)
}

// What a site sees of a run on a clean line.
#[unsafe(no_mangle)]
pub extern "C" fn bakebutton_view(
    file: &[u8],
    inputs: &[u8],
    tapes: &[u8],
    site: usize,
    view: &mut [u8],
    store: &mut [u8],
) -> Answer
    ensures { Tells result (view.new ∷ store.new ∷ []) (View file.now inputs.now tapes.now site view.old store.old) }
{
    door::bakebutton_view(file, inputs, tapes, site, view, store)
}

// Re-taping: the tapes that explain a site's view by other inputs.
#[unsafe(no_mangle)]
pub extern "C" fn bakebutton_retape(
    file: &[u8],
    inputs: &[u8],
    tapes: &[u8],
    second: &[u8],
    site: usize,
    fresh: &mut [u8],
    room: &mut [u8],
) -> Answer
    ensures { Tells result (fresh.new ∷ room.new ∷ [])
        (Retape file.now inputs.now tapes.now second.now site fresh.old room.old) }
{
    door::bakebutton_retape(file, inputs, tapes, second, site, fresh, room)
}

// The table of sent bits, all zeros at a refusal.
#[unsafe(no_mangle)]
pub extern "C" fn bakebutton_traffic(file: &[u8]) -> TrafficAnswer
    ensures { result ≡ told_traffic (does (Traffic file.now)) }
{
    door::bakebutton_traffic(file)
}

// How many bytes a listing is lent: a number for C, and no call.
#[unsafe(no_mangle)]
pub extern "C" fn bakebutton_text_bytes() -> usize
    ensures { result ≡ 2624 }
{
    door::bakebutton_text_bytes()
}

// The text of a job's listing, in front in the lent buffer; a refusal leaves it as it was.
#[unsafe(no_mangle)]
pub extern "C" fn bakebutton_listing(job: &[u8], text: &mut [u8]) -> ListingAnswer
    ensures { TellsText result (text.new ∷ []) (Listing job.now text.old) }
{
    door::bakebutton_listing(job, text)
}

// The circuit file of a Bristol Fashion text, in front in the lent room; a refusal leaves it as it was.
#[unsafe(no_mangle)]
pub extern "C" fn bakebutton_from_bristol(text: &[u8], owners: &[u8], room: &mut [u8]) -> FileAnswer
    ensures { TellsFile result (room.new ∷ []) (FromBristol text.now owners.now room.old) }
{
    door::bakebutton_from_bristol(text, owners, room)
}
