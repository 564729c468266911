// What plain values, run, view and re-taping answer for C, with the lent buffers. The door hands each on.
#![tactic(auto)]

ghost use Rattle.std.specs.Prelude.{[], ◌∷◌};
ghost use Rattle.theory_calls.specs.Calls.{Plain, Run, View, Retape};
ghost use Rattle.door_answers.specs.Told.{Tells};

use door_answers::Answer;

// The plain values of all wires.
pub fn plain_for_c(file: &[u8], inputs: &[u8], values: &mut [u8]) -> Answer
    ensures { Tells result (values.new ∷ []) (Plain file.now inputs.now values.old) }
{
    Answer::from(plain::plain_values(file, inputs, values))
}

// The run of the three sites on a line.
pub fn run_for_c(
    file: &[u8],
    inputs: &[u8],
    tapes: &[u8],
    line: &[u8],
    outputs: &mut [u8],
    transcript: &mut [u8],
    store: &mut [u8],
) -> Answer
    ensures { Tells result (outputs.new ∷ transcript.new ∷ store.new ∷ [])
        (Run file.now inputs.now tapes.now line.now outputs.old transcript.old store.old) }
{
    door_replies::run_told(run::run(file, inputs, tapes, line, outputs, transcript, store))
}

// What a site sees of a run on a clean line.
pub fn view_for_c(
    file: &[u8],
    inputs: &[u8],
    tapes: &[u8],
    site: usize,
    view: &mut [u8],
    store: &mut [u8],
) -> Answer
    ensures { Tells result (view.new ∷ store.new ∷ []) (View file.now inputs.now tapes.now site view.old store.old) }
{
    Answer::from(view::view_of(file, inputs, tapes, site, view, store))
}

// Re-taping: the tapes that explain a site's view by other inputs.
pub fn retape_for_c(
    file: &[u8],
    inputs: &[u8],
    tapes: &[u8],
    second: &[u8],
    site: usize,
    fresh: &mut [u8],
    room: &mut [u8],
) -> Answer
    ensures { Tells result (fresh.new ∷ room.new ∷ [])
        (Retape file.now inputs.now tapes.now second.now site fresh.old room.old) }
{
    Answer::from(retape::retape(file, inputs, tapes, second, site, fresh, room))
}
