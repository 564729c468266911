// The run. Each slice has a room of its own.
use run::Ran;
use trials_stream::rooms::room;
use trials_stream::{input, print};

// Reads what a run is given, then what it is lent, and makes the call.
pub fn run() -> Option<()> {
    let mut file = room::<20480>();
    let mut inputs = room::<1280>();
    let mut tapes = room::<20992>();
    let mut line = room::<43008>();
    let file = input::slice(&mut file)?;
    let inputs = input::slice(&mut inputs)?;
    let tapes = input::slice(&mut tapes)?;
    let line = input::slice(&mut line)?;
    run_given(file, inputs, tapes, line)
}

fn run_given(file: &[u8], inputs: &[u8], tapes: &[u8], line: &[u8]) -> Option<()> {
    let mut outputs = room::<1024>();
    let mut transcript = room::<43008>();
    let mut store = room::<25088>();
    let outputs = input::slice(&mut outputs)?;
    let transcript = input::slice(&mut transcript)?;
    let store = input::slice(&mut store)?;
    ran(file, inputs, tapes, line, outputs, transcript, store);
    Some(())
}

// The run's answer and the three buffers afterwards.
fn ran(
    file: &[u8],
    inputs: &[u8],
    tapes: &[u8],
    line: &[u8],
    outputs: &mut [u8],
    transcript: &mut [u8],
    store: &mut [u8],
) {
    print::word(b"run");
    match run::run(file, inputs, tapes, line, outputs, transcript, store) {
        Ok(Ran::Good) => print::good(&[]),
        Ok(Ran::Abort(output, sites)) => print::abort(output, sites),
        Err(refusal) => print::refused(refusal.number(), refusal.place()),
    }
    print::buffer(b"outputs", outputs);
    print::buffer(b"transcript", transcript);
    print::buffer(b"store", store);
}
