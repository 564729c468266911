// The view. Each slice has a room of its own.
use trials_calls::answered;
use trials_stream::rooms::room;
use trials_stream::{input, print};

// Reads what the call is given, then what it is lent, and makes it.
pub fn view(site: usize) -> Option<()> {
    let mut file = room::<20480>();
    let mut inputs = room::<1280>();
    let mut tapes = room::<20992>();
    let file = input::slice(&mut file)?;
    let inputs = input::slice(&mut inputs)?;
    let tapes = input::slice(&mut tapes)?;
    view_given(file, inputs, tapes, site)
}

fn view_given(file: &[u8], inputs: &[u8], tapes: &[u8], site: usize) -> Option<()> {
    let mut view = room::<25088>();
    let mut store = room::<25088>();
    let view = input::slice(&mut view)?;
    let store = input::slice(&mut store)?;
    viewed(file, inputs, tapes, site, view, store);
    Some(())
}

// The answer, and both buffers afterwards.
fn viewed(
    file: &[u8],
    inputs: &[u8],
    tapes: &[u8],
    site: usize,
    view: &mut [u8],
    store: &mut [u8],
) {
    print::word(b"view");
    answered(view::view_of(file, inputs, tapes, site, view, store).map(|()| []));
    print::buffer(b"view", view);
    print::buffer(b"store", store);
}
