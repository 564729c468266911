// Re-taping. Each slice has a room of its own.
use trials_calls::answered;
use trials_stream::rooms::room;
use trials_stream::{input, print};

// Reads what the call is given, then what it is lent, and makes it.
pub fn retape(site: usize) -> Option<()> {
    let mut file = room::<20480>();
    let mut inputs = room::<1280>();
    let mut tapes = room::<20992>();
    let mut second = room::<1280>();
    let file = input::slice(&mut file)?;
    let inputs = input::slice(&mut inputs)?;
    let tapes = input::slice(&mut tapes)?;
    let second = input::slice(&mut second)?;
    retape_given(file, inputs, tapes, second, site)
}

fn retape_given(
    file: &[u8],
    inputs: &[u8],
    tapes: &[u8],
    second: &[u8],
    site: usize,
) -> Option<()> {
    let mut fresh = room::<20992>();
    let mut work = room::<20480>();
    let fresh = input::slice(&mut fresh)?;
    let work = input::slice(&mut work)?;
    retaped(file, inputs, tapes, second, site, fresh, work);
    Some(())
}

// The answer, the new tapes and the work room afterwards.
fn retaped(
    file: &[u8],
    inputs: &[u8],
    tapes: &[u8],
    second: &[u8],
    site: usize,
    new_tapes: &mut [u8],
    room: &mut [u8],
) {
    print::word(b"retape");
    let answer = retape::retape(file, inputs, tapes, second, site, new_tapes, room);
    answered(answer.map(|()| []));
    print::buffer(b"tapes", new_tapes);
    print::buffer(b"room", room);
}
