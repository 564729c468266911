// Plain values. Each slice has a room of its own.
use crate::answered;
use trials_stream::rooms::room;
use trials_stream::{input, print};

// Reads what the call is given and what it is lent, and makes it.
pub fn plain() -> Option<()> {
    let mut file = room::<20480>();
    let mut inputs = room::<1280>();
    let mut values = room::<5120>();
    let file = input::slice(&mut file)?;
    let inputs = input::slice(&mut inputs)?;
    let values = input::slice(&mut values)?;
    valued(file, inputs, values);
    Some(())
}

// The answer, and the buffer afterwards.
fn valued(file: &[u8], inputs: &[u8], values: &mut [u8]) {
    print::word(b"plain");
    answered(plain::plain_values(file, inputs, values).map(|()| []));
    print::buffer(b"values", values);
}
