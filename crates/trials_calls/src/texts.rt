// A circuit file from Bristol Fashion text. The stream has the room's length alone: before the call its bytes hang on their places, so that
// one written where it should not be shows.
use crate::answered;
use trials_stream::rooms::room;
use trials_stream::{input, print};

// Reads what the call is given, and makes it with a room of `length` bytes. A room that is too long is told as a slice is.
pub fn from_bristol(length: usize) -> Option<()> {
    let mut text = room::<131072>();
    let mut owners = io::large_buffer();
    let text = input::slice(&mut text)?;
    let owners = input::slice(&mut owners)?;
    let mut file = room::<20480>();
    if length > 20480 {
        print::word(b"slice too long\n");
        return None;
    }
    filed(text, owners, &mut file[..length]);
    Some(())
}

// The answer, the file, and whether the rest of the room is as it was.
fn filed(text: &[u8], owners: &[u8], room: &mut [u8]) {
    fill(room);
    print::word(b"from_bristol");
    let answer = bristol::from_bristol(text, owners, room);
    answered(answer.map(|n| [n]));
    match answer {
        Ok(n) if n > room.len() => print::word(b"file too long\n"),
        Ok(n) => {
            print::buffer(b"file", &room[..n]);
            print::word(b"behind");
            kept(room, n);
        }
        Err(_) => {
            print::word(b"room");
            kept(room, 0);
        }
    }
}

// The byte at place k of a room before the call.
fn filled(k: usize) -> u8 {
    ((37 + 11 * (k % 256)) % 256) as u8
}

fn fill(room: &mut [u8]) {
    for (k, byte) in room.iter_mut().enumerate() {
        *byte = filled(k);
    }
}

// Whether the room is as it was, from a place on.
fn kept(room: &[u8], from: usize) {
    let mut rest = room.iter().enumerate().skip(from);
    if rest.all(|(k, byte)| *byte == filled(k)) {
        print::word(b" same\n");
    } else {
        print::word(b" changed\n");
    }
}
