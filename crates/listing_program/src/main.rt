// The listing program: a job from standard input, its text to standard output.
#![tactic(auto)]

use check_refusal::Refusal;
use trials_stream::print;

// The number of standard input.
const STDIN_FILENO: i32 = 0;

// What is printed, in front in the room: the text of a good job, which is there, or a refusal's line. How long it is.
fn printed(listed: Result<usize, Refusal>, room: &mut [u8; 2624]) -> usize {
    match listed {
        Ok(n) => n,
        Err(refusal) => listing_text::refused_text(room, refusal.number(), refusal.place()),
    }
}

// The room has one byte more than the longest job, so that a longer one is noticed: it is refused as any job over 41,520 bytes is.
fn main() {
    let mut job = [0u8; 41521];
    let mut room = [0u8; 2624];
    let n = io::read_full(STDIN_FILENO, &mut job);
    let listed = listing::listing(&job[..n], &mut room);
    let told = printed(listed, &mut room);
    if told <= 2624 {
        print::word(&room[..told]);
    }
}
