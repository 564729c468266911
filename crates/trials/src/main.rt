// Reads a stream of calls from standard input, makes each of them and prints what it answers. docs/TRIALS.md has the form of both.
#![tactic(auto)]

mod jobs;
mod retapes;
mod several;
mod views;

use trials_calls::{readers, single, texts, values};
use trials_stream::{input, print};

// Makes the next call. None: the stream has ended, or holds no call. The call's number is judged before anything more is read.
fn call() -> Option<()> {
    let which = input::byte()?;
    if !matches!(which, 1..=15) {
        print::word(b"unknown call\n");
        return None;
    }
    let number = input::number()?;
    make(which, number)
}

// The call by its number, which is that of docs/TRIALS.md: an enum would only say each number a second time.
fn make(which: usize, number: usize) -> Option<()> {
    match which {
        1 => single::on_slice(single::open),
        2 => single::on_slice(|file| single::gate(file, number)),
        3 => single::on_slice(|file| single::owner(file, number)),
        4 => single::on_slice(|file| single::output(file, number)),
        5 => single::on_slice(single::check),
        6 => values::plain(),
        7 => several::run(),
        8 => views::view(number),
        9 => retapes::retape(number),
        10 => single::on_slice(single::table),
        11 => single::on_slice(jobs::listed),
        12 => readers::gate(number),
        13 => readers::owner(number),
        15 => texts::from_bristol(number),
        _ => readers::output(number),
    }
}

// A proved loop has to end, and nothing says that a stream does. So the loop has a number of turns that no stream uses up.
fn main() {
    for _ in 0..u64::MAX {
        if call().is_none() {
            break;
        }
    }
}
