// What a line of a text says, read from a place in it.
#![tactic(auto)]

ghost use Rattle.std.specs.Prelude.{◌≡◌, ◌+◌, ◌≤◌, ℕ, List, length};
ghost use Rattle.bristol_text.specs.Lines.{line_says};
ghost use Rattle.bristol_text.specs.Told.{header_lines};
ghost use Rattle.bristol_words.specs.Mirror.{words_at};
ghost use Rattle.bristol_lines.specs.Mirror.{LineAt, LineFrom, gate_says, Summed, WiresRead, wires_from, counts_from, widths_from, gate_from};

use bristol_text::{Says, Stage};
use bristol_words::{GateWord, Word};

// What a good line says, and the place where it ends, before its LF.
#[derive(Clone, Copy)]
pub struct Line {
    pub says: Says,
    pub end: usize,
}

// "a line with gate and wire counts", behind its first word
fn counts_line(text: &[u8], first: Word) -> Option<Line>
    requires { first.end ≤ length text.now }
    ensures { LineFrom text.now first.end (counts_from first (words_at text.now first.end)) result }
{
    let second = bristol_words::next_word(text, first.end);
    let next = bristol_words::next_word(text, second.end);
    let gates = first.number?;
    let wires = second.number?;
    if !next.is_empty() | (wires > 8192) {
        return None;
    }
    Some(Line {
        says: Says::Counts { gates, wires },
        end: next.end,
    })
}

// Widths that were added up, and the place behind them.
#[derive(Clone, Copy)]
pub struct Sum {
    pub sum: u32,
    pub end: usize,
}

// n widths from a place on, whose sum is at most the wire count.
fn sum_widths(text: &[u8], at: usize, n: u32, wires: u32) -> Option<Sum>
    requires { at ≤ length text.now }
    ensures { Summed text.now at n wires result }
{
    let mut end = at;
    let mut sum: u32 = 0;
    for _ in 0..n {
        let word = bristol_words::next_word(text, end);
        sum = sum.checked_add(word.number?)?;
        if sum > wires {
            return None;
        }
        end = word.end;
    }
    Some(Sum { sum, end })
}

// "a line with the number of input values and their widths", behind its first word
fn widths_line(text: &[u8], first: Word, wires: u32) -> Option<Line>
    requires { first.end ≤ length text.now }
    ensures { LineFrom text.now first.end (widths_from wires first (words_at text.now first.end)) result }
{
    let values = first.number?;
    let widths = sum_widths(text, first.end, values, wires)?;
    let next = bristol_words::next_word(text, widths.end);
    if !next.is_empty() {
        return None;
    }
    Some(Line {
        says: Says::Widths {
            values,
            sum: widths.sum,
        },
        end: next.end,
    })
}

// The last three wires of those that were read, all of a gate that reads two, and the last two all of one that reads one; the place behind them.
#[derive(Clone, Copy)]
pub struct Wires {
    pub x: u32,
    pub y: u32,
    pub z: u32,
    pub end: usize,
}

// n wires below the wire count, from a place on.
fn read_wires(text: &[u8], at: usize, n: usize, wires: u32) -> Option<Wires>
    requires { at ≤ length text.now }
    ensures { WiresRead text.now at n wires result }
{
    let mut read = Wires {
        x: 0,
        y: 0,
        z: 0,
        end: at,
    };
    for _ in 0..n {
        let word = bristol_words::next_word(text, read.end);
        let wire = word.number?;
        if wire >= wires {
            return None;
        }
        read = Wires {
            x: read.y,
            y: read.z,
            z: wire,
            end: word.end,
        };
    }
    Some(read)
}

// "XOR and AND with 2 1, INV and EQW with 1 1"
#[tactic(auto, unfolding(crate::specs::Mirror::gate_says))]
fn gate(word: Option<GateWord>, ins: u32, outs: u32, read: Wires) -> Option<Says>
    ensures { result ≡ gate_says word ins outs read.x read.y read.z }
{
    let Wires { x, y, z, end: _ } = read;
    match (word, ins, outs) {
        (None, _, _) => Some(Says::Other),
        (Some(GateWord::Xor), 2, 1) => Some(Says::Xor { x, y, z }),
        (Some(GateWord::And), 2, 1) => Some(Says::And { x, y, z }),
        (Some(GateWord::Inv), 1, 1) => Some(Says::Inv { x: y, z }),
        (Some(GateWord::Eqw), 1, 1) => Some(Says::Eqw { x: y, z }),
        _ => None,
    }
}

// Behind the wires: a word, and nothing else.
fn word_line(text: &[u8], ins: u32, outs: u32, read: Wires) -> Option<Line>
    requires { read.end ≤ length text.now }
    ensures { LineFrom text.now read.end (wires_from ins outs read (words_at text.now read.end)) result }
{
    let word = bristol_words::next_word(text, read.end);
    let next = bristol_words::next_word(text, word.end);
    if word.is_empty() | !next.is_empty() {
        return None;
    }
    let says = gate(
        bristol_words::gate_word(&text[word.start..word.end]),
        ins,
        outs,
        read,
    )?;
    Some(Line {
        says,
        end: next.end,
    })
}

// "a gate line is two counts, that many wires and a word", behind its first word
fn gate_line(text: &[u8], first: Word, wires: u32) -> Option<Line>
    requires { first.end ≤ length text.now }
    ensures { LineFrom text.now first.end (gate_from wires first (words_at text.now first.end)) result }
{
    let second = bristol_words::next_word(text, first.end);
    let ins = first.number?;
    let outs = second.number?;
    let read = read_wires(text, second.end, ins as usize + outs as usize, wires)?;
    word_line(text, ins, outs, read)
}

// The line that begins at a place, by which comes next, with so many wires. A line that is no good text is none.
pub fn line_by(text: &[u8], at: usize, stage: Stage, wires: u32) -> Option<Line>
    requires { at ≤ length text.now }
    ensures { LineAt text.now at (header_lines stage) wires result }
{
    let first = bristol_words::next_word(text, at);
    if first.is_empty() {
        return Some(Line {
            says: Says::Blank,
            end: first.end,
        });
    }
    match stage {
        Stage::Counts => counts_line(text, first),
        Stage::Inputs | Stage::Outputs => widths_line(text, first, wires),
        Stage::Gates => gate_line(text, first, wires),
    }
}

// Which line comes behind so many header lines: behind three or more a gate.
fn stage_of(lines: u32) -> Stage
    ensures { (W : ℕ) → (ws : List (List ℕ)) → line_says (header_lines result) W ws ≡ line_says lines W ws }
{
    match lines {
        0 => Stage::Counts,
        1 => Stage::Inputs,
        2 => Stage::Outputs,
        _ => Stage::Gates,
    }
}

// The same, by how many header lines there were.
pub fn line_at(text: &[u8], at: usize, lines: u32, wires: u32) -> Option<Line>
    requires { at ≤ length text.now }
    ensures { LineAt text.now at lines wires result }
{
    line_by(text, at, stage_of(lines), wires)
}
