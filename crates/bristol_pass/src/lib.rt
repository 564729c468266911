// One pass over the lines of a text: each is read once, judged, and entered in the map and in our gates; the pass ends at the first faulty line.
#![tactic(auto)]

ghost use Rattle.std.specs.Prelude.{◌≡◌, cond, ◌≤◌, length, eqb, IfOk, IfErr};
ghost use Rattle.check_refusal.specs.Number.{place_of};
ghost use Rattle.bristol_text.specs.Words.{lines};
ghost use Rattle.bristol_words.specs.Mirror.{words_at};
ghost use Rattle.bristol_wires.specs.Pass.{pass_from};
ghost use Rattle.bristol_pass.specs.Mirror.{behind_of, ended_pass, Told};

use bristol_text::Says;
use bristol_wires::{Numbering, Text};
use check_refusal::Refusal;

// How many lines a pass read, and the place at which the inputs' line begins.
#[derive(Clone, Copy)]
pub struct Pass {
    pub lines: usize,
    pub seat: usize,
}

// Where a pass ended: the refusal of its last line, what the lines before that one said, how many it read.
#[derive(Clone, Copy)]
pub struct Ended {
    pub check: Result<(), Refusal>,
    pub text: Text,
    pub pass: Pass,
}

// The place behind a line that ends here: an LF belongs to the line before it.
#[tactic(auto, unfolding(crate::specs::Mirror::behind_of))]
fn behind(text: &[u8], end: usize) -> usize
    requires { end ≤ length text.now }
    ensures { result ≡ behind_of text.now end }
{
    if end < text.len() { end + 1 } else { end }
}

// The inputs' line is the one behind the counts.
#[tactic(auto, using(crate::proofs::TurnLaws::behind_the_counts, crate::proofs::TurnLaws::seat_kept))]
fn seat_after(stage: u32, seat: usize, at: usize) -> usize
    ensures { result ≡ cond (eqb stage 1) at seat }
{
    if stage == 1 { at } else { seat }
}

// The pass, behind lines that said so much, over a map of any length. A `while`: where the next line begins is known when this one is read, and no
// iterator of std goes so.
pub fn read_lines(text: &[u8], before: Text, map: &mut [u16], gates: &mut [u8]) -> Ended
    requires { length gates.old ≡ 18432 }
    ensures told { ended_pass text.now result map.new gates.new
        ≡ pass_from 0 before (words_at text.now 0) map.old gates.old (lines text.now) }
    ensures place { IfErr result.check (λ d. place_of d ≡ result.pass.lines) }
    ensures seat_inside { result.pass.seat ≤ length text.now }
{
    let mut t = before;
    let mut pass = Pass { lines: 0, seat: 0 };
    let mut at: usize = 0;
    while at < text.len() {
        pass.lines += 1;
        let Some(line) = bristol_lines::line_at(text, at, t.stage, t.wires) else {
            return Ended {
                check: Err(Refusal::TextLine(pass.lines)),
                text: t,
                pass,
            };
        };
        // A blank line moves nothing: with the copy of what is known that the steps below make, a text of blank lines took 1.6 times as long.
        if let Says::Blank = line.says {
            pass.seat = seat_after(t.stage, pass.seat, at);
            at = behind(text, line.end);
            continue;
        }
        if let Err(refusal) = bristol_wires::check(map, t, line.says, pass.lines) {
            return Ended {
                check: Err(refusal),
                text: t,
                pass,
            };
        }
        pass.seat = seat_after(t.stage, pass.seat, at);
        bristol_wires::enter(map, gates, t, Some(line.says));
        t = bristol_wires::after(t, Some(line.says));
        at = behind(text, line.end);
    }
    Ended {
        check: Ok(()),
        text: t,
        pass,
    }
}

// The same over a numbering.
pub fn read_numbered(text: &[u8], numbering: &mut Numbering) -> Result<Pass, Refusal>
    ensures told { Told text.now result numbering.new
        (pass_from 0 numbering.old.text (words_at text.now 0) numbering.old.map numbering.old.gates (lines text.now)) }
    ensures seat_inside { IfOk result (λ p. p.seat ≤ length text.now) }
{
    let ended = read_lines(
        text,
        numbering.text,
        &mut numbering.map,
        &mut numbering.gates,
    );
    numbering.text = ended.text;
    ended.check?;
    Ok(ended.pass)
}
