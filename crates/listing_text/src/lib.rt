// The listing's text, written into a lent buffer from the front, as file_writer writes. Each writer takes a place and gives the next: a struct
// of the buffer and its place would stand in each clause twice, before and after, and say no more.
#![tactic(auto)]

ghost use Rattle.std.specs.Prelude.{◌≡◌, ℕ, ◌+◌, ◌*◌, ◌<◌, ◌≤◌, ◌++◌, length};
ghost use Rattle.theory_sharing.specs.Store.{fill};
ghost use Rattle.theory_calls.specs.Listing.{decimal, word_out, out_lines, refused_text};
ghost use Rattle.file_writer.specs.Mirror.{write};
ghost use Rattle.listing_text.specs.Mirror.{line_of, counts_of, head_of, lines_of, shown_of, OneDigit};

use file_header::Counts;

// A number's digits. It calls itself for all but the last, as the definition does, so that no digit has to be turned round: at most 20 deep.
pub fn put_decimal(text: &mut [u8], at: usize, n: usize) -> usize
    requires { at + length (decimal n) ≤ length text.old }
    ensures text_after { text.new ≡ write at (decimal n) text.old }
    ensures value { result ≡ at + length (decimal n) }
{
    if n <= 9 {
        text[at] = b'0' + n as u8;
        return at + 1;
    }
    let end = put_decimal(text, at, n / 10);
    text[end] = b'0' + (n % 10) as u8;
    end + 1
}

// A word with its number.
fn put_item(text: &mut [u8], at: usize, word: &[u8], n: usize) -> usize
    requires { at + length word.now + length (decimal n) ≤ length text.old }
    ensures text_after { text.new ≡ write at (word.now ++ decimal n) text.old }
    ensures value { result ≡ at + length word.now + length (decimal n) }
{
    let e = file_writer::put_bytes(text, at, word);
    put_decimal(text, e, n)
}

// A line of a word and two numbers: a refusal's and an output's are of this one form.
#[tactic(auto, using(crate::proofs::TextLaws::line_length))]
fn put_line(text: &mut [u8], at: usize, word: &[u8], n: usize, p: usize) -> usize
    requires { at + length (line_of word.now n p) ≤ length text.old }
    ensures text_after { text.new ≡ write at (line_of word.now n p) text.old }
    ensures value { result ≡ at + length (line_of word.now n p) }
{
    let a = put_item(text, at, word, n);
    let b = put_item(text, a, b" ", p);
    file_writer::put_bytes(text, b, b"\n")
}

// "A refusal prints only `refused N P`". 50 bytes hold any two numbers: not a refusal's alone, as whoever has only its numbers can print it too.
// Not by Refusal's Display: no clause of that says which bytes it writes.
#[tactic(auto, using(crate::proofs::TextLaws::line_refused))]
pub fn refused_text(text: &mut [u8], number: usize, place: usize) -> usize
    requires { 50 ≤ length text.old }
    ensures text_after { text.new ≡ fill text.old (refused_text number place) }
    ensures value { result ≡ length (refused_text number place) }
{
    put_line(text, 0, b"refused ", number, place)
}

// An output's line. It stands alone because a byte string in a loop would be one more thing to carry through its turns.
#[tactic(auto, using(crate::proofs::TextLaws::line_out))]
fn out_line(text: &mut [u8], at: usize, o: usize, bit: u8) -> usize
    requires { (at + 10 ≤ length text.old) × (o < 1000) × (bit ≤ 9) }
    ensures text_after { text.new ≡ write at (line_of word_out o bit) text.old }
    ensures value { result ≡ at + length (line_of word_out o bit) }
{
    put_line(text, at, b"out ", o, bit as usize)
}

// "one line per output, its number and bit". By number and not by chunks of three bytes: the definition goes by number, and so does its proof.
fn out_lines(text: &mut [u8], at: usize, outs: &[u8], n: usize) -> usize
    requires { (at + 10 * n ≤ length text.old) × (n ≤ 256) × (length outs.now ≡ 3 * n) × OneDigit outs.now n }
    ensures text_after { text.new ≡ write at (out_lines (shown_of outs.now) n) text.old }
    ensures value { result ≡ at + length (out_lines (shown_of outs.now) n) }
{
    let mut e = at;
    for o in 0..n {
        e = out_line(text, e, o, outs[3 * o]);
    }
    e
}

// The first line but its end: the three counts.
#[tactic(auto, using(crate::proofs::TextLaws::counts_length))]
fn put_counts(text: &mut [u8], c: Counts) -> usize
    requires { length (counts_of c.inputs c.gates c.outputs) ≤ length text.old }
    ensures text_after { text.new ≡ fill text.old (counts_of c.inputs c.gates c.outputs) }
    ensures value { result ≡ length (counts_of c.inputs c.gates c.outputs) }
{
    let a = put_item(text, 0, b"inputs ", c.inputs);
    let b = put_item(text, a, b" gates ", c.gates);
    put_item(text, b, b" outputs ", c.outputs)
}

// The first two lines.
#[tactic(auto, using(crate::proofs::TextLaws::head_length))]
fn put_head(text: &mut [u8], c: Counts, total: usize) -> usize
    requires { length (head_of c.inputs c.gates c.outputs total) ≤ length text.old }
    ensures text_after { text.new ≡ fill text.old (head_of c.inputs c.gates c.outputs total) }
    ensures value { result ≡ length (head_of c.inputs c.gates c.outputs total) }
{
    let a = put_counts(text, c);
    let b = put_item(text, a, b"\nbits ", total);
    file_writer::put_bytes(text, b, b"\n")
}

// The whole listing of a good job: at most 46 bytes of counts and total, 10 an output, and 4.
pub fn good_text(text: &mut [u8], c: Counts, total: usize, outs: &[u8]) -> usize
    requires in_bounds { (2624 ≤ length text.old) × (c.inputs ≤ 1024) × (c.gates ≤ 3072) × (c.outputs ≤ 256) × (total ≤ 41728) }
    requires outs_len { (length outs.now ≡ 3 * c.outputs) × OneDigit outs.now c.outputs }
    ensures text_after { text.new ≡ fill text.old (lines_of c.inputs c.gates c.outputs total (shown_of outs.now)) }
    ensures value { result ≡ length (lines_of c.inputs c.gates c.outputs total (shown_of outs.now)) }
{
    let a = put_head(text, c, total);
    let b = out_lines(text, a, outs, c.outputs);
    file_writer::put_bytes(text, b, b"end\n")
}
