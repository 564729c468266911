// The words of a text, each by a place in it: where the next word of a line stands, which number it is, which gate word.
#![tactic(auto)]

ghost use Rattle.std.specs.Prelude.{◌≡◌, ◌+◌, ◌≤◌, length, take_while, eqb};
ghost use Rattle.bristol_text.specs.Words.{is_gap, number};
ghost use Rattle.bristol_text.specs.Lines.{gate_word};
ghost use Rattle.bristol_words.specs.Mirror.{is_part, told, word_of, Next};

// A word from start to end; where both are one place, there is none. number says which number it is, if it is one.
#[derive(Clone, Copy)]
pub struct Word {
    pub start: usize,
    pub end: usize,
    pub number: Option<u32>,
}

impl Word {
    // Whether the line has no word more.
    pub fn is_empty(self) -> bool
        ensures { result ≡ eqb self.start self.end }
    {
        self.start == self.end
    }
}

// The four gate words.
#[derive(Clone, Copy, PartialEq, Eq)]
pub enum GateWord {
    Xor,
    And,
    Inv,
    Eqw,
}

// How many bytes in front are spaces or CRs.
fn gaps(text: &[u8]) -> usize
    ensures { result ≡ length (take_while is_gap text.now) }
{
    text.iter()
        .take_while(|b| (**b == b' ') | (**b == b'\r'))
        .count()
}

// How many bytes in front are of one word: no space, no CR and no LF.
fn letters(text: &[u8]) -> usize
    ensures { result ≡ length (take_while is_part text.now) }
{
    text.iter()
        .take_while(|b| !((**b == b' ') | (**b == b'\r') | (**b == b'\n')))
        .count()
}

// "numbers of one to five digits". A pass of its own over the word: one `for` loop for the word's end and its number was tried, and reading a text of
// 3,000 gate lines took 24 % longer, one of 378 gate lines 36 %.
fn number(word: &[u8]) -> Option<u32>
    ensures { told result ≡ number word.now }
{
    if word.is_empty() | (word.len() > 5) {
        return None;
    }
    let mut value: u32 = 0;
    for b in word {
        if !b.is_ascii_digit() {
            return None;
        }
        value = 10 * value + (*b - b'0') as u32;
    }
    Some(value)
}

// The next word of the line in which a place stands.
pub fn next_word(text: &[u8], at: usize) -> Word
    requires { at ≤ length text.now }
    ensures { Next text.now at result }
{
    let start = at + gaps(&text[at..]);
    let end = start + letters(&text[start..]);
    Word {
        start,
        end,
        number: number(&text[start..end]),
    }
}

// XOR, AND, INV and EQW by their bytes: which gate word it is, if it is one. Not a `match` on b"XOR" and the others: that is a jump through a table,
// with which reading those two texts took 21 % and 36 % longer.
#[tactic(auto, unfolding(bristol_text::specs::Lines::gate_word, bristol_text::specs::Lines::three_letters, crate::specs::Mirror::word_of))]
pub fn gate_word(word: &[u8]) -> Option<GateWord>
    ensures { result ≡ word_of (gate_word word.now) }
{
    let [a, b, c] = *word else {
        return None;
    };
    let letters = [a, b, c];
    if letters == *b"XOR" {
        Some(GateWord::Xor)
    } else if letters == *b"AND" {
        Some(GateWord::And)
    } else if letters == *b"INV" {
        Some(GateWord::Inv)
    } else if letters == *b"EQW" {
        Some(GateWord::Eqw)
    } else {
        None
    }
}
