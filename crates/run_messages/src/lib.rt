// The bits of a step, by value: what is dealt, sent and delivered. What is compared and opened: run_copies.
#![tactic(auto)]

ghost use Rattle.std.specs.Prelude.{◌≡◌, ◌+◌, ◌≤◌, length};
ghost use Rattle.theory_sharing.specs.Ops.{bits};
ghost use Rattle.run_messages.specs.Mirror.{deal_at, line_at, on_line, in_pairs, on_line_six};

use std::ops::BitXor;

// A site's pair of a wire.
#[derive(Clone, Copy)]
pub struct Two {
    pub x: u8,
    pub y: u8,
}

// Pairs are added part by part.
impl BitXor for Two {
    type Output = Two;

    ghost use Rattle.run_messages.specs.Mirror.{two_sum};

    ghost bitxor_gives = { λ p q r. r ≡ two_sum bits p q };

    fn bitxor(self, other: Two) -> Two {
        Two {
            x: self.x ^ other.x,
            y: self.y ^ other.y,
        }
    }
}

// The three sites' pairs of a wire. At an opening they are the six bits sent, in their order: 1 to 2, 1 to 3, 2 to 3, 2 to 1, 3 to 1, 3 to 2.
#[derive(Clone, Copy)]
pub struct Held {
    pub p1: Two,
    pub p2: Two,
    pub p3: Two,
}

// The four bits of a deal: a, b to the next site, c, d to the one after. As sent, d and a are what the dealer keeps.
#[derive(Clone, Copy)]
pub struct Four {
    pub a: u8,
    pub b: u8,
    pub c: u8,
    pub d: u8,
}

impl Four {
    ghost use Rattle.run_messages.specs.Mirror.{kept_of, next_of, prev_of, as_two};

    // Of what was dealt: what the dealer keeps, what the next site and the one after it get.
    pub fn kept(self) -> Two
        ensures { result ≡ as_two (kept_of self) }
    {
        Two {
            x: self.d,
            y: self.a,
        }
    }

    pub fn next(self) -> Two
        ensures { result ≡ as_two (next_of self) }
    {
        Two {
            x: self.a,
            y: self.b,
        }
    }

    pub fn prev(self) -> Two
        ensures { result ≡ as_two (prev_of self) }
    {
        Two {
            x: self.c,
            y: self.d,
        }
    }
}

// The twelve bits of an AND or OR, by sender.
#[derive(Clone, Copy)]
pub struct Twelve {
    pub s1: Four,
    pub s2: Four,
    pub s3: Four,
}

// What the three sites open.
#[derive(Clone, Copy)]
pub struct Three {
    pub a: u8,
    pub b: u8,
    pub c: u8,
}

// A sharing of v from the two tape bits at t, as sent.
#[tactic(auto, unfolding(crate::specs::Mirror::deal_at))]
pub fn deal(tapes: &[u8], t: usize, v: u8) -> Four
    requires { t + 2 ≤ length tapes.now }
    ensures { result ≡ deal_at bits tapes.now t v }
{
    let x = tapes[t];
    let y = tapes[t + 1];
    Four {
        a: x,
        b: y,
        c: y,
        d: v ^ x ^ y,
    }
}

// The line, xored onto four bits from its place at. Apart from on_line6: one function over an array of bits would have neither a deal's names nor
// an opening's three pairs, and takes apart and puts together again at both callers.
#[tactic(auto, unfolding(crate::specs::Mirror::on_line))]
pub fn on_line4(m: Four, line: &[u8], at: usize) -> Four
    requires { at + 4 ≤ length line.now }
    ensures { result ≡ on_line bits (line_at line.now at) m }
{
    Four {
        a: m.a ^ line[at],
        b: m.b ^ line[at + 1],
        c: m.c ^ line[at + 2],
        d: m.d ^ line[at + 3],
    }
}

// An input: what its owner keeps, what the next site and the one after it get. The owner stays the byte that the file has, so that nothing is
// made of it on the way.
#[tactic(auto, unfolding(crate::specs::Mirror::in_pairs))]
pub fn in_pairs(owner: u8, k: Four, g: Four) -> Held
    ensures { result ≡ in_pairs owner k g }
{
    let (kept, next, prev) = (k.kept(), g.next(), g.prev());
    match owner {
        1 => Held {
            p1: kept,
            p2: next,
            p3: prev,
        },
        2 => Held {
            p1: prev,
            p2: kept,
            p3: next,
        },
        _ => Held {
            p1: next,
            p2: prev,
            p3: kept,
        },
    }
}

// The line, xored onto the six bits of an opening.
#[tactic(auto, unfolding(crate::specs::Mirror::on_line_six))]
pub fn on_line6(h: Held, line: &[u8], at: usize) -> Held
    requires { at + 6 ≤ length line.now }
    ensures { result ≡ on_line_six bits (line_at line.now at) h }
{
    Held {
        p1: Two {
            x: h.p1.x ^ line[at],
            y: h.p1.y ^ line[at + 1],
        },
        p2: Two {
            x: h.p2.x ^ line[at + 2],
            y: h.p2.y ^ line[at + 3],
        },
        p3: Two {
            x: h.p3.x ^ line[at + 4],
            y: h.p3.y ^ line[at + 5],
        },
    }
}
