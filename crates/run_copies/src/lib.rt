// An opening, by value: the two copies that each site gets are compared, and what it opens.
#![tactic(auto)]

ghost use Rattle.std.specs.Prelude.{◌≡◌, ◌≤◌};
ghost use Rattle.theory_sharing.specs.Ops.{bits};
ghost use Rattle.theory_sharing.specs.Steps.{unlike};
ghost use Rattle.run_messages.specs.Mirror.{objects_of, opened_of};

use run_messages::{Held, Three};

// A site's weight where its two copies are unlike. The sites are told as a sum of 1, 2 and 4, as document 01 has it and as callers in C read it.
#[tactic(auto, using(crate::proofs::CopyLaws::copies_alike, crate::proofs::CopyLaws::copies_differ))]
pub fn unlike(x: u8, y: u8, weight: usize) -> usize
    ensures value { result ≡ unlike (x, y) weight }
    ensures bound { result ≤ weight }
{
    if x == y { 0 } else { weight }
}

// The sites whose two copies are unlike, as a sum of 1, 2 and 4.
#[tactic(auto, unfolding(run_messages::specs::Mirror::objects_of))]
pub fn objecting(g: Held) -> usize
    ensures { result ≡ objects_of g }
{
    let s1 = unlike(g.p2.y, g.p3.x, 1);
    let s2 = unlike(g.p1.x, g.p3.y, 2);
    let s3 = unlike(g.p1.y, g.p2.x, 4);
    s1 + s2 + s3
}

// What the three sites open, each with its pair and the copy it got first.
#[tactic(auto, unfolding(run_messages::specs::Mirror::opened_of))]
pub fn opened(h: Held, c1: u8, c2: u8, c3: u8) -> Three
    ensures { result ≡ opened_of bits h c1 c2 c3 }
{
    Three {
        a: h.p1.x ^ h.p1.y ^ c1,
        b: h.p2.x ^ h.p2.y ^ c2,
        c: h.p3.x ^ h.p3.y ^ c3,
    }
}
