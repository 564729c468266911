// What one site does at a step of document 01, on its own part of the store.
#![tactic(auto)]

ghost use Rattle.std.specs.Prelude.{◌≡◌, ◌+◌, ◌*◌, ◌<◌, ◌≤◌, length};
ghost use Rattle.theory_sharing.specs.Ops.{bits};
ghost use Rattle.run_site.specs.Mirror.{put_at, add_at, flip_at, local_at, take_at, two_at};
ghost use Rattle.run_messages.specs.Mirror.{pair_of, deal_at, kept_of, next_of, prev_of};

use run_messages::{Four, Two};

// One site: wire w of its part becomes this pair.
#[tactic(auto, unfolding(crate::specs::Mirror::put_at))]
pub fn put_pair(part: &mut [u8], w: usize, v: Two)
    requires { 2 * w + 1 < length part.old }
    ensures { part.new ≡ put_at w (pair_of v) part.old }
{
    part[2 * w] = v.x;
    part[2 * w + 1] = v.y;
}

// A site's pair of a wire, read.
pub fn pair_of(part: &[u8], w: usize) -> Two
    requires { 2 * w + 1 < length part.now }
    ensures { result ≡ two_at part.now w }
{
    Two {
        x: part[2 * w],
        y: part[2 * w + 1],
    }
}

// XOR at one site: "each held part, xored".
#[tactic(auto, unfolding(crate::specs::Mirror::add_at))]
pub fn add_step(part: &mut [u8], a: usize, b: usize, w: usize)
    requires w_in_bounds { 2 * w + 1 < length part.old }
    requires a_in_bounds { (2 * a + 1 < length part.old) × (2 * b + 1 < length part.old) }
    ensures { part.new ≡ add_at bits a b w part.old }
{
    let v = pair_of(part, a) ^ pair_of(part, b);
    put_pair(part, w, v);
}

// NOT at one site: flip has a 1 for that of its two parts which is part 1.
#[tactic(auto, unfolding(crate::specs::Mirror::flip_at))]
pub fn flip_step(part: &mut [u8], a: usize, w: usize, flip: Two)
    requires w_in_bounds { 2 * w + 1 < length part.old }
    requires a_in_bounds { 2 * a + 1 < length part.old }
    ensures { part.new ≡ flip_at bits a w (pair_of flip) part.old }
{
    let v = pair_of(part, a) ^ flip;
    put_pair(part, w, v);
}

// A site's product of two wires; flip flips its part 1 of both, for OR.
#[tactic(auto, unfolding(crate::specs::Mirror::local_at))]
pub fn product(part: &[u8], a: usize, b: usize, flip: Two) -> u8
    requires { (2 * a + 1 < length part.now) × (2 * b + 1 < length part.now) }
    ensures { result ≡ local_at bits a b (pair_of flip) part.now }
{
    let Two { x: x0, y: x1 } = pair_of(part, a) ^ flip;
    let Two { x: y0, y: y1 } = pair_of(part, b) ^ flip;
    (x0 & y0) ^ (x0 & y1) ^ (x1 & y0)
}

// What one site sends at an AND or OR.
pub fn send_site(part: &[u8], tapes: &[u8], a: usize, b: usize, flip: Two, t: usize) -> Four
    requires a_in_bounds { (2 * a + 1 < length part.now) × (2 * b + 1 < length part.now) }
    requires t_in_bounds { t + 2 ≤ length tapes.now }
    ensures { result ≡ deal_at bits tapes.now t (local_at bits a b (pair_of flip) part.now) }
{
    let v = product(part, a, b, flip);
    run_messages::deal(tapes, t, v)
}

// A site's new pair: its own pieces as kept (k), those from the site before (p) and from the site after (q), as delivered.
#[tactic(auto, unfolding(crate::specs::Mirror::take_at))]
pub fn take_site(part: &mut [u8], w: usize, k: Four, p: Four, q: Four, flip: Two)
    requires { 2 * w + 1 < length part.old }
    ensures { part.new ≡ take_at bits w (kept_of k) (next_of p) (prev_of q) (pair_of flip) part.old }
{
    put_pair(part, w, k.kept() ^ p.next() ^ q.prev() ^ flip);
}
