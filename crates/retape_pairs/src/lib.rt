// One site's pair of a wire, from its own bytes alone: its pairs of earlier wires and the plain values; and the next site's draws anew.
// The work room holds plain values under the first inputs, then under the second, then the site's pairs: 4W bytes.
#![tactic(auto)]

ghost use Rattle.std.specs.Prelude.{◌≡◌, ◌+◌, ◌*◌, ◌<◌, ◌≤◌, length};
ghost use Rattle.theory_sharing.specs.Ops.{bits};
ghost use Rattle.theory_sharing.specs.Circuit.{dealing};
ghost use Rattle.theory_sharing.specs.Steps.{local};
ghost use Rattle.theory_sharing.specs.Retape.{next_product};
ghost use Rattle.theory_calls.specs.File.{circuit, site_of};
ghost use Rattle.check_tests.specs.Seat.{seat};
ghost use Rattle.run_site.specs.Mirror.{put_at, two_at};
ghost use Rattle.run_messages.specs.Mirror.{pair_of};
ghost use Rattle.run_steps.specs.Mirror.{lent, on_part};
ghost use Rattle.retape_pairs.specs.Mirror.{Fits, st, further, flipped, mixed, operand, put_two, and_on, xor_on, not_on, gate_on};

use check_tests::Site;
use file_reader::Circuit;
use run_messages::Two;
use run_passes::Step;

// The running places on three tapes, as a site sees them: its own, the next site's, the one's before.
#[derive(Clone, Copy)]
pub struct Places {
    pub own: usize,
    pub next: usize,
    pub prev: usize,
}

// The three tapes, likewise.
#[derive(Clone, Copy)]
pub struct Tapes<'a> {
    pub own: &'a [u8],
    pub next: &'a [u8],
    pub prev: &'a [u8],
}

// What an AND or OR gives: the site's new pair, and the next site's two draws, the first moved.
#[derive(Clone, Copy)]
pub struct Mixed {
    pub pair: Two,
    pub first: u8,
    pub second: u8,
}

// The site's pair of wire w, of n wires. Read byte by byte, as an AND wrote it: a word of two bytes just written would have to wait.
pub fn pair_in(room: &[u8], n: usize, w: usize) -> Two
    requires { (length room.now ≡ 4 * n) × (n ≤ 4096) × (w < n) }
    ensures { result ≡ two_at (lent (2 * n) (4 * n) room.now) w }
{
    let part = &room[2 * n..4 * n];
    let x = part[2 * w];
    let y = part[2 * w + 1];
    Two { x, y }
}

// Wire w becomes this pair; the plain values stay.
pub fn put_in(room: &mut [u8], n: usize, w: usize, p: Two)
    requires { (length room.old ≡ 4 * n) × (n ≤ 4096) × (w < n) }
    ensures { room.new ≡ on_part (2 * n) (4 * n) (put_at w (pair_of p)) room.old }
{
    run_site::put_pair(&mut room[2 * n..4 * n], w, p);
}

// Two draws at a place of the next site's new tape.
#[tactic(auto, unfolding(crate::specs::Mirror::put_two))]
pub fn put_draws(moved: &mut [u8], at: usize, x: u8, y: u8)
    requires { (at + 1 < length moved.old) × (length moved.old ≤ 65536) }
    ensures { moved.new ≡ put_two at x y moved.old }
{
    moved[at] = x;
    moved[at + 1] = y;
}

// The places t bits further on.
fn beyond(from: Places, t: usize) -> Places
    requires { (from.own + t ≤ 65536) × (from.next + t ≤ 65536) × (from.prev + t ≤ 65536) }
    ensures { result ≡ further from t }
{
    Places {
        own: from.own + t,
        next: from.next + t,
        prev: from.prev + t,
    }
}

// o added to part 1, if the site holds it.
#[tactic(auto, unfolding(crate::specs::Mirror::flipped))]
pub fn flip_at(site: Site, o: u8, p: Two) -> Two
    ensures { result ≡ flipped (seat site) o p }
{
    match site {
        Site::One => Two { x: p.x ^ o, ..p },
        Site::Two => p,
        Site::Three => Two { y: p.y ^ o, ..p },
    }
}

// The same for a site's number, whatever it is: any but 1 and 2 stands for site 3.
pub fn flip(site: usize, o: u8, p: Two) -> Two
    ensures { result ≡ flipped (site_of site) o p }
{
    flip_at(Site::of(site), o, p)
}

// The site's own product of two wires.
fn product(p: Two, q: Two) -> u8
    ensures { result ≡ local bits (pair_of p) (pair_of q) }
{
    (p.x & q.x) ^ (p.x & q.y) ^ (p.y & q.x)
}

// The next site's: from the parts that both hold and those that this one lacks, u and v being the two values. The bits of an operand stay
// apart, here and below: as a struct of four they were packed into a word and taken apart again, 28 instructions of an AND.
fn next_product(p: Two, u: u8, q: Two, v: u8) -> u8
    ensures { result ≡ next_product bits (pair_of p) u (pair_of q) v }
{
    let a = u ^ p.x ^ p.y;
    let b = v ^ q.x ^ q.y;
    (p.y & q.y) ^ (p.y & b) ^ (a & q.y)
}

// By how much it moves, y and z being the two values under the second inputs: what stays of the two products is not worked out twice.
fn change(p: Two, q: Two, u: u8, v: u8, y: u8, z: u8) -> u8
    ensures { result ≡ bits.sub (next_product bits (pair_of p) y (pair_of q) z) (next_product bits (pair_of p) u (pair_of q) v) }
{
    (p.y & (v ^ z)) ^ ((u ^ y) & q.y)
}

// An AND of two wires with pairs p and q, values u and v under the first inputs, y and z under the second.
fn mix(tapes: &Tapes<'_>, at: Places, p: Two, q: Two, u: u8, v: u8, y: u8, z: u8) -> Mixed
    requires { Fits 1 (length tapes.now.own.now) (length tapes.now.next.now) (length tapes.now.prev.now) at }
    ensures { result ≡ mixed tapes.now.own.now tapes.now.next.now tapes.now.prev.now at (operand p u y) (operand q v z) }
{
    let first = next_product(p, u, q, v);
    let moved = change(p, q, u, v, y, z);
    let k = run_messages::deal(tapes.own, at.own, product(p, q));
    let m = run_messages::deal(tapes.next, at.next, first);
    let t = at.prev;
    let x = k.d ^ (m.b ^ tapes.prev[t]);
    let y = k.a ^ (m.d ^ tapes.prev[t + 1]);
    Mixed {
        pair: Two { x, y },
        first: m.a ^ moved,
        second: m.b,
    }
}

// AND (o is 0) and OR (o is 1): "flip part 1 of both operands, AND, flip part 1 of the result". The slices and the wires stay apart, as in
// run_passes.
fn and_gate(
    site: Site,
    tapes: &Tapes<'_>,
    room: &mut [u8],
    moved: &mut [u8],
    n: usize,
    a: usize,
    b: usize,
    w: usize,
    o: u8,
    from: Places,
    t: usize,
) -> usize
    requires room_len { (length room.old ≡ 4 * n) × (n ≤ 4096) }
    requires a_lt_w { (a < w) × (b < w) × (w < n) }
    requires fits { Fits 1 (length tapes.now.own.now) (length tapes.now.next.now) (length tapes.now.prev.now) (further from t) × (length moved.old ≡ length tapes.now.next.now) }
    ensures { st room.new moved.new (further from result)
        ≡ and_on (seat site) tapes.now.own.now tapes.now.next.now tapes.now.prev.now n a b w o
        (st room.old moved.old (further from t)) }
{
    let at = beyond(from, t);
    let p = flip_at(site, o, pair_in(room, n, a));
    let q = flip_at(site, o, pair_in(room, n, b));
    let u = room[a] ^ o;
    let v = room[b] ^ o;
    let y = room[n + a] ^ o;
    let z = room[n + b] ^ o;
    let m = mix(tapes, at, p, q, u, v, y, z);
    put_draws(moved, at.next, m.first, m.second);
    let r = flip_at(site, o, m.pair);
    put_in(room, n, w, r);
    t + 2
}

// XOR: "each held part, xored".
#[tactic(auto, unfolding(crate::specs::Mirror::xor_on))]
fn xor_gate(room: &mut [u8], n: usize, a: usize, b: usize, w: usize)
    requires room_len { (length room.old ≡ 4 * n) × (n ≤ 4096) }
    requires a_lt_w { (a < w) × (b < w) × (w < n) }
    ensures { room.new ≡ xor_on n a b w room.old }
{
    let p = pair_in(room, n, a);
    let q = pair_in(room, n, b);
    put_in(room, n, w, p ^ q);
}

// NOT: "part 1 is flipped wherever held".
#[tactic(auto, unfolding(crate::specs::Mirror::not_on))]
fn not_gate(site: Site, room: &mut [u8], n: usize, a: usize, w: usize)
    requires room_len { (length room.old ≡ 4 * n) × (n ≤ 4096) }
    requires a_lt_w { (a < w) × (w < n) }
    ensures { room.new ≡ not_on (seat site) n a w room.old }
{
    let p = flip_at(site, 1, pair_in(room, n, a));
    put_in(room, n, w, p);
}

// Gate k, t bits behind where the first gate found the tapes. All three move in step from there on.
pub fn gate_step(
    c: &Circuit<'_>,
    site: Site,
    tapes: &Tapes<'_>,
    room: &mut [u8],
    moved: &mut [u8],
    k: usize,
    from: Places,
    t: usize,
) -> usize
    requires k_lt_gates { k < c.now.counts.gates }
    requires room_len { length room.old ≡ 4 * (c.now.counts.inputs + c.now.counts.gates) }
    requires fits { Fits (dealing ((circuit c.now.file.now).gate k)) (length tapes.now.own.now) (length tapes.now.next.now) (length tapes.now.prev.now) (further from t) × (length moved.old ≡ length tapes.now.next.now) }
    ensures { st room.new moved.new (further from result)
        ≡ gate_on (seat site) tapes.now.own.now tapes.now.next.now tapes.now.prev.now (c.now.counts.inputs + c.now.counts.gates)
        (c.now.counts.inputs + k) ((circuit c.now.file.now).gate k) (st room.old moved.old (further from t)) }
{
    let n = c.wires();
    let w = c.counts.inputs + k;
    match run_passes::step_at(c, k) {
        Step::Add(a, b) => {
            xor_gate(room, n, a, b, w);
            t
        }
        Step::Flip(a) => {
            not_gate(site, room, n, a, w);
            t
        }
        Step::Deal(a, b, o) => and_gate(site, tapes, room, moved, n, a, b, w, o, from, t),
    }
}
