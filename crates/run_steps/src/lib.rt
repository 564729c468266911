// The steps of document 01 at the three sites: bits by value between them, each site on its own part of the store. Each is lent its own 2W bytes
// and sees nothing else. The number of wires n goes with the store: a sixth of its length, worked out once for a run, not divided out at a step.
#![tactic(auto)]

ghost use Rattle.std.specs.Prelude.{◌≡◌, ◌+◌, ◌*◌, ◌<◌, ◌≤◌, length};
ghost use Rattle.theory_sharing.specs.Ops.{bits};
ghost use Rattle.run_messages.specs.Mirror.{line_at, on_line, on_line_six};
ghost use Rattle.run_steps.specs.Mirror.{or_bit, put_four, put_twelve, add_gate, not_gate, sends, delivers, takes, put_held, held_at, put_six};

use run_messages::{Four, Held, Twelve, Two};

// The running places: on the three tapes, and on the line and the transcript.
#[derive(Clone, Copy)]
pub struct Pos {
    pub t1: usize,
    pub t2: usize,
    pub t3: usize,
    pub at: usize,
}

// Four delivered bits, into the transcript from its place at.
#[tactic(auto, unfolding(crate::specs::Mirror::put_four))]
pub fn put4(transcript: &mut [u8], at: usize, m: Four)
    requires { at + 4 ≤ length transcript.old }
    ensures { transcript.new ≡ put_four at m transcript.old }
{
    transcript[at] = m.a;
    transcript[at + 1] = m.b;
    transcript[at + 2] = m.c;
    transcript[at + 3] = m.d;
}

// The three sites' steps, one after the other.
pub fn add_sites(store: &mut [u8], n: usize, a: usize, b: usize, w: usize)
    requires store_len { (length store.old ≡ 6 * n) × (n ≤ 4096) }
    requires a_lt_n { (a < n) × (b < n) × (w < n) }
    ensures { store.new ≡ add_gate bits n a b w store.old }
{
    run_site::add_step(&mut store[0..2 * n], a, b, w);
    run_site::add_step(&mut store[2 * n..4 * n], a, b, w);
    run_site::add_step(&mut store[4 * n..6 * n], a, b, w);
}

pub fn not_sites(store: &mut [u8], n: usize, a: usize, w: usize)
    requires store_len { (length store.old ≡ 6 * n) × (n ≤ 4096) }
    requires a_lt_n { (a < n) × (w < n) }
    ensures { store.new ≡ not_gate bits n a w store.old }
{
    run_site::flip_step(&mut store[0..2 * n], a, w, Two { x: 1, y: 0 });
    run_site::flip_step(&mut store[2 * n..4 * n], a, w, Two { x: 0, y: 0 });
    run_site::flip_step(&mut store[4 * n..6 * n], a, w, Two { x: 0, y: 1 });
}

// How document 01 has OR by AND: 0 for an AND gate, 1 for an OR gate, which flips part 1 before and after. Asked of no other kind.
#[tactic(auto, unfolding(crate::specs::Mirror::or_bit))]
pub fn or_bit(kind: u16) -> u8
    ensures { result ≡ or_bit kind }
{
    if kind == 2 { 0 } else { 1 }
}

// What the three sites send at an AND (o is 0) or OR (o is 1), each from its own tape. OR flips part 1, which site 2 does not have.
#[tactic(auto, unfolding(crate::specs::Mirror::sends))]
pub fn and_send(tapes: &[u8], store: &[u8], n: usize, a: usize, b: usize, o: u8, pos: Pos) -> Twelve
    requires store_len { (length store.now ≡ 6 * n) × (n ≤ 4096) }
    requires a_lt_n { (a < n) × (b < n) }
    requires tapes_reach { (pos.t1 + 2 ≤ length tapes.now) × (pos.t2 + 2 ≤ length tapes.now) × (pos.t3 + 2 ≤ length tapes.now) }
    ensures { result ≡ sends bits tapes.now n a b o pos.t1 pos.t2 pos.t3 store.now }
{
    let s1 = run_site::send_site(&store[0..2 * n], tapes, a, b, Two { x: o, y: 0 }, pos.t1);
    let s2 = run_site::send_site(
        &store[2 * n..4 * n],
        tapes,
        a,
        b,
        Two { x: 0, y: 0 },
        pos.t2,
    );
    let s3 = run_site::send_site(
        &store[4 * n..6 * n],
        tapes,
        a,
        b,
        Two { x: 0, y: o },
        pos.t3,
    );
    Twelve { s1, s2, s3 }
}

// What they make of it: s as sent, of which each keeps its own, g as delivered.
pub fn and_take(store: &mut [u8], n: usize, w: usize, o: u8, s: Twelve, g: Twelve)
    requires store_len { (length store.old ≡ 6 * n) × (n ≤ 4096) }
    requires w_lt_n { w < n }
    ensures { store.new ≡ takes bits n w o s g store.old }
{
    run_site::take_site(
        &mut store[0..2 * n],
        w,
        s.s1,
        g.s3,
        g.s2,
        Two { x: o, y: 0 },
    );
    run_site::take_site(
        &mut store[2 * n..4 * n],
        w,
        s.s2,
        g.s1,
        g.s3,
        Two { x: 0, y: 0 },
    );
    run_site::take_site(
        &mut store[4 * n..6 * n],
        w,
        s.s3,
        g.s2,
        g.s1,
        Two { x: 0, y: o },
    );
}

// Four bits delivered.
pub fn deliver4(line: &[u8], transcript: &mut [u8], at: usize, m: Four) -> Four
    requires { (at + 4 ≤ length line.now) × (at + 4 ≤ length transcript.old) }
    ensures value { result ≡ on_line bits (line_at line.now at) m }
    ensures transcript_after { transcript.new ≡ put_four at result transcript.old }
{
    let g = run_messages::on_line4(m, line, at);
    put4(transcript, at, g);
    g
}

// Wire w becomes these pairs.
pub fn put_held(store: &mut [u8], n: usize, w: usize, h: Held)
    requires store_len { (length store.old ≡ 6 * n) × (n ≤ 4096) }
    requires w_lt_n { w < n }
    ensures { store.new ≡ put_held n w h store.old }
{
    run_site::put_pair(&mut store[0..2 * n], w, h.p1);
    run_site::put_pair(&mut store[2 * n..4 * n], w, h.p2);
    run_site::put_pair(&mut store[4 * n..6 * n], w, h.p3);
}

// AND (o is 0) and OR (o is 1) at the three sites: they send, the line delivers, they take. The operands a, b and the wire w are three numbers as
// everywhere in this file: a struct of them would be made for one call and taken apart in it.
pub fn and_step(
    tapes: &[u8],
    line: &[u8],
    store: &mut [u8],
    transcript: &mut [u8],
    n: usize,
    a: usize,
    b: usize,
    w: usize,
    o: u8,
    pos: Pos,
)
    requires store_len { (length store.old ≡ 6 * n) × (n ≤ 4096) }
    requires a_lt_n { (a < n) × (b < n) × (w < n) }
    requires tapes_reach { (pos.t1 + 2 ≤ length tapes.now) × (pos.t2 + 2 ≤ length tapes.now) × (pos.t3 + 2 ≤ length tapes.now) }
    requires line_reaches { (pos.at + 12 ≤ length line.now) × (pos.at + 12 ≤ length transcript.old) × (pos.at ≤ 65536) }
    ensures store_after { store.new
        ≡ takes bits n w o (sends bits tapes.now n a b o pos.t1 pos.t2 pos.t3 store.old)
        (delivers bits tapes.now line.now n a b o pos.t1 pos.t2 pos.t3 pos.at store.old) store.old }
    ensures transcript_after { transcript.new
        ≡ put_twelve pos.at (delivers bits tapes.now line.now n a b o pos.t1 pos.t2 pos.t3 pos.at store.old) transcript.old }
{
    let s = and_send(tapes, store, n, a, b, o, pos);
    let s1 = deliver4(line, transcript, pos.at, s.s1);
    let s2 = deliver4(line, transcript, pos.at + 4, s.s2);
    let s3 = deliver4(line, transcript, pos.at + 8, s.s3);
    and_take(store, n, w, o, s, Twelve { s1, s2, s3 });
}

// The three sites' pairs of a wire, each read from its own part: what an opening sends.
#[tactic(auto, unfolding(crate::specs::Mirror::held_at))]
pub fn held_at(store: &[u8], n: usize, w: usize) -> Held
    requires store_len { (length store.now ≡ 6 * n) × (n ≤ 4096) }
    requires w_lt_n { w < n }
    ensures { result ≡ held_at n w store.now }
{
    let p1 = run_site::pair_of(&store[0..2 * n], w);
    let p2 = run_site::pair_of(&store[2 * n..4 * n], w);
    let p3 = run_site::pair_of(&store[4 * n..6 * n], w);
    Held { p1, p2, p3 }
}

#[tactic(auto, unfolding(crate::specs::Mirror::put_six))]
fn put_six(transcript: &mut [u8], at: usize, h: Held)
    requires { at + 6 ≤ length transcript.old }
    ensures { transcript.new ≡ put_six at h transcript.old }
{
    transcript[at] = h.p1.x;
    transcript[at + 1] = h.p1.y;
    transcript[at + 2] = h.p2.x;
    transcript[at + 3] = h.p2.y;
    transcript[at + 4] = h.p3.x;
    transcript[at + 5] = h.p3.y;
}

// Six bits delivered.
pub fn deliver6(line: &[u8], transcript: &mut [u8], at: usize, h: Held) -> Held
    requires { (at + 6 ≤ length line.now) × (at + 6 ≤ length transcript.old) }
    ensures value { result ≡ on_line_six bits (line_at line.now at) h }
    ensures transcript_after { transcript.new ≡ put_six at result transcript.old }
{
    let g = run_messages::on_line6(h, line, at);
    put_six(transcript, at, g);
    g
}
