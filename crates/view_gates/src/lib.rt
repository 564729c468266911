// What the gates bring to one site on a clean line: the steps of a run, of which it keeps the bits that reach it.
#![tactic(auto)]

ghost use Rattle.std.specs.Prelude.{◌≡◌, ◌+◌, ◌*◌, ◌<◌, ◌≤◌, length};
ghost use Rattle.theory_sharing.specs.Circuit.{dealing};
ghost use Rattle.theory_calls.specs.File.{circuit};
ghost use Rattle.check_tests.specs.Seat.{seat};
ghost use Rattle.run_passes.specs.Mirror.{Small, st};
ghost use Rattle.view_inputs.specs.Mirror.{four_of_site, past_and, and_seen, gate_seen, gates_seen, AndRoom, Seeing, Begun};

use check_tests::Site;
use file_reader::Circuit;
use run_messages::{Four, Twelve};
use run_passes::Step;
use run_steps::Pos;

// Of the twelve bits of an AND or OR, the four that reach the site: two from each other sender, senders in order.
#[tactic(auto, unfolding(view_inputs::specs::Mirror::four_of_site))]
fn four_of_site(m: Twelve, site: Site) -> Four
    ensures { result ≡ four_of_site (seat site) m }
{
    match site {
        Site::One => Four {
            a: m.s2.c,
            b: m.s2.d,
            c: m.s3.a,
            d: m.s3.b,
        },
        Site::Two => Four {
            a: m.s1.a,
            b: m.s1.b,
            c: m.s3.c,
            d: m.s3.d,
        },
        Site::Three => Four {
            a: m.s1.c,
            b: m.s1.d,
            c: m.s2.a,
            d: m.s2.b,
        },
    }
}

// The places after an AND or OR: two bits of each tape, four delivered.
#[tactic(auto, unfolding(view_inputs::specs::Mirror::past_and))]
fn after_and(pos: Pos) -> Pos
    requires { Small pos }
    ensures { result ≡ past_and pos }
{
    Pos {
        t1: pos.t1 + 2,
        t2: pos.t2 + 2,
        t3: pos.t3 + 2,
        at: pos.at + 4,
    }
}

// AND and OR: the sites send and take, the site sees what reaches it. The slices and the wires stay apart, as in run_passes.
#[tactic(auto, unfolding(view_inputs::specs::Mirror::and_seen))]
fn and_gate(
    tapes: &[u8],
    store: &mut [u8],
    got: &mut [u8],
    site: Site,
    n: usize,
    a: usize,
    b: usize,
    w: usize,
    o: u8,
    pos: Pos,
) -> Pos
    requires store_len { (length store.old ≡ 6 * n) × (n ≤ 4096) }
    requires a_lt_n { (a < n) × (b < n) × (w < n) }
    requires and_room { AndRoom 1 (length tapes.now) (length got.old) pos }
    ensures { st store.new got.new result ≡ and_seen (seat site) tapes.now n a b w o (st store.old got.old pos) }
{
    let s = run_steps::and_send(tapes, store, n, a, b, o, pos);
    run_steps::and_take(store, n, w, o, s, s);
    run_steps::put4(got, pos.at, four_of_site(s, site));
    after_and(pos)
}

// Gate k.
fn gate_step(
    c: &Circuit<'_>,
    tapes: &[u8],
    store: &mut [u8],
    got: &mut [u8],
    site: Site,
    k: usize,
    pos: Pos,
) -> Pos
    requires k_lt_gates { k < c.now.counts.gates }
    requires store_len { length store.old ≡ 6 * (c.now.counts.inputs + c.now.counts.gates) }
    requires and_room { AndRoom (dealing ((circuit c.now.file.now).gate k)) (length tapes.now) (length got.old) pos }
    ensures { st store.new got.new result
        ≡ gate_seen (seat site) tapes.now (c.now.counts.inputs + c.now.counts.gates) (c.now.counts.inputs + k)
        ((circuit c.now.file.now).gate k) (st store.old got.old pos) }
{
    let n = c.wires();
    let w = c.counts.inputs + k;
    match run_passes::step_at(c, k) {
        Step::Add(a, b) => {
            run_steps::add_sites(store, n, a, b, w);
            pos
        }
        Step::Flip(a) => {
            run_steps::not_sites(store, n, a, w);
            pos
        }
        Step::Deal(a, b, o) => and_gate(tapes, store, got, site, n, a, b, w, o, pos),
    }
}

// All gates, from where the inputs ended.
pub fn gates_pass(
    c: &Circuit<'_>,
    tapes: &[u8],
    store: &mut [u8],
    got: &mut [u8],
    site: Site,
    mut pos: Pos,
) -> Pos
    requires seeing { Seeing c.now.file.now c.now.counts (seat site) (length tapes.now) (length got.old) (length store.old) }
    requires begun { Begun c.now.file.now (seat site) tapes.now (c.now.counts.inputs + c.now.counts.gates) (length got.old) (st store.old got.old pos) }
    ensures { st store.new got.new result
        ≡ gates_seen (seat site) c.now.file.now tapes.now c.now.counts.inputs (c.now.counts.inputs + c.now.counts.gates)
        (st store.old got.old pos) c.now.counts.gates }
{
    for k in 0..c.counts.gates {
        pos = gate_step(c, tapes, store, got, site, k, pos);
    }
    pos
}
