// The passes of a run over inputs and gates.
#![tactic(auto)]

ghost use Rattle.std.specs.Prelude.{◌≡◌, ◌+◌, ◌*◌, ◌<◌, ◌≤◌, length};
ghost use Rattle.theory_sharing.specs.Circuit.{dealing, ands};
ghost use Rattle.theory_calls.specs.File.{circuit, owner_at};
ghost use Rattle.run_passes.specs.Mirror.{st, Small, next_pos, and_on, gate_on, step_by, Below, Room, gates_on, own_place, in_pos, input_on, inputs_on, InRoom};

use file_reader::Circuit;
pub use run_steps::Pos;

// What the sites do at a gate: at an XOR they add, at a NOT they flip, at an AND (0) or OR (1) they deal.
#[derive(Clone, Copy)]
pub enum Step {
    Add(usize, usize),
    Flip(usize),
    Deal(usize, usize, u8),
}

// Gate k as a step: here alone is a kind's number asked for, 1 of XOR and 3 of NOT. AND and OR are one case, so that the step is called, and
// compiled, at one place.
pub fn step_at(c: &Circuit<'_>, k: usize) -> Step
    requires { k < c.now.counts.gates }
    ensures is { result ≡ step_by ((circuit c.now.file.now).gate k) }
    ensures below { Below result (c.now.counts.inputs + k) }
{
    let gate = c.gate(k);
    let a = gate.first as usize;
    let b = gate.second as usize;
    match gate.kind {
        1 => Step::Add(a, b),
        3 => Step::Flip(a),
        kind => Step::Deal(a, b, run_steps::or_bit(kind)),
    }
}

// The places after an AND or OR: two bits of each tape, twelve of the line.
#[tactic(auto, unfolding(crate::specs::Mirror::next_pos))]
fn next(pos: Pos) -> Pos
    requires { Small pos }
    ensures { result ≡ next_pos pos }
{
    Pos {
        t1: pos.t1 + 2,
        t2: pos.t2 + 2,
        t3: pos.t3 + 2,
        at: pos.at + 12,
    }
}

// AND and OR: the sites send, the line delivers, the sites take.
#[tactic(auto, unfolding(crate::specs::Mirror::and_on))]
pub fn and_gate(
    tapes: &[u8],
    line: &[u8],
    store: &mut [u8],
    transcript: &mut [u8],
    n: usize,
    a: usize,
    b: usize,
    w: usize,
    o: u8,
    pos: Pos,
) -> Pos
    requires store_len { (length store.old ≡ 6 * n) × (n ≤ 4096) }
    requires a_lt_n { (a < n) × (b < n) × (w < n) }
    requires room { Room 1 (length tapes.now) (length line.now) (length transcript.old) pos }
    ensures { st store.new transcript.new result ≡ and_on tapes.now line.now n a b w o (st store.old transcript.old pos) }
{
    let z = next(pos);
    run_steps::and_step(tapes, line, store, transcript, n, a, b, w, o, pos);
    z
}

// Gate k. The four slices stay four, here and below: in a struct of them the store and the transcript would be reached through it at each gate.
fn gate_step(
    c: &Circuit<'_>,
    tapes: &[u8],
    line: &[u8],
    store: &mut [u8],
    transcript: &mut [u8],
    k: usize,
    pos: Pos,
) -> Pos
    requires k_lt_gates { k < c.now.counts.gates }
    requires store_len { length store.old ≡ 6 * (c.now.counts.inputs + c.now.counts.gates) }
    requires room { Room (dealing ((circuit c.now.file.now).gate k)) (length tapes.now) (length line.now) (length transcript.old) pos }
    ensures { st store.new transcript.new result
        ≡ gate_on tapes.now line.now (c.now.counts.inputs + c.now.counts.gates) (c.now.counts.inputs + k) ((circuit c.now.file.now).gate k)
        (st store.old transcript.old pos) }
{
    let n = c.wires();
    let w = c.counts.inputs + k;
    match step_at(c, k) {
        Step::Add(a, b) => {
            run_steps::add_sites(store, n, a, b, w);
            pos
        }
        Step::Flip(a) => {
            run_steps::not_sites(store, n, a, w);
            pos
        }
        Step::Deal(a, b, o) => and_gate(tapes, line, store, transcript, n, a, b, w, o, pos),
    }
}

// All gates, one after the other.
pub fn gates_pass(
    c: &Circuit<'_>,
    tapes: &[u8],
    line: &[u8],
    store: &mut [u8],
    transcript: &mut [u8],
    mut pos: Pos,
) -> Pos
    requires store_len { length store.old ≡ 6 * (c.now.counts.inputs + c.now.counts.gates) }
    requires room { Room (ands (circuit c.now.file.now).gate c.now.counts.gates) (length tapes.now) (length line.now) (length transcript.old) pos }
    ensures { st store.new transcript.new result
        ≡ gates_on c.now.file.now tapes.now line.now c.now.counts.inputs (c.now.counts.inputs + c.now.counts.gates)
        (st store.old transcript.old pos) c.now.counts.gates }
{
    for k in 0..c.counts.gates {
        pos = gate_step(c, tapes, line, store, transcript, k, pos);
    }
    pos
}

// Where on its owner's tape the two draws of an input stand. The owner is the byte that the file has, 1, 2 or 3.
#[tactic(auto, unfolding(crate::specs::Mirror::own_place))]
pub fn own_place(owner: u8, pos: Pos) -> usize
    ensures { result ≡ own_place owner pos }
{
    match owner {
        1 => pos.t1,
        2 => pos.t2,
        _ => pos.t3,
    }
}

// The places after an input: two bits of its owner's tape, four of the line.
#[tactic(auto, unfolding(crate::specs::Mirror::in_pos))]
pub fn next_input(owner: u8, pos: Pos) -> Pos
    requires { Small pos }
    ensures { result ≡ in_pos owner pos }
{
    let at = pos.at + 4;
    match owner {
        1 => Pos {
            t1: pos.t1 + 2,
            at,
            ..pos
        },
        2 => Pos {
            t2: pos.t2 + 2,
            at,
            ..pos
        },
        _ => Pos {
            t3: pos.t3 + 2,
            at,
            ..pos
        },
    }
}

// Input k, whose value is v: its owner shares it, the line delivers, the sites hold.
#[tactic(auto, unfolding(crate::specs::Mirror::input_on))]
fn input_step(
    c: &Circuit<'_>,
    tapes: &[u8],
    line: &[u8],
    store: &mut [u8],
    transcript: &mut [u8],
    k: usize,
    v: u8,
    pos: Pos,
) -> Pos
    requires k_lt_inputs { k < c.now.counts.inputs }
    requires store_len { length store.old ≡ 6 * (c.now.counts.inputs + c.now.counts.gates) }
    requires small { Small pos }
    requires room { (own_place (owner_at c.now.file.now k) pos + 2 ≤ length tapes.now) × (pos.at + 4 ≤ length line.now) × (pos.at + 4 ≤ length transcript.old) }
    ensures { st store.new transcript.new result
        ≡ input_on tapes.now line.now (c.now.counts.inputs + c.now.counts.gates) k v (owner_at c.now.file.now k)
        (st store.old transcript.old pos) }
{
    let owner = c.owner(k);
    let z = next_input(owner, pos);
    let t = own_place(owner, pos);
    let kept = run_messages::deal(tapes, t, v);
    let got = run_steps::deliver4(line, transcript, pos.at, kept);
    let h = run_messages::in_pairs(owner, kept, got);
    run_steps::put_held(store, c.wires(), k, h);
    z
}

// All inputs, one after the other.
pub fn inputs_pass(
    c: &Circuit<'_>,
    inputs: &[u8],
    tapes: &[u8],
    line: &[u8],
    store: &mut [u8],
    transcript: &mut [u8],
    mut pos: Pos,
) -> Pos
    requires inputs_len { length inputs.now ≡ c.now.counts.inputs }
    requires store_len { length store.old ≡ 6 * (c.now.counts.inputs + c.now.counts.gates) }
    requires in_room { InRoom (circuit c.now.file.now).owner c.now.counts.inputs (length tapes.now) (length line.now) (length transcript.old) pos }
    ensures { st store.new transcript.new result
        ≡ inputs_on c.now.file.now inputs.now tapes.now line.now (c.now.counts.inputs + c.now.counts.gates)
        (st store.old transcript.old pos) c.now.counts.inputs }
{
    for (k, v) in inputs.iter().enumerate() {
        pos = input_step(c, tapes, line, store, transcript, k, *v, pos);
    }
    pos
}
