// Openings: judged in the first pass, which stops at the first output with unlike copies; handed over in the second.
#![tactic(auto)]

ghost use Rattle.std.specs.Prelude.{◌≡◌, suc, ◌+◌, ◌*◌, ◌<◌, ◌≤◌, min, length};
ghost use Rattle.theory_calls.specs.File.{circuit};
ghost use Rattle.run_steps.specs.Mirror.{held_at};
ghost use Rattle.run_passes.specs.Mirror.{objects_on, open_on, opens_on, put_three, hand_on, hands_on};
ghost use Rattle.run_openings.specs.Mirror.{first_objected, stop_by};

use file_reader::Circuit;
use run_messages::{Held, Three};

// Where the run stops: an output at which sites object, and those sites as a sum of 1, 2 and 4.
#[derive(Clone, Copy)]
pub struct Stop {
    pub output: usize,
    pub sites: usize,
}

// What the three sites hold of the wire of output k.
pub fn output_pairs(c: &Circuit<'_>, store: &[u8], k: usize) -> Held
    requires k_lt_outputs { k < c.now.counts.outputs }
    requires store_len { length store.now ≡ 6 * (c.now.counts.inputs + c.now.counts.gates) }
    ensures { result ≡ held_at (c.now.counts.inputs + c.now.counts.gates) ((circuit c.now.file.now).out k) store.now }
{
    let n = c.wires();
    let w = c.output(k);
    run_steps::held_at(store, n, w as usize)
}

// Opens output k: what was delivered stands in the transcript, and the answer is the sites whose copies are unlike.
#[tactic(auto, unfolding(run_passes::specs::Mirror::opening, run_passes::specs::Mirror::objects_on, run_passes::specs::Mirror::open_on))]
fn open_step(
    c: &Circuit<'_>,
    line: &[u8],
    store: &[u8],
    transcript: &mut [u8],
    at: usize,
    k: usize,
) -> usize
    requires k_lt_outputs { k < c.now.counts.outputs }
    requires store_len { length store.now ≡ 6 * (c.now.counts.inputs + c.now.counts.gates) }
    requires openings_fit { (at + 6 * c.now.counts.outputs ≤ length line.now) × (at + 6 * c.now.counts.outputs ≤ length transcript.old) × (at ≤ 65536) }
    ensures value { result ≡ objects_on c.now.file.now line.now store.now (c.now.counts.inputs + c.now.counts.gates) at k }
    ensures transcript_after { transcript.new ≡ open_on c.now.file.now line.now store.now (c.now.counts.inputs + c.now.counts.gates) at k transcript.old }
{
    let h = output_pairs(c, store, k);
    let g = run_steps::deliver6(line, transcript, at + 6 * k, h);
    run_copies::objecting(g)
}

// The first pass: outputs in order, and nothing is opened after one at which a site objects.
pub fn judge(
    c: &Circuit<'_>,
    line: &[u8],
    store: &[u8],
    transcript: &mut [u8],
    at: usize,
) -> Option<Stop>
    requires store_len { length store.now ≡ 6 * (c.now.counts.inputs + c.now.counts.gates) }
    requires openings_fit { (at + 6 * c.now.counts.outputs ≤ length line.now) × (at + 6 * c.now.counts.outputs ≤ length transcript.old) × (at ≤ 65536) }
    ensures stop { result ≡ stop_by (objects_on c.now.file.now line.now store.now (c.now.counts.inputs + c.now.counts.gates) at) c.now.counts.outputs }
    ensures transcript_after { transcript.new
        ≡ opens_on c.now.file.now line.now store.now (c.now.counts.inputs + c.now.counts.gates) at transcript.old
        (min (suc (first_objected (objects_on c.now.file.now line.now store.now (c.now.counts.inputs + c.now.counts.gates) at) c.now.counts.outputs)) c.now.counts.outputs) }
{
    for k in 0..c.counts.outputs {
        let sites = open_step(c, line, store, transcript, at, k);
        if sites != 0 {
            return Some(Stop { output: k, sites });
        }
    }
    None
}

// What the three sites open, side by side.
#[tactic(auto, unfolding(run_passes::specs::Mirror::put_three))]
fn put3(outs: &mut [u8], at: usize, m: Three)
    requires { at + 3 ≤ length outs.old }
    ensures { outs.new ≡ put_three at m outs.old }
{
    outs[at] = m.a;
    outs[at + 1] = m.b;
    outs[at + 2] = m.c;
}

// Hands over output k: each site's pair of the wire with the copy it got first, which the first pass left in the transcript: from 2 to 1, from 1 to 2, from 1 to 3.
#[tactic(auto, unfolding(run_passes::specs::Mirror::hand_on))]
fn hand_step(c: &Circuit<'_>, store: &[u8], tr: &[u8], outs: &mut [u8], at: usize, k: usize)
    requires k_lt_outputs { k < c.now.counts.outputs }
    requires store_len { length store.now ≡ 6 * (c.now.counts.inputs + c.now.counts.gates) }
    requires openings_fit { (at + 6 * c.now.counts.outputs ≤ length tr.now) × (length outs.old ≡ 3 * c.now.counts.outputs) × (at ≤ 65536) }
    ensures { outs.new ≡ hand_on c.now.file.now tr.now store.now (c.now.counts.inputs + c.now.counts.gates) at k outs.old }
{
    let h = output_pairs(c, store, k);
    let p = at + 6 * k;
    let m = run_copies::opened(h, tr[p + 3], tr[p], tr[p + 1]);
    put3(outs, 3 * k, m);
}

// The second pass, after a first that met no unlike copies: all outputs, in order.
pub fn hand_over(c: &Circuit<'_>, store: &[u8], tr: &[u8], outs: &mut [u8], at: usize)
    requires store_len { length store.now ≡ 6 * (c.now.counts.inputs + c.now.counts.gates) }
    requires openings_fit { (at + 6 * c.now.counts.outputs ≤ length tr.now) × (length outs.old ≡ 3 * c.now.counts.outputs) × (at ≤ 65536) }
    ensures { outs.new ≡ hands_on c.now.file.now tr.now store.now (c.now.counts.inputs + c.now.counts.gates) at outs.old c.now.counts.outputs }
{
    for k in 0..c.counts.outputs {
        hand_step(c, store, tr, outs, at, k);
    }
}
