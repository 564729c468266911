// Three of the four parts of a site's view, each written into its own part of the view: own inputs, delivered bits, opened bits. Own tape is a copy.
#![tactic(auto)]

ghost use Rattle.std.specs.Prelude.{◌≡◌, ◌+◌, ◌*◌, ◌<◌, ◌≤◌, length};
ghost use Rattle.theory_sharing.specs.Circuit.{all_owned};
ghost use Rattle.theory_sharing.specs.View.{own_ins};
ghost use Rattle.theory_calls.specs.File.{circuit};
ghost use Rattle.theory_calls.specs.Calls.{at_wire};
ghost use Rattle.theory_calls.specs.AtBits.{clean_store};
ghost use Rattle.check_tests.specs.Seat.{seat};
ghost use Rattle.view_inputs.specs.Mirror.{start_seen, Seeing};
ghost use Rattle.view_parts.specs.Mirror.{copies_of_site, copies_on, copies_all, opened_on, opened_all, all_seen};

use check_tests::Site;
use file_reader::Circuit;
use run_messages::{Held, Two};
use run_steps::Pos;

// "own inputs in wire order"
pub fn own_inputs(c: &Circuit<'_>, inputs: &[u8], part: &mut [u8], site: Site)
    requires inputs_len { length inputs.now ≡ c.now.counts.inputs }
    requires part_len { length part.old ≡ all_owned (circuit c.now.file.now) (seat site) }
    ensures { part.new ≡ own_ins (seat site) (circuit c.now.file.now) (at_wire inputs.now) (circuit c.now.file.now).ins }
{
    let mut p: usize = 0;
    for (k, v) in inputs.iter().enumerate() {
        if file_counts::owns(c, site, k) {
            part[p] = *v;
            p += 1;
        }
    }
}

// Of the six bits of an opening, the two that reach the site: both copies of the part that it lacks. By `if`, here and in `held_by`: a `match` on the
// site is not taken out of the loops over the outputs, and a view of a circuit of few wires and 256 outputs took half as long again, and more.
#[tactic(auto, unfolding(crate::specs::Mirror::copies_of_site))]
fn copies_of_site(h: Held, site: Site) -> Two
    ensures { result ≡ copies_of_site (seat site) h }
{
    if site == Site::One {
        return Two {
            x: h.p2.y,
            y: h.p3.x,
        };
    }
    if site == Site::Two {
        return Two {
            x: h.p1.x,
            y: h.p3.y,
        };
    }
    Two {
        x: h.p1.y,
        y: h.p2.x,
    }
}

// The two bits that reach the site at output k's opening.
#[tactic(auto, unfolding(crate::specs::Mirror::copies_on))]
fn copies_step(c: &Circuit<'_>, store: &[u8], got: &mut [u8], site: Site, at: usize, k: usize)
    requires k_lt_outputs { k < c.now.counts.outputs }
    requires store_len { length store.now ≡ 6 * (c.now.counts.inputs + c.now.counts.gates) }
    requires copies_fit { (at + 2 * c.now.counts.outputs ≤ length got.old) × (at ≤ 65536) }
    ensures { got.new ≡ copies_on (seat site) c.now.file.now store.now (c.now.counts.inputs + c.now.counts.gates) at k got.old }
{
    let h = run_openings::output_pairs(c, store, k);
    view_inputs::put_two(got, at + 2 * k, copies_of_site(h, site));
}

// The openings: two delivered bits each, from place at on.
fn copies_pass(c: &Circuit<'_>, store: &[u8], got: &mut [u8], site: Site, at: usize)
    requires store_len { length store.now ≡ 6 * (c.now.counts.inputs + c.now.counts.gates) }
    requires copies_fit { (at + 2 * c.now.counts.outputs ≤ length got.old) × (at ≤ 65536) }
    ensures { got.new ≡ copies_all (seat site) c.now.file.now store.now (c.now.counts.inputs + c.now.counts.gates) at got.old c.now.counts.outputs }
{
    for k in 0..c.counts.outputs {
        copies_step(c, store, got, site, at, k);
    }
}

// "bits delivered to s in transcript order": of inputs, gates and openings, one pass each. The store is that of a clean run.
pub fn delivered(
    c: &Circuit<'_>,
    inputs: &[u8],
    tapes: &[u8],
    store: &mut [u8],
    got: &mut [u8],
    site: Site,
    pos: Pos,
)
    requires seeing { Seeing c.now.file.now c.now.counts (seat site) (length tapes.now) (length got.old) (length store.old) }
    requires inputs_len { length inputs.now ≡ c.now.counts.inputs }
    requires start { pos ≡ start_seen (circuit c.now.file.now) }
    ensures store_after { store.new ≡ clean_store c.now.file.now inputs.now tapes.now }
    ensures got_after { got.new ≡ all_seen (seat site) c.now.file.now inputs.now tapes.now }
{
    let q = view_inputs::inputs_pass(c, inputs, tapes, store, got, site, pos);
    let z = view_gates::gates_pass(c, tapes, store, got, site, q);
    copies_pass(c, store, got, site, z.at);
}

// What the site opens at output k: the xor of its pair and of the copy that it got first.
#[tactic(auto, unfolding(crate::specs::Mirror::opened_on, crate::specs::Mirror::opened_bit))]
fn opened_step(c: &Circuit<'_>, store: &[u8], part: &mut [u8], site: Site, k: usize)
    requires k_lt_outputs { k < c.now.counts.outputs }
    requires store_len { length store.now ≡ 6 * (c.now.counts.inputs + c.now.counts.gates) }
    requires part_len { length part.old ≡ c.now.counts.outputs }
    ensures { part.new ≡ opened_on (seat site) c.now.file.now store.now (c.now.counts.inputs + c.now.counts.gates) k part.old }
{
    let h = run_openings::output_pairs(c, store, k);
    let p = view_inputs::held_by(h, site);
    let g = copies_of_site(h, site);
    part[k] = p.x ^ p.y ^ g.x;
}

// "then opened bits"
pub fn opened_bits(c: &Circuit<'_>, store: &[u8], part: &mut [u8], site: Site)
    requires store_len { length store.now ≡ 6 * (c.now.counts.inputs + c.now.counts.gates) }
    requires part_len { length part.old ≡ c.now.counts.outputs }
    ensures { part.new ≡ opened_all (seat site) c.now.file.now store.now (c.now.counts.inputs + c.now.counts.gates) part.old c.now.counts.outputs }
{
    for k in 0..c.counts.outputs {
        opened_step(c, store, part, site, k);
    }
}
