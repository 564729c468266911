// What the inputs bring to one site on a clean line: the steps of a run, of which it keeps the bits that reach it.
#![tactic(auto)]

ghost use Rattle.std.specs.Prelude.{◌≡◌, cond, ◌+◌, ◌*◌, ◌<◌, ◌≤◌, length};
ghost use Rattle.theory_sharing.specs.Sites.{is};
ghost use Rattle.theory_sharing.specs.Tapes.{read};
ghost use Rattle.theory_calls.specs.File.{circuit, owner_at, site_of};
ghost use Rattle.theory_calls.specs.Calls.{at_wire};
ghost use Rattle.check_tests.specs.Seat.{seat};
ghost use Rattle.run_passes.specs.Mirror.{Small, st, own_place};
ghost use Rattle.view_inputs.specs.Mirror.{pair_of_site, put_two, see_two, past_two, input_seen, ins_seen, start_seen, Seeing};

use check_tests::Site;
use file_reader::Circuit;
use run_messages::{Held, Two};
use run_steps::Pos;

// Of three pairs, the site's. Part by part, so that no pair has to be in memory.
#[tactic(auto, unfolding(crate::specs::Mirror::pair_of_site))]
pub fn held_by(h: Held, site: Site) -> Two
    ensures { result ≡ pair_of_site (seat site) h }
{
    if site == Site::One {
        return Two {
            x: h.p1.x,
            y: h.p1.y,
        };
    }
    if site == Site::Two {
        return Two {
            x: h.p2.x,
            y: h.p2.y,
        };
    }
    Two {
        x: h.p3.x,
        y: h.p3.y,
    }
}

// The same for a site's number, whatever it is: any but 1 and 2 stands for site 3.
pub fn pair_of_site(h: Held, site: usize) -> Two
    ensures { result ≡ pair_of_site (site_of site) h }
{
    held_by(h, Site::of(site))
}

// Two delivered bits.
#[tactic(auto, unfolding(crate::specs::Mirror::put_two))]
pub fn put_two(room: &mut [u8], at: usize, p: Two)
    requires { (at < length room.old) × (at + 1 < length room.old) }
    ensures { room.new ≡ put_two at p room.old }
{
    room[at] = p.x;
    room[at + 1] = p.y;
}

// The site's pair of an input is delivered to it, unless it dealt it itself. Gives the place after it.
#[tactic(auto, unfolding(crate::specs::Mirror::see_two, crate::specs::Mirror::past_two))]
fn see_two(room: &mut [u8], at: usize, own: bool, p: Two) -> usize
    requires { (at + cond own 0 2 ≤ length room.old) × (at ≤ 65536) }
    ensures room_after { room.new ≡ see_two own at p room.old }
    ensures value { result ≡ past_two own at }
{
    if own {
        return at;
    }
    put_two(room, at, p);
    at + 2
}

// Input k, whose value is v: its owner shares it, the sites hold.
#[tactic(auto, unfolding(crate::specs::Mirror::input_seen))]
fn input_step(
    c: &Circuit<'_>,
    tapes: &[u8],
    store: &mut [u8],
    got: &mut [u8],
    site: Site,
    k: usize,
    v: u8,
    pos: Pos,
) -> Pos
    requires k_lt_inputs { k < c.now.counts.inputs }
    requires store_len { length store.old ≡ 6 * (c.now.counts.inputs + c.now.counts.gates) }
    requires small { Small pos }
    requires room { (own_place (owner_at c.now.file.now k) pos + 2 ≤ length tapes.now) × (pos.at + cond (is (seat site) ((circuit c.now.file.now).owner k)) 0 2 ≤ length got.old) }
    ensures { st store.new got.new result
        ≡ input_seen (seat site) tapes.now (c.now.counts.inputs + c.now.counts.gates) k v (owner_at c.now.file.now k)
        (is (seat site) ((circuit c.now.file.now).owner k)) (st store.old got.old pos) }
{
    let owner = c.owner(k);
    let own = file_counts::owns(c, site, k);
    let next = run_passes::next_input(owner, pos);
    let t = run_passes::own_place(owner, pos);
    let dealt = run_messages::deal(tapes, t, v);
    let h = run_messages::in_pairs(owner, dealt, dealt);
    run_steps::put_held(store, c.wires(), k, h);
    let at = see_two(got, pos.at, own, held_by(h, site));
    Pos { at, ..next }
}

// All inputs, from buffers as they are lent.
pub fn inputs_pass(
    c: &Circuit<'_>,
    inputs: &[u8],
    tapes: &[u8],
    store: &mut [u8],
    got: &mut [u8],
    site: Site,
    mut pos: Pos,
) -> Pos
    requires seeing { Seeing c.now.file.now c.now.counts (seat site) (length tapes.now) (length got.old) (length store.old) }
    requires inputs_len { length inputs.now ≡ c.now.counts.inputs }
    requires start { pos ≡ start_seen (circuit c.now.file.now) }
    ensures { st store.new got.new result
        ≡ ins_seen (seat site) (circuit c.now.file.now) (at_wire inputs.now) (read (circuit c.now.file.now) tapes.now)
        (c.now.counts.inputs + c.now.counts.gates) store.old got.old c.now.counts.inputs }
{
    for (k, v) in inputs.iter().enumerate() {
        pos = input_step(c, tapes, store, got, site, k, *v, pos);
    }
    pos
}
