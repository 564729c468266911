// A site's pairs of all wires and the next site's tape anew: one pass over the inputs, one over the gates.
#![tactic(auto)]

ghost use Rattle.std.specs.Prelude.{◌≡◌, ◌+◌, ◌*◌, ◌<◌, length, take, drop};
ghost use Rattle.theory_sharing.specs.Sites.{is, next as after_it};
ghost use Rattle.theory_sharing.specs.Circuit.{ands};
ghost use Rattle.theory_calls.specs.File.{circuit};
ghost use Rattle.theory_calls.specs.Calls.{at_wire};
ghost use Rattle.theory_calls.specs.AtBits.{both_plain};
ghost use Rattle.theory_calls.specs.Statements.{Bits};
ghost use Rattle.check_tests.specs.Seat.{seat};
ghost use Rattle.retape_pairs.specs.Mirror.{Fits, st, further};
ghost use Rattle.retape_passes.specs.Mirror.{InFits, Lengths, input_on, in_state, gates_on, Walked};

use check_tests::Site;
use file_reader::Circuit;
use retape_pairs::{Places, Tapes};

// Input k, whose values are x and y; after is the site after this one.
fn input_step(
    c: &Circuit<'_>,
    site: Site,
    after: Site,
    tapes: &Tapes<'_>,
    room: &mut [u8],
    moved: &mut [u8],
    k: usize,
    x: u8,
    y: u8,
    at: Places,
) -> Places
    requires k_lt_inputs { k < c.now.counts.inputs }
    requires room_len { (length room.old ≡ 4 * (c.now.counts.inputs + c.now.counts.gates)) × (length moved.old ≡ length tapes.now.next.now) }
    requires in_fits { InFits (is (seat site) ((circuit c.now.file.now).owner k)) (is (seat after) ((circuit c.now.file.now).owner k)) (length tapes.now.own.now) (length tapes.now.next.now) (length tapes.now.prev.now) at }
    ensures { st room.new moved.new result
        ≡ input_on tapes.now.own.now tapes.now.next.now tapes.now.prev.now (c.now.counts.inputs + c.now.counts.gates) k x y
        (is (seat site) ((circuit c.now.file.now).owner k)) (is (seat after) ((circuit c.now.file.now).owner k)) (st room.old moved.old at) }
{
    let n = c.wires();
    if file_counts::owns(c, site, k) {
        let d = run_messages::deal(tapes.own, at.own, x);
        retape_pairs::put_in(room, n, k, d.kept());
        return Places {
            own: at.own + 2,
            ..at
        };
    }
    if file_counts::owns(c, after, k) {
        let d = run_messages::deal(tapes.next, at.next, x);
        retape_pairs::put_in(room, n, k, d.prev());
        retape_pairs::put_draws(moved, at.next, d.a ^ (y ^ x), d.b);
        return Places {
            next: at.next + 2,
            ..at
        };
    }
    let d = run_messages::deal(tapes.prev, at.prev, x);
    retape_pairs::put_in(room, n, k, d.next());
    Places {
        prev: at.prev + 2,
        ..at
    }
}

// All inputs, one after the other, from the beginning of the tapes.
fn inputs_pass(
    c: &Circuit<'_>,
    site: Site,
    after: Site,
    inputs: &[u8],
    second: &[u8],
    tapes: &Tapes<'_>,
    room: &mut [u8],
    moved: &mut [u8],
) -> Places
    requires inputs_len { (length inputs.now ≡ c.now.counts.inputs) × (length second.now ≡ c.now.counts.inputs) }
    requires after_site { seat after ≡ after_it (seat site) }
    requires room_len { length room.old ≡ 4 * (c.now.counts.inputs + c.now.counts.gates) }
    requires lengths { Lengths (circuit c.now.file.now) (seat site) (length tapes.now.own.now) (length tapes.now.next.now) (length tapes.now.prev.now) (length moved.old) }
    ensures { st room.new moved.new result
        ≡ in_state (seat site) (circuit c.now.file.now) (at_wire inputs.now) (at_wire second.now) tapes.now.own.now
        tapes.now.next.now tapes.now.prev.now (take (2 * (c.now.counts.inputs + c.now.counts.gates)) room.old)
        (drop (2 * (c.now.counts.inputs + c.now.counts.gates)) room.old) moved.old c.now.counts.inputs }
{
    let mut at = Places {
        own: 0,
        next: 0,
        prev: 0,
    };
    for (k, x) in inputs.iter().enumerate() {
        at = input_step(c, site, after, tapes, room, moved, k, *x, second[k], at);
    }
    at
}

// All gates, one after the other.
fn gates_pass(
    c: &Circuit<'_>,
    site: Site,
    tapes: &Tapes<'_>,
    room: &mut [u8],
    moved: &mut [u8],
    start: Places,
) -> usize
    requires room_len { (length room.old ≡ 4 * (c.now.counts.inputs + c.now.counts.gates)) × (length moved.old ≡ length tapes.now.next.now) }
    requires fits { Fits (ands (circuit c.now.file.now).gate c.now.counts.gates) (length tapes.now.own.now) (length tapes.now.next.now) (length tapes.now.prev.now) start }
    ensures { st room.new moved.new (further start result)
        ≡ gates_on c.now.file.now (seat site) tapes.now.own.now tapes.now.next.now tapes.now.prev.now c.now.counts.inputs
        (c.now.counts.inputs + c.now.counts.gates) (st room.old moved.old start) c.now.counts.gates }
{
    let mut t: usize = 0;
    for k in 0..c.counts.gates {
        t = retape_pairs::gate_step(c, site, tapes, room, moved, k, start, t);
    }
    t
}

// Both passes, over a work room whose first 2W bytes are both sets of plain values: the site's pairs behind them, and the next site's new
// tape.
pub fn pass(
    c: &Circuit<'_>,
    site: Site,
    after: Site,
    inputs: &[u8],
    second: &[u8],
    tapes: &Tapes<'_>,
    room: &mut [u8],
    moved: &mut [u8],
)
    requires inputs_bits { Bits inputs.now c.now.counts.inputs × Bits second.now c.now.counts.inputs }
    requires after_site { seat after ≡ after_it (seat site) }
    requires room_len { length room.old ≡ 4 * (c.now.counts.inputs + c.now.counts.gates) }
    requires lengths { Lengths (circuit c.now.file.now) (seat site) (length tapes.now.own.now) (length tapes.now.next.now) (length tapes.now.prev.now) (length moved.old) }
    requires room_value { take (2 * (c.now.counts.inputs + c.now.counts.gates)) room.old ≡ both_plain (circuit c.now.file.now) inputs.now second.now }
    ensures { Walked (seat site) (circuit c.now.file.now) inputs.now second.now tapes.now.own.now tapes.now.next.now
        tapes.now.prev.now room.new moved.new }
{
    let at = inputs_pass(c, site, after, inputs, second, tapes, room, moved);
    gates_pass(c, site, tapes, room, moved, at);
}
