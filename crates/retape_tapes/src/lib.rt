// The new tapes and the work room of a checked re-taping: both sets of plain values; a copy of the tapes, in which the next site's is anew.
#![tactic(auto)]

ghost use Rattle.std.specs.Prelude.{◌≡◌, ◌+◌, ◌*◌, ◌≤◌, length, take};
ghost use Rattle.theory_sharing.specs.Sites.{next, prev};
ghost use Rattle.theory_sharing.specs.Store.{fill};
ghost use Rattle.theory_calls.specs.File.{circuit};
ghost use Rattle.theory_calls.specs.Checks.{tapes_want};
ghost use Rattle.theory_calls.specs.Statements.{Bits};
ghost use Rattle.theory_calls.specs.AtBits.{both_plain, room_on, tapes_on};
ghost use Rattle.check_tests.specs.Seat.{seat, number_of};
ghost use Rattle.retape_tapes.specs.Mirror.{span_of, span_in};

use check_tests::Site;
use file_counts::Counted;
use file_reader::Circuit;
use retape_pairs::Tapes;
use std::ops::Range;

// Where a site's tape stands: site 1's of a bits first, then site 2's of b, then site 3's up to the end.
fn tape_of(site: Site, a: usize, b: usize, all: usize) -> Range<usize>
    requires { (a ≤ 65536) × (b ≤ 65536) }
    ensures { result ≡ span_of (seat site) a b all }
{
    match site {
        Site::One => 0..a,
        Site::Two => a..a + b,
        Site::Three => a + b..all,
    }
}

// Plain values under both inputs, in the first 2W bytes of the work room.
pub fn both_values(c: &Circuit<'_>, inputs: &[u8], second: &[u8], room: &mut [u8])
    requires inputs_len { (length inputs.now ≡ c.now.counts.inputs) × (length second.now ≡ c.now.counts.inputs) }
    requires room_len { length room.old ≡ 4 * (c.now.counts.inputs + c.now.counts.gates) }
    ensures { room.new ≡ fill room.old (both_plain (circuit c.now.file.now) inputs.now second.now) }
{
    let n = c.wires();
    plain::values_pass(c, inputs, &mut room[0..n]);
    plain::values_pass(c, second, &mut room[n..2 * n]);
}

// The pass of a site over tapes that stand at o, n and p: its own, the next one's, the one's before. The new tapes are a copy as yet.
fn pass_on(
    c: &Circuit<'_>,
    site: Site,
    after: Site,
    inputs: &[u8],
    second: &[u8],
    tapes: &[u8],
    fresh: &mut [u8],
    room: &mut [u8],
    o: Range<usize>,
    n: Range<usize>,
    p: Range<usize>,
)
    requires inputs_bits { Bits inputs.now c.now.counts.inputs × Bits second.now c.now.counts.inputs }
    requires after_site { seat after ≡ next (seat site) }
    requires room_len { length room.old ≡ 4 * (c.now.counts.inputs + c.now.counts.gates) }
    requires tapes_len { (length tapes.now ≡ tapes_want (circuit c.now.file.now)) × (fresh.old ≡ tapes.now) }
    requires spans { (o ≡ span_in (circuit c.now.file.now) (seat site)) × (n ≡ span_in (circuit c.now.file.now) (next (seat site))) × (p ≡ span_in (circuit c.now.file.now) (prev (seat site))) }
    requires room_value { take (2 * (c.now.counts.inputs + c.now.counts.gates)) room.old ≡ both_plain (circuit c.now.file.now) inputs.now second.now }
    ensures fresh_after { fresh.new ≡ tapes_on c.now.file.now inputs.now tapes.now second.now (number_of site) }
    ensures room_after { room.new ≡ room_on c.now.file.now inputs.now tapes.now second.now (number_of site) }
{
    let parts = Tapes {
        own: &tapes[o.start..o.end],
        next: &tapes[n.start..n.end],
        prev: &tapes[p.start..p.end],
    };
    let moved = &mut fresh[n.start..n.end];
    retape_passes::pass(c, site, after, inputs, second, &parts, room, moved);
}

// The new tapes, and the site's pairs in the work room behind both sets of plain values.
pub fn renew(
    c: &Counted<'_>,
    site: Site,
    inputs: &[u8],
    second: &[u8],
    tapes: &[u8],
    fresh: &mut [u8],
    room: &mut [u8],
)
    requires inputs_bits { Bits inputs.now c.now.circuit.counts.inputs × Bits second.now c.now.circuit.counts.inputs }
    requires tapes_len { (length tapes.now ≡ tapes_want (circuit c.now.circuit.file.now)) × (length fresh.old ≡ tapes_want (circuit c.now.circuit.file.now)) }
    requires room_len { length room.old ≡ 4 * (c.now.circuit.counts.inputs + c.now.circuit.counts.gates) }
    requires room_value { take (2 * (c.now.circuit.counts.inputs + c.now.circuit.counts.gates)) room.old ≡ both_plain (circuit c.now.circuit.file.now) inputs.now second.now }
    ensures fresh_after { fresh.new ≡ tapes_on c.now.circuit.file.now inputs.now tapes.now second.now (number_of site) }
    ensures room_after { room.new ≡ room_on c.now.circuit.file.now inputs.now tapes.now second.now (number_of site) }
{
    let one = 2 * (file_counts::owned_by(&c.circuit, Site::One) + c.ands);
    let two = 2 * (file_counts::owned_by(&c.circuit, Site::Two) + c.ands);
    let all = tapes.len();
    let after = site.next();
    let before = after.next();
    let o = tape_of(site, one, two, all);
    let n = tape_of(after, one, two, all);
    let p = tape_of(before, one, two, all);
    file_numbers::copy(tapes, fresh);
    pass_on(
        &c.circuit, site, after, inputs, second, tapes, fresh, room, o, n, p,
    );
}
