// 13, in its two halves: the first own input that differs, the first opened bit that differs.
#![tactic(auto)]

ghost use Rattle.std.specs.Prelude.{◌≡◌, ◌+◌, ◌*◌, ◌<◌, length, take};
ghost use Rattle.theory_sharing.specs.First.{first};
ghost use Rattle.theory_calls.specs.File.{circuit, site_of};
ghost use Rattle.theory_calls.specs.Checks.{fault};
ghost use Rattle.theory_calls.specs.AtBits.{row_differs, both_plain};
ghost use Rattle.check_refusal.specs.Found.{some_below};
ghost use Rattle.check_tests.specs.Seat.{seat, number_of};
ghost use Rattle.retape_differs.specs.Mirror.{own_differs, opened_differs};

use check_tests::Site;
use file_reader::Circuit;

// An own input that differs. Whose it is is asked first: compiled code must not jump on another site's bits.
#[tactic(auto, unfolding(crate::specs::Mirror::own_differs))]
fn own_bad(c: &Circuit<'_>, site: Site, inputs: &[u8], second: &[u8], k: usize) -> bool
    requires { (k < c.now.counts.inputs) × (length inputs.now ≡ c.now.counts.inputs) × (length second.now ≡ c.now.counts.inputs) }
    ensures { result ≡ own_differs c.now.file.now (seat site) inputs.now second.now k }
{
    file_counts::owns(c, site, k) && inputs[k] != second[k]
}

// An output whose plain value differs.
#[tactic(auto, unfolding(crate::specs::Mirror::opened_differs))]
fn opened_bad(c: &Circuit<'_>, room: &[u8], k: usize) -> bool
    requires { (k < c.now.counts.outputs) × (length room.now ≡ 4 * (c.now.counts.inputs + c.now.counts.gates)) }
    ensures { result ≡ opened_differs c.now.file.now c.now.counts.inputs c.now.counts.gates room.now k }
{
    let wire = c.output(k) as usize;
    room[wire] != room[c.wires() + wire]
}

// The first own input that differs. A loop here and below, and no `find`: with it a re-taping of a circuit of few wires and 256 outputs took 1.3 times the instructions.
pub fn first_own_at(c: &Circuit<'_>, site: Site, inputs: &[u8], second: &[u8]) -> Option<usize>
    requires { (length inputs.now ≡ c.now.counts.inputs) × (length second.now ≡ c.now.counts.inputs) }
    ensures { result ≡ some_below (first (own_differs c.now.file.now (seat site) inputs.now second.now) c.now.counts.inputs) c.now.counts.inputs }
{
    for k in 0..c.counts.inputs {
        if own_bad(c, site, inputs, second, k) {
            return Some(k);
        }
    }
    None
}

// The same for a site's number, whatever it is: any but 1 and 2 stands for site 3.
pub fn first_own(c: &Circuit<'_>, site: usize, inputs: &[u8], second: &[u8]) -> Option<usize>
    requires { (length inputs.now ≡ c.now.counts.inputs) × (length second.now ≡ c.now.counts.inputs) }
    ensures { result ≡ some_below (first (own_differs c.now.file.now (site_of site) inputs.now second.now) c.now.counts.inputs) c.now.counts.inputs }
{
    first_own_at(c, Site::of(site), inputs, second)
}

// The first output whose plain value differs. Both sets of plain values stand in the work room.
pub fn first_opened(c: &Circuit<'_>, room: &[u8]) -> Option<usize>
    requires { length room.now ≡ 4 * (c.now.counts.inputs + c.now.counts.gates) }
    ensures { result ≡ some_below (first (opened_differs c.now.file.now c.now.counts.inputs c.now.counts.gates room.now) c.now.counts.outputs) c.now.counts.outputs }
{
    for k in 0..c.counts.outputs {
        if opened_bad(c, room, k) {
            return Some(k);
        }
    }
    None
}

// 13: the place, an input wire or I + an output's number, where there is one. Both sets of plain values stand in the work room.
pub fn differ(
    c: &Circuit<'_>,
    site: Site,
    inputs: &[u8],
    second: &[u8],
    room: &[u8],
) -> Option<usize>
    requires inputs_len { (length inputs.now ≡ c.now.counts.inputs) × (length second.now ≡ c.now.counts.inputs) }
    requires room_len { length room.now ≡ 4 * (c.now.counts.inputs + c.now.counts.gates) }
    requires room_value { take (2 * (c.now.counts.inputs + c.now.counts.gates)) room.now ≡ both_plain (circuit c.now.file.now) inputs.now second.now }
    ensures { result
        ≡ some_below (fault (row_differs (circuit c.now.file.now) (number_of site) inputs.now second.now)) (c.now.counts.inputs + c.now.counts.outputs) }
{
    if let Some(input) = first_own_at(c, site, inputs, second) {
        return Some(input);
    }
    let output = first_opened(c, room)?;
    Some(c.counts.inputs + output)
}
