// The checks of a text behind its last line: 15 and 17 with the number of lines, 4, then 2.
#![tactic(auto)]

ghost use Rattle.std.specs.Prelude.{◌≡◌, not, ◌+◌, ◌≤◌, position};
ghost use Rattle.theory_calls.specs.Checks.{one_to_three, fault, verdict};
ghost use Rattle.check_refusal.specs.Found.{found, some_below};
ghost use Rattle.bristol_text.specs.Call.{row_values};
ghost use Rattle.bristol_checks.specs.Mirror.{outs_entered, given_checks, rest_verdict};

use bristol_wires::{Numbering, Text};
use check_refusal::Refusal;

// "17 for an output wire never written": whether all are.
fn outputs_written(map: &[u16], t: Text) -> bool
    requires { t.outs ≤ t.wires }
    ensures { result ≡ outs_entered map.now t }
{
    (t.wires - t.outs..t.wires)
        .find(|&w| bristol_wires::entry(map, t.ins, w) == 0)
        .is_none()
}

// The first owner not 1 to 3.
fn first_bad(owners: &[u8]) -> Option<usize>
    ensures { result ≡ position (λ o. not (one_to_three o)) owners.now }
{
    owners.iter().position(|o| !((1 <= *o) & (*o <= 3)))
}

// "4, place the count of values if the owners' list has another length, else the first bad value"
#[tactic(auto, using(crate::proofs::EndLaws::owners_short, crate::proofs::EndLaws::owners_first))]
fn owners_fault(owners: &[u8], values: u32) -> Option<usize>
    ensures { result ≡ some_below (fault (row_values owners.now values)) (values + 1) }
{
    if owners.len() != values as usize {
        return Some(values as usize);
    }
    first_bad(owners)
}

// 4, then 2.
#[tactic(auto, using(crate::proofs::EndLaws::given_4, crate::proofs::EndLaws::given_2))]
fn given_check(t: Text, owners: &[u8]) -> Result<(), Refusal>
    ensures { found result ≡ verdict (given_checks t owners.now) }
{
    if let Some(place) = owners_fault(owners, t.values) {
        return Err(Refusal::Owner(place));
    }
    match check_limits::too_large(t.ins, t.made, t.outs) {
        Some(place) => Err(Refusal::Limit(place)),
        None => Ok(()),
    }
}

// All of them, behind a pass over so many lines, none of which has a fault; the map may have any length.
#[tactic(auto, unfolding(crate::specs::Mirror::rest_verdict))]
pub fn rest_fault(lines: usize, t: Text, map: &[u16], owners: &[u8]) -> Result<(), Refusal>
    requires { t.outs ≤ t.wires }
    ensures { found result ≡ rest_verdict lines t map.now owners.now }
{
    let (3, 0) = (t.stage, t.left) else {
        return Err(Refusal::TextLine(lines));
    };
    if !outputs_written(map, t) {
        return Err(Refusal::TextWire(lines));
    }
    given_check(t, owners)
}

// The same of a numbering.
pub fn rest_check(lines: usize, numbering: &Numbering, owners: &[u8]) -> Result<(), Refusal>
    requires { numbering.now.text.outs ≤ numbering.now.text.wires }
    ensures { found result ≡ rest_verdict lines numbering.now.text numbering.now.map owners.now }
{
    rest_fault(lines, numbering.text, &numbering.map, owners)
}
