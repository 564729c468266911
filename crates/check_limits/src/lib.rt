// Check 2: I, G and O against their limits, before any sum is formed.
#![tactic(auto)]

ghost use Rattle.std.specs.Prelude.{◌≡◌};
ghost use Rattle.check_limits.specs.Mirror.{large_place, Within};

// The first of I, G and O that is too large, by its place.
#[tactic(auto, using(crate::proofs::Limits::limit_laws))]
pub fn too_large(i: u32, g: u32, o: u32) -> Option<usize>
    ensures { (result ≡ large_place i g o) × Within result i g o }
{
    if i > 1024 {
        return Some(0);
    }
    if g > 3072 {
        return Some(1);
    }
    if o > 256 {
        return Some(2);
    }
    None
}
