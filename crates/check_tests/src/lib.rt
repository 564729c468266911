// One test each, on numbers and bytes: what refusals 5, 11 and 14 and "a byte above 1" ask of a gate's numbers, a site, a job header or a byte;
// and what is counted of one gate.
#![tactic(auto)]

ghost use Rattle.std.specs.Prelude.{◌≡◌, not, cond, ◌<◌, ◌≤◌, leb, eqb};
ghost use Rattle.check_refusal.specs.Found.{some_below};
ghost use Rattle.check_tests.specs.Mirror.{bad_kind, job_place, deals};

use check_refusal::Refusal;

// One of the three sites.
#[derive(Clone, Copy, Debug, PartialEq, Eq)]
pub enum Site {
    One,
    Two,
    Three,
}

// 11: a site is 1, 2 or 3.
impl TryFrom<usize> for Site {
    type Error = Refusal;

    ghost use Rattle.check_tests.specs.Seat.{seated};

    ghost try_from_gives = { λ n r. r ≡ seated n };

    fn try_from(site: usize) -> Result<Site, Refusal> {
        match site {
            1 => Ok(Site::One),
            2 => Ok(Site::Two),
            3 => Ok(Site::Three),
            _ => Err(Refusal::Site),
        }
    }
}

impl Site {
    ghost use Rattle.theory_sharing.specs.Sites.{next};
    ghost use Rattle.theory_calls.specs.File.{site_of};
    ghost use Rattle.check_tests.specs.Seat.{seat, number_of};

    // The site that a number stands for, whatever number: any but 1 and 2 is site 3's.
    #[tactic(auto, unfolding(theory_calls::specs::File::site_of))]
    pub fn of(number: usize) -> Site
        ensures { seat result ≡ site_of number }
    {
        match number {
            1 => Site::One,
            2 => Site::Two,
            _ => Site::Three,
        }
    }

    // "after 3 comes 1"
    pub fn next(self) -> Site
        ensures { seat result ≡ next (seat self) }
    {
        match self {
            Site::One => Site::Two,
            Site::Two => Site::Three,
            Site::Three => Site::One,
        }
    }

    // The number that stands for it.
    pub fn number(self) -> u8
        ensures { result ≡ number_of self }
    {
        match self {
            Site::One => 1,
            Site::Two => 2,
            Site::Three => 3,
        }
    }
}

// What a gate's second number must be below: NOT has 0 there.
fn second_limit(kind: u16, w: usize) -> usize
    ensures { result ≡ cond (eqb kind 3) 1 w }
{
    if kind == 3 { 1 } else { w }
}

// 5: unknown kind, operand not a lower wire, or NOT with second not 0.
pub fn kind_bad(kind: u16, a: u16, b: u16, w: usize) -> bool
    ensures { result ≡ bad_kind kind a b w }
{
    let limit = second_limit(kind, w);
    !((1 <= kind) & (kind <= 4) & ((a as usize) < w) & ((b as usize) < limit))
}

// 7, 8, 9, 12: a byte above 1.
pub fn above_one(byte: u8) -> bool
    ensures { result ≡ not (leb byte 1) }
{
    !(byte <= 1)
}

// 10: a buffer that has not its length.
pub fn size_wrong(size: usize, want: usize) -> bool
    ensures { result ≡ not (eqb size want) }
{
    !(size == want)
}

// 14 on the job's length and its four numbers: the place of what is wrong. Offsets are compared and never added to.
#[tactic(auto, using(crate::proofs::JobLaws::job_laws))]
pub fn judge_job(n: usize, a: u32, b: u32, c: u32, d: u32) -> Option<usize>
    ensures { result ≡ some_below (job_place n a b c d) 13 }
{
    if n > 41520 {
        return Some(0);
    }
    if a as usize != n {
        return Some(0);
    }
    if b != 16 {
        return Some(4);
    }
    if c < 16 {
        return Some(8);
    }
    if c as usize > n {
        return Some(8);
    }
    if d < c {
        return Some(12);
    }
    if d as usize > n {
        return Some(12);
    }
    None
}

// 1 for a gate that deals, AND or OR, else 0. Of the four kinds those two are the even ones: no branch by the kind.
pub fn deal_bit(kind: u16) -> usize
    requires { kind ≤ 4 }
    ensures { (result ≡ deals kind) × (result ≤ 1) }
{
    let odd = kind & 1;
    1 - odd as usize
}
