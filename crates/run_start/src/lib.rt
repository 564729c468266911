// Where a run and a view begin.
#![tactic(auto)]

ghost use Rattle.std.specs.Prelude.{◌≡◌};
ghost use Rattle.theory_calls.specs.File.{circuit};
ghost use Rattle.run_laws.specs.Loops.{in_place};

use check_tests::Site;
use file_counts::Counted;
use run_steps::Pos;

// Where the three tapes begin: site 1's first. A view begins there too.
#[tactic(auto, using(crate::proofs::StartLaws::begins))]
pub fn begin(c: &Counted<'_>) -> Pos
    ensures { result ≡ in_place (circuit c.now.circuit.file.now) 0 }
{
    let o1 = file_counts::owned_by(&c.circuit, Site::One);
    let o2 = file_counts::owned_by(&c.circuit, Site::Two);
    let t2 = 2 * (o1 + c.ands);
    Pos {
        t1: 0,
        t2,
        t3: t2 + 2 * (o2 + c.ands),
        at: 0,
    }
}
