// What the run answers, as the struct that C gets, and the lengths for a circuit. The other answers are made in door_answers, beside their
// structs: this one is about the run's own type, and stands above both.
#![tactic(auto)]

ghost use Rattle.std.specs.Prelude.{◌≡◌};
ghost use Rattle.theory_calls.specs.File.{circuit};
ghost use Rattle.run.specs.Answers.{run_answer};
ghost use Rattle.door_answers.specs.Told.{told};
ghost use Rattle.door_answers.specs.Sizes.{sizes_of};

use check_refusal::Refusal;
use check_tests::Site;
use door_answers::{Answer, SizesAnswer};
use file_reader::Circuit;
use run::Ran;

// The run's answer, as numbers.
#[tactic(auto, unfolding(theory_calls::specs::Answer::number_of, theory_calls::specs::Answer::place_of, door_answers::specs::Told::sites_of, run::specs::Answers::run_answer))]
pub fn run_told(a: Result<Ran, Refusal>) -> Answer
    ensures { result ≡ told (run_answer a) }
{
    match a {
        Ok(Ran::Good) => Answer {
            number: 0,
            place: 0,
            sites: 0,
        },
        Ok(Ran::Abort(output, sites)) => Answer {
            number: 100,
            place: output,
            sites,
        },
        Err(e) => Answer::from(e),
    }
}

// The lengths for a circuit that was checked.
pub fn sizes(c: &Circuit<'_>) -> SizesAnswer
    ensures { result ≡ sizes_of (circuit c.now.file.now) }
{
    let a = file_counts::count_ands(c);
    let s1 = file_counts::owned_by(c, Site::One);
    let s2 = file_counts::owned_by(c, Site::Two);
    let s3 = file_counts::owned_by(c, Site::Three);
    door_answers::sizes_from(c.counts, a, s1, s2, s3)
}
