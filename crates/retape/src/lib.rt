// Re-taping: the tapes that explain one site's view by other inputs.
#![tactic(auto)]

ghost use Rattle.std.specs.Prelude.{◌≡◌, [], ◌∷◌, length, IfOk};
ghost use Rattle.theory_calls.specs.Checks.{accepted, verdict};
ghost use Rattle.theory_calls.specs.Calls.{Retape, does};
ghost use Rattle.check_refusal.specs.Found.{found};
ghost use Rattle.check_tests.specs.Seat.{number_of};
ghost use Rattle.check_circuit.specs.Answers.{done_after};
ghost use Rattle.retape.specs.Mirror.{retape_checks};

use check_refusal::Refusal;
use check_tests::Site;
use file_counts::Counted;
use file_reader::Circuit;

// 7, 8, 11, 10 and 12 on a circuit of which A is known: slices, the site, the lengths of both buffers, the second inputs. The answer is the site.
fn given(
    c: &Counted<'_>,
    inputs: &[u8],
    tapes: &[u8],
    second: &[u8],
    site: usize,
    fresh: usize,
    room: usize,
) -> Result<Site, Refusal>
    ensures checks { found result ≡ verdict (retape_checks c.now.circuit.file.now inputs.now tapes.now second.now site fresh room) }
    ensures seated { IfOk result (λ s. site ≡ number_of s) }
{
    check_given::slices(c, inputs, tapes)?;
    let seat = Site::try_from(site)?;
    let counts = c.circuit.counts;
    let buffers = [
        (fresh, 2 * counts.inputs + 6 * c.ands),
        (room, 4 * (counts.inputs + counts.gates)),
    ];
    check_slices::first_size(&buffers)?;
    check_slices::bits(second, counts.inputs, Refusal::Second)?;
    Ok(seat)
}

// Behind 12: both sets of plain values, 13 on them, then the new tapes. It makes the last check itself, since what 13 looks at stands in the
// work room. What is behind 1 to 6 asks it.
pub fn retape_given(
    c: &Counted<'_>,
    inputs: &[u8],
    tapes: &[u8],
    second: &[u8],
    site: Site,
    fresh: &mut [u8],
    room: &mut [u8],
) -> Result<(), Refusal>
    requires { verdict (retape_checks c.now.circuit.file.now inputs.now tapes.now second.now (number_of site) (length fresh.old) (length room.old)) ≡ accepted }
    ensures { done_after result (fresh.new ∷ room.new ∷ [])
        ≡ does (Retape c.now.circuit.file.now inputs.now tapes.now second.now (number_of site) fresh.old room.old) }
{
    retape_tapes::both_values(&c.circuit, inputs, second, room);
    if let Some(place) = retape_differs::differ(&c.circuit, site, inputs, second, room) {
        return Err(Refusal::Differs(place));
    }
    retape_tapes::renew(c, site, inputs, second, tapes, fresh, room);
    Ok(())
}

// Behind checks 1 to 6: A is counted, 7, 8, 11, 10 and 12 are made, then what is behind 12. The public re-taping asks it, and any other form of
// one that has its circuit checked first.
pub fn retape_opened(
    c: &Circuit<'_>,
    inputs: &[u8],
    tapes: &[u8],
    second: &[u8],
    site: usize,
    fresh: &mut [u8],
    room: &mut [u8],
) -> Result<(), Refusal>
    ensures { done_after result (fresh.new ∷ room.new ∷ [])
        ≡ does (Retape c.now.file.now inputs.now tapes.now second.now site fresh.old room.old) }
{
    let counted = Counted::from(*c);
    let seat = given(
        &counted,
        inputs,
        tapes,
        second,
        site,
        fresh.len(),
        room.len(),
    )?;
    retape_given(&counted, inputs, tapes, second, seat, fresh, room)
}

// PUBLIC. Re-taping, whatever is given. New tapes and work room are lent; a refusal leaves both as they were, but 13 leaves both sets of
// plain values in the first 2W bytes of the work room. The site is a number, as C hands it on: 11 is what is asked of it.
pub fn retape(
    file: &[u8],
    inputs: &[u8],
    tapes: &[u8],
    second: &[u8],
    site: usize,
    fresh: &mut [u8],
    room: &mut [u8],
) -> Result<(), Refusal>
    ensures { done_after result (fresh.new ∷ room.new ∷ [])
        ≡ does (Retape file.now inputs.now tapes.now second.now site fresh.old room.old) }
{
    let c = check_circuit::circuit(file)?;
    retape_opened(&c, inputs, tapes, second, site, fresh, room)
}
