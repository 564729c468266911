// The view of one site on a clean line: every check, then the four parts of the view, each written into its own part of the buffer.
#![tactic(auto)]

ghost use Rattle.std.specs.Prelude.{◌≡◌, [], ◌∷◌, length, IfOk};
ghost use Rattle.theory_calls.specs.File.{site_of};
ghost use Rattle.theory_calls.specs.Checks.{verdict};
ghost use Rattle.theory_calls.specs.Calls.{View, does};
ghost use Rattle.theory_calls.specs.AtBits.{clean_store, view_on};
ghost use Rattle.run_laws.specs.Loops.{site_place};
ghost use Rattle.check_refusal.specs.Found.{found};
ghost use Rattle.check_tests.specs.Seat.{seat, number_of};
ghost use Rattle.check_circuit.specs.Answers.{done_after};
ghost use Rattle.view.specs.Mirror.{view_checks, Ready};

use check_refusal::Refusal;
use check_tests::Site;
use file_counts::Counted;
use file_reader::Circuit;
use run_steps::Pos;

// 7, 8, 11, then 10 on a circuit of which A is known: slices, site, then the lengths of the two buffers, of which the view's hangs on the site.
// The answer is the site.
fn given(
    c: &Counted<'_>,
    inputs: &[u8],
    tapes: &[u8],
    site: usize,
    view: usize,
    store: usize,
) -> Result<Site, Refusal>
    ensures checks { found result ≡ verdict (view_checks c.now.circuit.file.now inputs.now tapes.now site view store) }
    ensures seated { IfOk result (λ s. site ≡ number_of s) }
{
    check_given::slices(c, inputs, tapes)?;
    let seat = Site::try_from(site)?;
    let counts = c.circuit.counts;
    let own = file_counts::owned_by(&c.circuit, seat);
    let buffers = [
        (
            view,
            2 * counts.inputs + own + 6 * c.ands + 3 * counts.outputs,
        ),
        (store, 6 * (counts.inputs + counts.gates)),
    ];
    check_slices::first_size(&buffers)?;
    Ok(seat)
}

// Where the site's tape begins.
fn tape_place(pos: Pos, site: Site) -> usize
    ensures { result ≡ site_place pos (seat site) }
{
    match site {
        Site::One => pos.t1,
        Site::Two => pos.t2,
        Site::Three => pos.t3,
    }
}

// Behind all checks: the four parts of the view, each lent its own part of the buffer. What is behind 1 to 6 asks it.
pub fn view_at(
    c: &Counted<'_>,
    inputs: &[u8],
    tapes: &[u8],
    site: Site,
    view: &mut [u8],
    store: &mut [u8],
)
    requires { Ready c.now.circuit.file.now c.now.circuit.counts (seat site) (length inputs.now) (length tapes.now) (length view.old) (length store.old) }
    ensures view_after { view.new ≡ view_on c.now.circuit.file.now inputs.now tapes.now (number_of site) }
    ensures store_after { store.new ≡ clean_store c.now.circuit.file.now inputs.now tapes.now }
{
    let counts = c.circuit.counts;
    let own = file_counts::owned_by(&c.circuit, site);
    let start = run_start::begin(c);
    let t = tape_place(start, site);
    let m = 2 * (own + c.ands);
    let (own_inputs, rest) = view.split_at_mut(own);
    let (own_tape, rest) = rest.split_at_mut(m);
    let (got, opened) = rest.split_at_mut(
        2 * (counts.inputs - own) + 4 * c.ands + 2 * counts.outputs,
    );
    view_parts::own_inputs(&c.circuit, inputs, own_inputs, site);
    file_numbers::copy(&tapes[t..t + m], own_tape);
    view_parts::delivered(&c.circuit, inputs, tapes, store, got, site, start);
    view_parts::opened_bits(&c.circuit, store, opened, site);
}

// The same for a site's number, whatever it is: any but 1 and 2 stands for site 3.
pub fn view_checked(
    c: &Counted<'_>,
    inputs: &[u8],
    tapes: &[u8],
    site: usize,
    view: &mut [u8],
    store: &mut [u8],
)
    requires { Ready c.now.circuit.file.now c.now.circuit.counts (site_of site) (length inputs.now) (length tapes.now) (length view.old) (length store.old) }
    ensures view_after { view.new ≡ view_on c.now.circuit.file.now inputs.now tapes.now site }
    ensures store_after { store.new ≡ clean_store c.now.circuit.file.now inputs.now tapes.now }
{
    view_at(c, inputs, tapes, Site::of(site), view, store);
}

// Behind checks 1 to 6: A is counted, 7, 8, 11 and 10 are made, then the view. The public view asks it, and any other form of a view that has
// its circuit checked first.
pub fn view_opened(
    c: &Circuit<'_>,
    inputs: &[u8],
    tapes: &[u8],
    site: usize,
    view: &mut [u8],
    store: &mut [u8],
) -> Result<(), Refusal>
    ensures { done_after result (view.new ∷ store.new ∷ [])
        ≡ does (View c.now.file.now inputs.now tapes.now site view.old store.old) }
{
    let counted = Counted::from(*c);
    let seat = given(&counted, inputs, tapes, site, view.len(), store.len())?;
    view_at(&counted, inputs, tapes, seat, view, store);
    Ok(())
}

// PUBLIC. What a site sees of a run on a clean line, whatever is given. View and store are lent; a refusal leaves both as they were. The store
// holds afterwards what a clean run's store holds. The site is a number, as C hands it on: 11 is what is asked of it.
pub fn view_of(
    file: &[u8],
    inputs: &[u8],
    tapes: &[u8],
    site: usize,
    view: &mut [u8],
    store: &mut [u8],
) -> Result<(), Refusal>
    ensures { done_after result (view.new ∷ store.new ∷ [])
        ≡ does (View file.now inputs.now tapes.now site view.old store.old) }
{
    let c = check_circuit::circuit(file)?;
    view_opened(&c, inputs, tapes, site, view, store)
}
