// What is counted in a circuit: A, the AND and OR gates, and Is, the inputs of a site.
#![tactic(auto)]

ghost use Rattle.std.specs.Prelude.{◌≡◌, ◌<◌, ◌≤◌};
ghost use Rattle.theory_sharing.specs.Sites.{is};
ghost use Rattle.theory_sharing.specs.Circuit.{dealing, owned, ands as ands_of};
ghost use Rattle.theory_calls.specs.File.{circuit as circuit_of, site_of};
ghost use Rattle.check_tests.specs.Seat.{seat};

use check_tests::Site;
use file_reader::Circuit;

// A circuit of which A is known: every call that reads tapes asks for it.
#[derive(Clone, Copy)]
pub struct Counted<'a> {
    pub circuit: Circuit<'a>,
    pub ands: usize,
    pub ghost counted: { (ands ≡ ands_of (circuit_of circuit.file.now).gate circuit.counts.gates) × (ands ≤ circuit.counts.gates) },
}

impl<'a> From<Circuit<'a>> for Counted<'a> {
    ghost from_gives = { λ c r. r.circuit ≡ c };

    fn from(circuit: Circuit<'a>) -> Counted<'a> {
        let ands = count_ands(&circuit);
        Counted { circuit, ands }
    }
}

// 1 for gate k where it deals, else 0.
pub fn gate_deals(c: &Circuit<'_>, k: usize) -> usize
    requires { k < c.now.counts.gates }
    ensures value { result ≡ dealing ((circuit_of c.now.file.now).gate k) }
    ensures bound { result ≤ 1 }
{
    check_tests::deal_bit(c.gate(k).kind)
}

// A: the AND and OR gates.
pub fn count_ands(c: &Circuit<'_>) -> usize
    ensures value { result ≡ ands_of (circuit_of c.now.file.now).gate c.now.counts.gates }
    ensures bound { result ≤ c.now.counts.gates }
{
    let mut ands = 0usize;
    for k in 0..c.counts.gates {
        ands += gate_deals(c, k);
    }
    ands
}

// Whether input k is the site's. An owner that was checked is its site's number, so that one comparison tells.
pub fn owns(c: &Circuit<'_>, site: Site, k: usize) -> bool
    requires { k < c.now.counts.inputs }
    ensures { result ≡ is (seat site) ((circuit_of c.now.file.now).owner k) }
{
    c.owner(k) == site.number()
}

// Is: the inputs of a site.
pub fn owned_by(c: &Circuit<'_>, site: Site) -> usize
    ensures value { result ≡ owned (circuit_of c.now.file.now).owner (seat site) c.now.counts.inputs }
    ensures bound { result ≤ c.now.counts.inputs }
{
    let mut count = 0usize;
    for k in 0..c.counts.inputs {
        if owns(c, site, k) {
            count += 1;
        }
    }
    count
}

// Both for a site's number, whatever it is: any but 1 and 2 stands for site 3.
pub fn input_owned(c: &Circuit<'_>, site: usize, k: usize) -> bool
    requires { k < c.now.counts.inputs }
    ensures { result ≡ is (site_of site) ((circuit_of c.now.file.now).owner k) }
{
    owns(c, Site::of(site), k)
}

pub fn count_owned(c: &Circuit<'_>, site: usize) -> usize
    ensures value { result ≡ owned (circuit_of c.now.file.now).owner (site_of site) c.now.counts.inputs }
    ensures bound { result ≤ c.now.counts.inputs }
{
    owned_by(c, Site::of(site))
}
