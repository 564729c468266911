// What one step adds to the table of sent bits, as a table of its own, and the sum of two tables.
#![tactic(auto)]

ghost use Rattle.std.specs.Prelude.{◌≡◌, ℕ, ◌≤◌};
ghost use Rattle.traffic_entries.specs.Mirror.{plus, Under, from_input, from_gate, from_output};

// A table of sent bits: a row for each sender, a place in it for each receiver.
pub type Table = [[u32; 3]; 3];

// The sum of two tables, entry by entry: nine sums, written as the table stands. A loop over rows and one over places would say no more.
#[tactic(auto, unfolding(crate::specs::Mirror::plus))]
pub fn added(t: Table, m: Table) -> Table
    requires { Under t 16384 × Under m 16384 }
    ensures { result ≡ plus t m }
{
    [
        [t[0][0] + m[0][0], t[0][1] + m[0][1], t[0][2] + m[0][2]],
        [t[1][0] + m[1][0], t[1][1] + m[1][1], t[1][2] + m[1][2]],
        [t[2][0] + m[2][0], t[2][1] + m[2][1], t[2][2] + m[2][2]],
    ]
}

// An input: 2 from its owner to each other site. The owner is the byte that the file has.
#[tactic(auto, using(crate::proofs::InputLaws::input_one, crate::proofs::InputLaws::input_two, crate::proofs::InputLaws::input_three))]
pub fn input_adds(owner: u8) -> Table
    ensures { result ≡ from_input owner }
{
    match owner {
        1 => [[0, 2, 2], [0, 0, 0], [0, 0, 0]],
        2 => [[0, 0, 0], [2, 0, 2], [0, 0, 0]],
        _ => [[0, 0, 0], [0, 0, 0], [2, 2, 0]],
    }
}

// An AND or OR: 2 for each ordered pair. Asked with the gate's deals, 1 for these two kinds and 0 for others, as they are counted.
#[tactic(auto, unfolding(crate::specs::Mirror::from_gate, theory_sharing::specs::Sites::is))]
pub fn gate_adds(deals: usize) -> Table
    ensures { result ≡ from_gate deals }
{
    if deals == 1 {
        [[0, 2, 2], [2, 0, 2], [2, 2, 0]]
    } else {
        [[0, 0, 0], [0, 0, 0], [0, 0, 0]]
    }
}

// An output: 1 from k+1 to k for each k. The comparing copy is left out.
#[tactic(auto, unfolding(crate::specs::Mirror::from_output, theory_sharing::specs::Traffic::output_adds, theory_sharing::specs::Sites::is))]
pub fn output_adds() -> Table
    ensures { result ≡ from_output }
{
    [[0, 0, 1], [1, 0, 0], [0, 1, 0]]
}
