// Traffic: a table of sent bits, three senders by three receivers, by value, filled step by step and returned.
#![tactic(auto)]

ghost use Rattle.std.specs.Prelude.{◌≡◌, ◌≤◌};
ghost use Rattle.theory_calls.specs.File.{circuit};
ghost use Rattle.theory_calls.specs.Answer.{number_of, place_of};
ghost use Rattle.theory_calls.specs.Calls.{Traffic, does};
ghost use Rattle.theory_sharing.specs.Traffic.{traffic_table};
ghost use Rattle.traffic.specs.Mirror.{input_steps, gate_steps, output_steps, sums_upto};

use file_reader::Circuit;
use traffic_entries::Table;

// What all inputs, all gates, all outputs add. The three differ in more than what a step adds: the bound on the number of steps, which keeps the
// sums small, is each one's own. A turn's sum has a name of its own, `more`: that a call lays its array in `table` itself, the borrow checker does not cover.
fn inputs_table(c: &Circuit<'_>) -> Table
    ensures { result ≡ sums_upto (input_steps c.now.file.now) c.now.counts.inputs }
{
    let mut table = [[0u32; 3]; 3];
    for k in 0..c.counts.inputs {
        let adds = traffic_entries::input_adds(c.owner(k));
        let more = traffic_entries::added(table, adds);
        table = more;
    }
    table
}

fn gates_table(c: &Circuit<'_>) -> Table
    ensures { result ≡ sums_upto (gate_steps c.now.file.now) c.now.counts.gates }
{
    let mut table = [[0u32; 3]; 3];
    for k in 0..c.counts.gates {
        let adds = traffic_entries::gate_adds(file_counts::gate_deals(c, k));
        let more = traffic_entries::added(table, adds);
        table = more;
    }
    table
}

fn outputs_table(n: usize) -> Table
    requires { n ≤ 256 }
    ensures { result ≡ sums_upto output_steps n }
{
    let mut table = [[0u32; 3]; 3];
    for _ in 0..n {
        let more = traffic_entries::added(table, traffic_entries::output_adds());
        table = more;
    }
    table
}

// Behind 1 to 6, which are all checks of this call: the table. The public call asks it.
pub fn whole_table(c: &Circuit<'_>) -> Table
    ensures { result ≡ traffic_table (circuit c.now.file.now) }
{
    let inputs = inputs_table(c);
    let gates = gates_table(c);
    let outputs = outputs_table(c.counts.outputs);
    let both = traffic_entries::added(inputs, gates);
    traffic_entries::added(both, outputs)
}

// PUBLIC. The table, or all zeros. The answer goes out through two lent numbers, written in every case: 0 and 0 where the answer is good,
// else the refusal's number and place. No Result: 01 has "With a refusal the table is all zeros", which the first clause holds.
pub fn traffic_of(file: &[u8], number: &mut usize, place: &mut usize) -> [[u32; 3]; 3]
    ensures value { result ≡ (does (Traffic file.now)).returned }
    ensures number_after { number.new ≡ number_of (does (Traffic file.now)).answer }
    ensures place_after { place.new ≡ place_of (does (Traffic file.now)).answer }
{
    match check_circuit::circuit(file) {
        Ok(c) => {
            *number = 0;
            *place = 0;
            whole_table(&c)
        }
        Err(refusal) => {
            *number = refusal.number();
            *place = refusal.place();
            [[0; 3]; 3]
        }
    }
}
