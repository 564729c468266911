// Plain values: the Boolean value of every wire, with no sharing. One pass over the inputs, one over the gates.
#![tactic(auto)]

ghost use Rattle.std.specs.Prelude.{◌≡◌, [], ◌∷◌, ◌+◌, ◌<◌, ◌≤◌, length};
ghost use Rattle.theory_calls.specs.File.{circuit};
ghost use Rattle.theory_calls.specs.Plain.{bit, byte, plain};
ghost use Rattle.theory_calls.specs.Calls.{Plain, does};
ghost use Rattle.check_circuit.specs.Answers.{done_after};
ghost use Rattle.plain.specs.Mirror.{kind_value, inputs_on, gate_on, gates_on};

use check_refusal::Refusal;
use file_reader::Circuit;

// An input's value: 1 for every byte but 0, so that nobody has to know here that inputs are bits.
#[tactic(auto, unfolding(theory_calls::specs::Plain::bit, theory_calls::specs::Plain::byte))]
fn input_value(x: u8) -> u8
    ensures { result ≡ byte (bit x) }
{
    u8::from(x != 0)
}

// The values of the four kinds, four bits a kind from the lowest up: for operands 0 0, 1 0, 0 1 and 1 1.
const TRUTH: u32 = 0xe5860;

// A gate's value by its kind, from the values of its operands: looked up, since a branch by the kind would be guessed wrong as often as not.
fn gate_value(kind: u16, x: u8, y: u8) -> u8
    ensures { result ≡ kind_value kind x y }
{
    let at = (4 * kind as u32 + x as u32 + 2 * y as u32) & 31;
    ((TRUTH >> at) & 1) as u8
}

// All inputs, one after the other: input k makes wire k.
fn inputs_pass(inputs: &[u8], values: &mut [u8])
    requires { length inputs.now ≤ length values.old }
    ensures { values.new ≡ inputs_on inputs.now values.old (length inputs.now) }
{
    for (k, input) in inputs.iter().enumerate() {
        values[k] = input_value(*input);
    }
}

// Gate k makes wire I + k. NOT's second is 0: what stands there is looked at and not used.
fn gate_step(c: &Circuit<'_>, values: &mut [u8], k: usize)
    requires gate { k < c.now.counts.gates }
    requires values_len { length values.old ≡ c.now.counts.inputs + c.now.counts.gates }
    ensures { values.new ≡ gate_on c.now.file.now c.now.counts.inputs k values.old }
{
    let gate = c.gate(k);
    let x = values[gate.first as usize];
    let y = values[gate.second as usize];
    values[c.counts.inputs + k] = gate_value(gate.kind, x, y);
}

// All gates, one after the other.
fn gates_pass(c: &Circuit<'_>, values: &mut [u8])
    requires { length values.old ≡ c.now.counts.inputs + c.now.counts.gates }
    ensures { values.new ≡ gates_on c.now.file.now c.now.counts.inputs values.old c.now.counts.gates }
{
    for k in 0..c.counts.gates {
        gate_step(c, values, k);
    }
}

// Behind all checks: the values of all wires, in a buffer, or a part of one, of W bytes. What stood there does not matter. What is behind 1 to 6
// asks it, and re-taping, for both its sets of inputs.
pub fn values_pass(c: &Circuit<'_>, inputs: &[u8], values: &mut [u8])
    requires inputs_len { length inputs.now ≡ c.now.counts.inputs }
    requires values_len { length values.old ≡ c.now.counts.inputs + c.now.counts.gates }
    ensures { values.new ≡ plain (circuit c.now.file.now) inputs.now }
{
    inputs_pass(inputs, values);
    gates_pass(c, values);
}

// Behind checks 1 to 6: 7 and 10, then the values. The public call asks it, and any other form of it that has its circuit checked first.
pub fn plain_opened(c: &Circuit<'_>, inputs: &[u8], values: &mut [u8]) -> Result<(), Refusal>
    ensures { done_after result (values.new ∷ []) ≡ does (Plain c.now.file.now inputs.now values.old) }
{
    check_slices::bits(inputs, c.counts.inputs, Refusal::Inputs)?;
    if values.len() != c.wires() {
        return Err(Refusal::Buffer(0));
    }
    values_pass(c, inputs, values);
    Ok(())
}

// PUBLIC. The plain values of all wires, whatever is given, in a lent buffer of W bytes; a refusal leaves it as it was.
pub fn plain_values(file: &[u8], inputs: &[u8], values: &mut [u8]) -> Result<(), Refusal>
    ensures { done_after result (values.new ∷ []) ≡ does (Plain file.now inputs.now values.old) }
{
    let c = check_circuit::circuit(file)?;
    plain_opened(&c, inputs, values)
}
