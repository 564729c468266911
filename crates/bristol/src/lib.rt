// A circuit from the public shelf: a Bristol Fashion text, read with an owner for each input value, and our circuit file written.
#![tactic(auto)]

ghost use Rattle.std.specs.Prelude.{◌≡◌};
ghost use Rattle.theory_calls.specs.Call.{does};
ghost use Rattle.bristol_text.specs.Call.{FromBristol};
ghost use Rattle.bristol.specs.Answers.{filed_after};

use bristol_wires::Numbering;
use check_refusal::Refusal;

// PUBLIC. The circuit file of a Bristol Fashion text, whatever its bytes. It stands in front in the lent room, which has exactly 20,000 bytes (else 10),
// and what is behind it is as it was; a refusal leaves all of the room as it was. owners has a byte for each input value. The answer is how many bytes of
// the room are the file.
pub fn from_bristol(text: &[u8], owners: &[u8], room: &mut [u8]) -> Result<usize, Refusal>
    ensures { filed_after result room.new ≡ does (FromBristol text.now owners.now room.old) }
{
    if room.len() != 20000 {
        return Err(Refusal::Buffer(0));
    }
    let mut numbering = Numbering::new();
    let pass = bristol_pass::read_numbered(text, &mut numbering)?;
    bristol_checks::rest_check(pass.lines, &numbering, owners)?;
    Ok(bristol_file::put_numbered(room, text, pass.seat, owners, &numbering))
}
