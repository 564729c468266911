// What a call on a text answers for C. The door hands it on.
#![tactic(auto)]

ghost use Rattle.std.specs.Prelude.{[], ◌∷◌};
ghost use Rattle.bristol_text.specs.Call.{FromBristol};
ghost use Rattle.door_answers.specs.Told.{TellsFile};

use door_answers::FileAnswer;

// The circuit file of a Bristol Fashion text, in front in the lent room; a refusal leaves it as it was.
pub fn from_bristol_for_c(text: &[u8], owners: &[u8], room: &mut [u8]) -> FileAnswer
    ensures { TellsFile result (room.new ∷ []) (FromBristol text.now owners.now room.old) }
{
    FileAnswer::from(bristol::from_bristol(text, owners, room))
}
