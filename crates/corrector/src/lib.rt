// The codeword in reach of a word with erasures, on slices and apart from any bay.
// Syndromes, the least pair of the modified syndromes, its roots, the amounts, and a test of the word so found before anything is written.
#![tactic(auto)]

ghost use Rattle.std.specs.Prelude.{◌≡◌};
ghost use Rattle.code.specs.Shape.{shape};
ghost use Rattle.code.specs.Refusals.{numbered};
ghost use Rattle.corrector.specs.Corrected.{Corrected};

use code::{Code, POSITIONS, Refusal};
use field::Fixed;
use received::Received;

mod amounts;
mod locate;
mod pair;
mod reach;
mod received;
mod search;
mod syndromes;

// Makes the word the codeword in reach, where `erased` marks the positions whose symbols are not relied on.
// Refuses a call that does not fit, and one with no codeword in reach; the word is then as it was.
pub fn correct<F: Fixed<Q, M>, const Q: u32, const M: u32>(
    field: &F,
    code: &Code,
    erased: &[bool],
    word: &mut [u32],
) -> Result<(), Refusal>
    ensures { Corrected (F.Field.means field.now) (shape code.now) erased.now word.old (numbered result) word.new }
{
    let received = Received::new(field, *code, erased, word)?;
    // A local array, since a call on a bay takes no memory; so in the search below.
    let mut room = [0; POSITIONS];
    let found = &mut room[..word.len()];
    received.find(found)?;
    word.copy_from_slice(found);
    Ok(())
}
