ghost use Rattle.std.specs.Prelude.{◌≡◌, Ok, Err, MatchResult};
ghost use Rattle.code.specs.Shape.{shape};
ghost use Rattle.code.specs.Refusals.{number};
ghost use Rattle.code.specs.Words.{marked};
ghost use Rattle.corrector.specs.Corrected.{fitting_erased};
ghost use Rattle.corrector.specs.Starts.{Starts};

use super::Received;
use code::word::is_below;
use code::{Code, FieldCode, Refusal};
use field::Fixed;

impl<'a, F: Fixed<Q, M>, const Q: u32, const M: u32> Received<'a, F, Q, M> {
    // What is handed in, where the code is one of the field, and the word and its erasures are of the code.
    pub(crate) fn new(
        field: &'a F,
        code: Code,
        erased: &'a [bool],
        word: &'a [u32],
    ) -> Result<Received<'a, F, Q, M>, Refusal>
        ensures { MatchResult result
            (λ r. (fitting_erased (F.Field.means field.now) (shape code) erased.now word.now ≡ Ok tt) × Starts r field.now code erased.now word.now)
            (λ e. fitting_erased (F.Field.means field.now) (shape code) erased.now word.now ≡ Err (number e)) }
    {
        let over = FieldCode::new(field, code)?;
        // Not by `fit`: the row for the erasures stands between the two that it tests.
        let n = code.n() as usize;
        if word.len() != n {
            return Err(Refusal::Count);
        }
        if erased.len() != n {
            return Err(Refusal::Map);
        }
        if !is_below(word, Q) {
            return Err(Refusal::Symbol);
        }
        Ok(Received { over, word, erased })
    }

    // How many positions are erased.
    pub(crate) fn erasures(&self) -> u32
        ensures { result ≡ marked (shape self.now.over.code) self.now.erased.now }
    {
        self.erased.iter().filter(|erased| **erased).count() as u32
    }
}
