// Words on slices, apart from any bay: whether a word fits a code over a field, and its check sums.
// Field and code come apart, since a code that the field has no room for is answered too.
ghost use Rattle.std.specs.Prelude.{◌≡◌};
ghost use Rattle.field.specs.Symbols.{all_below};
ghost use Rattle.code.specs.Shape.{shape};
ghost use Rattle.code.specs.Refusals.{numbered};
ghost use Rattle.code.specs.Words.{check_sum, failing_root};
ghost use Rattle.code.specs.Fitting.{fitting};

use crate::{Code, FieldCode, Refusal};
use field::Fixed;

// Whether each number is below q.
pub fn is_below(word: &[u32], q: u32) -> bool
    ensures { result ≡ all_below q word.now }
{
    word.iter().all(|x| *x < q)
}

// Whether the code is one of the field, and the word one of the code.
pub fn fit<F: Fixed<Q, M>, const Q: u32, const M: u32>(
    field: &F,
    code: &Code,
    word: &[u32],
) -> Result<(), Refusal>
    ensures { numbered result ≡ fitting (F.Field.means field.now) (shape code.now) word.now tt }
{
    FieldCode::new(field, *code)?.fit(word)
}

// Check sum j of a word.
pub fn check_sum<F: Fixed<Q, M>, const Q: u32, const M: u32>(
    field: &F,
    code: &Code,
    word: &[u32],
    j: u32,
) -> Result<u32, Refusal>
    ensures { numbered result ≡ fitting (F.Field.means field.now) (shape code.now) word.now (check_sum (F.Field.means field.now) (shape code.now) word.now j) }
{
    FieldCode::new(field, *code)?.check_sum(word, j)
}

// The lowest j whose check sum is not 0, or nothing for a codeword.
pub fn first_failing_root<F: Fixed<Q, M>, const Q: u32, const M: u32>(
    field: &F,
    code: &Code,
    word: &[u32],
) -> Result<Option<u32>, Refusal>
    ensures { numbered result ≡ fitting (F.Field.means field.now) (shape code.now) word.now (failing_root (F.Field.means field.now) (shape code.now) word.now) }
{
    FieldCode::new(field, *code)?.first_failing_root(word)
}
