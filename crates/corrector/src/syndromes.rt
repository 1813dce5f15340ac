// Syndromes: the check sums of a word, and what is left of them once the erasures are taken out.
// That rows are symbols is a clause of each step: a slice that is written has no type that says so without a copy.
ghost use Rattle.std.specs.Prelude.{◌≡◌, ◌<◌, ◌≤◌, length};
ghost use Rattle.field.specs.Symbols.{Within};
ghost use Rattle.code.specs.Shape.{shape};
ghost use Rattle.corrector.specs.RowSteps.{Multiplied, Modified, Syndromes};

use code::FieldCode;
use evaluation::value;
use field::Fixed;

// Writes the syndromes of a word.
pub(crate) fn write_syndromes<F: Fixed<Q, M>, const Q: u32, const M: u32>(
    over: &FieldCode<F, Q, M>,
    word: &[u32],
    syndromes: &mut [u32],
)
    requires all { length syndromes.old ≡ (shape over.now.code).checks }
    requires symbols { Within Q word.now }
    ensures { Syndromes (F.Field.means over.now.field.now) (shape over.now.code) word.now syndromes.new }
{
    for (j, syndrome) in syndromes.iter_mut().enumerate() {
        *syndrome = value(over.field, word, over.code.first_root() + j as u32);
    }
}

// Multiplies a row by 1 - x z, and loses what is past its end.
fn multiply<F: Fixed<Q, M>, const Q: u32, const M: u32>(field: &F, x: u32, row: &mut [u32])
    requires symbol { x < Q }
    requires symbols { Within Q row.old }
    ensures { Multiplied (F.Field.means field.now) x row.old row.new }
{
    let mut below = 0;
    for symbol in row.iter_mut() {
        let here = *symbol;
        *symbol = field.sum(here, field.opposite(field.product(x, below)));
        below = here;
    }
}

// Turns syndromes into modified syndromes: multiplies them by 1 - a^i z for each erased position i.
pub(crate) fn modify<F: Fixed<Q, M>, const Q: u32, const M: u32>(
    field: &F,
    erased: &[bool],
    row: &mut [u32],
)
    requires few { length erased.now ≤ 928 }
    requires symbols { Within Q row.old }
    ensures { Modified (F.Field.means field.now) erased.now (length erased.now) row.old row.new }
{
    for (i, e) in erased.iter().enumerate() {
        if *e {
            multiply(field, field.power(i as u16), row);
        }
    }
}
