ghost use Rattle.std.specs.Prelude.{◌≡◌, true, length};
ghost use Rattle.field.specs.Symbols.{all_below};
ghost use Rattle.code.specs.Shape.{shape};

use code::FieldCode;

mod ops;

// A word as it was received, with its erasures, of a code over a field: what a correction starts from. Two rows, as they are handed in.
#[derive(Drop)]
pub(crate) struct Received<'a, F, const Q: u32, const M: u32> {
    pub(crate) over: FieldCode<'a, F, Q, M>,
    pub(crate) word: &'a [u32],
    pub(crate) erased: &'a [bool],
    ghost long: { length word.now ≡ (shape over.code).n },
    ghost wide: { length erased.now ≡ (shape over.code).n },
    ghost symbols: { all_below Q word.now ≡ true },
}
