// A code over a field, and the words of it.
ghost use Rattle.std.specs.Prelude.{◌≡◌, ◌<◌, ◌≤◌};
ghost use Rattle.code.specs.Shape.{shape};

mod ops;

use crate::Code;

// A code over a field that has room for it: no more positions, and no higher first root, than its step element has powers.
#[derive(Drop)]
pub struct FieldCode<'a, F, const Q: u32, const M: u32> {
    pub field: &'a F,
    pub code: Code,
    ghost fits: { (shape code).n ≤ M },
    ghost starts: { (shape code).first < M },
}
