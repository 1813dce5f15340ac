// A bay: one word of a code over a field, with its marks and the report of the last correction.
// Each call answers and does what the plain bay of specs/Plain.antt says. All memory is taken when a bay is made.
#![tactic(auto)]

ghost use Rattle.std.specs.Prelude.{◌≡◌, ◌<◌, ◌≤◌, true, vec_len, vec_capacity};
ghost use Rattle.field.specs.Symbols.{all_below};
ghost use Rattle.marks.specs.Held.{span};
ghost use Rattle.bay.specs.Shapes.{width, root};

mod asks;
mod ops;

use code::Code;
use marks::LostMap;
use report::Report;

// A field, a code or none, a word with its marks, and the last report.
#[derive(Drop)]
pub struct Bay<F, const Q: u32, const M: u32> {
    field: F,
    code: Option<Code>,
    word: Vec<u32>,
    lost: LostMap,
    report: Report,
    ghost fits: { width code ≤ M },
    ghost starts: { root code < M },
    ghost long: { vec_len word ≡ width code },
    ghost symbols: { all_below Q word.items ≡ true },
    ghost wide: { span lost ≡ width code },
    ghost room: { 928 ≤ vec_capacity word },
}
