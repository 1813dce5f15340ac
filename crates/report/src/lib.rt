// The report of a correction: how many marks it met, which positions it changed, and what stood there before.
// A report has room for as many changes as a code has checks at most, so that nothing allocates later.
#![tactic(auto)]

ghost use Rattle.std.specs.Prelude.{◌≤◌, vec_len, vec_capacity};

mod ops;

// A position that was changed, and the symbol that stood there before.
#[derive(Clone, Copy)]
struct Change {
    position: u32,
    former: u32,
}

// What the last accepted correction met and changed.
#[derive(Drop)]
pub struct Report {
    met: u32,
    changes: Vec<Change>,
    ghost few: { vec_len changes ≤ 512 },
    ghost wide: { 512 ≤ vec_capacity changes },
}
