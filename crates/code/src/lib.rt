// Codes, the words that belong to them, and why a call is turned down.
// A code that exists keeps its bounds in its type, so no call on a code looks again.
#![tactic(auto)]

ghost use Rattle.std.specs.Prelude.{◌<◌, ◌≤◌};

mod ops;
pub mod over;
mod rows;
pub mod seeking;
pub mod word;

pub use over::FieldCode;

// The most positions, and the most checks, that a code may have, as lengths of rows.
pub const POSITIONS: usize = Code::MOST_POSITIONS as usize;

pub const CHECKS: usize = Code::MOST_CHECKS as usize;

// Why a call was turned down, in the order of the rows: of several that hold, the topmost is given.
#[derive(Clone, Copy, Debug, PartialEq, Eq)]
pub enum Refusal {
    Positions = 1,
    Checks = 2,
    PastTurn = 3,
    FirstRoot = 4,
    NoCode = 5,
    HasCode = 6,
    Count = 7,
    Map = 8,
    Position = 9,
    Symbol = 10,
    Marked = 11,
    OutOfReach = 12,
    Buffer = 13,
    Terms = 14,
    Order = 15,
}

// n positions, of which the first `checks` are the checks and the rest the message, and a first root.
#[derive(Clone, Copy)]
pub struct Code {
    n: u32,
    checks: u32,
    first: u32,
    ghost least: { 2 ≤ n },
    ghost most: { n ≤ 928 },
    ghost some: { 1 ≤ checks },
    ghost within: { checks < n },
    ghost few: { checks ≤ 512 },
}
