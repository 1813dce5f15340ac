// Worked examples of the bay's calls and of solve, in one table that is proved as a whole.
// The table stands in specs/Table.antt: each row names a field, a code or a congruence, and what a call gives.
#![tactic(auto)]

ghost use Rattle.std.specs.Prelude.{◌≡◌, length};
ghost use Rattle.examples.specs.Table.{table, TableHolds};

// How many rows the table has.
const ROWS: u32 = 14;

// How many worked examples there are. Every one of them is right.
pub fn worked_examples() -> u32
    ensures count { result ≡ length table }
    ensures right { TableHolds }
{
    ROWS
}
