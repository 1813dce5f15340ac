// The order r on terms, told without signs.
ghost use Rattle.std.specs.Prelude.{◌≡◌, ◌<◌, ◌≤◌, pos, negsuc, ◌+ℤ◌, ◌≤ℤ◌};
ghost use Rattle.solver.specs.Sides.{IsLower};

use crate::Side;

// The order r = plus - minus.
#[derive(Clone, Copy)]
pub(crate) struct Order {
    pub(crate) plus: usize,
    pub(crate) minus: usize,
    ghost low: { plus < 512 },
    ghost high: { minus < 512 },
}

impl Order {
    // The order r, for r from -511 to 511.
    pub(crate) fn new(r: i32) -> Order
        requires { (negsuc 510 ≤ℤ r) × (r ≤ℤ pos 511) }
        ensures { pos result.plus ≡ r +ℤ pos result.minus }
    {
        Order {
            plus: r.max(0) as usize,
            minus: (-r).max(0) as usize,
        }
    }

    // The side of the lower of the terms x^i on the left and x^j on the right.
    pub(crate) fn lower(self, i: usize, j: usize) -> Side
        requires { (i ≤ 512) × (j ≤ 512) }
        ensures { IsLower self.plus self.minus i j result }
    {
        if i + self.minus <= j + self.plus {
            Side::Left
        } else {
            Side::Right
        }
    }
}
