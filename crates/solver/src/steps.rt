// The steps of the solver: two pairs, one that leads on the left and one that leads on the right, from modulo x^0 to modulo x^n.
ghost use Rattle.std.specs.Prelude.{◌≡◌, ℤ, pos, ◌+◌, ◌+ℤ◌, ◌<◌, ◌≤◌, length};
ghost use Rattle.field.specs.Symbols.{Within};
ghost use Rattle.solver.specs.Answer.{Solved};
ghost use Rattle.solver.specs.PairSteps.{InField, Short, Starts, Stepped, discrepancy_of};
ghost use Rattle.solver.specs.Sides.{on};
ghost use Rattle.solver.specs.BasisSteps.{IsKnown, Reached};

use crate::order::Order;
use crate::pair::Pair;
use crate::{LeastPair, Side, rows};
use field::Field;

// A discrepancy of one of the two pairs.
#[derive(Clone, Copy)]
pub(crate) enum Known {
    Left(u32),
    Right(u32),
}

// A pair that leads on the left, one that leads on the right, and the discrepancy of one of them, which needs no sum:
// multiplying a pair by x moves its discrepancy along.
#[derive(Drop)]
pub(crate) struct Basis {
    pub(crate) left: Pair,
    pub(crate) right: Pair,
    pub(crate) known: Known,
}

// A congruence a ≡ b·g modulo x^n, where g has n symbols, and the order in which its least pair is sought.
#[derive(Drop)]
pub(crate) struct Congruence<'a, F: Field> {
    pub(crate) field: &'a F,
    pub(crate) g: &'a [u32],
    pub(crate) order: Order,
    ghost few: { length g.now ≤ 512 },
    ghost row: { Within (F.Field.means field.now).q g.now },
}

// One step, from modulo x^k to modulo x^(k + 1): x and y are the discrepancies of the lower and the higher pair.
fn step<F: Field>(field: &F, low: &mut Pair, high: &mut Pair, x: u32, y: u32)
    requires room { (low.old.size ≤ 512) × (high.old.size ≤ 512) }
    requires tops { (low.old.top ≤ 512) × (high.old.top ≤ 512) }
    requires symbols { (x < (F.Field.means field.now).q) × (y < (F.Field.means field.now).q) }
    requires one { InField (F.Field.means field.now).q low.old }
    requires two { InField (F.Field.means field.now).q high.old }
    ensures { Stepped (F.Field.means field.now) x y low.old high.old low.new high.new }
{
    match field.reciprocal(x) {
        None => high.raise(),
        Some(inverse) => {
            let c = field.opposite(field.product(y, inverse));
            high.add_multiple(field, c, low);
            low.raise();
        }
    }
}

impl Basis {
    // The pairs (1, 0) and (0, 1), of which the first has discrepancy 1.
    fn first() -> Basis
        ensures left { Starts Side.Left result.left }
        ensures right { Starts Side.Right result.right }
        ensures known { result.known ≡ Known.Left 1 }
    {
        Basis {
            left: Pair::one(Side::Left),
            right: Pair::one(Side::Right),
            known: Known::Left(1),
        }
    }

    // The pair that leads on this side.
    fn pair(&self, side: Side) -> &Pair
        ensures { result.now ≡ on side self.now.left self.now.right }
    {
        match side {
            Side::Left => &self.left,
            Side::Right => &self.right,
        }
    }

    // Both discrepancies at k.
    // k stands beside the congruence: it is the exponent of the turn, and another each time, while the congruence stays.
    fn discrepancies<F: Field>(&self, congruence: &Congruence<F>, k: usize) -> (u32, u32)
        requires below { k < length congruence.now.g.now }
        requires one { Short (F.Field.means congruence.now.field.now).q k self.now.left }
        requires two { Short (F.Field.means congruence.now.field.now).q k self.now.right }
        requires known { IsKnown (F.Field.means congruence.now.field.now) k congruence.now.g.now self.now.left self.now.right self.now.known }
        ensures left { result.0 ≡ discrepancy_of (F.Field.means congruence.now.field.now) k congruence.now.g.now self.now.left }
        ensures right { result.1 ≡ discrepancy_of (F.Field.means congruence.now.field.now) k congruence.now.g.now self.now.right }
    {
        match self.known {
            Known::Left(x) => (x, congruence.discrepancy(&self.right, k)),
            Known::Right(y) => (congruence.discrepancy(&self.left, k), y),
        }
    }

    // One turn: both discrepancies, one step, and the discrepancy that is known next.
    fn turn<F: Field>(&mut self, congruence: &Congruence<F>, k: usize)
        requires below { k < length congruence.now.g.now }
        requires reached { Reached (F.Field.means congruence.now.field.now) congruence.now.g.now congruence.now.order k self.old }
        ensures { Reached (F.Field.means congruence.now.field.now) congruence.now.g.now congruence.now.order (k + 1) self.new }
    {
        let (x, y) = self.discrepancies(congruence, k);
        let field = congruence.field;
        // An arm for each side, since the check does not cover a choice between the two `&mut`.
        match congruence.order.lower(self.left.top, self.right.top) {
            Side::Left => {
                step(field, &mut self.left, &mut self.right, x, y);
                self.known = if x == 0 {
                    Known::Right(y)
                } else {
                    Known::Left(x)
                };
            }
            Side::Right => {
                step(field, &mut self.right, &mut self.left, y, x);
                self.known = if y == 0 {
                    Known::Left(x)
                } else {
                    Known::Right(y)
                };
            }
        }
    }

    // As many turns as g has symbols.
    fn run<F: Field>(&mut self, congruence: &Congruence<F>)
        requires { Reached (F.Field.means congruence.now.field.now) congruence.now.g.now congruence.now.order 0 self.old }
        ensures { Reached (F.Field.means congruence.now.field.now) congruence.now.g.now congruence.now.order (length congruence.now.g.now) self.new }
    {
        for k in 0..congruence.g.len() {
            self.turn(congruence, k);
        }
    }
}

impl<'a, F: Field> Congruence<'a, F> {
    // The coefficient of x^k in a - b·g.
    fn discrepancy(&self, pair: &Pair, k: usize) -> u32
        requires below { k < length self.now.g.now }
        requires pair { Short (F.Field.means self.now.field.now).q k pair.now }
        ensures { result ≡ discrepancy_of (F.Field.means self.now.field.now) k self.now.g.now pair.now }
    {
        let product = rows::product_at(self.field, &pair.right[..pair.size], self.g, k);
        self.field.sum(pair.left[k], self.field.opposite(product))
    }

    // The least pair: the lower of the two after the last step, divided by its leading coefficient.
    pub(crate) fn least_pair(&self, left: &mut [u32], right: &mut [u32]) -> LeastPair
        requires room { (length self.now.g.now < length left.old) × (length self.now.g.now < length right.old) }
        ensures { (r : ℤ) → pos self.now.order.plus ≡ r +ℤ pos self.now.order.minus → Solved (F.Field.means self.now.field.now) self.now.g.now (length self.now.g.now) r left.old right.old left.new right.new result }
    {
        let mut basis = Basis::first();
        basis.run(self);
        let side = self.order.lower(basis.left.top, basis.right.top);
        let size = self.g.len() + 1;
        basis
            .pair(side)
            .write_divided(self.field, side, size, left, right)
    }
}
