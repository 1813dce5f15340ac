// A pair of polynomials in local arrays, and what one step does to it.
ghost use Rattle.std.specs.Prelude.{◌≡◌, ◌<◌, ◌≤◌, ◌≢◌, length, slice_index};
ghost use Rattle.solver.specs.PairSteps.{InField, PairRaised, PairMixed, Starts};
ghost use Rattle.solver.specs.Sides.{on};
ghost use Rattle.solver.specs.WriteSteps.{Written};

use crate::{LeastPair, Side, rows};
use field::Field;

// The coefficients that a polynomial of the solver can have: one more than the most terms of g.
pub(crate) const ROOM: usize = 513;

// A pair of polynomials, the exponent of its leading term, and how many places of its halves are in use. The halves are
// arrays with a size beside them, since a call takes no memory from the heap. That they hold symbols stands in clauses:
// in the type, it would take the field's Q and M as parameters of every function here.
// That top and size leave room is a clause of each step too: a raise uses it up, so no bound in the type would say it.
#[derive(Drop)]
pub(crate) struct Pair {
    pub(crate) top: usize,
    pub(crate) size: usize,
    pub(crate) left: [u32; ROOM],
    pub(crate) right: [u32; ROOM],
}

impl Pair {
    // The pair whose half on this side is 1, and whose other half is 0.
    pub(crate) fn one(side: Side) -> Pair
        ensures { Starts side result }
    {
        let mut pair = Pair {
            top: 0,
            size: 1,
            left: [0; ROOM],
            right: [0; ROOM],
        };
        match side {
            Side::Left => pair.left[0] = 1,
            Side::Right => pair.right[0] = 1,
        }
        pair
    }

    // Multiplies the pair by x.
    pub(crate) fn raise(&mut self)
        requires { (self.old.size ≤ 512) × (self.old.top ≤ 512) }
        ensures { PairRaised self.old self.new }
    {
        rows::raise(&mut self.left, self.size);
        rows::raise(&mut self.right, self.size);
        self.top += 1;
        self.size += 1;
    }

    // Adds c times `low`.
    pub(crate) fn add_multiple<F: Field>(&mut self, field: &F, c: u32, low: &Pair)
        requires room { low.now.size ≤ 513 }
        requires symbol { c < (F.Field.means field.now).q }
        requires read { InField (F.Field.means field.now).q low.now }
        requires changed { InField (F.Field.means field.now).q self.old }
        ensures { PairMixed (F.Field.means field.now) c low.now self.old self.new }
    {
        field.add_multiple(c, &low.left[..low.size], &mut self.left);
        field.add_multiple(c, &low.right[..low.size], &mut self.right);
        self.size = self.size.max(low.size);
    }

    // The coefficient of the leading term, which is on this side. One choice of numbers here, one of pairs in Basis::pair: a generic
    // one would be longer than both.
    pub(crate) fn leading(&self, side: Side) -> u32
        requires { self.now.top < 513 }
        ensures { result ≡ slice_index (on side self.now.left self.now.right) self.now.top }
    {
        match side {
            Side::Left => self.left[self.top],
            Side::Right => self.right[self.top],
        }
    }

    // Writes this pair, which leads on this side, divided by its leading coefficient, over the first `size` places of the buffers.
    pub(crate) fn write_divided<F: Field>(
        &self,
        field: &F,
        side: Side,
        size: usize,
        left: &mut [u32],
        right: &mut [u32],
    ) -> LeastPair
        requires room { (size ≤ 513) × (size ≤ length left.old) × (size ≤ length right.old) }
        requires top { self.now.top < 513 }
        requires leading { slice_index (on side self.now.left self.now.right) self.now.top ≢ 0 }
        requires pair { InField (F.Field.means field.now).q self.now }
        ensures { Written (F.Field.means field.now) side size self.now left.old right.old left.new right.new result }
    {
        let leading = self.leading(side);
        let inverse = field.reciprocal(leading).unwrap();
        rows::scale_into(field, inverse, &self.left[..size], left);
        rows::scale_into(field, inverse, &self.right[..size], right);
        let of_left = rows::count(&left[..size]);
        let of_right = rows::count(&right[..size]);
        (of_left, of_right, side)
    }
}
