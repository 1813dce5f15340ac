// The least pair of a congruence of polynomials, a ≡ b·g modulo x^n, in an order r on the terms of pairs.
// `solve` takes any numbers; it refuses those that do not fit, and otherwise leaves the one least pair with leading coefficient 1.
#![tactic(auto)]

ghost use Rattle.field.specs.Symbols.{Within};
ghost use Rattle.solver.specs.Pairs.{EveryPairLeads, OnlyOne};
ghost use Rattle.solver.specs.Answer.{Answered};

use code::Refusal;
use field::Fixed;
use order::Order;
use steps::Congruence;

mod order;
mod pair;
mod request;
mod rows;
mod steps;

// Where a pair has its leading term.
#[derive(Clone, Copy, Debug, PartialEq, Eq)]
pub enum Side {
    Left,
    Right,
}

// What `solve` answers together: how many coefficients the left half has, how many the right, and the side of the leading term.
pub type LeastPair = (usize, usize, Side);

// The least pair of a ≡ b·g modulo x^n in order r, with leading coefficient 1: its halves go to the first n + 1 places of
// the buffers, lowest coefficient first. A refusal leaves the buffers as they are.
// n stands beside g, although it is g's length, since a call whose n is another number is refused.
// The two buffers go apart, as they are handed in.
pub fn solve<F: Fixed<Q, M>, const Q: u32, const M: u32>(
    field: &F,
    g: &[u32],
    n: u32,
    r: i32,
    left: &mut [u32],
    right: &mut [u32],
) -> Result<LeastPair, Refusal>
    ensures answer { Answered (F.Field.means field.now) g.now n r left.old right.old left.new right.new result }
    ensures only { OnlyOne (F.Field.means field.now) }
    ensures leads { EveryPairLeads }
{
    request::check(Q, g, n, r, left.len(), right.len())?;
    let congruence = Congruence {
        field,
        g,
        order: Order::new(r),
    };
    Ok(congruence.least_pair(left, right))
}
