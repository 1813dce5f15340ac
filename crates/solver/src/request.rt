// Which calls of the solver are turned down.
ghost use Rattle.std.specs.Prelude.{◌≡◌};
ghost use Rattle.solver.specs.Answer.{refusal_of};
ghost use Rattle.solver.specs.WriteSteps.{reason};

use code::Refusal;
use code::word::is_below;

// The most coefficients of g.
const MOST_TERMS: u32 = 512;

// The orders are those from -WIDEST_ORDER to WIDEST_ORDER.
const WIDEST_ORDER: i32 = 511;

// Turns the call down for the first reason: q symbols, n coefficients, the order r, and the lengths of the buffers.
pub(crate) fn check(
    q: u32,
    g: &[u32],
    n: u32,
    r: i32,
    left: usize,
    right: usize,
) -> Result<(), Refusal>
    ensures { reason result ≡ refusal_of q g.now n r left right }
{
    let terms = n as usize;
    if g.len() != terms {
        return Err(Refusal::Count);
    }
    if !is_below(g, q) {
        return Err(Refusal::Symbol);
    }
    if left <= terms || right <= terms {
        return Err(Refusal::Buffer);
    }
    if !(1..=MOST_TERMS).contains(&n) {
        return Err(Refusal::Terms);
    }
    if !(-WIDEST_ORDER..=WIDEST_ORDER).contains(&r) {
        return Err(Refusal::Order);
    }
    Ok(())
}
