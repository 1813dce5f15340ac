// Values of polynomials at a power of a field's step element or at many points at once, and rows of powers to take as points.
#![tactic(auto)]

ghost use Rattle.std.specs.Prelude.{◌≡◌};
ghost use Rattle.field.specs.Sums.{weighed};
ghost use Rattle.field.specs.Symbols.{known};
ghost use Rattle.evaluation.specs.Values.{Cleared, Powers, Values};

use field::{Field, Fixed};

// The value of a polynomial at a^t: the exponent goes round by t at each coefficient. A number that is no symbol counts as 0.
pub fn value<F: Fixed<Q, M>, const Q: u32, const M: u32>(
    field: &F,
    polynomial: &[u32],
    t: u32,
) -> u32
    ensures { result ≡ weighed (F.Field.means field.now) (known (F.Field.means field.now).q polynomial.now) t }
{
    let step = t % M;
    let mut total = 0;
    let mut e = 0;
    for x in polynomial {
        // By `as`, as in `powers`.
        total = field.sum(total, field.product(*x, field.power(e as u16)));
        e += step;
        if e >= M {
            e -= M;
        }
    }
    total
}

// Writes a^start, a^(start + step), a^(start + 2 step) and so on.
pub fn powers<F: Fixed<Q, M>, const Q: u32, const M: u32>(
    field: &F,
    start: u32,
    step: u32,
    out: &mut [u32],
)
    ensures { Powers (F.Field.means field.now) start step out.new }
{
    let by = step % M;
    let mut e = start % M;
    for x in out.iter_mut() {
        // By `as`, which is proved to lose nothing: `try_from` would test it once more for each place.
        *x = field.power(e as u16);
        // The step round stands here and in `value`: a function of it would need a clause longer than its lines.
        e += by;
        if e >= M {
            e -= M;
        }
    }
}

// Writes 0 into the first `size` places of a row, as far as it goes.
pub fn clear(size: usize, row: &mut [u32])
    ensures { Cleared size row.old row.new }
{
    let end = size.min(row.len());
    row[..end].fill(0);
}

// Writes the value of a polynomial at each point, as far as both rows go: Horner's rule, a coefficient at a time for all points.
// Said of symbols: where the polynomial or a point has a number that is no symbol, a value may be any number.
pub fn values<F: Field>(field: &F, polynomial: &[u32], points: &[u32], out: &mut [u32])
    ensures { Values (F.Field.means field.now) polynomial.now points.now out.old out.new }
{
    clear(points.len(), out);
    for c in polynomial.iter().rev() {
        field.advance(*c, points, out);
    }
}
