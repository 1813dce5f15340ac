// Rows of symbols as polynomials, lowest coefficient first, worked in place. Rows and factors are plain, and clauses say that they
// are symbols, as a field is asked by plain numbers.
ghost use Rattle.std.specs.Prelude.{◌≡◌, ◌+◌, ◌<◌, ◌≤◌, length};
ghost use Rattle.field.specs.Symbols.{Within};
ghost use Rattle.field.specs.Sums.{coefficient};
ghost use Rattle.solver.specs.Answer.{Counts};
ghost use Rattle.solver.specs.RowSteps.{Raised, Scaled};

use field::Field;

// Multiplies by x what stands in the first `size` places; what stood at `size` is lost.
pub(crate) fn raise(row: &mut [u32], size: usize)
    requires { size < length row.old }
    ensures { Raised size row.old row.new }
{
    row.copy_within(..size, 1);
    row[0] = 0;
}

// Writes c times `from` over the front of `to`.
pub(crate) fn scale_into<F: Field>(field: &F, c: u32, from: &[u32], to: &mut [u32])
    requires room { length from.now ≤ length to.old }
    requires symbol { c < (F.Field.means field.now).q }
    requires read { Within (F.Field.means field.now).q from.now }
    ensures { Scaled (F.Field.means field.now) c (length from.now) from.now to.old to.new }
{
    // Not by zip, after which a proof knows nothing of what was written.
    for (i, place) in to[..from.len()].iter_mut().enumerate() {
        *place = field.product(c, from[i]);
    }
}

// The coefficient of x^k in b·g.
pub(crate) fn product_at<F: Field>(field: &F, b: &[u32], g: &[u32], k: usize) -> u32
    requires room { (length b.now ≤ k + 1) × (k < length g.now) }
    requires factor { Within (F.Field.means field.now).q b.now }
    requires other { Within (F.Field.means field.now).q g.now }
    ensures { result ≡ coefficient (F.Field.means field.now) k b.now g.now }
{
    let mut total = 0;
    // By index, since a zip with the reversed row proves too, but takes 7 percent more instructions in this innermost loop: solve is slower than it was.
    for (i, x) in b.iter().enumerate() {
        total = field.sum(total, field.product(*x, g[k - i]));
    }
    total
}

// How many coefficients the row has: one more than its degree, or 0 if all are 0.
pub(crate) fn count(row: &[u32]) -> usize
    requires { length row.now ≤ 513 }
    ensures { Counts row.now result }
{
    row.iter().rposition(|x| *x != 0).map_or(0, |i| i + 1)
}
