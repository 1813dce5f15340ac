// What a field is asked, what it means, and the laws that it keeps.
// Whoever adds a field shows the laws, and that each question answers by that field's own sum and product.
#![tactic(auto)]

ghost use Rattle.std.specs.Prelude.{◌≡◌, ◌<◌, ◌≤◌, ◌≢◌, Some, None, ℕ, length, slice_index};
ghost use Rattle.field.specs.Meaning.{Meaning, Laws, pow};
ghost use Rattle.field.specs.Rows.{Added, Advanced};

// Puts into each place of a row what `step` gives of its partner and of itself, as far as both rows go.
fn update<S: Fn(u32, u32) -> u32>(partners: &[u32], row: &mut [u32], step: S)
    requires { S.IsAlwaysCallable step }
    ensures done { (i : ℕ) → i < length partners.now → i < length row.old → S.post step (slice_index partners.now i) (slice_index row.old i) (slice_index row.new i) }
    ensures rest { (i : ℕ) → length partners.now ≤ i → slice_index row.new i ≡ slice_index row.old i }
{
    // Not by `zip`, after which a proof knows nothing of what was written.
    let size = partners.len().min(row.len());
    for (i, place) in row[..size].iter_mut().enumerate() {
        *place = step(partners[i], *place);
    }
}

// A field of the symbols 0 to q - 1. A question changes nothing.
pub trait Field {
    ghost means: { Self → Meaning };

    // The sum of two symbols; 0 where a number is no symbol.
    fn sum(&self, x: u32, y: u32) -> u32
        ensures within { x < (means self.now).q → y < (means self.now).q → result ≡ (means self.now).sum x y }
        ensures left { (means self.now).q ≤ x → result ≡ 0 }
        ensures right { (means self.now).q ≤ y → result ≡ 0 };

    // The product of two symbols; 0 where a number is no symbol.
    fn product(&self, x: u32, y: u32) -> u32
        ensures within { x < (means self.now).q → y < (means self.now).q → result ≡ (means self.now).prod x y }
        ensures left { (means self.now).q ≤ x → result ≡ 0 }
        ensures right { (means self.now).q ≤ y → result ≡ 0 };

    // The opposite of a symbol; 0 where the number is no symbol.
    fn opposite(&self, x: u32) -> u32
        ensures within { x < (means self.now).q → result ≡ (means self.now).opp x }
        ensures beyond { (means self.now).q ≤ x → result ≡ 0 };

    // The reciprocal of a symbol other than 0; nothing for 0 and where the number is no symbol.
    fn reciprocal(&self, x: u32) -> Option<u32>
        ensures within { x < (means self.now).q → x ≢ 0 → result ≡ Some ((means self.now).recip x) }
        ensures zero { x ≡ 0 → result ≡ None }
        ensures beyond { (means self.now).q ≤ x → result ≡ None };

    // a to the i.
    fn power(&self, i: u16) -> u32
        ensures { result ≡ pow (means self.now) (means self.now).a i };

    // x times y, plus z. Said of symbols: where one of them is no symbol, the answer may be any number.
    fn multiply_add(&self, x: u32, y: u32, z: u32) -> u32
        ensures { x < (means self.now).q → y < (means self.now).q → z < (means self.now).q → result ≡ (means self.now).sum ((means self.now).prod x y) z }
    {
        self.sum(self.product(x, y), z)
    }

    // Adds c times a row to another, place by place, as far as both go.
    fn add_multiple(&self, c: u32, from: &[u32], to: &mut [u32])
        ensures { Added (means self.now) c from.now to.old to.new }
    {
        update(from, to, |x, y| self.multiply_add(c, x, y));
    }

    // Multiplies each number by its point and adds w: a step of Horner's rule at many points at once, as far as both rows go.
    fn advance(&self, w: u32, points: &[u32], row: &mut [u32])
        ensures { Advanced (means self.now) w points.now row.old row.new }
    {
        update(points, row, |x, y| self.multiply_add(y, x, w));
    }

    ghost lawful: { (x : Self) → Laws (means x) };
}

// A field whose number of symbols is Q and whose turn is M, so that types can speak of both.
pub trait Fixed<const Q: u32, const M: u32>: Field {
    ghost size: { (x : Self) → (Self.Field.means x).q ≡ Q };

    ghost turn: { (x : Self) → (Self.Field.means x).m ≡ M };
}
