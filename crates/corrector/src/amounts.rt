// The amounts at the located positions, and the word that they mend.
// That places lie inside the word or the turn is a clause: they come as a plain slice, and the bound is the code's or the field's.
ghost use Rattle.std.specs.Prelude.{◌≡◌, ◌<◌, ◌≤◌, length, is_ok, MatchOption};
ghost use Rattle.field.specs.Symbols.{Within};
ghost use Rattle.code.specs.Shape.{shape};
ghost use Rattle.errata.specs.Pieces.{spread, divisor, mended};
ghost use Rattle.corrector.specs.MendSteps.{Mended};

use crate::pair::Pair;
use crate::reach::OutOfReach;
use crate::received::Received;
use evaluation::value;
use field::Fixed;

// The product of 1 - a^(l - k) over the places l but k.
fn spread_at<F: Fixed<Q, M>, const Q: u32, const M: u32>(field: &F, places: &[u32], k: u32) -> u32
    requires turn { k ≤ M }
    requires inside { Within M places.now }
    ensures { result ≡ spread (F.Field.means field.now) places.now k }
{
    let mut product = 1;
    for l in places {
        if *l != k {
            let e = (*l + (M - k)) % M;
            let gap = field.sum(1, field.opposite(field.power(e as u16)));
            product = field.product(product, gap);
        }
    }
    product
}

impl<'a, F: Fixed<Q, M>, const Q: u32, const M: u32> Received<'a, F, Q, M> {
    // The symbol that belongs at k, or nothing where the divisor is 0.
    fn mended_at(&self, pair: &Pair<Q>, places: &[u32], k: u32) -> Option<u32>
        requires here { k < (shape self.now.over.code).n }
        requires inside { Within M places.now }
        ensures { MatchOption result (divisor (F.Field.means self.now.over.field.now) (shape self.now.over.code) pair.now.locator.now places.now k ≡ 0)
            (λ x. (x < Q) × (x ≡ mended (F.Field.means self.now.over.field.now) (shape self.now.over.code) pair.now.evaluator.now pair.now.locator.now places.now self.now.word.now k)) }
    {
        let field = self.over.field;
        let turn = field.power((k * self.over.code.first_root() % M) as u16);
        let constant = pair.locator.first().copied().unwrap_or(0);
        let d = field.product(field.product(constant, turn), spread_at(field, places, k));
        let t = field.reciprocal(d)?;
        let amount = field.product(value(field, pair.evaluator, M - k), t);
        Some(field.sum(self.word[k as usize], field.opposite(amount)))
    }

    // Writes the word with the symbols at the places mended. Where a divisor is 0, no codeword is in reach.
    pub(crate) fn mend(
        &self,
        pair: &Pair<Q>,
        places: &[u32],
        out: &mut [u32],
    ) -> Result<(), OutOfReach>
        requires room { length out.old ≡ (shape self.now.over.code).n }
        requires inside { Within (shape self.now.over.code).n places.now }
        ensures { Mended (F.Field.means self.now.over.field.now) (shape self.now.over.code) pair.now.evaluator.now pair.now.locator.now places.now self.now.word.now (is_ok result) out.new }
    {
        out.copy_from_slice(self.word);
        for k in places {
            out[*k as usize] = self.mended_at(pair, places, *k).ok_or(OutOfReach {})?;
        }
        Ok(())
    }
}
