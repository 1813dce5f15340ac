ghost use Rattle.std.specs.Prelude.{◌≡◌, ◌^◌, ◌<◌, ◌≤◌, true, length, Ok, Err, MatchResult};
ghost use Rattle.field.specs.Symbols.{all_below};
ghost use Rattle.field.specs.Sums.{weighed};
ghost use Rattle.code.specs.Shape.{shape};
ghost use Rattle.code.specs.Refusals.{number, numbered};
ghost use Rattle.code.specs.Words.{check_sum, failing_root};
ghost use Rattle.code.specs.Fitting.{covering, belonging};

use super::FieldCode;
use crate::word::is_below;
use crate::{Code, Refusal};
use field::Fixed;

impl<'a, F: Fixed<Q, M>, const Q: u32, const M: u32> FieldCode<'a, F, Q, M> {
    // The code over a field, or which of its numbers the field has no room for.
    pub fn new(field: &'a F, code: Code) -> Result<FieldCode<'a, F, Q, M>, Refusal>
        ensures { MatchResult result (λ o. (covering (F.Field.means field.now) (shape code) ≡ Ok tt) × (o.field.now ≡ field.now) × (o.code ≡ code)) (λ e. covering (F.Field.means field.now) (shape code) ≡ Err (number e)) }
    {
        if code.n() > M {
            return Err(Refusal::PastTurn);
        }
        if code.first_root() >= M {
            return Err(Refusal::FirstRoot);
        }
        Ok(FieldCode { field, code })
    }

    // Whether a word is one of the code.
    pub fn fit(&self, word: &[u32]) -> Result<(), Refusal>
        ensures { numbered result ≡ belonging (F.Field.means self.now.field.now).q (shape self.now.code) word.now tt }
    {
        if word.len() != self.code.n() as usize {
            return Err(Refusal::Count);
        }
        if !is_below(word, Q) {
            return Err(Refusal::Symbol);
        }
        Ok(())
    }

    // Check sum j of a word.
    pub fn check_sum(&self, word: &[u32], j: u32) -> Result<u32, Refusal>
        ensures { numbered result ≡ belonging (F.Field.means self.now.field.now).q (shape self.now.code) word.now (check_sum (F.Field.means self.now.field.now) (shape self.now.code) word.now j) }
    {
        self.fit(word)?;
        // By `as`, as in `weighed_sum`.
        Ok(self.weighed_sum(word, self.code.first_root() as u64 + j as u64))
    }

    // The lowest j whose check sum is not 0, or nothing for a codeword.
    pub fn first_failing_root(&self, word: &[u32]) -> Result<Option<u32>, Refusal>
        ensures { numbered result ≡ belonging (F.Field.means self.now.field.now).q (shape self.now.code) word.now (failing_root (F.Field.means self.now.field.now) (shape self.now.code) word.now) }
    {
        self.fit(word)?;
        Ok(self.failing(word))
    }

    // The sum of each symbol times a to the t at its place: a loop with its index, as docs/DECISIONS.md fixes for this place;
    // evaluation::value goes round with an exponent instead. By `as`: `u64::from` adds an equation at each use, and the proof is longer.
    fn weighed_sum(&self, word: &[u32], t: u64) -> u32
        requires low { t < 2 ^ 40 }
        requires short { length word.now ≤ 928 }
        requires symbols { all_below Q word.now ≡ true }
        ensures { result ≡ weighed (F.Field.means self.now.field.now) word.now t }
    {
        let mut total = 0;
        for (i, w) in word.iter().enumerate() {
            let e = i as u64 * t % M as u64;
            total = self
                .field
                .sum(total, self.field.product(*w, self.field.power(e as u16)));
        }
        total
    }

    // The lowest root that fails: roots outside, positions inside, in a labelled block and not by `find`, as docs/DECISIONS.md fixes for this place.
    fn failing(&self, word: &[u32]) -> Option<u32>
        requires short { length word.now ≤ 928 }
        requires symbols { all_below Q word.now ≡ true }
        ensures { result ≡ failing_root (F.Field.means self.now.field.now) (shape self.now.code) word.now }
    {
        let field = self.field;
        'roots: {
            for j in 0..self.code.checks {
                let t = self.code.first + j;
                let mut total = 0;
                for (i, w) in word.iter().enumerate() {
                    let e = i as u32 * t % M;
                    total = field.sum(total, field.product(*w, field.power(e as u16)));
                }
                if total != 0 {
                    break 'roots Some(j);
                }
            }
            None
        }
    }
}
