// The search for the codeword in reach. That `out` is as long as the code is a clause, since a slice that is written has no type that says it.
ghost use Rattle.std.specs.Prelude.{◌≡◌, ◌≤◌, length, is_ok};
ghost use Rattle.code.specs.Shape.{shape};
ghost use Rattle.code.specs.Words.{marked};
ghost use Rattle.corrector.specs.SearchSteps.{Modifies, Attempted, Repaired, Found};

use crate::pair::Pair;
use crate::reach::OutOfReach;
use crate::received::Received;
use crate::syndromes::{modify, write_syndromes};
use code::CHECKS;
use code::word::is_below;
use field::Fixed;
use solver::solve;

// Room for the coefficients of half a pair: one more than there are syndromes.
const COEFFICIENTS: usize = CHECKS + 1;

impl<'a, F: Fixed<Q, M>, const Q: u32, const M: u32> Received<'a, F, Q, M> {
    // Locates and mends by an evaluator and a locator, where s positions are erased. A refusal says that these show no codeword in reach.
    fn attempt(&self, s: u32, pair: &Pair<Q>, out: &mut [u32]) -> Result<(), OutOfReach>
        requires number { s ≡ marked (shape self.now.over.code) self.now.erased.now }
        requires few { s ≤ 512 }
        requires room { length out.old ≡ (shape self.now.over.code).n }
        ensures { Attempted (F.Field.means self.now.over.field.now) (shape self.now.over.code) self.now.erased.now pair.now.evaluator.now pair.now.locator.now self.now.word.now (is_ok result) out.new }
    {
        let located = self.locate(pair);
        if 2 * located.errors + s > self.over.code.checks() {
            return Err(OutOfReach {});
        }
        self.mend(pair, located.places.as_slice(), out)
    }

    // Tries what the least pair of the modified syndromes shows, where s positions are erased.
    fn repair(&self, s: u32, modified: &[u32], out: &mut [u32]) -> Result<(), OutOfReach>
        requires number { s ≡ marked (shape self.now.over.code) self.now.erased.now }
        requires few { s ≤ 512 }
        requires row { Modifies (F.Field.means self.now.over.field.now) (shape self.now.over.code) self.now.erased.now self.now.word.now modified.now }
        requires room { length out.old ≡ (shape self.now.over.code).n }
        ensures { Repaired (F.Field.means self.now.over.field.now) (shape self.now.over.code) self.now.erased.now self.now.word.now (is_ok result) out.new }
    {
        // Local arrays, since a call on a bay takes no memory.
        let mut left = [0; COEFFICIENTS];
        let mut right = [0; COEFFICIENTS];
        let order = s as i32 - 1;
        let checks = self.over.code.checks();
        let (a, b, _) = solve(
            self.over.field,
            modified,
            checks,
            order,
            &mut left,
            &mut right,
        )
        .unwrap();
        let pair = Pair {
            evaluator: &left[..a],
            locator: &right[..b],
        };
        self.attempt(s, &pair, out)
    }

    // Seeks with room for the syndromes of the code, one place for each.
    fn find_with(&self, row: &mut [u32], out: &mut [u32]) -> Result<(), OutOfReach>
        requires syndromes { length row.old ≡ (shape self.now.over.code).checks }
        requires room { length out.old ≡ (shape self.now.over.code).n }
        ensures { Found (F.Field.means self.now.over.field.now) (shape self.now.over.code) self.now.erased.now self.now.word.now (is_ok result) out.new }
    {
        let s = self.erasures();
        if s > self.over.code.checks() {
            return Err(OutOfReach {});
        }
        write_syndromes(&self.over, self.word, row);
        // 0 is the only number below 1.
        if is_below(row, 1) {
            out.copy_from_slice(self.word);
            return Ok(());
        }
        modify(self.over.field, self.erased, row);
        self.repair(s, row, out)?;
        write_syndromes(&self.over, out, row);
        if !is_below(row, 1) {
            return Err(OutOfReach {});
        }
        Ok(())
    }

    // Writes the codeword in reach, where there is one.
    pub(crate) fn find(&self, out: &mut [u32]) -> Result<(), OutOfReach>
        requires room { length out.old ≡ (shape self.now.over.code).n }
        ensures { Found (F.Field.means self.now.over.field.now) (shape self.now.over.code) self.now.erased.now self.now.word.now (is_ok result) out.new }
    {
        // A local array, since a call on a bay takes no memory.
        let mut row = [0; CHECKS];
        let checks = self.over.code.checks() as usize;
        self.find_with(&mut row[..checks], out)
    }
}
