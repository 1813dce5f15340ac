// The positions that are erased or that the locator shows.
ghost use Rattle.code.specs.Shape.{shape};
ghost use Rattle.corrector.specs.MendSteps.{Placed};

use crate::pair::Pair;
use crate::received::Received;
use arrayvec::ArrayVec;
use code::POSITIONS;
use evaluation::value;
use field::Fixed;

// The located positions, rising, and how many of them are not erased.
#[derive(Drop)]
pub(crate) struct Located {
    pub(crate) places: ArrayVec<u32, POSITIONS>,
    pub(crate) errors: u32,
}

impl<'a, F: Fixed<Q, M>, const Q: u32, const M: u32> Received<'a, F, Q, M> {
    // The positions that are erased and those that are roots of the locator.
    pub(crate) fn locate(&self, pair: &Pair<Q>) -> Located
        ensures { Placed (F.Field.means self.now.over.field.now) self.now.erased.now pair.now.locator.now (shape self.now.over.code).n result.places.items result.errors }
    {
        let mut places = ArrayVec::new();
        let mut errors = 0;
        for (i, erased) in self.erased.iter().enumerate() {
            if !*erased {
                if value(self.over.field, pair.locator, M - i as u32) != 0 {
                    continue;
                }
                errors += 1;
            }
            places.push(i as u32);
        }
        Located { places, errors }
    }
}
