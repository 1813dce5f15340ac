// The calls that change a bay.
ghost use Rattle.std.specs.Prelude.{◌≡◌, length, IfOk, Some, Ok};
ghost use Rattle.code.specs.Refusals.{numbered};
ghost use Rattle.code.specs.Shape.{shape};
ghost use Rattle.bay.specs.Plain.{empty, making, loading, putting, marking, clearing, encoding, correcting};
ghost use Rattle.bay.specs.Means.{Encoded, ComesBack, Refuses, Corrects};
ghost use Rattle.bay.specs.Held.{held, Follows};

use crate::Bay;
use code::word::is_below;
use code::{Code, FieldCode, POSITIONS, Refusal};
use corrector::correct;
use encoder::encode;
use field::Fixed;
use marks::LostMap;
use report::Report;
use std::alloc::{AllocError, Global};

impl<F: Fixed<Q, M>, const Q: u32, const M: u32> Bay<F, Q, M> {
    // A bay with no code, and room for the largest word, map and report.
    pub fn new(heap: Global, field: F) -> Result<Bay<F, Q, M>, AllocError>
    where
        F: Drop,
        ensures { IfOk result (λ b. (held b ≡ empty) × (b.field ≡ field)) }
    {
        let word = Vec::with_capacity(heap, POSITIONS)?;
        let lost = LostMap::new(heap)?;
        let report = Report::new(heap)?;
        Ok(Bay {
            field,
            code: None,
            word,
            lost,
            report,
        })
    }

    // Gives the code of n positions, r checks and the first root b, n zeros, no marks and an empty report.
    pub fn make(&mut self, n: u32, r: u32, b: u32) -> Result<(), Refusal>
        ensures { Follows self.old self.new (numbered result) (making (F.Field.means self.old.field) (held self.old) n r b) }
    {
        let code = Code::new(n, r, b)?;
        FieldCode::new(&self.field, code)?;
        if self.code.is_some() {
            return Err(Refusal::HasCode);
        }
        self.code = Some(code);
        self.word.clear();
        self.word.resize(n as usize, 0).unwrap();
        self.lost.blank(n).unwrap();
        self.report.clear();
        Ok(())
    }

    // Replaces the word and its marks, and empties the report.
    pub fn load(&mut self, word: &[u32], map: &[u8]) -> Result<(), Refusal>
        ensures { Follows self.old self.new (numbered result) (loading (F.Field.means self.old.field) (held self.old) word.now map.now) }
    {
        let code = self.coded()?;
        // Not by `fit`: the row for the map stands between the two that it tests.
        if word.len() != code.n() as usize {
            return Err(Refusal::Count);
        }
        if !self.lost.takes(map) {
            return Err(Refusal::Map);
        }
        if !is_below(word, Q) {
            return Err(Refusal::Symbol);
        }
        self.lost.fill(map).unwrap();
        self.word.as_mut_slice().copy_from_slice(word);
        self.report.clear();
        Ok(())
    }

    // Writes one symbol, and takes off that position's mark.
    pub fn put(&mut self, pos: u32, sym: u32) -> Result<(), Refusal>
        ensures { Follows self.old self.new (numbered result) (putting (F.Field.means self.old.field) (held self.old) pos sym) }
    {
        let code = self.coded()?;
        if pos >= code.n() {
            return Err(Refusal::Position);
        }
        if sym >= Q {
            return Err(Refusal::Symbol);
        }
        self.word[pos as usize] = sym;
        self.lost.unset(pos);
        Ok(())
    }

    // Marks one position, and keeps its symbol.
    // The test of the position stands here and in put: a function of it would need a clause longer than the test.
    pub fn mark(&mut self, pos: u32) -> Result<(), Refusal>
        ensures { Follows self.old self.new (numbered result) (marking (held self.old) pos) }
    {
        let code = self.coded()?;
        if pos >= code.n() {
            return Err(Refusal::Position);
        }
        if self.lost.has(pos) {
            return Err(Refusal::Marked);
        }
        self.lost.set(pos);
        Ok(())
    }

    // Takes off all marks.
    pub fn clear(&mut self) -> Result<(), Refusal>
        ensures { Follows self.old self.new (numbered result) (clearing (held self.old)) }
    {
        let code = self.coded()?;
        let positions = code.n();
        self.lost.blank(positions).unwrap();
        Ok(())
    }

    // Replaces the checks so that the word is a codeword, takes off all marks and empties the report.
    pub fn encode(&mut self) -> Result<(), Refusal>
        ensures follows { Follows self.old self.new (numbered result) (encoding (F.Field.means self.old.field) (held self.old)) }
        ensures encodes { Encoded (F.Field.means self.old.field) (held self.old) (numbered result) (held self.new) }
        ensures comes_back { numbered result ≡ Ok tt → ComesBack (F.Field.means self.old.field) (held self.new) }
    {
        let code = self.coded()?;
        encode(&self.field, &code, self.word.as_mut_slice()).unwrap();
        self.lost.blank(code.n()).unwrap();
        self.report.clear();
        Ok(())
    }

    // Makes the word the codeword in reach, takes off all marks and writes the report.
    pub fn correct(&mut self) -> Result<(), Refusal>
        ensures follows { Follows self.old self.new (numbered result) (correcting (F.Field.means self.old.field) (held self.old)) }
        ensures refuses { Refuses (F.Field.means self.old.field) (held self.old) (numbered result) }
        ensures corrects { Corrects (F.Field.means self.old.field) (held self.old) (numbered result) (held self.new) }
    {
        let code = self.coded()?;
        let n = code.n() as usize;
        // Arrays, since a call on a bay takes no memory.
        let mut erased = [false; POSITIONS];
        let mut word = [0; POSITIONS];
        self.repair(code, &mut erased[0..n], &mut word[0..n])
    }

    // The same under its code, with room for its marks and for a second word.
    fn repair(&mut self, code: Code, erased: &mut [bool], word: &mut [u32]) -> Result<(), Refusal>
        requires coded { self.old.code ≡ Some code }
        requires wide { length erased.old ≡ (shape code).n }
        requires long { length word.old ≡ (shape code).n }
        ensures { Follows self.old self.new (numbered result) (correcting (F.Field.means self.old.field) (held self.old)) }
    {
        self.lost.copy_to(erased).unwrap();
        word.copy_from_slice(self.word.as_slice());
        correct(&self.field, &code, erased, word)?;
        self.report
            .describe(self.lost.count(), self.word.as_slice(), word)
            .unwrap();
        self.word.as_mut_slice().copy_from_slice(word);
        self.lost.blank(code.n()).unwrap();
        Ok(())
    }
}
