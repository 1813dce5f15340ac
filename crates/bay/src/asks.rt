// The calls that change nothing in a bay.
ghost use Rattle.std.specs.Prelude.{◌≡◌, ◌+◌, ◌*◌, length, take, drop, IfOk, Some, None, Ok, Err, MatchResult};
ghost use Rattle.code.specs.Refusals.{number, numbered};
ghost use Rattle.bay.specs.Plain.{given, testing, reading, reporting, placing};
ghost use Rattle.bay.specs.Held.{held};

use crate::Bay;
use code::word::first_failing_root;
use code::{Code, Refusal};
use field::Fixed;

impl<F: Fixed<Q, M>, const Q: u32, const M: u32> Bay<F, Q, M> {
    // The code, which most calls ask for first.
    pub(crate) fn coded(&self) -> Result<Code, Refusal>
        ensures { MatchResult result (λ c. self.now.code ≡ Some c) (λ e. (self.now.code ≡ None) × (e ≡ Refusal.NoCode)) }
    {
        self.code.ok_or(Refusal::NoCode)
    }

    // How many positions the word has: 0 where there is no code.
    // A number and no Option: a bay without a code has 0 of them, as the plain bay says.
    pub fn positions(&self) -> u32
        ensures { result ≡ given (held self.now).code 0 (λ c. c.n) }
    {
        self.code.map_or(0, |code| code.n())
    }

    // How many of them are checks.
    // A number and no Option, as above.
    pub fn checks(&self) -> u32
        ensures { result ≡ given (held self.now).code 0 (λ c. c.checks) }
    {
        self.code.map_or(0, |code| code.checks())
    }

    // Nothing where all check sums are 0, and otherwise the lowest that fails.
    pub fn test(&self) -> Result<Option<u32>, Refusal>
        ensures { numbered result ≡ testing (F.Field.means self.now.field) (held self.now) }
    {
        let code = self.coded()?;
        first_failing_root(&self.field, &code, self.word.as_slice())
    }

    // Writes the symbols from the start of a buffer.
    pub fn read(&self, out: &mut [u32]) -> Result<(), Refusal>
        ensures { (numbered result, out.new) ≡ reading (held self.now) out.old }
    {
        let code = self.coded()?;
        let n = code.n() as usize;
        if out.len() < n {
            return Err(Refusal::Buffer);
        }
        out[0..n].copy_from_slice(self.word.as_slice());
        Ok(())
    }

    // Writes the report from the start of a buffer.
    pub fn report(&self, out: &mut [u32]) -> Result<(), Refusal>
        ensures { (numbered result, out.new) ≡ reporting (held self.now) out.old }
    {
        self.coded()?;
        self.report.write(out)
    }

    // The message of a buffer: the positions after the checks, as a part of it.
    pub fn message<'a>(&self, buf: &'a [u32]) -> Result<&'a [u32], Refusal>
        ensures place { MatchResult result (λ s. placing (held self.now) buf.now ≡ Ok (given (held self.now).code 0 (λ c. c.checks), length s.now)) (λ e. placing (held self.now) buf.now ≡ Err (number e)) }
        ensures value { IfOk result (λ s. s.now ≡ take (length s.now) (drop (given (held self.now).code 0 (λ c. c.checks)) buf.now)) }
        ensures block { IfOk result (λ s. s.ref_ptr.0 ≡ buf.entry.ref_ptr.0) }
        ensures start { IfOk result (λ s. s.ref_ptr.1 ≡ buf.entry.ref_ptr.1 + given (held self.now).code 0 (λ c. c.checks) * 4) }
    {
        let code = self.coded()?;
        let n = code.n() as usize;
        if buf.len() < n {
            return Err(Refusal::Buffer);
        }
        Ok(&buf[code.checks() as usize..n])
    }
}
