ghost use Rattle.std.specs.Prelude.{◌≡◌, ◌+◌};
ghost use Rattle.code.specs.Shape.{coded, coding, shape};
ghost use Rattle.code.specs.Distance.{Distance, OneInReach, OnePerMessage};

use super::{Code, Refusal};

impl Code {
    // The most positions and the most checks that a code may have.
    pub const MOST_POSITIONS: u32 = 928;

    pub const MOST_CHECKS: u32 = 512;

    // The code of three numbers, or which of them is refused.
    pub fn new(n: u32, checks: u32, first: u32) -> Result<Code, Refusal>
        ensures { coded result ≡ coding n checks first }
    {
        if n < 2 || n > Code::MOST_POSITIONS {
            return Err(Refusal::Positions);
        }
        if checks == 0 || checks >= n || checks > Code::MOST_CHECKS {
            return Err(Refusal::Checks);
        }
        Ok(Code { n, checks, first })
    }

    // How many positions a word has.
    pub fn n(&self) -> u32
        ensures { result ≡ (shape self.now).n }
    {
        self.n
    }

    // How many of them are checks.
    pub fn checks(&self) -> u32
        ensures { result ≡ (shape self.now).checks }
    {
        self.checks
    }

    // The exponent of the first root.
    pub fn first_root(&self) -> u32
        ensures { result ≡ (shape self.now).first }
    {
        self.first
    }

    // In how many positions two codewords differ at least: so at most one codeword is in reach of a word with its marks.
    pub fn distance(&self) -> u32
        ensures value { result ≡ (shape self.now).checks + 1 }
        ensures apart { Distance }
        ensures reach { OneInReach }
        ensures message { OnePerMessage }
    {
        1 + self.checks
    }
}
