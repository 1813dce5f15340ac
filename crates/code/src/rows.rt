ghost use Rattle.std.specs.Prelude.{◌≡◌, Some, decimal};
ghost use Rattle.code.specs.Refusals.{number as numbering};

use super::Refusal;
use std::fmt;

impl Refusal {
    // The number of the row.
    pub fn number(&self) -> u32
        ensures { result ≡ numbering self.now }
    {
        *self as u32
    }
}

// The number of the row in digits.
impl fmt::Display for Refusal {
    ghost output = { λ refusal. Some (decimal (numbering refusal)) };

    fn fmt<W: fmt::Write>(&self, f: &mut fmt::Formatter<W>) -> fmt::Result {
        let number = self.number();
        write!(f, "{number}")
    }
}
