ghost use Rattle.std.specs.Prelude.{◌≡◌, [], ◌∷◌, ◌++◌, length, take, IfOk, nat_lt};
ghost use Rattle.script.specs.Kept.{kept};

use super::LineBuffer;
use std::alloc::{AllocError, Global};
use text::line::LONGEST_LINE;

impl LineBuffer {
    // Room for a line, with nothing in it.
    pub fn new(heap: Global) -> Result<LineBuffer, AllocError>
        ensures { IfOk result (λ b. kept b ≡ []) }
    {
        let bytes = Vec::with_capacity(heap, LONGEST_LINE + 1)?;
        Ok(LineBuffer { bytes })
    }

    // One byte more of the line.
    pub fn add(&mut self, byte: u8)
        ensures { kept self.new ≡ take 6001 (kept self.old ++ (byte ∷ [])) }
    {
        if self.bytes.len() <= LONGEST_LINE {
            self.bytes.push_reserved(byte);
        }
    }

    // Forgets the line.
    pub fn clear(&mut self)
        ensures { kept self.new ≡ [] }
    {
        self.bytes.clear();
    }

    // Whether the line is longer than a line may be.
    pub fn is_over(&self) -> bool
        ensures { result ≡ nat_lt 6000 (length (kept self.now)) }
    {
        self.bytes.len() > LONGEST_LINE
    }

    // What is kept of the line.
    pub fn bytes(&self) -> &[u8]
        ensures { result.now ≡ kept self.now }
    {
        self.bytes.as_slice()
    }
}
