ghost use Rattle.std.specs.Prelude.{◌≡◌, ◌≤◌, true, false, [], length, replicate, Ok, Err, is_ok, IfOk, if◌then◌else◌, count_by, ◌==◌, nat_le, slice_index_or, slice_set};
ghost use Rattle.marks.specs.Marks.{marks, tidy};
ghost use Rattle.marks.specs.Held.{flags, span, Remarked};

use super::LostMap;
use crate::bytes::{bytes_for, count_bits, has_bit, is_tidy, write_marks};
use code::{Code, Refusal};
use std::alloc::{AllocError, Global};

impl LostMap {
    // A map of no positions, with room for the most.
    pub fn new(heap: Global) -> Result<LostMap, AllocError>
        ensures { IfOk result (λ m. (flags m ≡ []) × (span m ≡ 0)) }
    {
        let bytes = Vec::with_capacity(heap, bytes_for(Code::MOST_POSITIONS))?;
        Ok(LostMap { n: 0, bytes })
    }

    // Makes it n positions, none marked. Too many are refused, and nothing changes.
    pub fn blank(&mut self, n: u32) -> Result<(), Refusal>
        ensures value { result ≡ (if nat_le n 928 then Ok tt else Err Refusal.Positions) }
        ensures flags { flags self.new ≡ (if is_ok result then replicate n false else flags self.old) }
        ensures span { span self.new ≡ (if is_ok result then n else span self.old) }
    {
        if n > Code::MOST_POSITIONS {
            return Err(Refusal::Positions);
        }
        self.n = n;
        self.bytes.clear();
        self.bytes.resize(bytes_for(n), 0).unwrap();
        Ok(())
    }

    // Marks a position; past the last there is nothing to mark.
    pub fn set(&mut self, pos: u32)
        ensures { Remarked self.old self.new (slice_set (flags self.old) pos true) }
    {
        if pos < self.n {
            self.bytes[(pos / 8) as usize] |= 1 << (pos % 8);
        }
    }

    // Takes off the mark of a position.
    pub fn unset(&mut self, pos: u32)
        ensures { Remarked self.old self.new (slice_set (flags self.old) pos false) }
    {
        if self.has(pos) {
            self.bytes[(pos / 8) as usize] ^= 1 << (pos % 8);
        }
    }

    // Whether a position is marked.
    pub fn has(&self, pos: u32) -> bool
        ensures { result ≡ slice_index_or (flags self.now) pos false }
    {
        pos < self.n && has_bit(self.bytes.as_slice(), pos)
    }

    // Whether these are the bytes of its positions, with no bit past them.
    pub fn takes(&self, map: &[u8]) -> bool
        ensures { result ≡ tidy (span self.now) map.now }
    {
        is_tidy(map, self.n)
    }

    // Takes over such bytes. Others are refused, and nothing changes.
    pub fn fill(&mut self, map: &[u8]) -> Result<(), Refusal>
        ensures value { result ≡ (if tidy (span self.old) map.now then Ok tt else Err Refusal.Map) }
        ensures after { Remarked self.old self.new (if is_ok result then marks (span self.old) map.now else flags self.old) }
    {
        if !is_tidy(map, self.n) {
            return Err(Refusal::Map);
        }
        self.bytes.as_mut_slice().copy_from_slice(map);
        Ok(())
    }

    // How many positions are marked: the ones in its bytes.
    pub fn count(&self) -> u32
        ensures value { result ≡ count_by (λ b. b) (flags self.now) }
        ensures bound { result ≤ 928 }
    {
        count_bits(self.bytes.as_slice())
    }

    // Writes for each position whether it is marked. A slice of another length is refused, and nothing changes.
    pub fn copy_to(&self, out: &mut [bool]) -> Result<(), Refusal>
        ensures value { result ≡ (if length out.old == span self.now then Ok tt else Err Refusal.Buffer) }
        ensures after { out.new ≡ (if is_ok result then flags self.now else out.old) }
    {
        if out.len() != self.n as usize {
            return Err(Refusal::Buffer);
        }
        write_marks(self.bytes.as_slice(), out);
        Ok(())
    }
}
