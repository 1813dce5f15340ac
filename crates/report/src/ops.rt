ghost use Rattle.std.specs.Prelude.{◌≡◌, ◌≤◌, length, Ok, Err, is_ok, IfOk, if◌then◌else◌};
ghost use Rattle.code.specs.Refusals.{numbered};
ghost use Rattle.report.specs.Written.{no_report, writing};
ghost use Rattle.report.specs.Changes.{reported, reportable};
ghost use Rattle.report.specs.Told.{told};

use super::{Change, Report};
use code::{CHECKS, POSITIONS, Refusal};
use std::alloc::{AllocError, Global};

impl Report {
    // An empty report, with room for as many changes as a code has checks at most.
    pub fn new(heap: Global) -> Result<Report, AllocError>
        ensures { IfOk result (λ t. told t ≡ no_report) }
    {
        let changes = Vec::with_capacity(heap, CHECKS)?;
        Ok(Report { met: 0, changes })
    }

    // Empties it.
    pub fn clear(&mut self)
        ensures { told self.new ≡ no_report }
    {
        self.met = 0;
        self.changes.clear();
    }

    // How many positions changed.
    pub fn count(&self) -> u32
        ensures value { result ≡ length (told self.now).places }
        ensures bound { result ≤ 512 }
    {
        self.changes.len() as u32
    }

    // Tells of the change from the word `old` to the word `new`, and of how many marks were met.
    // Words of which it cannot tell are refused, and leave it empty.
    pub fn describe(&mut self, met: u32, old: &[u32], new: &[u32]) -> Result<(), Refusal>
        ensures value { result ≡ (if reportable old.now new.now then Ok tt else Err Refusal.Count) }
        ensures after { told self.new ≡ (if is_ok result then reported met old.now new.now else no_report) }
    {
        self.clear();
        if new.len() != old.len() || old.len() > POSITIONS {
            return Err(Refusal::Count);
        }
        for (position, (former, now)) in old.iter().zip(new).enumerate() {
            if former != now {
                if self.changes.len() == CHECKS {
                    self.clear();
                    return Err(Refusal::Count);
                }
                self.changes
                    .push(Change {
                        position: position as u32,
                        former: *former,
                    })
                    .unwrap();
            }
        }
        self.met = met;
        Ok(())
    }

    // Writes it from the start of a buffer: the two sizes, then all positions, then all former symbols.
    // A buffer too short is refused.
    pub fn write(&self, out: &mut [u32]) -> Result<(), Refusal>
        ensures { (numbered result, out.new) ≡ writing (told self.now) out.old }
    {
        let count = self.changes.len();
        if out.len() < 2 + 2 * count {
            return Err(Refusal::Buffer);
        }
        out[0] = count as u32;
        out[1] = self.met;
        // Both halves in one pass, and the places are counted, since a zip with `iter_mut` proves nothing of what it writes.
        for (i, change) in self.changes.iter().enumerate() {
            out[2 + i] = change.position;
            out[2 + count + i] = change.former;
        }
        Ok(())
    }
}
