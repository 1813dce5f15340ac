// A session: a bay over the field that its first line names.
ghost use Rattle.std.specs.Prelude.{◌≡◌, true, false, IfOk, string_bytes};
ghost use Rattle.script.specs.Sessions.{waiting, closed, Talks, Opens};
ghost use Rattle.script.specs.Desks.{session};

use crate::answer::answer;
use bay::Bay;
use f16::F16;
use f256::F256;
use f929::F929;
use std::alloc::{AllocError, Global};
use text::answer::question_line;

// A bay for labels, for reels and for control words.
pub type LabelBay = Bay<F929, 929, 928>;

pub type ReelBay = Bay<F256, 256, 255>;

pub type ControlBay = Bay<F16, 16, 15>;

// Where a session is: before its first line, over one of the fields, or at its end. An enum, since a function cannot make a dyn value
// and hand it out; its arms differ in the bay's type alone.
#[derive(Drop)]
pub enum Desk {
    Waiting,
    Label(LabelBay),
    Reel(ReelBay),
    Control(ControlBay),
    Closed,
}

// The desk that a first line opens, with its answer.
fn open(heap: Global, line: &[u8]) -> Result<(Desk, String), AllocError>
    ensures { IfOk result (λ o. Opens line.now (string_bytes o.1) (session o.0)) }
{
    let silence = String::new(heap);
    match line {
        b"929" => Ok((Desk::Label(Bay::new(heap, F929 {})?), silence)),
        b"256" => Ok((Desk::Reel(Bay::new(heap, F256 {})?), silence)),
        b"16" => Ok((Desk::Control(Bay::new(heap, F16 {})?), silence)),
        _ => Ok((Desk::Closed, question_line(heap)?)),
    }
}

impl Desk {
    // The bytes that answer a line; none for the line that names the field, and none once the session has ended.
    pub fn answer(&mut self, heap: Global, line: &[u8]) -> Result<String, AllocError>
        ensures { IfOk result (λ s. Talks (session self.old) line.now (string_bytes s) (session self.new)) }
    {
        match self {
            Desk::Waiting => {
                let (desk, text) = open(heap, line)?;
                *self = desk;
                Ok(text)
            }
            Desk::Label(bay) => answer(heap, bay, line),
            Desk::Reel(bay) => answer(heap, bay, line),
            Desk::Control(bay) => answer(heap, bay, line),
            Desk::Closed => Ok(String::new(heap)),
        }
    }

    // Whether the session has ended.
    pub fn is_closed(&self) -> bool
        ensures ends { result ≡ true → session self.now ≡ closed }
        ensures goes { session self.now ≡ closed → result ≡ true }
    {
        matches!(self, Desk::Closed)
    }
}
