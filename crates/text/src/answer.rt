// Writing an answer line: "ok" and the numbers answered, or "no" and the number of the refusal; "?" for a line that asks nothing.
ghost use Rattle.std.specs.Prelude.{◌≡◌, IfOk, Some, string_bytes};
ghost use Rattle.std.specs.List.{flat_map};
ghost use Rattle.text.specs.Answers.{spaced, question, answer};

use code::Refusal;
use std::alloc::{AllocError, Global};
use std::fmt;

// Numbers, each after one space.
#[derive(Clone, Copy)]
struct Spaced<'a>(&'a [u32]);

impl fmt::Display for Spaced<'_> {
    ghost output = { λ row. Some (flat_map spaced row.0.now) };

    fn fmt<W: fmt::Write>(&self, f: &mut fmt::Formatter<W>) -> fmt::Result {
        for x in self.0 {
            write!(f, " {x}")?;
        }
        Ok(())
    }
}

// The bytes of the line that answers a line which asks for no call.
pub fn question_line(heap: Global) -> Result<String, AllocError>
    ensures { IfOk result (λ line. string_bytes line ≡ question) }
{
    String::from_str(heap, "?\n")
}

// The bytes of the line that answers a call: it was accepted, with the numbers answered, or refused.
pub fn answer_line(heap: Global, reply: Result<&[u32], Refusal>) -> Result<String, AllocError>
    ensures { IfOk result (λ line. string_bytes line ≡ answer reply.entry) }
{
    match reply {
        Ok(numbers) => {
            let row = Spaced(numbers);
            format!(in heap; "ok{row}\n")
        }
        Err(refusal) => format!(in heap; "no {refusal}\n"),
    }
}
