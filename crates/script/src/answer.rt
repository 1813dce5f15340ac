// The answer to a line: the call that it asks for is made, and what it answers is written out.
ghost use Rattle.std.specs.Prelude.{◌≡◌, IfOk, string_bytes};
ghost use Rattle.bay.specs.Held.{held, Follows};
ghost use Rattle.calls.specs.Runs.{asked, said, told};
ghost use Rattle.calls.specs.Steps.{step};
ghost use Rattle.text.specs.Answers.{accepting};
ghost use Rattle.script.specs.Replies.{answered, line_of, Replies};

use crate::request::request;
use bay::Bay;
use calls::{Call, Line, Outcome, run};
use field::Fixed;
use std::alloc::{AllocError, Global};
use std::slice;
use text::answer::{answer_line, question_line};
use text::line::read_line;

// The line for an accepted call, of a word of n positions.
fn accepted(heap: Global, n: u32, call: Call) -> Result<String, AllocError>
    ensures { IfOk result (λ s. string_bytes s ≡ accepting (answered n (asked call))) }
{
    match call {
        Call::Read(mut symbols) => {
            symbols.truncate(n as usize);
            answer_line(heap, Ok(symbols.as_slice()))
        }
        Call::Report(mut numbers) => {
            // Never empty: a report's room has its count first.
            let changes = numbers.first().copied().unwrap_or(0) as usize;
            numbers.truncate(2 + 2 * changes);
            answer_line(heap, Ok(numbers.as_slice()))
        }
        _ => answer_line(heap, Ok(&[])),
    }
}

// The line for a call that was made.
fn reply(heap: Global, n: u32, line: Line) -> Result<String, AllocError>
    ensures { IfOk result (λ s. string_bytes s ≡ line_of n (asked line.call) (said line.answer)) }
{
    let Line { call, answer } = line;
    match answer {
        Ok(Outcome::Done) => accepted(heap, n, call),
        Ok(Outcome::Root(root)) => answer_line(heap, Ok(root.as_slice())),
        Ok(Outcome::Part { .. }) => answer_line(heap, Ok(&[])),
        Err(refusal) => answer_line(heap, Err(refusal)),
    }
}

// A run of one call, and the line that it leaves: the law over all runs then holds of what the program does.
fn run_one<F: Fixed<Q, M>, const Q: u32, const M: u32>(bay: &mut Bay<F, Q, M>, call: Call) -> Line
    ensures { Follows bay.old bay.new (told result) (step (F.Field.means bay.old.field) (held bay.old) (asked call)) }
{
    let answer = Ok(Outcome::Done);
    let mut line = Line { call, answer };
    run(bay, slice::from_mut(&mut line));
    line
}

// The bytes that answer a line. A line that asks for no call is answered by a question mark, and changes nothing.
pub fn answer<F: Fixed<Q, M>, const Q: u32, const M: u32>(
    heap: Global,
    bay: &mut Bay<F, Q, M>,
    line: &[u8],
) -> Result<String, AllocError>
    ensures replies { IfOk result (λ s. Replies (F.Field.means bay.old.field) (held bay.old) line.now (string_bytes s) (held bay.new)) }
    ensures same { bay.new.field ≡ bay.old.field }
{
    let Some(sentence) = read_line(heap, line)? else {
        return question_line(heap);
    };
    let Some(call) = request(heap, sentence)? else {
        return question_line(heap);
    };
    let line = run_one(bay, call);
    reply(heap, bay.positions(), line)
}
