// A call to a bay as a value, and lists of calls made one after another.
// However the calls are mixed, answers, buffers and the bay come out as the plain bay's (specs/Steps.antt).
#![tactic(auto)]

ghost use Rattle.std.specs.Prelude.{◌≡◌, map, MatchResult};
ghost use Rattle.code.specs.Refusals.{numbered};
ghost use Rattle.bay.specs.Plain.{empty, testing, placing};
ghost use Rattle.bay.specs.Held.{held, Follows};
ghost use Rattle.calls.specs.Steps.{plainly, rooted, placed, step, runs, Composes};
ghost use Rattle.calls.specs.Runs.{asked, said, told};

use bay::Bay;
use code::Refusal;
use field::Fixed;
use std::alloc::{AllocError, Global};

// A call, with the buffers that it brings.
#[derive(Drop)]
pub enum Call {
    Make(u32, u32, u32),
    Load(Vec<u32>, Vec<u8>),
    Put(u32, u32),
    Mark(u32),
    Clear,
    Encode,
    Correct,
    Test,
    Read(Vec<u32>),
    Report(Vec<u32>),
    Message(Vec<u32>),
}

// What an accepted call answers. A part of a buffer is answered by its start and its length.
#[derive(Clone, Copy, Debug, PartialEq, Eq)]
pub enum Outcome {
    Done,
    Root(Option<u32>),
    Part { start: usize, length: usize },
}

// What a call answers: what it was accepted with, or why it was refused.
pub type Answer = Result<Outcome, Refusal>;

// A call, and where its answer goes.
#[derive(Drop)]
pub struct Line {
    pub call: Call,
    pub answer: Answer,
}

// The answer of a call that has nothing to tell.
fn answered(res: Result<(), Refusal>) -> Answer
    ensures { said result ≡ plainly (numbered res) }
{
    res.map(|()| Outcome::Done)
}

fn ask_test<F: Fixed<Q, M>, const Q: u32, const M: u32>(bay: &Bay<F, Q, M>) -> Answer
    ensures { said result ≡ rooted (testing (F.Field.means bay.now.field) (held bay.now)) }
{
    bay.test().map(Outcome::Root)
}

fn ask_message<F: Fixed<Q, M>, const Q: u32, const M: u32>(
    bay: &Bay<F, Q, M>,
    buf: &[u32],
) -> Answer
    ensures { said result ≡ placed (placing (held bay.now) buf.now) }
{
    let start = bay.checks() as usize;
    let length = bay.message(buf)?.len();
    Ok(Outcome::Part { start, length })
}

// Makes the call of a line, and puts the answer there.
pub fn perform<F: Fixed<Q, M>, const Q: u32, const M: u32>(bay: &mut Bay<F, Q, M>, line: &mut Line)
    ensures { Follows bay.old bay.new (told line.new) (step (F.Field.means bay.old.field) (held bay.old) (asked line.old.call)) }
{
    line.answer = match &mut line.call {
        Call::Make(n, r, b) => answered(bay.make(*n, *r, *b)),
        Call::Load(word, map) => answered(bay.load(word.as_slice(), map.as_slice())),
        Call::Put(pos, sym) => answered(bay.put(*pos, *sym)),
        Call::Mark(pos) => answered(bay.mark(*pos)),
        Call::Clear => answered(bay.clear()),
        Call::Encode => answered(bay.encode()),
        Call::Correct => answered(bay.correct()),
        Call::Test => ask_test(bay),
        Call::Read(out) => answered(bay.read(out.as_mut_slice())),
        Call::Report(out) => answered(bay.report(out.as_mut_slice())),
        Call::Message(buf) => ask_message(bay, buf.as_slice()),
    };
}

// Makes the calls, one after another. To make some and then others is to make them all.
pub fn run<F: Fixed<Q, M>, const Q: u32, const M: u32>(bay: &mut Bay<F, Q, M>, lines: &mut [Line])
    ensures follows { Follows bay.old bay.new (map told lines.new) (runs (F.Field.means bay.old.field) (held bay.old) (map (λ l. asked l.call) lines.old)) }
    ensures composes { Composes }
{
    for line in lines.iter_mut() {
        perform(bay, line);
    }
}

// A new bay, and the calls made to it. Where there is no memory for a bay, the lines stay as they are.
pub fn run_new<F: Fixed<Q, M> + Drop, const Q: u32, const M: u32>(
    heap: Global,
    field: F,
    lines: &mut [Line],
) -> Result<Bay<F, Q, M>, AllocError>
    ensures { MatchResult result (λ b. ((map told lines.new, held b) ≡ runs (F.Field.means field) empty (map (λ l. asked l.call) lines.old)) × (b.field ≡ field)) (λ _. lines.new ≡ lines.old) }
{
    let mut bay = Bay::new(heap, field)?;
    run(&mut bay, lines);
    Ok(bay)
}
