// From a line that says a letter and numbers to the call that it asks for.
ghost use Rattle.std.specs.Prelude.{◌≡◌, IfOk};
ghost use Rattle.script.specs.Requests.{requested};
ghost use Rattle.script.specs.Asking.{sought};

use calls::Call;
use code::{CHECKS, POSITIONS};
use std::alloc::{AllocError, Global};
use text::line::Sentence;

// Room for the largest report.
const REPORT_ROOM: usize = 2 + 2 * CHECKS;

// The call that a letter and its numbers ask for, or nothing.
pub fn request(heap: Global, sentence: Sentence) -> Result<Option<Call>, AllocError>
    ensures { IfOk result (λ found. sought found ≡ requested sentence.letter sentence.numbers.items) }
{
    let Sentence { letter, numbers } = sentence;
    let call = match (char::from(letter), numbers.as_slice()) {
        ('N', [n, checks, first]) => Call::Make(*n, *checks, *first),
        // No position is marked.
        ('L', symbols) => {
            let map = vec![in heap; 0u8; symbols.len().div_ceil(8)]?;
            Call::Load(numbers, map)
        }
        ('P', [position, symbol]) => Call::Put(*position, *symbol),
        ('M', [position]) => Call::Mark(*position),
        ('X', []) => Call::Clear,
        ('E', []) => Call::Encode,
        ('C', []) => Call::Correct,
        ('T', []) => Call::Test,
        ('W', []) => Call::Read(vec![in heap; 0u32; POSITIONS]?),
        ('Q', []) => Call::Report(vec![in heap; 0u32; REPORT_ROOM]?),
        _ => return Ok(None),
    };
    Ok(Some(call))
}
