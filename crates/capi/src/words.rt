// Each call once, over any field. The three numbers of a code go apart, as C hands them in: a struct would be made and taken apart once.
ghost use Rattle.std.specs.Prelude.{◌≡◌, Ok, Err};
ghost use Rattle.code.specs.Refusals.{numbered};
ghost use Rattle.capi.specs.Status.{answer};
ghost use Rattle.capi.specs.Outcomes.{Encoded, Tested, Restored, roomy, told};

use code::word::first_failing_root;
use code::{Code, POSITIONS, Refusal};
use corrector::correct;
use encoder::encode;
use field::Fixed;
use marks::spread;

// How many places tell of a failing root: whether there is one, and which.
const ROOT_PLACES: usize = 2;

// The status of a call that is accepted.
const ACCEPTED: u32 = 0;

// The status of an answer: 0, or the number of the refusal, since C has no Result.
pub(crate) fn status(res: Result<(), Refusal>) -> u32
    ensures { answer result ≡ numbered res }
{
    match res {
        Ok(()) => ACCEPTED,
        Err(why) => why.number(),
    }
}

// Encodes a word in place, by the three numbers of its code.
pub(crate) fn encode_word<F: Fixed<Q, M>, const Q: u32, const M: u32>(
    field: &F,
    n: u32,
    checks: u32,
    first: u32,
    word: &mut [u32],
) -> Result<(), Refusal>
    ensures { Encoded (F.Field.means field.now) n checks first word.old (numbered result) word.new }
{
    let code = Code::new(n, checks, first)?;
    encode(field, &code, word)
}

// Tells of a failing root in the first two places. C has no Option: the first place tells whether there is a root.
fn tell(root: Option<u32>, failing: &mut [u32]) -> Result<(), Refusal>
    ensures rows { numbered result ≡ roomy failing.old }
    ensures tells { result ≡ Ok tt → failing.new ≡ told root failing.old }
    ensures kept { (e : Refusal) → result ≡ Err e → failing.new ≡ failing.old }
{
    if failing.len() < ROOT_PLACES {
        return Err(Refusal::Buffer);
    }
    failing[0] = u32::from(root.is_some());
    failing[1] = root.unwrap_or(0);
    Ok(())
}

// Tells of the lowest failing root of a word, by the three numbers of its code.
pub(crate) fn test_word<F: Fixed<Q, M>, const Q: u32, const M: u32>(
    field: &F,
    n: u32,
    checks: u32,
    first: u32,
    word: &[u32],
    failing: &mut [u32],
) -> Result<(), Refusal>
    ensures { Tested (F.Field.means field.now) n checks first word.now failing.old (numbered result) failing.new }
{
    let code = Code::new(n, checks, first)?;
    let root = first_failing_root(field, &code, word)?;
    tell(root, failing)
}

// Corrects a word in place, by the three numbers of its code and the map of its erasures.
// A map that is not one of the code stands for no erasures at all, which correcting refuses in its turn among the rows.
pub(crate) fn correct_word<F: Fixed<Q, M>, const Q: u32, const M: u32>(
    field: &F,
    n: u32,
    checks: u32,
    first: u32,
    word: &mut [u32],
    map: &[u8],
) -> Result<(), Refusal>
    ensures { Restored (F.Field.means field.now) n checks first word.old map.now (numbered result) word.new }
{
    let code = Code::new(n, checks, first)?;
    // An array, since a call for C takes no memory.
    let mut room = [false; POSITIONS];
    let erased = &mut room[0..n as usize];
    match spread(map, erased) {
        Ok(()) => correct(field, &code, erased, word),
        Err(_) => correct(field, &code, &[], word),
    }
}
