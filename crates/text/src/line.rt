// Reading a line: a letter, then numbers of one to five digits, each after one space.
ghost use Rattle.std.specs.Prelude.{◌∷◌, IfOk, MatchOption};
ghost use Rattle.text.specs.Lines.{Spells, SpellsNothing, Says, SaysNothing, SaysOne};

use std::alloc::{AllocError, Global};

// The most bytes a line has before the byte that ends it.
pub const LONGEST_LINE: usize = 6000;

// The most digits of a number.
pub const MOST_DIGITS: u32 = 5;

// What a line says.
#[derive(Drop)]
pub struct Sentence {
    pub letter: u8,
    pub numbers: Vec<u32>,
}

// The numbers that a text spells after its first space, or nothing where it spells none. Digit by digit, since the library's parse takes
// a sign too, and any number of digits.
fn read_numbers(heap: Global, rest: &[u8]) -> Result<Option<Vec<u32>>, AllocError>
    ensures { IfOk result (λ found. MatchOption found (SpellsNothing (32 ∷ rest.now)) (λ v. Spells (32 ∷ rest.now) v.items)) }
{
    let mut numbers = Vec::new(heap);
    let mut value = 0;
    let mut digits = 0;
    for b in rest {
        match *b {
            b'0'..=b'9' if digits < MOST_DIGITS => {
                value = value * 10 + u32::from(*b - b'0');
                digits += 1;
            }
            b' ' if digits > 0 => {
                numbers.push(value)?;
                value = 0;
                digits = 0;
            }
            _ => return Ok(None),
        }
    }
    if digits == 0 {
        return Ok(None);
    }
    numbers.push(value)?;
    Ok(Some(numbers))
}

// The letter and the numbers that a line says, or nothing where it says none; no line says two things.
pub fn read_line(heap: Global, line: &[u8]) -> Result<Option<Sentence>, AllocError>
    ensures said { IfOk result (λ found. MatchOption found (SaysNothing line.now) (λ s. Says line.now s.letter s.numbers.items)) }
    ensures only { SaysOne }
{
    if line.len() > LONGEST_LINE {
        return Ok(None);
    }
    match line {
        [letter] => {
            let numbers = Vec::new(heap);
            let letter = *letter;
            Ok(Some(Sentence { letter, numbers }))
        }
        [letter, b' ', rest @ ..] => {
            let found = read_numbers(heap, rest)?;
            let letter = *letter;
            Ok(found.map(|numbers| Sentence { letter, numbers }))
        }
        _ => Ok(None),
    }
}
