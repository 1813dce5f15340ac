// The library's calls on the numbers that a case is made of.
use crate::tally::Row;
use code::Code;
use field::Fixed;
use second::words::Shape;

// The code of three numbers.
// No TryFrom<Shape> for Code, since both are of other crates.
fn code(shape: Shape) -> Result<Code, Row> {
    Ok(Code::new(shape.n, shape.checks, shape.first)?)
}

// Check sum j of a word, and the lowest that is not 0.
pub fn sums<F: Fixed<Q, M>, const Q: u32, const M: u32>(
    field: &F,
    shape: Shape,
    word: &[u32],
    j: u32,
) -> Result<(u32, Option<u32>), Row> {
    let code = code(shape)?;
    let sum = code::word::check_sum(field, &code, word, j)?;
    let failing = code::word::first_failing_root(field, &code, word)?;
    Ok((sum, failing))
}

// Encodes a word.
pub fn encode<F: Fixed<Q, M>, const Q: u32, const M: u32>(
    field: &F,
    shape: Shape,
    word: &mut [u32],
) -> Result<(), Row> {
    Ok(encoder::encode(field, &code(shape)?, word)?)
}

// Corrects a word with its marks.
pub fn correct<F: Fixed<Q, M>, const Q: u32, const M: u32>(
    field: &F,
    shape: Shape,
    marks: &[bool],
    word: &mut [u32],
) -> Result<(), Row> {
    Ok(corrector::correct(field, &code(shape)?, marks, word)?)
}
