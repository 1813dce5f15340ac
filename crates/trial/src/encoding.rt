// Encoding.
use crate::cases::{Cases, Numbers};
use crate::proved;
use crate::tally::{Outcome, Row, Tally};
use field::Fixed;
use second::arithmetic::Arithmetic;
use second::rules::check_word;
use second::words::Shape;
use std::alloc::AllocError;

// As the second implementation encodes.
fn second_way(
    second: &Arithmetic,
    shape: Shape,
    mut word: Vec<u32>,
) -> Result<Outcome<(), Vec<u32>>, AllocError> {
    let rule = check_word(second, shape, &word, shape.n as usize);
    if rule.is_ok() {
        shape.encode(second, &mut word)?;
    }
    Ok(Outcome {
        answer: rule.map_err(Row::from),
        after: word,
    })
}

// Holds the two against each other on one word.
fn compare<F: Fixed<Q, M>, const Q: u32, const M: u32>(
    field: &F,
    cases: &mut Cases,
    shape: Shape,
    word: &[u32],
    tally: &mut Tally,
) -> Result<(), AllocError> {
    let mut after = word.to_vec(cases.heap)?;
    let answer = proved::encode(field, shape, &mut after);
    let first = Outcome { answer, after };
    let other = second_way(cases.second, shape, word.to_vec(cases.heap)?)?;
    let code = Numbers(shape);
    let case = format_args!("{Q}: code {code}, encode {word:?}");
    tally.compare_outcomes(case, &first, &other)
}

// A code of the field, or any three numbers, and a word of that length or another.
pub fn run<F: Fixed<Q, M>, const Q: u32, const M: u32>(
    field: &F,
    cases: &mut Cases,
    count: u32,
    tally: &mut Tally,
) -> Result<(), AllocError> {
    for _ in 0..count {
        let shape = if cases.random.one_in(4) {
            cases.any_shape()
        } else {
            cases.code()
        };
        let word = cases.any_word(shape.n)?;
        compare(field, cases, shape, &word, tally)?;
    }
    Ok(())
}
