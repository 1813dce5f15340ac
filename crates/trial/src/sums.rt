// Check sums and the test of a word.
use crate::cases::{Cases, Numbers};
use crate::proved;
use crate::tally::{Outcome, Row, Tally};
use field::Fixed;
use second::arithmetic::Arithmetic;
use second::places::put;
use second::rules::check_word;
use second::words::Shape;
use std::alloc::AllocError;

// Check sum j and the lowest failing root, as the second implementation answers.
fn second_way(
    second: &Arithmetic,
    shape: Shape,
    word: &[u32],
    j: u32,
) -> Result<(u32, Option<u32>), Row> {
    check_word(second, shape, word, shape.n as usize)?;
    Ok((
        shape.check_sum(second, word, j as usize),
        shape.failing(second, word),
    ))
}

// Holds the two against each other on one word.
fn compare<F: Fixed<Q, M>, const Q: u32, const M: u32>(
    field: &F,
    cases: &mut Cases,
    shape: Shape,
    word: &[u32],
    tally: &mut Tally,
) -> Result<(), AllocError> {
    let j = cases.random.below(40);
    let first = Outcome {
        answer: proved::sums(field, shape, word, j),
        after: (),
    };
    let other = Outcome {
        answer: second_way(cases.second, shape, word, j),
        after: (),
    };
    let code = Numbers(shape);
    let case = format_args!("{Q}: code {code}, word {word:?}, sum {j}");
    tally.compare_outcomes(case, &first, &other)
}

// A codeword, with one symbol changed or none.
fn near_codeword(cases: &mut Cases, shape: Shape) -> Result<Vec<u32>, AllocError> {
    let mut word = cases.symbols(shape.n)?;
    shape.encode(cases.second, &mut word)?;
    if cases.random.one_in(2) {
        let i = cases.random.below(shape.n);
        put(&mut word, i as usize, cases.symbol());
    }
    Ok(word)
}

// Words of any kind, and words near codewords.
pub fn run<F: Fixed<Q, M>, const Q: u32, const M: u32>(
    field: &F,
    cases: &mut Cases,
    count: u32,
    tally: &mut Tally,
) -> Result<(), AllocError> {
    for _ in 0..count {
        let shape = cases.any_shape();
        let word = cases.any_word(shape.n)?;
        compare(field, cases, shape, &word, tally)?;
    }
    for _ in 0..count {
        let shape = cases.code();
        let word = near_codeword(cases, shape)?;
        compare(field, cases, shape, &word, tally)?;
    }
    Ok(())
}
