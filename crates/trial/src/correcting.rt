// Correcting a word with its marks.

use crate::cases::{Batch, Cases, Numbers};
use crate::proved;
use crate::random::Random;
use crate::tally::{Outcome, Row, Tally};
use field::Fixed;
use second::arithmetic::Arithmetic;
use second::correction::Received;
use second::places::put;
use second::rules::{Rule, check_word};
use second::words::Shape;
use std::alloc::AllocError;

// A word of a code that damage is done to, and whether each of its positions is marked.
// Two rows, as in Received: marks of another length than the word are a case too.
#[derive(Drop)]
struct Damaged {
    shape: Shape,
    word: Vec<u32>,
    marks: Vec<bool>,
}

impl Damaged {
    // The word as it comes to the corrector.
    fn received(&self) -> Received<'_> {
        Received {
            shape: self.shape,
            word: &self.word,
            marks: &self.marks,
        }
    }
}

// The second implementation's codeword in reach of a word, where there is one.
type Sought = Result<Option<Vec<u32>>, AllocError>;

// As the second implementation corrects, by one of its ways to look for the codeword in reach.
fn second_way<S: FnOnce() -> Sought>(
    cases: &Cases,
    got: Received,
    sought: S,
) -> Result<Outcome<(), Vec<u32>>, AllocError>
    requires { S.IsAlwaysCallable sought }
{
    let corrected = match check_word(cases.second, got.shape, got.word, got.marks.len()) {
        Ok(()) => sought()?.ok_or(Rule::OutOfReach),
        Err(rule) => Err(rule),
    };
    Ok(match corrected {
        Ok(after) => Outcome {
            answer: Ok(()),
            after,
        },
        Err(rule) => Outcome {
            answer: Err(Row::from(rule)),
            after: got.word.to_vec(cases.heap)?,
        },
    })
}

// Holds the two against each other on one word.
fn compare<F: Fixed<Q, M>, const Q: u32, const M: u32, S: FnOnce() -> Sought>(
    field: &F,
    cases: &Cases,
    got: Received,
    sought: S,
    tally: &mut Tally,
) -> Result<(), AllocError>
    requires { S.IsAlwaysCallable sought }
{
    let mut after = got.word.to_vec(cases.heap)?;
    let answer = proved::correct(field, got.shape, got.marks, &mut after);
    let first = Outcome { answer, after };
    let other = second_way(cases, got, sought)?;
    let Received { shape, word, marks } = got;
    let code = Numbers(shape);
    let case = format_args!("{Q}: code {code}, correct {word:?} {marks:?}");
    tally.compare_outcomes(case, &first, &other)
}

// How many marks: none, few, or up to one more than there are checks.
fn any_marked(random: &mut Random, checks: u32) -> u32 {
    match random.below(4) {
        0 => 0,
        1 => random.below(3),
        _ => random.below(checks.saturating_add(2)),
    }
}

// How many errors beside that many marks: below, at and above what the checks can bear.
fn any_errors(random: &mut Random, shape: Shape, marked: u32) -> u32 {
    let bearable = shape.checks.saturating_sub(marked) / 2;
    match random.below(8) {
        0 => 0,
        1 => random.below(bearable.saturating_add(1)),
        2 => bearable.saturating_add(1),
        3 => random.below(shape.n),
        _ => bearable,
    }
}

// Puts other symbols at some positions, which may fall together.
fn damage(cases: &mut Cases, errors: u32, got: &mut Damaged) {
    for _ in 0..errors {
        let i = cases.random.below(got.shape.n);
        put(&mut got.word, i as usize, cases.symbol());
    }
}

// Marks some positions, at which symbols may change or not.
fn mark(cases: &mut Cases, count: u32, got: &mut Damaged) {
    for _ in 0..count {
        let i = cases.random.below(got.marks.len().min(1000) as u32) as usize;
        if let Some(mark) = got.marks.get_mut(i) {
            *mark = true;
        }
        if cases.random.one_in(2) {
            put(&mut got.word, i, cases.symbol());
        }
    }
}

// A codeword with marks and errors; at times a word far from any codeword.
fn damaged_codeword(cases: &mut Cases, shape: Shape) -> Result<Damaged, AllocError> {
    let mut word = cases.symbols(shape.n)?;
    if !cases.random.one_in(16) {
        shape.encode(cases.second, &mut word)?;
    }
    let marks = vec![in cases.heap; false; shape.n as usize]?;
    let mut got = Damaged { shape, word, marks };
    let marked = any_marked(cases.random, shape.checks);
    mark(cases, marked, &mut got);
    let errors = any_errors(cases.random, shape, marked);
    damage(cases, errors, &mut got);
    Ok(got)
}

// Numbers that may be no code, no word or not its marks.
fn unfit(cases: &mut Cases) -> Result<Damaged, AllocError> {
    let shape = cases.any_shape();
    let word = cases.any_word(shape.n)?;
    let n = cases.any_length(shape.n);
    let marks = cases.marks(n, 4)?;
    Ok(Damaged { shape, word, marks })
}

// Words of any code, against linear equations, and calls that are refused.
pub fn run<F: Fixed<Q, M>, const Q: u32, const M: u32>(
    field: &F,
    cases: &mut Cases,
    count: u32,
    tally: &mut Tally,
) -> Result<(), AllocError> {
    for _ in 0..count {
        let shape = cases.code();
        let damaged = damaged_codeword(cases, shape)?;
        let got = damaged.received();
        let second = cases.second;
        compare(field, cases, got, || got.by_equations(second), tally)?;
    }
    for _ in 0..count / 8 {
        let unfit = unfit(cases)?;
        let got = unfit.received();
        let second = cases.second;
        compare(field, cases, got, || got.by_equations(second), tally)?;
    }
    Ok(())
}

// Words of codes that are short enough to go through all their words, beside such a search.
pub fn run_all_words<F: Fixed<Q, M>, const Q: u32, const M: u32>(
    field: &F,
    cases: &mut Cases,
    batch: Batch,
    tally: &mut Tally,
) -> Result<(), AllocError> {
    for _ in 0..batch.count {
        let n = cases.random.between(2, batch.most);
        let checks = cases.random.between(1, n.saturating_sub(1));
        let first = cases.random.below(cases.second.turn());
        let damaged = damaged_codeword(cases, Shape { n, checks, first })?;
        let got = damaged.received();
        let second = cases.second;
        let heap = cases.heap;
        let mut zeros = vec![in heap; 0; got.word.len()]?;
        compare(
            field,
            cases,
            got,
            || {
                let found = got.by_trying(second, &mut zeros);
                found.map(|codeword| codeword.to_vec(heap)).transpose()
            },
            tally,
        )?;
    }
    Ok(())
}
