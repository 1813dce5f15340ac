// The least pair.
use crate::cases::{Batch, Cases};
use crate::random::Random;
use crate::tally::{Outcome, Row, Tally};
use field::Fixed;
use second::arithmetic::Arithmetic;
use second::pairs::{Pair, Term, least};
use second::places::{at, put};
use second::rules::check_request;
use solver::{LeastPair, Side, solve};
use std::alloc::AllocError;

// What a call of the solver is given, but for the field: the coefficients, their number, the order, and the two buffers.
// n stands beside g, since a call whose n is another number is a case too.
#[derive(Drop)]
struct Request {
    g: Vec<u32>,
    n: u32,
    r: i32,
    buffers: Buffers,
}

// What the buffers of a call hold.
#[derive(Clone, PartialEq, Debug, Drop)]
struct Buffers {
    left: Vec<u32>,
    right: Vec<u32>,
}

// How many coefficients there are up to the last that is not 0.
// Beside the solver's own count, which is what it is held against.
fn count(xs: &[u32]) -> usize {
    xs.iter()
        .rposition(|x| *x != 0)
        .map_or(0, |last| last.saturating_add(1))
}

// By the library.
fn first_way<F: Fixed<Q, M>, const Q: u32, const M: u32>(
    field: &F,
    asked: &Request,
    after: &mut Buffers,
) -> Result<Option<LeastPair>, Row> {
    let Request { g, n, r, .. } = asked;
    let Buffers { left, right } = after;
    Ok(Some(solve(field, g, *n, *r, left, right)?))
}

// Writes a half over the front of a buffer.
// By zip, since nothing here shows the room that copy_from_slice asks for.
fn write_over(half: &[u32], buffer: &mut [u32]) {
    for (place, x) in buffer.iter_mut().zip(half) {
        *place = *x;
    }
}

// Answers by a pair.
fn told(pair: &Pair, after: &mut Buffers) -> LeastPair {
    write_over(&pair.left, &mut after.left);
    write_over(&pair.right, &mut after.right);
    // No From<Term> for Side, since both are of other crates.
    let side = match pair.leading {
        Term::Left(_) => Side::Left,
        Term::Right(_) => Side::Right,
    };
    (count(&pair.left), count(&pair.right), side)
}

// By the second implementation; nothing where it finds no pair at all.
fn second_way(
    second: &Arithmetic,
    asked: &Request,
    after: &mut Buffers,
) -> Result<Result<Option<LeastPair>, Row>, AllocError> {
    let Request { g, n, r, buffers } = asked;
    if let Err(rule) = check_request(second, g, *n, *r, buffers.left.len(), buffers.right.len()) {
        return Ok(Err(Row::from(rule)));
    }
    let pair = least(second, g, *r)?;
    Ok(Ok(pair.map(|pair| told(&pair, after))))
}

// An order: mostly near 0, at times at the edges of what is allowed or past them.
fn any_order(random: &mut Random) -> i32 {
    let size = match random.below(8) {
        0 => random.between(509, 514),
        1 => random.below(40),
        _ => random.below(11),
    };
    let size = size.min(600) as i32;
    if random.one_in(2) { size } else { 0 - size }
}

// A buffer that holds something: mostly with room for n + 1 places, at times too short.
fn buffer(cases: &mut Cases, n: u32) -> Result<Vec<u32>, AllocError> {
    let least = n.min(1000).saturating_add(1);
    let size = if cases.random.one_in(16) {
        cases.random.below(least)
    } else {
        least.saturating_add(cases.random.below(3))
    };
    let mut out = Vec::new(cases.heap);
    for _ in 0..size {
        out.push(cases.random.below(1000))?;
    }
    Ok(out)
}

// Makes later coefficients follow from the first few, at times, and the first few 0.
fn arrange(cases: &mut Cases, g: &mut [u32]) {
    if cases.random.one_in(3) {
        let period = cases.random.between(1, 4) as usize;
        let factor = cases.symbol();
        // Each coefficient is written from one that was written before it, so the loop keeps its index.
        for i in period..g.len() {
            let x = cases
                .second
                .product(factor, at(g, i.saturating_sub(period)));
            put(g, i, x);
        }
    }
    if cases.random.one_in(4) {
        let zeros = (cases.random.below(8) as usize).min(g.len());
        g[..zeros].fill(0);
    }
}

// One call, on at most `most` coefficients.
fn any_request(cases: &mut Cases, most: u32) -> Result<Request, AllocError> {
    let size = if cases.random.one_in(32) {
        0
    } else {
        cases.random.between(1, most)
    };
    let mut g = cases.symbols(size)?;
    arrange(cases, &mut g);
    cases.spoil(&mut g);
    let n = if cases.random.one_in(16) {
        cases.any_number()
    } else {
        size
    };
    let left = buffer(cases, n)?;
    let right = buffer(cases, n)?;
    Ok(Request {
        g,
        n,
        r: any_order(cases.random),
        buffers: Buffers { left, right },
    })
}

// Calls on a few coefficients, or more.
pub fn run<F: Fixed<Q, M>, const Q: u32, const M: u32>(
    field: &F,
    cases: &mut Cases,
    batch: Batch,
    tally: &mut Tally,
) -> Result<(), AllocError> {
    for _ in 0..batch.count {
        let asked = any_request(cases, batch.most)?;
        let mut after = asked.buffers.clone()?;
        let answer = first_way(field, &asked, &mut after);
        let first = Outcome { answer, after };
        let mut after = asked.buffers.clone()?;
        let answer = second_way(cases.second, &asked, &mut after)?;
        let other = Outcome { answer, after };
        let Request { g, n, r, buffers } = &asked;
        let case = format_args!("{Q}: solve {g:?} {n} {r} {buffers:?}");
        tally.compare_outcomes(case, &first, &other)?;
    }
    Ok(())
}
