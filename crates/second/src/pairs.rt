// The least pair of a congruence, by linear equations: for each term in rising order, whether a pair leads with it.
// The field stands beside g, since the library's side of a trial takes the same g over a field of its own type.
use crate::arithmetic::Arithmetic;
use crate::equations::solution;
use crate::places::{at, put};
use std::alloc::{AllocError, Global};
use std::iter;

// A power of x in one half of a pair.
#[derive(Clone, Copy)]
pub enum Term {
    Left(usize),
    Right(usize),
}

impl Term {
    // How high the term stands in order r: x^i on the left is lower than x^j on the right where i is at most j + r.
    // The Boolean only orders: of two terms of one height the left one is lower.
    fn height(&self, r: i32) -> (i128, bool) {
        match *self {
            Term::Left(i) => (i as i128, false),
            Term::Right(j) => ((j as i128).saturating_add(i128::from(r)), true),
        }
    }

    // What the term adds to coefficient k of a − b·g.
    fn share(&self, field: &Arithmetic, g: &[u32], k: usize) -> u32 {
        match *self {
            Term::Left(i) => u32::from(i == k),
            Term::Right(j) => k
                .checked_sub(j)
                .map_or(0, |below| field.opposite(at(g, below))),
        }
    }
}

// Two polynomials, each lowest coefficient first, and the term that leads.
#[derive(Drop)]
pub struct Pair {
    pub left: Vec<u32>,
    pub right: Vec<u32>,
    pub leading: Term,
}

impl Pair {
    // Two polynomials of n + 1 coefficients that are all 0 but for the leading 1.
    fn new(heap: Global, n: usize, leading: Term) -> Result<Pair, AllocError> {
        let size = n.saturating_add(1);
        let mut pair = Pair {
            left: vec![in heap; 0; size]?,
            right: vec![in heap; 0; size]?,
            leading,
        };
        pair.put(leading, 1);
        Ok(pair)
    }

    // Makes x the coefficient of a term.
    fn put(&mut self, term: Term, x: u32) {
        match term {
            Term::Left(i) => put(&mut self.left, i, x),
            Term::Right(j) => put(&mut self.right, j, x),
        }
    }
}

// The terms with exponents up to n of both halves, rising in order r.
fn rising(heap: Global, n: usize, r: i32) -> Result<Vec<Term>, AllocError> {
    let mut out: Vec<Term> = (0..=n)
        .map(Term::Left)
        .chain((0..=n).map(Term::Right))
        .collect(heap)?;
    out.sort_by_key(|term| term.height(r))?;
    Ok(out)
}

// The coefficients of the lower terms of a pair that leads with a 1 at the term `leading`, if there is such a pair.
fn below(
    field: &Arithmetic,
    g: &[u32],
    lower: &[Term],
    leading: Term,
) -> Result<Option<Vec<u32>>, AllocError> {
    let mut equations = Vec::with_capacity(field.heap, g.len())?;
    // One equation for each coefficient of a − b·g: k is an exponent, and no place in a row.
    for k in 0..g.len() {
        let shares = lower.iter().map(|term| term.share(field, g, k));
        let right = field.opposite(leading.share(field, g, k));
        equations.push(shares.chain(iter::once(right)).collect(field.heap)?)?;
    }
    solution(field, lower.len(), equations)
}

// The pair with a ≡ b·g modulo x^n, n being how many coefficients g has, that leads with the lowest term, with a leading 1.
pub fn least(field: &Arithmetic, g: &[u32], r: i32) -> Result<Option<Pair>, AllocError> {
    let mut lower = Vec::new(field.heap);
    for leading in rising(field.heap, g.len(), r)? {
        if let Some(found) = below(field, g, &lower, leading)? {
            let mut pair = Pair::new(field.heap, g.len(), leading)?;
            for (term, x) in lower.iter().zip(found.iter()) {
                pair.put(*term, *x);
            }
            return Ok(Some(pair));
        }
        lower.push(leading)?;
    }
    Ok(None)
}
