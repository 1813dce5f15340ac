// Systems of linear equations over a field, by elimination.
// The field stands beside the rows, as in words.rt and correction.rt.
use crate::arithmetic::Arithmetic;
use crate::places::{at, put};
use std::alloc::AllocError;

// Multiplies a row.
fn multiply(field: &Arithmetic, row: &mut [u32], factor: u32) {
    for x in row.iter_mut() {
        *x = field.product(factor, *x);
    }
}

// Takes a multiple of the pivot row from a row, so that a column in which the pivot is 1 becomes 0.
fn clear(field: &Arithmetic, row: &mut [u32], column: usize, pivot: &[u32]) {
    let factor = at(row, column);
    if factor != 0 {
        for (x, y) in row.iter_mut().zip(pivot) {
            *x = field.difference(*x, field.product(factor, *y));
        }
    }
}

// One solution of some equations, unknowns that are free being 0; or that there is none. Each equation is a row: the factors
// of the unknowns, and then the right side. A column at a time is made 0 in all rows but one, which has 1 there.
pub(crate) fn solution(
    field: &Arithmetic,
    unknowns: usize,
    equations: Vec<Vec<u32>>,
) -> Result<Option<Vec<u32>>, AllocError> {
    let mut open = equations;
    let mut solved: Vec<(usize, Vec<u32>)> = Vec::with_capacity(field.heap, open.len())?;
    // By column: a step reads and writes that place of every row, which no iterator lends.
    for column in 0..unknowns {
        let found = open.iter().position(|row| at(row, column) != 0);
        if let Some(i) = found {
            let mut pivot = open.swap_remove(i);
            // Never 0: the pivot's number in this column is a symbol other than 0.
            let factor = field.reciprocal(at(&pivot, column)).unwrap_or(0);
            multiply(field, &mut pivot, factor);
            for row in open.iter_mut() {
                clear(field, row, column, &pivot);
            }
            for (_, row) in solved.iter_mut() {
                clear(field, row, column, &pivot);
            }
            solved.push((column, pivot))?;
        }
    }
    if open.iter().any(|row| at(row, unknowns) != 0) {
        return Ok(None);
    }
    let mut out = vec![in field.heap; 0; unknowns]?;
    for (column, row) in solved.iter() {
        put(&mut out, *column, at(row, unknowns));
    }
    Ok(Some(out))
}
