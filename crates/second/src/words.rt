// Words of a code: check sums, and the checks of a message, each from its equations.
use crate::arithmetic::Arithmetic;
use crate::equations::solution;
use std::alloc::AllocError;
use std::iter;

// n positions, of which the first `checks` are the checks, and the exponent of the first root.
// It holds no field, since the library's side of a trial takes the same values over a field of its own type.
#[derive(Clone, Copy)]
pub struct Shape {
    pub n: u32,
    pub checks: u32,
    pub first: u32,
}

impl Shape {
    // a^(i(b + j)): what the symbol at position i counts in check sum j.
    fn weight(&self, field: &Arithmetic, i: usize, j: usize) -> u32 {
        field.power((i as u64).wrapping_mul(u64::from(self.first).wrapping_add(j as u64)))
    }

    // Check sum j of a word.
    pub fn check_sum(&self, field: &Arithmetic, word: &[u32], j: usize) -> u32 {
        word.iter().enumerate().fold(0, |total, (i, x)| {
            field.sum(total, field.product(*x, self.weight(field, i, j)))
        })
    }

    // The lowest check sum that is not 0.
    pub fn failing(&self, field: &Arithmetic, word: &[u32]) -> Option<u32> {
        (0..self.checks).find(|j| self.check_sum(field, word, *j as usize) != 0)
    }

    // All check sums.
    pub(crate) fn check_sums(
        &self,
        field: &Arithmetic,
        word: &[u32],
    ) -> Result<Vec<u32>, AllocError> {
        (0..self.checks as usize)
            .map(|j| self.check_sum(field, word, j))
            .collect(field.heap)
    }

    // The amounts at some positions whose check sums are `sums`, if there are any.
    pub(crate) fn amounts(
        &self,
        field: &Arithmetic,
        positions: &[usize],
        sums: &[u32],
    ) -> Result<Option<Vec<u32>>, AllocError> {
        let mut equations = Vec::with_capacity(field.heap, sums.len())?;
        for (j, sum) in sums.iter().enumerate() {
            let weights = positions.iter().map(|i| self.weight(field, *i, j));
            equations.push(weights.chain(iter::once(*sum)).collect(field.heap)?)?;
        }
        solution(field, positions.len(), equations)
    }

    // Replaces the checks of a word so that it is a codeword: the check equations, solved for the checks.
    pub fn encode(&self, field: &Arithmetic, word: &mut [u32]) -> Result<(), AllocError> {
        let checks = self.checks as usize;
        let end = checks.min(word.len());
        word[..end].fill(0);
        let positions: Vec<usize> = (0..checks).collect(field.heap)?;
        let sums = self.check_sums(field, word)?;
        if let Some(found) = self.amounts(field, &positions, &sums)? {
            for (x, amount) in word.iter_mut().zip(found.iter()) {
                *x = field.opposite(*amount);
            }
        }
        Ok(())
    }
}
