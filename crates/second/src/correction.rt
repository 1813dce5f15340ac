// The codeword in reach of a word with its marks: by linear equations, or by going through all words.
use crate::arithmetic::Arithmetic;
use crate::equations::solution;
use crate::places::{at, put};
use crate::words::Shape;
use std::alloc::AllocError;
use std::iter;

// A word of a code as it came, and whether each of its positions is marked.
// It holds no field, since the library's side of a trial takes the same values over a field of its own type.
// Two rows, since marks of another length than the word are a case too.
#[derive(Clone, Copy)]
pub struct Received<'a> {
    pub shape: Shape,
    pub word: &'a [u32],
    pub marks: &'a [bool],
}

// The recurrence of length e that some numbers keep: its coefficients, lowest first, below a leading 1.
fn recurrence(field: &Arithmetic, sums: &[u32], e: usize) -> Result<Option<Vec<u32>>, AllocError> {
    let mut equations = Vec::new(field.heap);
    for window in sums.windows(e.saturating_add(1)) {
        if let Some((next, earlier)) = window.split_last() {
            let right = field.opposite(*next);
            equations.push(
                earlier
                    .iter()
                    .copied()
                    .chain(iter::once(right))
                    .collect(field.heap)?,
            )?;
        }
    }
    solution(field, e, equations)
}

// The value at x of the polynomial with these coefficients below a leading 1.
fn value(field: &Arithmetic, below: &[u32], x: u32) -> u32 {
    below
        .iter()
        .rev()
        .fold(1, |total, c| field.sum(field.product(total, x), *c))
}

// The next word in the order of counting, from all zeros on; all zeros again after the last.
fn advance(word: &mut [u32], q: u32) {
    for x in word.iter_mut() {
        if *x < q.saturating_sub(1) {
            *x = x.saturating_add(1);
            return;
        }
        *x = 0;
    }
}

impl Received<'_> {
    // How many positions are marked.
    fn marked(&self) -> usize {
        self.marks.iter().filter(|mark| **mark).count()
    }

    // Whether a word is a codeword in reach: a mark counts once, another difference twice, and all of them at most the checks.
    // A position past the marks is unmarked, and past the word there are zeros.
    fn reaches(&self, field: &Arithmetic, codeword: &[u32]) -> bool {
        let cost = codeword.iter().enumerate().fold(
            0u32,
            |cost, (i, x)| if self.marks.get(i).copied().unwrap_or(false) {
                cost.saturating_add(1)
            } else if at(self.word, i) != *x {
                cost.saturating_add(2)
            } else {
                cost
            },
        );
        cost <= self.shape.checks && self.shape.failing(field, codeword).is_none()
    }

    // The check sums, with what each marked position adds to them taken out: one check sum fewer for each mark.
    fn less_marks(&self, field: &Arithmetic, sums: &[u32]) -> Result<Vec<u32>, AllocError> {
        let mut out = sums.to_vec(field.heap)?;
        for (i, mark) in self.marks.iter().enumerate() {
            if *mark {
                let place = field.power(i as u64);
                let fewer = out
                    .iter()
                    .zip(out.iter().skip(1))
                    .map(|(x, next)| field.difference(*next, field.product(place, *x)))
                    .collect(field.heap)?;
                out = fewer;
            }
        }
        Ok(out)
    }

    // The positions that are marked or a root, if as many unmarked ones as there are coefficients are roots.
    fn positions(
        &self,
        field: &Arithmetic,
        below: &[u32],
    ) -> Result<Option<Vec<usize>>, AllocError> {
        let found: Vec<usize> = self
            .marks
            .iter()
            .enumerate()
            .filter(|(i, mark)| **mark || value(field, below, field.power(*i as u64)) == 0)
            .map(|(i, _)| i)
            .collect(field.heap)?;
        let wanted = below.len().saturating_add(self.marked());
        Ok(Some(found).filter(|found| found.len() == wanted))
    }

    // The word with the amounts taken off at the positions.
    fn less(
        &self,
        field: &Arithmetic,
        positions: &[usize],
        amounts: &[u32],
    ) -> Result<Vec<u32>, AllocError> {
        let mut out = self.word.to_vec(field.heap)?;
        for (i, amount) in positions.iter().zip(amounts) {
            let x = field.difference(at(&out, *i), *amount);
            put(&mut out, *i, x);
        }
        Ok(out)
    }

    // The word with e errors and the marks mended, whether that is a codeword or not.
    fn mended(&self, field: &Arithmetic, e: usize) -> Result<Option<Vec<u32>>, AllocError> {
        let sums = self.shape.check_sums(field, self.word)?;
        let rest = self.less_marks(field, &sums)?;
        let Some(below) = recurrence(field, &rest, e)? else {
            return Ok(None);
        };
        let Some(positions) = self.positions(field, &below)? else {
            return Ok(None);
        };
        let Some(amounts) = self.shape.amounts(field, &positions, &sums)? else {
            return Ok(None);
        };
        Ok(Some(self.less(field, &positions, &amounts)?))
    }

    // The codeword in reach, by linear equations for one number of errors after the other.
    pub fn by_equations(&self, field: &Arithmetic) -> Result<Option<Vec<u32>>, AllocError> {
        let room = (self.shape.checks as usize).saturating_sub(self.marked());
        for e in 0..=room / 2 {
            if let Some(found) = self.mended(field, e)? {
                if self.reaches(field, &found) {
                    return Ok(Some(found));
                }
            }
        }
        Ok(None)
    }

    // The codeword in reach, by going through all words of a code that has few: from `tried`, a word of zeros, on.
    pub fn by_trying<'t>(&self, field: &Arithmetic, tried: &'t mut [u32]) -> Option<&'t [u32]> {
        let q = field.symbols();
        for _ in 0..u64::from(q).saturating_pow(self.shape.n) {
            if self.reaches(field, tried) {
                return Some(tried);
            }
            advance(tried, q);
        }
        None
    }
}
