// Every question to a field, on all symbols and the first numbers that are none.
use crate::tally::Tally;
use field::Field;
use second::arithmetic::Arithmetic;
use std::alloc::AllocError;

// How many numbers past the symbols are asked about.
const BEYOND: u32 = 2;

// Every power, by one product more for each.
fn powers<F: Field>(field: &F, second: &Arithmetic, tally: &mut Tally) -> Result<(), AllocError> {
    let q = second.symbols();
    let mut other = 1;
    for i in 0..=u16::MAX {
        let power = field.power(i);
        let case = format_args!("{q}: power {i}");
        tally.compare(case, &(power, power), &(other, second.power(u64::from(i))))?;
        other = second.product(other, second.step());
    }
    Ok(())
}

// All questions to a field.
pub fn run<F: Field>(field: &F, second: &Arithmetic, tally: &mut Tally) -> Result<(), AllocError> {
    let q = second.symbols();
    let end = q.saturating_add(BEYOND);
    for x in 0..end {
        let first = (field.opposite(x), field.reciprocal(x));
        let other = (second.opposite(x), second.reciprocal(x));
        tally.compare(format_args!("{q}: {x}"), &first, &other)?;
        for y in 0..end {
            let first = (field.sum(x, y), field.product(x, y));
            let other = (second.sum(x, y), second.product(x, y));
            tally.compare(format_args!("{q}: {x} and {y}"), &first, &other)?;
        }
    }
    powers(field, second, tally)
}
