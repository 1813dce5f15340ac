// The field of 256 symbols: polynomials over two elements modulo x⁸ + x⁴ + x³ + x² + 1, worked by tables.
// Each question is answered for every number; what a number of 256 or more is answered stands at the trait.
#![tactic(auto)]

ghost use Rattle.f256.specs.Bytes.{bytes};
ghost use Rattle.f256.specs.BytesLemmas.{bytes_laws};
ghost use Rattle.std.proofs.Common.{rules};

use binary::{opposite, sum};
use field::{Field, Fixed};
use logarithms::logarithm;
use powers::power_of;

mod logarithms;
mod powers;

// How many symbols there are.
const SYMBOLS: u32 = 256;

// How many different powers x has: the turn.
const TURN: u32 = 255;

// The field itself, which holds nothing.
#[derive(Clone, Copy, Debug, Default, PartialEq, Eq)]
pub struct F256 {}

impl Field for F256 {
    ghost means = { λ _. bytes };

    ghost lawful = { λ x. bytes_laws };

    fn sum(&self, x: u32, y: u32) -> u32 {
        sum::<SYMBOLS>(x, y)
    }

    fn product(&self, x: u32, y: u32) -> u32 {
        let Some(i) = logarithm(x) else {
            return 0;
        };
        let Some(j) = logarithm(y) else {
            return 0;
        };
        let both = i + j;
        power_of(if both < TURN { both } else { both - TURN })
    }

    fn opposite(&self, x: u32) -> u32 {
        opposite::<SYMBOLS>(x)
    }

    fn reciprocal(&self, x: u32) -> Option<u32> {
        let i = logarithm(x)?;
        Some(power_of(if i == 0 { 0 } else { TURN - i }))
    }

    fn power(&self, i: u16) -> u32 {
        power_of(u32::from(i) % TURN)
    }

    // The product is a symbol whatever is asked, and nothing else is tested.
    fn multiply_add(&self, x: u32, y: u32, z: u32) -> u32 {
        self.product(x, y) ^ z
    }
}

impl Fixed<256, 255> for F256 {
    ghost size = { Prim.search rules };

    ghost turn = { Prim.search rules };
}
