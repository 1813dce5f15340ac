// The field of sixteen symbols: polynomials over two elements modulo x⁴ + x + 1, worked by shifts.
// Each question is answered for every number; what a number of 16 or more is answered stands at the trait.
#![tactic(auto)]

ghost use Rattle.std.specs.Prelude.{◌≡◌, ◌<◌};
ghost use Rattle.binary.specs.Polynomials.{product as multiplied, shifted as moved};
ghost use Rattle.f16.specs.Sixteen.{sixteen};
ghost use Rattle.f16.specs.SixteenLemmas.{sixteen_laws};
ghost use Rattle.std.proofs.Common.{rules};

use binary::{opposite, sum};
use field::{Field, Fixed};

// How many symbols there are.
const SYMBOLS: u32 = 16;

// The modulus x⁴ + x + 1, and its degree.
const MODULUS: u32 = 19;

const DEGREE: u32 = 4;

// x³, the highest power that a symbol has.
const TOP: u32 = 8;

// How many different powers x has: the turn.
const TURN: u16 = 15;

// Those powers, from the power 0 on.
const POWERS: [u8; 15] = [1, 2, 4, 8, 3, 6, 12, 11, 5, 10, 7, 14, 15, 13, 9];

// The field itself, which holds nothing.
#[derive(Clone, Copy, Debug, Default, PartialEq, Eq)]
pub struct F16 {}

// A symbol times x.
fn shifted(v: u32) -> u32
    requires { v < 16 }
    ensures is { result ≡ moved 4 19 v }
    ensures within { result < 16 }
{
    if v < TOP { v << 1 } else { (v << 1) ^ MODULUS }
}

// The product of two symbols, by shift and add.
fn times(v: u32, w: u32) -> u32
    requires { (v < 16) × (w < 16) }
    ensures is { result ≡ multiplied 4 19 v w }
    ensures within { result < 16 }
{
    let mut left = v;
    let mut right = w;
    let mut total = 0;
    for _ in 0..DEGREE {
        if right % 2 == 1 {
            total ^= left;
        }
        left = shifted(left);
        right >>= 1;
    }
    total
}

impl Field for F16 {
    ghost means = { λ _. sixteen };

    ghost lawful = { λ x. sixteen_laws };

    fn sum(&self, x: u32, y: u32) -> u32 {
        sum::<SYMBOLS>(x, y)
    }

    fn product(&self, x: u32, y: u32) -> u32 {
        if x < SYMBOLS && y < SYMBOLS {
            times(x, y)
        } else {
            0
        }
    }

    fn opposite(&self, x: u32) -> u32 {
        opposite::<SYMBOLS>(x)
    }

    // x to the fourteenth: with x it gives the fifteenth, which is 1.
    fn reciprocal(&self, x: u32) -> Option<u32> {
        if !(1..SYMBOLS).contains(&x) {
            return None;
        }
        let second = times(x, x);
        let fourth = times(second, second);
        let eighth = times(fourth, fourth);
        Some(times(times(second, fourth), eighth))
    }

    fn power(&self, i: u16) -> u32 {
        u32::from(POWERS[usize::from(i % TURN)])
    }
}

impl Fixed<16, 15> for F16 {
    ghost size = { Prim.search rules };

    ghost turn = { Prim.search rules };
}
