// The field of 929 symbols: whole numbers modulo 929, which is prime.
// Each question is answered for every number; what a number of 929 or more is answered stands at the trait.
#![tactic(auto)]

ghost use Rattle.std.specs.Prelude.{◌≡◌, ◌*◌, ◌%◌, ◌<◌, ◌≤◌};
ghost use Rattle.f929.specs.Coprime.{Coprime};
ghost use Rattle.f929.specs.Residues.{residues};
ghost use Rattle.f929.specs.ResiduesLemmas.{residues_laws};
ghost use Rattle.std.proofs.Common.{rules};

use field::{Field, Fixed};
use powers::{POWERS, TURN};

mod powers;

// How many symbols there are, and the modulus.
const SYMBOLS: u32 = 929;

// The field itself, which holds nothing.
#[derive(Clone, Copy, Debug, Default, PartialEq, Eq)]
pub struct F929 {}

// The number below `n` whose product with `x` is 1 modulo `n`: Euclid's chain of remainders, and back.
fn inverse(x: u32, n: u32) -> u32
    requires low { 0 < x }
    requires high { x < n }
    requires small { n ≤ 1024 }
    requires coprime { Coprime x n }
    ensures below { result < n }
    ensures right { result * x % n ≡ 1 }
{
    if x == 1 {
        return 1;
    }
    let y = inverse(n % x, x);
    n - (n * y - 1) / x
}

impl Field for F929 {
    ghost means = { λ _. residues };

    ghost lawful = { λ x. residues_laws };

    fn sum(&self, x: u32, y: u32) -> u32 {
        if x >= SYMBOLS || y >= SYMBOLS {
            0
        } else if x + y < SYMBOLS {
            x + y
        } else {
            x + y - SYMBOLS
        }
    }

    fn product(&self, x: u32, y: u32) -> u32 {
        if x < SYMBOLS && y < SYMBOLS {
            x * y % SYMBOLS
        } else {
            0
        }
    }

    fn opposite(&self, x: u32) -> u32 {
        if (1..SYMBOLS).contains(&x) {
            SYMBOLS - x
        } else {
            0
        }
    }

    fn reciprocal(&self, x: u32) -> Option<u32> {
        if (1..SYMBOLS).contains(&x) {
            Some(inverse(x, SYMBOLS))
        } else {
            None
        }
    }

    fn power(&self, i: u16) -> u32 {
        u32::from(POWERS[usize::from(i % TURN)])
    }

    // Reduced once, and nothing is tested.
    fn multiply_add(&self, x: u32, y: u32, z: u32) -> u32 {
        x.wrapping_mul(y).wrapping_add(z) % SYMBOLS
    }
}

impl Fixed<929, 928> for F929 {
    ghost size = { Prim.search rules };

    ghost turn = { Prim.search rules };
}
