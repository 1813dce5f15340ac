// The three fields: residues by division, polynomials by a long product and a long division, reciprocals by search.
ghost use Rattle.std.specs.Prelude.{◌≡◌, ◌+◌, ◌<◌};
ghost use Rattle.second.specs.Sizes.{size, step, sum, opposite};

use crate::places::at;
use std::alloc::{AllocError, Global};
use std::iter;

// Which field it is.
// An enum, and no trait with a type for each: that is the library's design, and this shares nothing with it.
#[derive(Clone, Copy)]
pub enum Kind {
    // Whole numbers modulo 929.
    Residues,
    // Polynomials over two elements modulo x⁸ + x⁴ + x³ + x² + 1.
    Bytes,
    // Polynomials over two elements modulo x⁴ + x + 1.
    Nibbles,
}

impl Kind {
    // How many symbols there are.
    pub fn symbols(&self) -> u32
        ensures { result ≡ size self.now }
    {
        match self {
            Kind::Residues => 929,
            Kind::Bytes => 256,
            Kind::Nibbles => 16,
        }
    }

    // The step element, whose powers are the places of a code.
    fn step(&self) -> u32
        ensures { result ≡ step self.now }
    {
        match self {
            Kind::Residues => 3,
            Kind::Bytes | Kind::Nibbles => 2,
        }
    }

    // The product of two symbols, worked out.
    fn product(&self, x: u32, y: u32) -> u32 {
        match self {
            Kind::Residues => x % 929 * (y % 929) % 929,
            Kind::Bytes => polynomial_product(x, y, 0b1_0001_1101, 256),
            Kind::Nibbles => polynomial_product(x, y, 0b1_0011, 16),
        }
    }

    // The first symbol whose product with x is 1.
    fn reciprocal(&self, x: u32) -> Option<u32> {
        (1..self.symbols()).find(|y| self.product(x, *y) == 1)
    }
}

// The most bits that a symbol of the polynomials has.
const BITS: u32 = 8;

// The product of two polynomials, all of it, then its remainder by the modulus, whose top bit is `top`.
fn polynomial_product(x: u32, y: u32, modulus: u32, top: u32) -> u32 {
    let mut total = 0u32;
    for i in 0..BITS {
        if y >> i & 1 == 1 {
            total ^= x << i;
        }
    }
    for i in (0..BITS).rev() {
        if total & top << i != 0 {
            total ^= modulus << i;
        }
    }
    total
}

// A field with its tables, which are worked out when it is made, and the memory for what is worked out over it.
#[derive(Drop)]
pub struct Arithmetic {
    pub(crate) heap: Global,
    kind: Kind,
    // Every product of two polynomials, row after row; none for the residues.
    products: Option<Vec<u32>>,
    reciprocals: Vec<Option<u32>>,
    powers: Vec<u32>,
}

// Every product of two symbols, row after row.
fn product_table(heap: Global, kind: Kind) -> Result<Vec<u32>, AllocError> {
    (0..kind.symbols())
        .flat_map(|x| (0..kind.symbols()).map(move |y| kind.product(x, y)))
        .collect(heap)
}

// The powers of the step element, by repeated products.
fn power_table(heap: Global, kind: Kind) -> Result<Vec<u32>, AllocError> {
    let turn = kind.symbols() - 1;
    iter::successors(Some(1), |power| Some(kind.product(*power, kind.step())))
        .take(turn as usize)
        .collect(heap)
}

impl Arithmetic {
    pub fn new(heap: Global, kind: Kind) -> Result<Arithmetic, AllocError> {
        let products = match kind {
            Kind::Residues => None,
            Kind::Bytes | Kind::Nibbles => Some(product_table(heap, kind)?),
        };
        let reciprocals = (0..kind.symbols())
            .map(|x| kind.reciprocal(x))
            .collect(heap)?;
        let powers = power_table(heap, kind)?;
        Ok(Arithmetic {
            heap,
            kind,
            products,
            reciprocals,
            powers,
        })
    }

    // How many symbols there are.
    pub fn symbols(&self) -> u32
        ensures { result ≡ size self.now.kind }
    {
        self.kind.symbols()
    }

    // How many different powers the step element has.
    pub fn turn(&self) -> u32
        ensures { result + 1 ≡ size self.now.kind }
    {
        self.symbols() - 1
    }

    // The step element.
    pub fn step(&self) -> u32
        ensures { result ≡ step self.now.kind }
    {
        self.kind.step()
    }

    // The sum of two symbols; 0 where a number is no symbol.
    // That an answer is a symbol is a clause of each call: numbers stay plain, as the library's fields answer them.
    pub fn sum(&self, x: u32, y: u32) -> u32
        ensures symbol { result < size self.now.kind }
        ensures value { result ≡ sum self.now.kind x y }
    {
        let q = self.symbols();
        if x >= q || y >= q {
            return 0;
        }
        match self.kind {
            Kind::Residues => (x + y) % q,
            Kind::Bytes | Kind::Nibbles => (x ^ y) % q,
        }
    }

    // The product of two symbols; 0 where a number is no symbol.
    pub fn product(&self, x: u32, y: u32) -> u32
        ensures { result < size self.now.kind }
    {
        let q = self.symbols();
        if x >= q || y >= q {
            return 0;
        }
        match &self.products {
            None => x * y % q,
            Some(table) => at(table, (x * q + y) as usize) % q,
        }
    }

    // The opposite of a symbol; 0 where the number is no symbol.
    pub fn opposite(&self, x: u32) -> u32
        ensures symbol { result < size self.now.kind }
        ensures value { result ≡ opposite self.now.kind x }
    {
        let q = self.symbols();
        if x >= q {
            return 0;
        }
        match self.kind {
            Kind::Residues => (q - x) % q,
            Kind::Bytes | Kind::Nibbles => x,
        }
    }

    // The reciprocal of a symbol, where it has one.
    pub fn reciprocal(&self, x: u32) -> Option<u32> {
        self.reciprocals.get(x as usize).copied().flatten()
    }

    // The step element to the i.
    pub fn power(&self, i: u64) -> u32 {
        at(&self.powers, (i % u64::from(self.turn())) as usize)
    }

    // One number less another.
    pub fn difference(&self, x: u32, y: u32) -> u32
        ensures symbol { result < size self.now.kind }
        ensures value { result ≡ sum self.now.kind x (opposite self.now.kind y) }
    {
        self.sum(x, self.opposite(y))
    }
}
