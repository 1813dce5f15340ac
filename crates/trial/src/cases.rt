// Codes, words and marks to compare on.
use crate::random::Random;
use second::arithmetic::Arithmetic;
use second::places::put;
use second::words::Shape;
use std::alloc::{AllocError, Global};
use std::fmt;

// Numbers at the edges of the rules.
const EDGES: [u32; 18] = [
    0, 1, 2, 3, 14, 15, 16, 17, 254, 255, 256, 511, 512, 513, 927, 928, 929, 4294967295,
];

// The most symbols that a word is made of: more than any code has.
const MOST: u32 = 1000;

// How many cases there are of one kind, and how large they are at most.
#[derive(Clone, Copy)]
pub struct Batch {
    pub most: u32,
    pub count: u32,
}

// A code's three numbers, as a text names them.
#[derive(Clone, Copy)]
pub struct Numbers(pub Shape);

impl fmt::Display for Numbers {
    fn fmt<W: fmt::Write>(&self, f: &mut fmt::Formatter<W>) -> fmt::Result {
        let Shape { n, checks, first } = self.0;
        write!(f, "{n} {checks} {first}")
    }
}

// What the cases over one field are made of: random numbers, the second implementation of the field, and memory.
#[derive(Drop)]
pub struct Cases<'a> {
    pub heap: Global,
    pub random: &'a mut Random,
    pub second: &'a Arithmetic,
}

impl Cases<'_> {
    // A number that a rule may refuse.
    pub fn any_number(&mut self) -> u32 {
        if self.random.one_in(2) {
            self.random.below(20)
        } else {
            EDGES[self.random.below(18) as usize % 18]
        }
    }

    // A number, or at times one that a rule may refuse.
    fn number_near(&mut self, x: u32) -> u32 {
        if self.random.one_in(3) {
            self.any_number()
        } else {
            x
        }
    }

    // How long the words of most codes are at most.
    fn longest(&mut self) -> u32 {
        match self.random.below(16) {
            0 => 80,
            1 => 40,
            2 => 30,
            3 => 20,
            _ => 12,
        }
    }

    // A code over the field.
    pub fn code(&mut self) -> Shape {
        let turn = self.second.turn();
        let most = self.longest().min(turn);
        let n = self.random.between(2, most);
        let checks = self.random.between(1, n.saturating_sub(1).min(24));
        let first = self.random.below(turn);
        Shape { n, checks, first }
    }

    // Three numbers, of which some may make no code.
    pub fn any_shape(&mut self) -> Shape {
        let code = self.code();
        let n = self.number_near(code.n);
        let checks = self.number_near(code.checks);
        let first = self.number_near(code.first);
        Shape { n, checks, first }
    }

    // A length: mostly the one that is asked for.
    pub fn any_length(&mut self, n: u32) -> u32 {
        if self.random.one_in(8) {
            self.random.below(20)
        } else {
            n.min(MOST)
        }
    }

    // A symbol.
    pub fn symbol(&mut self) -> u32 {
        self.random.below(self.second.symbols())
    }

    // Some symbols, 0 and 1 more often than others, and at times no others.
    pub fn symbols(&mut self, n: u32) -> Result<Vec<u32>, AllocError> {
        let mut out = Vec::new(self.heap);
        let plain = self.random.one_in(8);
        for _ in 0..n {
            let few = plain || self.random.one_in(4);
            let x = if few {
                self.random.below(2)
            } else {
                self.symbol()
            };
            out.push(x)?;
        }
        Ok(out)
    }

    // A word of about that length, which may have numbers that are no symbols.
    pub fn any_word(&mut self, n: u32) -> Result<Vec<u32>, AllocError> {
        let n = self.any_length(n);
        let mut word = self.symbols(n)?;
        self.spoil(&mut word);
        Ok(word)
    }

    // Makes one of some numbers no symbol, at times.
    pub fn spoil(&mut self, word: &mut [u32]) {
        if self.random.one_in(8) {
            let i = self.random.below(word.len().min(MOST as usize) as u32);
            let x = self.second.symbols().saturating_add(self.random.below(3));
            put(word, i as usize, x);
        }
    }

    // Marks at random positions, about one in `apart`.
    pub fn marks(&mut self, n: u32, apart: u32) -> Result<Vec<bool>, AllocError> {
        let mut out = Vec::new(self.heap);
        for _ in 0..n {
            out.push(self.random.one_in(apart))?;
        }
        Ok(out)
    }
}
