// Holds the library against a second implementation, on all symbols of the three fields and on many words and pairs.
// It prints how many cases of each kind there were and in how many the two differ, and the first of those in full.
#![tactic(auto)]

use cases::{Batch, Cases};
use f16::F16;
use f256::F256;
use f929::F929;
use field::Fixed;
use random::Random;
use second::arithmetic::{Arithmetic, Kind};
use std::alloc::{AllocError, Global};
use std::{fmt, io};
use tally::Tally;

mod cases;
mod correcting;
mod encoding;
mod proved;
mod questions;
mod random;
mod solving;
mod sums;
mod tally;

// Where the numbers start.
const SEED: u64 = 20_260_929;

// How many words of each field are tested, encoded and corrected.
const TESTED: u32 = 5000;

const ENCODED: u32 = 10000;

const CORRECTED: u32 = 20000;

// The calls of the solver over each field, on few coefficients and on more.
const SOLVED_FEW: Batch = Batch {
    most: 8,
    count: 20000,
};

const SOLVED_MORE: Batch = Batch {
    most: 24,
    count: 1000,
};

// The words corrected beside a search among all words, over each field, of codes that have few.
const SEARCHED_RESIDUES: Batch = Batch { most: 2, count: 20 };

const SEARCHED_BYTES: Batch = Batch {
    most: 2,
    count: 200,
};

const SEARCHED_NIBBLES: Batch = Batch {
    most: 4,
    count: 600,
};

// The comparisons of each kind.
#[derive(Drop)]
struct Tallies {
    questions: Tally,
    sums: Tally,
    encoding: Tally,
    solving: Tally,
    correcting: Tally,
    seeking: Tally,
}

impl Tallies {
    fn new(heap: Global) -> Tallies {
        Tallies {
            questions: Tally::new(heap),
            sums: Tally::new(heap),
            encoding: Tally::new(heap),
            solving: Tally::new(heap),
            correcting: Tally::new(heap),
            seeking: Tally::new(heap),
        }
    }
}

impl fmt::Display for Tallies {
    fn fmt<W: fmt::Write>(&self, f: &mut fmt::Formatter<W>) -> fmt::Result {
        let Tallies {
            questions,
            sums,
            encoding,
            solving,
            correcting,
            seeking,
        } = self;
        write!(f, "questions to a field: {questions}\n")?;
        write!(f, "check sums and tests: {sums}\n")?;
        write!(f, "words encoded: {encoding}\n")?;
        write!(f, "least pairs: {solving}\n")?;
        write!(f, "words corrected: {correcting}\n")?;
        write!(
            f,
            "words corrected, beside a search among all words: {seeking}"
        )
    }
}

// All comparisons over one field, `searched` being those beside a search among all words.
// Field, cases and tally go apart: as a method over an inner &mut, goals stayed open.
fn run<F: Fixed<Q, M>, const Q: u32, const M: u32>(
    field: &F,
    kind: Kind,
    searched: Batch,
    heap: Global,
    random: &mut Random,
    all: &mut Tallies,
) -> Result<(), AllocError> {
    let second = Arithmetic::new(heap, kind)?;
    let mut cases = Cases {
        heap,
        random,
        second: &second,
    };
    let cases = &mut cases;
    questions::run(field, &second, &mut all.questions)?;
    sums::run(field, cases, TESTED, &mut all.sums)?;
    encoding::run(field, cases, ENCODED, &mut all.encoding)?;
    solving::run(field, cases, SOLVED_FEW, &mut all.solving)?;
    solving::run(field, cases, SOLVED_MORE, &mut all.solving)?;
    correcting::run(field, cases, CORRECTED, &mut all.correcting)?;
    correcting::run_all_words(field, cases, searched, &mut all.seeking)
}

fn main(rt: HostRuntime) -> io::Result<()> {
    let heap = rt.alloc();
    let mut random = Random::new(SEED);
    let mut all = Tallies::new(heap);
    run(
        &F929 {},
        Kind::Residues,
        SEARCHED_RESIDUES,
        heap,
        &mut random,
        &mut all,
    )?;
    run(
        &F256 {},
        Kind::Bytes,
        SEARCHED_BYTES,
        heap,
        &mut random,
        &mut all,
    )?;
    run(
        &F16 {},
        Kind::Nibbles,
        SEARCHED_NIBBLES,
        heap,
        &mut random,
        &mut all,
    )?;
    println!(rt; "{all}")
}
