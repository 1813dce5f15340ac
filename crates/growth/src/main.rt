// How the time of solve grows with N. Prints to standard error, since times differ from run to run: microseconds for
// N = 32, 128 and 512, and the ratio to the line before, which is 16 where the time grows as the square.
#![tactic(auto)]

use f929::F929;
use solver::solve;
use std::io;
use std::time::Instant;

// Room for the coefficients and for each half.
// Local arrays of one fixed size: parts of them are lent, and a Vec would be no plainer.
const TERMS: usize = 512;

const PLACES: usize = TERMS + 1;

// Coefficients that look random.
fn fill(g: &mut [u32]) {
    let mut seed = 2463534242u32;
    for x in g.iter_mut() {
        seed ^= seed << 13;
        seed ^= seed >> 17;
        seed ^= seed << 5;
        *x = seed % 929;
    }
}

// The same solve again and again.
fn repeat(g: &[u32], rounds: u32, left: &mut [u32], right: &mut [u32]) {
    // Never 0 here: a row has 512 places at most.
    let n = u32::try_from(g.len()).unwrap_or(0);
    for _ in 0..rounds {
        let _ = solve(&F929 {}, g, n, -1, left, right);
    }
}

// Nanoseconds for one solve, over many.
fn time_of(rt: &HostRuntime, g: &[u32], rounds: u32) -> io::Result<u128> {
    let mut left = [0; PLACES];
    let mut right = [0; PLACES];
    let start = Instant::now(rt)?;
    repeat(g, rounds, &mut left, &mut right);
    let spent = start.elapsed(rt)?;
    Ok(spent.as_nanos() / u128::from(rounds.max(1)))
}

fn main(rt: HostRuntime) -> io::Result<()> {
    let mut g = [0; TERMS];
    fill(&mut g);
    let small = time_of(&rt, &g[0..32], 2000)?;
    let middle = time_of(&rt, &g[0..128], 200)?;
    let large = time_of(&rt, &g, 20)?;
    eprintln!(rt; "N =  32: {} ns", small)?;
    eprintln!(rt; "N = 128: {} ns, times {}", middle, middle / small.max(1))?;
    eprintln!(rt; "N = 512: {} ns, times {}", large, large / middle.max(1))
}
