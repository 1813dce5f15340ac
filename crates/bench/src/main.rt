// The bench: lines from standard input, an answer to each on standard output.
// It is a program of its own, since `rt ci` runs a program on one stored input.
#![tactic(auto)]

use script::converse;
use std::io;
use std::io::Read;

fn main(rt: HostRuntime) -> io::Result<()> {
    converse!(rt)
}
