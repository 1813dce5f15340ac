// The bench on the smallest label code: a word with one wrong symbol, its report, and a word out of reach.
// It is a program of its own, since `rt ci` runs a program on one stored input.
#![tactic(auto)]

use script::converse;
use std::io;
use std::io::Read;

fn main(rt: HostRuntime) -> io::Result<()> {
    converse!(rt)
}
