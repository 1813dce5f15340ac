// The bench on a published label torn up to the limit and restored, and then beyond it and refused.
// It is a program of its own, since `rt ci` runs a program on one stored input.
#![tactic(auto)]

use script::converse;
use std::io;
use std::io::Read;

fn main(rt: HostRuntime) -> io::Result<()> {
    converse!(rt)
}
