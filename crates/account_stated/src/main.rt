// Keeps the heat account of one house: a paper and events from standard input, answers to standard output.
#![tactic(auto)]

use console::season::keep_season;
use std::io;

// One crate for each run that is kept: a crate holds one input and one output.
fn main(rt: HostRuntime) -> io::Result<()> {
    keep_season(rt.alloc(), rt.stdin(), &mut rt.stdout())
}
