// What the program prints for each of many papers: a line `=` stands behind each of them.
#![tactic(auto)]

use console::opening::{print_opening, read_input};
use sharing::remainders::Remainders;
use sharing::rule::Sharing;
use std::io;
use std::io::{BufRead, BufReader};

fn main(rt: HostRuntime) -> io::Result<()> {
    let heap = rt.alloc();
    let mut input = String::new(heap);
    let mut out = String::new(heap);
    for line in BufReader::new(heap, rt.stdin())?.lines(heap) {
        let line = line?;
        if line.as_str() == "=" {
            print_opening(&read_input(input.as_bytes()), Remainders.title(), &mut out)?;
            input.clear();
        } else {
            input.push_str(line.as_str())?;
            input.push('\n')?;
        }
    }
    print!(rt; "{out}")
}
