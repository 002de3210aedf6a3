// A heat accountant at work: a common pot shared under each rule, a pot that is refused, and a season of house 7.
#![tactic(auto)]

use fault::place::Place;
use fault::refusal::Fault;
use keeping::{Stop, keep_season};
use sharing::paid::share_out;
use sharing::remainders::Remainders;
use sharing::rule::Sharing;
use sharing::running::Running;
use std::io;

mod keeping;
mod late;

const FLATS: usize = 3;
// In hundredths of a square metre.
const AREAS: [u32; FLATS] = [5000, 4000, 6000];

const COMMON_POT: u32 = 161;

fn print_refusal(rt: &HostRuntime, fault: Fault) -> io::Result<()> {
    let number = fault.number();
    let layer = fault.layer.number();
    print!(rt; "refused: number {number}, layer {layer}")?;
    match fault.place {
        Place::Nowhere => println!(rt; ""),
        Place::Room(room) => println!(rt; ", room {room}"),
        Place::Text { line, column } => println!(rt; ", line {line}, column {column}"),
    }
}

fn print_sharing<R: Sharing>(
    rt: &HostRuntime,
    rule: &R,
    pot: u32,
    areas: &[u32; FLATS],
) -> io::Result<()> {
    let title = rule.title();
    println!(rt; "{pot} units, rule {title}")?;
    let mut shares = [0; FLATS];
    match share_out(rule, pot, areas, &mut shares) {
        Ok(sum) => {
            for (flat, (area, share)) in (1..).zip(areas.iter().zip(&shares)) {
                println!(rt; "flat {flat}: area {area}, share {share}")?;
            }
            println!(rt; "sum {sum}")
        }
        Err(fault) => print_refusal(rt, fault),
    }
}

fn main(rt: HostRuntime) -> io::Result<()> {
    print_sharing(&rt, &Remainders, COMMON_POT, &AREAS)?;
    print_sharing(&rt, &Running, COMMON_POT, &AREAS)?;
    // Nobody has an area to share by.
    print_sharing(&rt, &Remainders, COMMON_POT, &[0; FLATS])?;
    match keep_season(&rt) {
        Ok(()) => Ok(()),
        Err(Stop::Refused(fault)) => print_refusal(&rt, fault),
        Err(Stop::Output(error)) => Err(error),
    }
}
