ghost use Rattle.std.specs.Prelude.{◌≡◌, ◌++◌, string_bytes, OnOk};
ghost use Rattle.console.specs.Opened.{house_in, opening_text};

use fault::place::Place;
use fault::reason::Reason;
use fault::refusal::Fault;
use house::House;
use input::{is_too_long, split_input};
use paper::reading::read_paper;
use printing::{print_refused_paper, print_rule};
use std::alloc::AllocError;

// The house of an input, or the first fault.
pub fn read_input(input: &[u8]) -> Result<House, Fault>
    ensures { result ≡ house_in input.now }
{
    if is_too_long(input) {
        return Err(Fault::new(Reason::InputTooLong, Place::Nowhere));
    }
    let (paper, _) = split_input(input);
    read_paper(paper)
}

// Prints the rule's title once there is a house, or the refusal.
pub fn print_opening(
    house: &Result<House, Fault>,
    title: &str,
    out: &mut String,
) -> Result<(), AllocError>
    ensures { OnOk result (string_bytes out.new ≡ string_bytes out.old ++ opening_text title.now house.now) }
{
    match house {
        Ok(_) => print_rule(out, title),
        Err(fault) => print_refused_paper(out, *fault),
    }
}
