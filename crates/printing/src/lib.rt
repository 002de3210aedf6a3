// What the program prints, one form to a line.
#![tactic(auto)]

ghost use Rattle.std.specs.Prelude.{◌≡◌, ◌++◌, string_bytes, OnOk};
ghost use Rattle.fault.specs.Numbers.{number};
ghost use Rattle.printing.specs.Printed.{rule_line, done_line, refused_line, refused_paper_line, bills_text, changes_text, balances_text};

use entries::{print_lines, print_with_sum};
use fault::place::Place;
use fault::refusal::Fault;
use house::room::Room;
use std::alloc::AllocError;

mod entries;
#[cfg(test)]
mod tests;

// That the paper is accepted, under the rule of this title.
pub fn print_rule(out: &mut String, title: &str) -> Result<(), AllocError>
    ensures value { OnOk result (string_bytes out.new ≡ string_bytes out.old ++ rule_line title.now) }
{
    writeln!(out, "(rule {title})")
}

pub fn print_done(out: &mut String) -> Result<(), AllocError>
    ensures value { OnOk result (string_bytes out.new ≡ string_bytes out.old ++ done_line) }
{
    out.push_str("(done)\n")
}

// That an event is refused; its place is not printed.
pub fn print_refused(out: &mut String, fault: Fault) -> Result<(), AllocError>
    ensures value { OnOk result (string_bytes out.new ≡ string_bytes out.old ++ refused_line (number fault.reason)) }
{
    writeln!(out, "(refused {})", fault.number())
}

// That the paper is refused, and where.
pub fn print_refused_paper(out: &mut String, fault: Fault) -> Result<(), AllocError>
    ensures value { OnOk result (string_bytes out.new ≡ string_bytes out.old ++ refused_paper_line fault) }
{
    // A fault that lies nowhere in the text prints zeros.
    let (line, column) = match fault.place {
        Place::Text { line, column } => (line, column),
        Place::Room(_) | Place::Nowhere => (0, 0),
    };
    writeln!(out, "(refused {} {line} {column})", fault.number())
}

// Own heat and common share of each room, and the sum of all of them.
pub fn print_bills(out: &mut String, rooms: &[Room], bills: &[(u32, u32)]) -> Result<(), AllocError>
    ensures value { OnOk result (string_bytes out.new ≡ string_bytes out.old ++ bills_text rooms.now bills.now) }
{
    print_with_sum(out, rooms, bills)
}

// What a correction changes for each room.
pub fn print_changes(out: &mut String, rooms: &[Room], changes: &[i64]) -> Result<(), AllocError>
    ensures value { OnOk result (string_bytes out.new ≡ string_bytes out.old ++ changes_text rooms.now changes.now) }
{
    print_lines(out, rooms, changes)
}

// The balance of each room, and the sum of all of them.
pub fn print_balances(out: &mut String, rooms: &[Room], balances: &[u64]) -> Result<(), AllocError>
    ensures value { OnOk result (string_bytes out.new ≡ string_bytes out.old ++ balances_text rooms.now balances.now) }
{
    print_with_sum(out, rooms, balances)
}
