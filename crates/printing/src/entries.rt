// Lists that stand beside the rooms.
ghost use Rattle.std.specs.Prelude.{◌≡◌, ℕ, List, ◌++◌, string_bytes, OnOk};
ghost use Rattle.house.specs.declared.room.Room.{Room};
ghost use Rattle.printing.specs.Printed.{bill_line, billed, change_line, balance_line, lines, sum_line, sum_of};

use house::room::Room;
use std::alloc::AllocError;

// What a room has in such a list, as it is printed.
// No `Display` newtype for each line: it would be made and written at one place.
pub(crate) trait Entry {
    ghost line: { Room → Self → List ℕ };

    fn print(&self, out: &mut String, room: &Room) -> Result<(), AllocError>
        ensures { OnOk result (string_bytes out.new ≡ string_bytes out.old ++ line room.now self.now) };
}

// What an entry adds to the sum under the list.
pub(crate) trait Amount {
    ghost amount: { Self → ℕ };

    fn amount(&self) -> u64
        ensures { result ≡ amount self.now };
}

impl Entry for (u32, u32) {
    ghost line = { bill_line };

    fn print(&self, out: &mut String, room: &Room) -> Result<(), AllocError> {
        let (own, common) = *self;
        writeln!(out, "(bill {} {own} {common})", room.number)
    }
}

impl Amount for (u32, u32) {
    ghost amount = { billed };

    fn amount(&self) -> u64 {
        // As `total` of billing, on which what is printed does not stand.
        u64::from(self.0) + u64::from(self.1)
    }
}

impl Entry for i64 {
    ghost line = { change_line };

    fn print(&self, out: &mut String, room: &Room) -> Result<(), AllocError> {
        writeln!(out, "(change {} {self})", room.number)
    }
}

impl Entry for u64 {
    ghost line = { balance_line };

    fn print(&self, out: &mut String, room: &Room) -> Result<(), AllocError> {
        writeln!(out, "(balance {} {self})", room.number)
    }
}

impl Amount for u64 {
    ghost amount = { λ balance. balance };

    fn amount(&self) -> u64 {
        *self
    }
}

// A line for each room, up to the end of the shorter list.
pub(crate) fn print_lines<E: Entry>(
    out: &mut String,
    rooms: &[Room],
    entries: &[E],
) -> Result<(), AllocError>
    ensures { OnOk result (string_bytes out.new ≡ string_bytes out.old ++ lines E.Entry.line rooms.now entries.now) }
{
    for (room, entry) in rooms.iter().zip(entries) {
        entry.print(out, room)?;
    }
    Ok(())
}

// The sum over the entries that have a room. 128 bits hold it for lists of any length.
fn sum_of<E: Amount>(rooms: &[Room], entries: &[E]) -> u128
    ensures { result ≡ sum_of E.Amount.amount rooms.now entries.now }
{
    entries
        .iter()
        .take(rooms.len())
        .map(|entry| u128::from(entry.amount()))
        .sum()
}

fn print_sum<E: Amount>(out: &mut String, rooms: &[Room], entries: &[E]) -> Result<(), AllocError>
    ensures { OnOk result (string_bytes out.new ≡ string_bytes out.old ++ sum_line (sum_of E.Amount.amount rooms.now entries.now)) }
{
    let sum = sum_of(rooms, entries);
    writeln!(out, "(sum {sum})")
}

// The lines, and under them the sum of the entries that were printed.
pub(crate) fn print_with_sum<E: Entry + Amount>(
    out: &mut String,
    rooms: &[Room],
    entries: &[E],
) -> Result<(), AllocError>
    ensures { OnOk result (string_bytes out.new ≡ string_bytes out.old ++ (lines E.Entry.line rooms.now entries.now ++ sum_line (sum_of E.Amount.amount rooms.now entries.now))) }
{
    print_lines(out, rooms, entries)?;
    print_sum(out, rooms, entries)
}
