// A season from a reader to a writer.
ghost use Rattle.std.specs.Prelude.{◌≡◌, [], take, string_bytes, IfOk, IfSome, OnOk};
ghost use Rattle.std.specs.Io.KnownBytes.{Appends};
ghost use Rattle.sharing.specs.Remainders.{remainders};
ghost use Rattle.events.specs.Events.{event_of};
ghost use Rattle.heat_account.specs.State.{with_state};
ghost use Rattle.listing.specs.Performed.{line_after, line_printed};
ghost use Rattle.console.specs.Season.{event_lines, events_text, season_text};

use crate::opening::{print_opening, read_input};
use heat_account::Account;
use input::{EventLines, MOST_INPUT, split_input};
use listing::performing::perform_line;
use sharing::remainders::Remainders;
use sharing::rule::Sharing;
use std::alloc::Global;
use std::io;
use std::io::{Read, Write};

// One byte more than may come tells an input that is too long, whatever follows.
// `as`, since a constant calls no function.
const MOST_READ: u64 = MOST_INPUT as u64 + 1;

// All of the input, or enough of it to know that it is too long.
fn read_all<R: Read + Drop>(alloc: Global, reader: R) -> io::Result<Vec<u8>>
    ensures { IfOk result (λ input. IfSome (R.remaining reader) (λ bytes. input.items ≡ take MOST_READ bytes)) }
{
    let mut input = Vec::new(alloc);
    reader.take(MOST_READ).read_to_end(&mut input)?;
    Ok(input)
}

// Writes out what stands in the buffer, which is then empty.
fn write_out<W: Write>(out: &mut String, writer: &mut W) -> io::Result<()>
    ensures written { OnOk result (Appends (W.contents writer.old) (W.contents writer.new) (string_bytes out.old)) }
    ensures emptied { OnOk result (string_bytes out.new ≡ []) }
{
    writer.write_all(out.as_bytes())?;
    out.clear();
    Ok(())
}

// The buffer and the writer pass side by side: a struct of two borrows of the caller would say no more.
// Performs an event, and writes out what it prints.
fn keep_event<W: Write>(
    account: &mut Account<Remainders>,
    line: &[u8],
    out: &mut String,
    writer: &mut W,
) -> io::Result<()>
    requires { string_bytes out.old ≡ [] }
    ensures written { OnOk result (Appends (W.contents writer.old) (W.contents writer.new) (line_printed remainders account.old.house account.old.state (event_of line.now))) }
    ensures after { account.new ≡ with_state account.old (line_after remainders account.old.house account.old.state (event_of line.now)) }
    ensures emptied { OnOk result (string_bytes out.new ≡ []) }
{
    perform_line(account, line, out)?;
    write_out(out, writer)
}

// Performs the events one by one, and writes out what each prints before the next.
fn keep_events<W: Write>(
    account: &mut Account<Remainders>,
    events: &[u8],
    out: &mut String,
    writer: &mut W,
) -> io::Result<()>
    requires { string_bytes out.old ≡ [] }
    ensures { OnOk result (Appends (W.contents writer.old) (W.contents writer.new) (events_text remainders account.old.house account.old.state (event_lines events.now))) }
{
    for line in EventLines::new(events) {
        keep_event(account, line, out, writer)?;
    }
    Ok(())
}

// Writes what an input brings.
fn keep_input<W: Write>(alloc: Global, input: &[u8], writer: &mut W) -> io::Result<()>
    ensures { OnOk result (Appends (W.contents writer.old) (W.contents writer.new) (season_text input.now)) }
{
    let mut out = String::new(alloc);
    let house = read_input(input);
    print_opening(&house, Remainders.title(), &mut out)?;
    write_out(&mut out, writer)?;
    match house {
        Ok(house) => {
            let mut account = Account::open(house, Remainders);
            let (_, events) = split_input(input);
            keep_events(&mut account, events, &mut out, writer)
        }
        Err(_) => Ok(()),
    }
}

// Reads a paper and its events, and writes what they bring, event by event.
pub fn keep_season<R: Read + Drop, W: Write>(
    alloc: Global,
    reader: R,
    writer: &mut W,
) -> io::Result<()>
    ensures { OnOk result (IfSome (R.remaining reader) (λ input. Appends (W.contents writer.old) (W.contents writer.new) (season_text input))) }
{
    let input = read_all(alloc, reader)?;
    keep_input(alloc, &input, writer)
}
