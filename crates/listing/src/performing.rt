// Performing an event and printing what it brings. All calls come before anything is printed: an event is performed whole even where memory runs out.
ghost use Rattle.std.specs.Prelude.{◌≡◌, true, List, ◌++◌, string_bytes, OnOk};
ghost use Rattle.house.specs.Plan.{lawful};
ghost use Rattle.heat_account.specs.State.{with_state};
ghost use Rattle.heat_account.specs.Ledger.{Stands};
ghost use Rattle.heat_account.specs.Carried.{Goes};
ghost use Rattle.heat_account.specs.declared.call.Call.{Call};
ghost use Rattle.events.specs.Events.{event_of};
ghost use Rattle.listing.specs.Performed.{after_event, printed, line_calls, line_after, line_printed};
ghost use Rattle.listing.specs.Outcomes.{outcome_text};

use crate::correcting::correct;
use crate::outcome::Outcome;
use events::event::Event;
use events::reading::read_event;
use fault::place::Place;
use fault::reason::Reason;
use fault::refusal::Fault;
use heat_account::Account;
use printing::{print_balances, print_bills, print_changes, print_done, print_refused};
use sharing::rule::Sharing;
use std::alloc::AllocError;

// Performs the event that a line says, given without its line end, and appends what is printed for it.
pub fn perform_line<R: Sharing>(
    account: &mut Account<R>,
    line: &[u8],
    out: &mut String,
) -> Result<(), AllocError>
    ensures value { OnOk result (string_bytes out.new ≡ string_bytes out.old ++ line_printed (R.shares account.old.rule) account.old.house account.old.state (event_of line.now)) }
    ensures after { account.new ≡ with_state account.old (line_after (R.shares account.old.rule) account.old.house account.old.state (event_of line.now)) }
    ensures ledger { (calls : List Call) → Stands (R.shares account.old.rule) account.old.house account.old.state calls → Goes (R.shares account.old.rule) account.old.house account.new.state (calls ++ line_calls account.old.house account.old.state (event_of line.now)) }
{
    let outcome = perform_said(account, read_event(line));
    print_outcome(account, outcome, out)
}

// `lawful` hands on what the invariant says, which is known only where a field is used.
// The account and the buffer are two borrows that end apart, so they pass side by side.
fn print_outcome<R: Sharing>(
    account: &Account<R>,
    outcome: Result<Outcome, Fault>,
    out: &mut String,
) -> Result<(), AllocError>
    ensures value { OnOk result (string_bytes out.new ≡ string_bytes out.old ++ outcome_text account.now.house.rooms account.now.state outcome) }
    ensures lawful { lawful account.now.house.number account.now.house.method account.now.house.rooms ≡ true }
{
    let rooms = account.rooms();
    match outcome {
        Ok(Outcome::Noted) => print_done(out),
        Ok(Outcome::Closed) => print_bills(out, rooms, account.bills()),
        Ok(Outcome::Changed(changes)) => print_changes(out, rooms, changes.as_slice()),
        Ok(Outcome::Balanced) => print_balances(out, rooms, account.balances()),
        Err(fault) => print_refused(out, fault),
    }
}

// A line that says no event is refused as an event is.
fn perform_said<R: Sharing>(account: &mut Account<R>, said: Option<Event>) -> Result<Outcome, Fault>
    ensures value { outcome_text account.old.house.rooms account.new.state result ≡ line_printed (R.shares account.old.rule) account.old.house account.old.state said }
    ensures after { account.new ≡ with_state account.old (line_after (R.shares account.old.rule) account.old.house account.old.state said) }
{
    let event = said.ok_or(Fault::new(Reason::MalformedLine, Place::Nowhere))?;
    perform_event(account, event)
}

fn perform_event<R: Sharing>(account: &mut Account<R>, event: Event) -> Result<Outcome, Fault>
    ensures value { outcome_text account.old.house.rooms account.new.state result ≡ printed (R.shares account.old.rule) account.old.house account.old.state event }
    ensures after { account.new ≡ with_state account.old (after_event (R.shares account.old.rule) account.old.house account.old.state event) }
{
    match event {
        Event::Read { room, reading } => {
            account.read(room, reading)?;
            Ok(Outcome::Noted)
        }
        Event::Close { total, common } => {
            account.close(total, common)?;
            Ok(Outcome::Closed)
        }
        Event::Correct {
            room,
            reading,
            ending,
        } => Ok(Outcome::Changed(correct(account, room, reading, ending)?)),
        Event::Balance => Ok(Outcome::Balanced),
    }
}
