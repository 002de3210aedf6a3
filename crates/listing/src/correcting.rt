// A correction from its late reading to the end of its slip.
ghost use Rattle.std.specs.Prelude.{◌≡◌, true};
ghost use Rattle.heat_account.specs.State.{with_state};
ghost use Rattle.heat_account.specs.Judged.{after, correcting, fits, performed, result_of};
ghost use Rattle.heat_account.specs.Changes.{changes};
ghost use Rattle.heat_account.specs.declared.call.Call.TheVariants.{Correct};
ghost use Rattle.events.specs.declared.event.Event.TheVariants as events;
ghost use Rattle.listing.specs.Performed.{ending_call, after_event};

use events::event::Ending;
use fault::refusal::Fault;
use heat_account::slip::Slip;
use heat_account::{Account, ROOMS};
use sharing::rule::Sharing;
use tables::Table;

// The change of each room's bill by the correction that is open.
fn open_changes<R: Sharing>(account: &Account<R>) -> Table<i64, ROOMS>
    requires { correcting account.now.state.stage ≡ true }
    ensures { result ≡ changes (R.shares account.now.rule) account.now.house account.now.state }
{
    // Refused only where nothing is being corrected.
    account.changes().unwrap()
}

fn end_correction<R: Sharing>(account: &mut Account<R>, slip: Slip, ending: Ending)
    requires { fits account.old.house account.old.state slip.house slip.period ≡ true }
    ensures after { account.new ≡ performed (R.shares account.old.rule) account.old (ending_call ending slip.house slip.period) }
{
    // A match and no closure: of a closure a proof would not know that it takes the slip.
    let ended = match ending {
        Ending::Book => account.book(slip),
        Ending::Withdraw => account.withdraw(slip),
    };
    match ended {
        Ok(()) => {}
        // Its own account takes a slip.
        Err(_) => unreachable(),
    }
}

// Corrects and ends the correction, and tells what it changes or would have changed.
pub(crate) fn correct<R: Sharing>(
    account: &mut Account<R>,
    room: u32,
    reading: u32,
    ending: Ending,
) -> Result<Table<i64, ROOMS>, Fault>
    ensures value { result ≡ result_of account.old.house account.old.state (Correct room reading) (λ _. changes (R.shares account.old.rule) account.old.house (after (R.shares account.old.rule) account.old.house account.old.state (Correct room reading))) }
    ensures after { account.new ≡ with_state account.old (after_event (R.shares account.old.rule) account.old.house account.old.state (events.Correct room reading ending)) }
{
    let slip = account.correct(room, reading)?;
    let changes = open_changes(account);
    end_correction(account, slip, ending);
    Ok(changes)
}
