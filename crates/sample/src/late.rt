// Late readings, carried into the period closed last or dropped again.
use events::event::Ending;
use fault::refusal::Fault;
use heat_account::Account;
use sharing::remainders::Remainders;

pub(crate) fn correct_late(
    account: &mut Account<Remainders>,
    room: u32,
    reading: u32,
    ending: Ending,
) -> Result<(), Fault> {
    let slip = account.correct(room, reading)?;
    // A match and no closure: of a closure a proof would not know that it takes the slip.
    let ended = match ending {
        Ending::Book => account.book(slip),
        Ending::Withdraw => account.withdraw(slip),
    };
    match ended {
        Ok(()) => Ok(()),
        // Its own account takes a slip.
        Err(_) => unreachable(),
    }
}
