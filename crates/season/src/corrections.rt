// Corrections from the late reading to the end of their slip.
use crate::houses::{Figures, figures_of};
use events::event::Ending;
use fault::refusal::Fault;
use heat_account::Account;
use heat_account::slip::Slip;
use sharing::remainders::Remainders;

// What is seen while a correction is open: the numbers of its slip, and the figures.
#[derive(Clone, Copy)]
pub(crate) struct Seen {
    pub(crate) slip: (u32, u32),
    pub(crate) figures: Figures,
}

fn look(account: &Account<Remainders>, slip: &Slip) -> Result<Seen, Fault> {
    Ok(Seen {
        slip: (slip.house(), slip.period()),
        figures: figures_of(account)?,
    })
}

pub(crate) fn correct_late(
    account: &mut Account<Remainders>,
    room: u32,
    reading: u32,
    ending: Ending,
) -> Result<Seen, Fault> {
    let slip = account.correct(room, reading)?;
    let seen = look(account, &slip);
    // A match and no closure: of a closure a proof would not know that it takes the slip.
    let ended = match ending {
        Ending::Book => account.book(slip),
        Ending::Withdraw => account.withdraw(slip),
    };
    match ended {
        Ok(()) => seen,
        // Its own account takes a slip.
        Err(_) => unreachable(),
    }
}

// Books a slip at another account, and tells why that refuses it. A refused slip is withdrawn where it came from.
pub(crate) fn book_elsewhere(
    account: &mut Account<Remainders>,
    other: &mut Account<Remainders>,
    room: u32,
    reading: u32,
) -> Result<Option<Fault>, Fault> {
    let slip = account.correct(room, reading)?;
    match other.book(slip) {
        Ok(()) => Ok(None),
        Err((fault, slip)) => match account.withdraw(slip) {
            Ok(()) => Ok(Some(fault)),
            // Its own account takes a slip.
            Err(_) => unreachable(),
        },
    }
}
