// Events from the items of their lines.
ghost use Rattle.std.specs.Prelude.{◌≡◌};
ghost use Rattle.forms.specs.Place.{figure_of};
ghost use Rattle.events.specs.Events.{common_of, next_ending, ending_word};

use crate::event::{Ending, Event};
use forms::token::Token;

pub(crate) fn reading(room: Token, reading: Token) -> Event
    ensures { result ≡ Event.Read (figure_of room.entry).value (figure_of reading.entry).value }
{
    let (room, reading) = (room.value(), reading.value());
    Event::Read { room, reading }
}

pub(crate) fn closing(total: Token, common: Option<Token>) -> Event
    ensures { result ≡ Event.Close (figure_of total.entry).value (common_of common.entry) }
{
    Event::Close {
        total: total.value(),
        common: common.map(|figure| figure.value()),
    }
}

pub(crate) fn correction(room: Token, reading: Token, ending: Ending) -> Event
    ensures { result ≡ Event.Correct (figure_of room.entry).value (figure_of reading.entry).value ending }
{
    Event::Correct {
        room: room.value(),
        reading: reading.value(),
        ending,
    }
}

impl Ending {
    // The only ending that the rest of a line can say, by its first byte.
    pub(crate) fn next(rest: &[u8]) -> Ending
        ensures { result ≡ next_ending rest.now }
    {
        match rest {
            [b'b', ..] => Ending::Book,
            _ => Ending::Withdraw,
        }
    }

    // The word for it that ends a correction.
    pub(crate) fn word(self) -> &'static [u8]
        ensures { result.now ≡ ending_word self }
    {
        match self {
            Ending::Book => b"book)",
            Ending::Withdraw => b"withdraw)",
        }
    }
}
