ghost use Rattle.std.specs.Prelude.{◌≡◌};
ghost use Rattle.heat_account.specs.Judged.{named};

use fault::place::Place;

// A call on an account, with its arguments. A slip goes by its numbers.
#[derive(Clone, Copy, PartialEq, Eq, Debug)]
pub enum Call {
    Read { room: u32, reading: u32 },
    Close { total: u32, common: Option<u32> },
    Correct { room: u32, reading: u32 },
    Book { house: u32, period: u32 },
    Withdraw { house: u32, period: u32 },
    Bill { room: u32 },
    Balance { room: u32 },
}

impl Call {
    // The room that it names.
    pub(crate) fn named(self) -> Place
        ensures { result ≡ named self }
    {
        match self {
            Call::Read { room, .. }
            | Call::Correct { room, .. }
            | Call::Bill { room }
            | Call::Balance { room } => Place::Room(room),
            Call::Close { .. } | Call::Book { .. } | Call::Withdraw { .. } => Place::Nowhere,
        }
    }
}
