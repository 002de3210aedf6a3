ghost use Rattle.std.specs.Prelude.{◌≡◌};
ghost use Rattle.house.specs.Plan.{is_detached, pipe_of, room_fits};

use crate::limits::{area_fits, number_fits, pipe_fits};

#[derive(Clone, Copy, PartialEq, Eq, Debug)]
pub enum Kind {
    Metered,
    Plain,
    // Heated on its own, or passed through by pipes that give off this much.
    Detached { pipe: u32 },
}

impl Kind {
    pub(crate) fn is_detached(self) -> bool
        ensures { result ≡ is_detached self }
    {
        matches!(self, Kind::Detached { .. })
    }

    // The pipe figure, 0 unless detached.
    // No `Option`: 0 is in its range, so the test of a room needs no case for it.
    fn pipe(self) -> u32
        ensures { result ≡ pipe_of self }
    {
        match self {
            Kind::Metered | Kind::Plain => 0,
            Kind::Detached { pipe } => pipe,
        }
    }
}

#[derive(Clone, Copy, PartialEq, Eq, Debug)]
pub struct Room {
    pub number: u32,
    // In hundredths of a square metre.
    pub area: u32,
    pub kind: Kind,
}

impl Room {
    // Whether each of its numbers is in its range.
    pub(crate) fn fits(self) -> bool
        ensures { result ≡ room_fits self }
    {
        number_fits(self.number) && area_fits(self.area) && pipe_fits(self.kind.pipe())
    }
}
