ghost use Rattle.std.specs.Prelude.{◌≡◌};
ghost use Rattle.house.specs.Plan.{common_area, method_fits, takes};

use crate::limits::{MOST_AREA, MOST_PERCENT};
use crate::room::Kind;

// How the building total is shared among the rooms.
#[derive(Clone, Copy, PartialEq, Eq, Debug)]
pub enum Method {
    // What the meters leave is shared; the common area takes its part first.
    Remainder { common_area: u32 },
    // The common figure is stated, and no read room pays below its floor.
    Stated { floor_percent: u32 },
}

// Matches and no trait: a house holds its method as a value, and each match names what a further method has to bring.
impl Method {
    // 0 under Stated and no `Option`: it is added to the areas.
    pub(crate) fn common_area(self) -> u32
        ensures { result ≡ common_area self }
    {
        match self {
            Method::Remainder { common_area } => common_area,
            Method::Stated { .. } => 0,
        }
    }

    // Whether its figure is in its range.
    pub fn fits(self) -> bool
        ensures { result ≡ method_fits self }
    {
        match self {
            Method::Remainder { common_area } => common_area <= MOST_AREA,
            Method::Stated { floor_percent } => floor_percent <= MOST_PERCENT,
        }
    }

    pub(crate) fn takes(self, kind: Kind) -> bool
        ensures { result ≡ takes self kind }
    {
        match self {
            Method::Remainder { .. } => !kind.is_detached(),
            Method::Stated { .. } => true,
        }
    }
}
