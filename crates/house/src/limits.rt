ghost use Rattle.std.specs.Prelude.{◌≡◌};
ghost use Rattle.house.specs.Plan.{number_fits, area_fits, pipe_fits};

// Of a house and of a room.
const MOST_NUMBER: u32 = 999_999;

// Rooms and claimants have limits of their own, which happen to be one number.
pub(crate) const MOST_ROOMS: usize = 256;

// Of an area, of a pipe figure, and of the areas of a house together.
pub(crate) const MOST_AREA: u32 = 100_000_000;

pub(crate) const MOST_PERCENT: u32 = 100;

// Whether a house or a room may have this number.
pub fn number_fits(number: u32) -> bool
    ensures { result ≡ number_fits number }
{
    (1..=MOST_NUMBER).contains(&number)
}

// Whether a room may have this area.
pub fn area_fits(area: u32) -> bool
    ensures { result ≡ area_fits area }
{
    (1..=MOST_AREA).contains(&area)
}

// Whether a detached room may have this pipe figure.
pub fn pipe_fits(pipe: u32) -> bool
    ensures { result ≡ pipe_fits pipe }
{
    pipe <= MOST_AREA
}
