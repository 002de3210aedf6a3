ghost use Rattle.std.specs.Prelude.{◌≡◌, ◌≤◌, map, length, sum};
ghost use Rattle.std.specs.List.{AllByRecursion};
ghost use Rattle.billing.specs.Pots.{beside};
ghost use Rattle.billing.specs.Claims.{floor_by, surcharge_by, excess_by, gross_by, Among};

use crate::collecting::{PerRoom, collect};
use crate::counting::{CountedRoom, Role};
use crate::sums::Sums;

// What the floors of the rooms that are read are worked from.
#[derive(Clone, Copy)]
pub(crate) struct Floors {
    percent: u32,
    // Of all rooms that are read.
    readings: u32,
    area: u32,
}

// Below, `as` narrows what a proof shows to fit; `try_from` would bring a branch that is never taken.
impl Floors {
    pub(crate) fn of(percent: u32, sums: Sums) -> Floors
        requires readings { sums.readings ≤ 100000000 }
        requires area { sums.read_area ≤ 100000000 }
        ensures { result ≡ record { percent = percent; readings = sums.readings; area = sums.read_area } }
    {
        Floors {
            percent,
            readings: sums.readings as u32,
            area: sums.read_area as u32,
        }
    }

    // What a room of this area pays at least if it is read: its part, by area, of the percentage of all readings.
    // In 128 bits, since a product of three figures does not fit 64.
    fn floor(self, area: u32) -> u128
        ensures { result ≡ floor_by self area }
    {
        let product = u128::from(self.percent) * u128::from(self.readings) * u128::from(area);
        product
            .checked_div(100 * u128::from(self.area))
            .unwrap_or(0)
    }

    // What a reading lacks to the floor.
    fn surcharge(self, room: CountedRoom) -> u32
        requires { Among self room }
        ensures value { result ≡ surcharge_by self room }
        ensures within { result ≤ self.readings }
    {
        match room.role {
            Role::Read(figure) => self.floor(room.area).saturating_sub(u128::from(figure)) as u32,
            Role::Plain | Role::Detached(_) => 0,
        }
    }

    // What a reading is above the floor.
    pub(crate) fn excess(self, room: CountedRoom) -> u32
        ensures { result ≡ excess_by self room }
    {
        match room.role {
            Role::Read(figure) => u128::from(figure).saturating_sub(self.floor(room.area)) as u32,
            Role::Plain | Role::Detached(_) => 0,
        }
    }

    // What a room with this share of the rest pays before any deduction.
    pub(crate) fn gross(self, room: CountedRoom, share: u32) -> u32
        requires { Among self room }
        ensures { result ≡ gross_by self room share }
    {
        match room.role {
            Role::Read(figure) => figure + self.surcharge(room),
            Role::Plain => share,
            Role::Detached(pipe) => pipe,
        }
    }

    // That of each room, with its share beside it.
    pub(crate) fn gross_of(
        self,
        rooms: &PerRoom<CountedRoom>,
        shares: &PerRoom<u32>,
    ) -> PerRoom<u32>
        requires same { length shares.now ≡ length rooms.now }
        requires among { AllByRecursion (Among self) rooms.now }
        ensures { result ≡ beside (gross_by self) rooms.now shares.now }
    {
        let pairs = rooms.as_slice().iter().zip(shares.as_slice());
        collect(pairs.map(|(room, share)| self.gross(*room, *share)))
    }

    // The true sum: 256 surcharges within the limits cannot wrap it. As all sums of a method over the rooms, it is a loop, room by room: that form is fixed.
    pub(crate) fn surcharges(self, rooms: &PerRoom<CountedRoom>) -> u64
        requires { AllByRecursion (Among self) rooms.now }
        ensures { result ≡ sum (map (surcharge_by self) rooms.now) }
    {
        let mut sum = 0;
        let list = rooms.as_slice();
        for room in list {
            sum += u64::from(self.surcharge(*room));
        }
        sum
    }
}
