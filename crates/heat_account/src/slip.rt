ghost use Rattle.std.specs.Prelude.{◌≡◌};

// The right to end a correction. It cannot be copied or let go: one accepted booking or withdrawal spends it.
pub struct Slip {
    house: u32,
    period: u32,
}

impl Drop for Slip {
    // No house has the number 0, so nobody can show this of a slip that an account gave: let go, it fails the check.
    fn drop(self)
        requires { self ≡ record { house = 0; period = 0 } }
    {
        let Slip {
            house: _,
            period: _,
        } = self;
    }
}

impl Slip {
    pub(crate) fn new(house: u32, period: u32) -> Slip
        ensures { result ≡ record { house = house; period = period } }
    {
        Slip { house, period }
    }

    pub fn house(&self) -> u32
        ensures { result ≡ self.now.house }
    {
        self.house
    }

    pub fn period(&self) -> u32
        ensures { result ≡ self.now.period }
    {
        self.period
    }

    // Ends the slip.
    // The body is that of `drop`, which asks for what no slip of an account has.
    pub(crate) fn spend(self) {
        let Slip {
            house: _,
            period: _,
        } = self;
    }
}
