ghost use Rattle.std.specs.Prelude.{◌≡◌, length};
ghost use Rattle.billing.specs.Pots.{beside};
ghost use Rattle.billing.specs.Period.{bill, figures};

use crate::collecting::{PerRoom, collect};

// What a room is billed for a period: its own heat, and its share of what is common.
pub type Bill = (u32, u32);

// Own heat and common share together.
pub fn total(bill: Bill) -> u64
    ensures { result ≡ figures bill }
{
    let (own, common) = bill;
    u64::from(own) + u64::from(common)
}

// Own heat and common share of each room.
pub(crate) fn pair_up(owns: &PerRoom<u32>, commons: &PerRoom<u32>) -> PerRoom<Bill>
    requires { length commons.now ≡ length owns.now }
    ensures { result ≡ beside bill owns.now commons.now }
{
    let pairs = owns.as_slice().iter().zip(commons.as_slice());
    collect(pairs.map(|(own, common)| (*own, *common)))
}
