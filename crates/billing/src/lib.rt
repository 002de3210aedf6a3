// The bills of one period.
#![tactic(auto)]

pub mod bill;
mod claims;
mod collecting;
pub mod counting;
mod floors;
mod period;
mod pots;
mod remainder;
mod stated;
mod sums;
pub mod working;
