// The heat account of one house under a sharing rule.
#![tactic(auto)]

use house::House;
use sharing::rule::Sharing;
use std::marker::Model;
pub use tables_of::ROOMS;
use tables_of::Tables;

pub mod answer;
pub mod call;
mod calls;
mod changing;
mod effects;
mod finding;
mod looking;
mod pairing;
pub mod runs;
pub mod slip;
mod splitting;
mod stage;
mod tables_of;
mod working;

#[derive(Drop)]
pub struct Account<R: Sharing> {
    house: House,
    rule: R,
    tables: Tables,
}

// Clauses see the house, the rule, and what the tables hold.
impl<R: Sharing> Model for Account<R> {
    ghost use Rattle.heat_account.specs.State.{HouseAccount};

    ghost Value = { HouseAccount R };

    ghost use Rattle.heat_account.specs.Kept.{Holds};
    ghost use Rattle.heat_account.specs.Tables.{state_of};

    ghost view = { λ a. record { house = a.house; rule = a.rule; state = state_of a.tables } };

    ghost invariant = { λ a. Holds a.house (state_of a.tables) };
}
