// The events of a season, each read from its line of text.
#![tactic(auto)]

pub mod event;
mod items;
pub mod reading;
#[cfg(test)]
mod tests;
