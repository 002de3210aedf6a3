// What a refusal carries: why, in which layer of the engine, and where.
#![tactic(auto)]

pub mod layer;
pub mod place;
pub mod reason;
pub mod refusal;
