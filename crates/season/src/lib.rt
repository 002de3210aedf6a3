#![tactic(auto)]

// The heat account through whole seasons, by its public calls.
#[cfg(test)]
mod calls;
#[cfg(test)]
mod changes;
#[cfg(test)]
mod corrections;
#[cfg(test)]
mod edges;
#[cfg(test)]
mod houses;
#[cfg(test)]
mod refusals;
#[cfg(test)]
mod seasons;
#[cfg(test)]
mod splits;
