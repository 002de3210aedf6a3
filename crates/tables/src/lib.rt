// A list of bounded length over a fixed array, for code that never asks for memory.
#![tactic(auto)]

use std::marker::Model;

mod methods;
#[cfg(test)]
mod tests;

// Up to `N` values: the first `count` of `items`. The rest of the array is never shown. The library's `ArrayVec`
// fills what is unused with a default value, and not everything that is kept here has one: there is no blank room.
#[derive(Drop)]
pub struct Table<T, const N: usize> {
    count: usize,
    items: [T; N],
}

// Clauses see the values held.
impl<T, const N: usize> Model for Table<T, N> {
    ghost use Rattle.std.specs.Prelude.{◌≡◌, ◌≤◌, List, length, take};

    ghost Value = { List T };

    ghost view = { λ t. take t.count t.items };

    ghost invariant = { λ t. record { few : t.count ≤ N; full : length t.items ≡ N } };
}
