ghost use Rattle.std.specs.Prelude.{◌≡◌, ◌≤◌, []};
ghost use Rattle.std.specs.Iterator.{Drains, IsFinite};
ghost use Rattle.std.specs.Iterator.Runs.{EachRunFrom, WholeRun};

use sharing::pot::MOST_CLAIMANTS;
use tables::Table;

// At most one value for each room, in fixed memory.
pub(crate) type PerRoom<T> = Table<T, MOST_CLAIMANTS>;

// Private: it asks that the iterator can be called, and no public function asks for anything.
// What an iterator gives, of which there is no more than a table holds.
pub(crate) fn collect<T: Copy + Default, I: Iterator<Item = T>>(items: I) -> PerRoom<T>
    requires can { I.can_next items }
    requires finite { IsFinite (I.remaining items) }
    requires few { EachRunFrom I.next_gives items (λ p. p.len ≤ 256) }
    ensures ran { Drains I.next_gives items result }
    ensures runs { WholeRun I.next_gives items (λ p. result ≡ p.items) }
{
    let mut all = Table::filled(T::default(), 0);
    fill(&mut all, items);
    all
}

// The same into an empty table where it is used: a table that is handed on is copied by each function that hands it on.
pub(crate) fn fill<T: Copy, I: Iterator<Item = T>>(all: &mut PerRoom<T>, items: I)
    requires can { I.can_next items }
    requires finite { IsFinite (I.remaining items) }
    requires few { EachRunFrom I.next_gives items (λ p. p.len ≤ 256) }
    requires empty { all.old ≡ [] }
    ensures ran { Drains I.next_gives items all.new }
    ensures runs { WholeRun I.next_gives items (λ p. all.new ≡ p.items) }
{
    // A loop: a table takes values one by one, since it may be full.
    for item in items {
        // Never full.
        let _ = all.push(item);
    }
}
