// Two lists that stand beside each other, room by room.
ghost use Rattle.std.specs.Prelude.{◌≡◌, ◌≤◌, length};
ghost use Rattle.billing.specs.Pots.{Both};
ghost use Rattle.heat_account.specs.Pairs.{Made};

use crate::tables_of::ROOMS;
use tables::Table;

// Private, as `collect` of billing: it asks that `f` can be called, and no public function asks for anything.
// What `f` makes of each value with the one beside it.
pub(crate) fn zip_with<A: Copy, B: Copy, C: Copy + Default, F: Fn(A, B) -> C>(
    xs: &[A],
    ys: &[B],
    f: F,
) -> Table<C, ROOMS>
    requires callable { Both (λ x y. F.pre f x y) xs.now ys.now }
    requires few { length xs.now ≤ 256 }
    ensures { Made (λ x y z. F.post f x y z) xs.now ys.now result }
{
    // A loop, as in `collect`.
    let mut made = Table::filled(C::default(), 0);
    for (x, y) in xs.iter().zip(ys) {
        // Never full.
        let _ = made.push(f(*x, *y));
    }
    made
}
