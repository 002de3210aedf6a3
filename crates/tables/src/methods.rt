ghost use Rattle.std.specs.Prelude.{◌≡◌, ◌<◌, ◌≤◌, min, [], ◌∷◌, ◌++◌, length, replicate, is_ok, if◌then◌else◌, Ok, Err, nat_lt, slice_set};

use crate::Table;

impl<T, const N: usize> Table<T, N> {
    pub fn len(&self) -> usize
        ensures value { result ≡ length self.now }
        ensures few { result ≤ N }
    {
        self.as_slice().len()
    }

    pub fn as_slice(&self) -> &[T]
        ensures value { result.now ≡ self.now }
        ensures few { length result.now ≤ N }
    {
        // The check takes a part of a slice, and not of an array of `N`.
        let all = &self.items[..];
        &all[0..self.count]
    }
}

impl<T: Copy, const N: usize> Table<T, N> {
    // `n` copies of `x`, or `N` where `n` is more.
    pub fn filled(x: T, n: usize) -> Self
        ensures { result ≡ replicate (min n N) x }
    {
        Table::with_count(x, n.min(N))
    }

    fn with_count(x: T, count: usize) -> Self
        requires { count ≤ N }
        ensures { result ≡ replicate count x }
    {
        Table {
            count,
            items: [x; N],
        }
    }

    // Appends `x`, or hands it back where the table is full.
    pub fn push(&mut self, x: T) -> Result<(), T>
        ensures value { result ≡ (if nat_lt (length self.old) N then Ok tt else Err x) }
        ensures after { self.new ≡ (if is_ok result then self.old ++ x ∷ [] else self.old) }
    {
        if self.count == N {
            return Err(x);
        }
        self.items[self.count] = x;
        self.count += 1;
        Ok(())
    }

    // Replaces the value at `i`. Past the end it changes nothing, and returns `false`.
    // Nothing comes with the answer, so a `bool` says it as well as a `Result`.
    pub fn set(&mut self, i: usize, x: T) -> bool
        ensures value { result ≡ nat_lt i (length self.old) }
        ensures after { self.new ≡ slice_set self.old i x }
    {
        if i < self.count {
            self.items[i] = x;
            return true;
        }
        false
    }

    // Holds from now on what `other` holds.
    // In place: `clone` of what is generic may fail.
    pub fn copy_from(&mut self, other: &Self)
        ensures { self.new ≡ other.now }
    {
        self.count = other.count;
        self.items = other.items;
    }
}
