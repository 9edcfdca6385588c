// How a table takes rows and shows them.
ghost use Rattle.std.specs.Prelude.{◌≡◌, ◌+◌, ◌<◌, ◌≤◌, [], ◌∷◌, ◌++◌, length};
ghost use Rattle.book.specs.Tables.{items};

use crate::tables::Table;
use std::ops::DerefSlice;

impl<T: Copy + Default, const N: usize> Table<T, N> {
    // A table with nothing in it.
    pub(crate) fn new() -> Self
        ensures { items result ≡ [] }
    {
        Table {
            rows: [T::default(); N],
            len: 0,
        }
    }
}

impl<T: Copy, const N: usize> Table<T, N> {
    // How many rows there are.
    pub(crate) fn len(&self) -> usize
        ensures { result ≡ length (items self.now) }
    {
        self.len
    }

    // How many rows more there is room for.
    pub(crate) fn remaining_capacity(&self) -> usize
        ensures { result + length (items self.now) ≡ N }
    {
        N - self.len
    }

    // The row goes behind the others. There must be room.
    pub(crate) fn push(&mut self, row: T)
        requires { length (items self.old) < N }
        ensures items { items self.new ≡ items self.old ++ row ∷ [] }
        ensures len { length (items self.new) ≡ length (items self.old) + 1 }
    {
        self.rows[self.len] = row;
        self.len += 1;
    }
}

impl<T, const N: usize> DerefSlice for Table<T, N> {
    type Elem = T;

    ghost deref_gives = { λ t xs. (xs ≡ items t) × (length xs ≤ N) };

    fn deref(&self) -> &[T] {
        &self.rows[..self.len]
    }
}
