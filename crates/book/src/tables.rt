// A table of rows.
ghost use Rattle.std.specs.Prelude.{⊤, ◌≡◌, ◌≤◌, length};

use std::alloc::AllocError;

// At most `N` rows, which lie in the value itself and are filled from the front.
// A vector of the crate's own, since `ArrayVec` is not `Copy`.
#[derive(Copy)]
pub(crate) struct Table<T, const N: usize> {
    pub(crate) rows: [T; N],
    pub(crate) len: usize,
    ghost whole: { length rows ≡ N },
    ghost fits: { len ≤ N },
}

// Written out, since no clone is derived for a generic struct with ghost fields.
impl<T: Copy, const N: usize> Clone for Table<T, N> {
    ghost is_clone = { λ t u. u ≡ t };

    ghost is_infallible = { λ _. ⊤ };

    fn clone(&self) -> Result<Self, AllocError> {
        Ok(*self)
    }
}
