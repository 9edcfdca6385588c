// The distances in use, one after another.
ghost use Rattle.std.specs.Prelude.{◌≡◌, ◌≤◌, length};

pub(crate) mod listing;

/// Distances in rising order. A tick looks back at each of them, and a list is walked quicker than a set.
// An array and a count, since a ring is copied, which an `ArrayVec` is not.
#[derive(Clone, Copy)]
pub(crate) struct Distances {
    at: [u8; 128],
    used: usize,
    ghost whole: { length at ≡ 128 },
    ghost few: { used ≤ 128 },
}
