// The standings by number.
ghost use Rattle.std.specs.Prelude.{◌≡◌, length};

use crate::turns::Standing;

pub mod turning;

/// The standing of each number from 1 to 128: none where the book has no line of that number.
#[derive(Clone, Copy)]
pub struct Standings {
    // An array, since a number's place is known at once, and nothing here may use a heap.
    at: [Option<Standing>; 128],
    ghost whole: { length at ≡ 128 },
}
