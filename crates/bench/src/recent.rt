// The reports of the latest ticks.
ghost use Rattle.std.specs.Prelude.{◌≡◌, length};

use columns::numbers::Numbers;

pub(crate) mod noting;

/// The numbers reported at each of the latest 64 ticks, at the tick's remainder by 64.
#[derive(Clone, Copy)]
pub(crate) struct Recent {
    // An array, since each of the latest 64 ticks has a place of its own in it.
    at: [Numbers; 64],
    ghost whole: { length at ≡ 64 },
}
