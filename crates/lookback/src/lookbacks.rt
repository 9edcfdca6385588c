// The look-back ring.
ghost use Rattle.std.specs.Prelude.{◌≡◌, ◌<◌, length};
ghost use Rattle.columns.specs.Numbers.{rising};
ghost use Rattle.lookback.specs.Distances.{listed};

use crate::distances::Distances;
use crate::links::Links;
use columns::marks::Column;

pub mod stepping;

/// The columns of the last 128 ticks: in each, the keywords up to which a prefix of a line ended at that tick.
#[derive(Clone, Copy)]
pub struct Lookback {
    links: Links,
    // the distances in use, listed once
    near: Distances,
    ring: [Column; 128],
    // the slot of the newest column
    newest: usize,
    ghost whole: { length ring ≡ 128 },
    ghost inside: { newest < 128 },
    ghost near_listed: { listed near ≡ rising links.near },
}
