// Which keyword follows which, and how far apart they end.
ghost use Rattle.std.specs.Prelude.{◌≡◌, length};

use columns::marks::Column;
use columns::numbers::Numbers;

pub mod linking;

/// The keywords of all lines side by side, by the distances at which they follow one another.
#[derive(Clone, Copy)]
pub struct Links {
    // the first keywords of lines
    pub(crate) firsts: Column,
    // for each distance, by its remainder by 128: the keywords that another follows at that distance
    pub(crate) follow: [Column; 128],
    // the distances in use
    pub(crate) near: Numbers,
    ghost whole: { length follow ≡ 128 },
}
