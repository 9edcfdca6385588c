// The bench.
ghost use Rattle.bench.specs.Life.{Lived};

use crate::desks::Desk;
use cells::kinds::Cell;
use finders::finding::Finder;
use std::marker::PhantomData;

pub mod watching;

/// A bench watches the samples of one trace for the lines of one book. It owns the finder that it is made from. There is
/// a book, and a history of calls, that it has been through.
#[derive(Drop)]
pub struct Bench<C: Cell, F: Finder<C>> {
    finder: F,
    desk: Desk,
    kind: PhantomData<C>,
    ghost lived: { ∥ Lived C.Cell F.Finder finder desk ∥₁ },
}
