// The matcher.
use lookback::lookbacks::Lookback;
use std::marker::PhantomData;

pub mod spotting;

/// A finder and the look-back ring of its book: at each tick, the lines that occur ending at it. It owns the finder, so
/// that nobody else gives it symbols.
#[derive(Drop)]
pub struct Matcher<C, F> {
    finder: F,
    lookback: Lookback,
    kind: PhantomData<C>,
}
