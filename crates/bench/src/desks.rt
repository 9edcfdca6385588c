// What a bench keeps beside its finder.
use crate::lines::Watched;
use crate::recent::Recent;
use arrayvec::ArrayVec;
use lookback::lookbacks::Lookback;
use standings::tables::Standings;

pub(crate) mod ticking;

/// The look-back ring and the standings, with the lines in entry order, the latest reports and the tick count. No finder
/// stands in it.
#[derive(Drop)]
pub(crate) struct Desk {
    pub(crate) lines: ArrayVec<Watched, 128>,
    pub(crate) lookback: Lookback,
    pub(crate) standings: Standings,
    pub(crate) recent: Recent,
    pub(crate) count: u32,
}
