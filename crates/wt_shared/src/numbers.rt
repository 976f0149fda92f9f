// The numbers of a shared cache.
use wt_core::Stats;

/// The numbers of a shared cache, all of one moment.
#[derive(Clone, Copy, Debug, PartialEq, Eq)]
pub struct Numbers {
    /// Its counts since it was opened, its entries and their weight.
    pub stats: Stats,
    /// The number of steps so far.
    pub step: u64,
    /// The latest moment, in milliseconds.
    pub latest: u64,
    /// How many loads are open.
    pub flights: u64,
}
