// The settings of a cache.
use wt_core::Config;
use wt_keys::Fault;

/// A thousand pages, which expire after a minute and are due for another load after half of it.
pub fn of() -> Config {
    Config::of(1000)
        .with_after_write(60_000)
        .with_refresh(30_000)
}

/// The same with a larger window, with weights up to a million, and with at most 16 loads at once.
/// Pages expire if nobody uses them for ten seconds.
pub fn with() -> Config {
    of().with_window(100)
        .with_bound(1_000_000)
        .with_after_access(10_000)
        .with_flights(16)
        .with_ring(64)
}

/// Returns what is wrong with the settings that an operator chose, before a cache is made of them.
pub fn check(chosen: &Config) -> Result<(), Fault> {
    chosen.check()
}
