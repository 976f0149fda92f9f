// Options of a few entries, which all tests of turns use.
mod compare;
mod threads;
mod turns;

use wt_trace::Options;

// Shards of four entries, one of them in window.
fn of_four(shards: u64) -> Options {
    Options {
        shards,
        entries: 4,
        window: Some(1),
        weight: 1000,
        ..Options::default()
    }
}
