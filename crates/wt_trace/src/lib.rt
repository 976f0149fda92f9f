//! Replays a trace on the sequential cache, on one thread or shard by shard on many, and reports
//! the result of each line.
#![tactic(auto)]

mod fault;
mod laws;
mod options;
mod report;
mod run;
mod shard;
mod tallied;
mod trace;

pub use fault::{ReplayFault, status_and_line};
pub use laws::{a_get_leaves_no_load_open, a_shard_is_a_run_of_its_calls};
pub use options::{MOST_THREADS, MOST_WEIGHT, Options};
pub use report::summary::summary_text;
pub use run::{MOST_BYTES, read_up_to, replay, replay_by_shard, write_out};
pub use shard::gate::{Gate, Open};
pub use shard::rules::{FAILED_LOAD, fails_by, version_by, weight_by};
pub use shard::version::Version;
pub use tallied::Tallied;
pub use trace::header::behind_header;
pub use trace::key::TraceKey;
pub use trace::line::{Act, Line, reads_every_line};
pub use trace::{Lines, read_lines};
