// The settings that all threads of a replay shard by shard share.
use crate::options::Options;
use std::alloc::Global;

/// The settings of a replay shard by shard, which all of its threads share.
#[derive(Drop)]
pub struct Job<'a, G> {
    /// The allocator of all that the threads make.
    pub alloc: Global,
    /// The options, each in its range.
    pub options: &'a Options,
    /// How many threads there are, 1 to 64.
    pub threads: usize,
    /// The gate that a thread asks before it handles a line.
    pub gate: &'a G,
}
