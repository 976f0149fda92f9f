// The results of a get and of a worker.

/// How a value was got.
#[derive(Clone, Copy, Debug, PartialEq, Eq)]
pub enum How {
    /// It was there.
    Hit,
    /// It was loaded by the load that this call opened, which a worker may have run.
    Loaded,
    /// It was loaded by a load that was open already.
    Joined,
    /// It was there and due: this call opened a load of it anew, and returns the value that was
    /// there.
    Refreshed,
}

/// A value, how it was got, and the number of the step that sought it.
#[derive(Drop)]
pub struct Got<V> {
    /// The value.
    pub value: V,
    /// How it was got.
    pub how: How,
    /// The number of the seek among the steps of the key's shard.
    pub step: u64,
}

/// A worker's count of its jobs.
#[derive(Clone, Copy, Debug, PartialEq, Eq)]
pub struct WorkerReport {
    /// The jobs that it took.
    pub jobs: u64,
    /// The loads among them that returned an error.
    pub failed: u64,
    /// The entries that left the cache in its landings. It stays at 2^64 - 1.
    pub removed: u64,
}
