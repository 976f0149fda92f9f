// What a caller knows of the cache that it shares.
use wt_core::{Call, Config};
use wt_history::Prefix;

/// What the cache was opened with, and the calls that a caller has seen of its history.
#[derive(Drop)]
pub struct Known<K, V> {
    /// What the cache was opened with.
    pub config: Config,
    /// The calls that the caller has seen.
    pub seen: Prefix<Call<K, V>>,
}
