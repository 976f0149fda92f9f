// What callers share, as it lies behind the lock.
use wt_core::{Call, Core};
use wt_history::Log;
use wt_keys::{CacheKey, Share};
use wt_regions::{Notices, Weighs};

/// A cache, the notices of its latest call, its history, and how many calls that has.
#[derive(Drop)]
pub struct Kept<K: CacheKey, V: Share + Weighs> {
    pub core: Core<K, V>,
    pub notices: Notices<K, V>,
    pub count: u64,
    pub log: Log<Call<K, V>>,
}
