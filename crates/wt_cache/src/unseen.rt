// The keys that a caller keeps for the advisers of a cache.
use std::alloc::Global;
use wt_keys::{CacheKey, NoMemory};

// How many keys of a shard a caller keeps at most.
const KEYS: usize = 16;

/// The keys of one caller's latest look-ups that no adviser has seen yet, by their shards: for
/// `Caller::follow_by`.
#[derive(Drop)]
pub struct Unseen<K: CacheKey> {
    shards: Vec<Vec<K>>,
}

impl<K: CacheKey> Unseen<K> {
    /// Makes the lists of a caller to a cache of `shards` shards, without any key. Takes memory for 16
    /// keys of each shard; no later call takes any. O(shards).
    pub fn new(alloc: Global, shards: usize) -> Result<Unseen<K>, NoMemory> {
        let mut lists = Vec::new(alloc);
        for _ in 0..shards {
            lists.push(Vec::with_capacity(alloc, KEYS)?)?;
        }
        Ok(Unseen { shards: lists })
    }

    // Puts the key behind those of its shard, and returns whether the list is full then.
    pub(crate) fn keep(&mut self, shard: usize, key: K) -> bool {
        match self.shards.get_mut(shard) {
            // There is a place for the key: a full list is shown and emptied at once.
            Some(keys) => keys.push(key).is_err() || keys.len() >= KEYS,
            None => false,
        }
    }

    // The keys of a shard, the earliest first.
    pub(crate) fn of(&self, shard: usize) -> &[K] {
        match self.shards.get(shard) {
            Some(keys) => keys,
            None => &[],
        }
    }

    // Forgets the keys of a shard.
    pub(crate) fn empty(&mut self, shard: usize) {
        if let Some(keys) = self.shards.get_mut(shard) {
            keys.clear();
        }
    }
}
