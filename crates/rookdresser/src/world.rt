// The types that `serve` chooses.
use crate::clock::Clock;
use std::marker::PhantomData;
use std::sync::Wait;
use wt_cache::Loader;
use wt_keys::CacheKey;
use wt_shards::{Books, Value};

/// The types that `serve` chooses for the caches of a service. A program writes one parameter for
/// all of them, and implements none.
pub trait World<K: CacheKey, V: Value<K>> {
    /// What loads.
    type Loader: Loader<K, V> + Drop;

    /// The books of the shards.
    type Books: Books;

    /// What waits.
    type Waiting: Wait;

    /// What shows the moment.
    type Clock: Clock + Copy;
}

// Any four of these.
#[derive(Drop)]
pub struct Chosen<L, B, R, T> {
    marker: PhantomData<(L, B, R, T)>,
}

impl<K: CacheKey, V: Value<K>, L: Loader<K, V> + Drop, B: Books, R: Wait, T: Clock + Copy> World<
    K,
    V,
> for Chosen<L, B, R, T> {
    type Loader = L;

    type Books = B;

    type Waiting = R;

    type Clock = T;
}
