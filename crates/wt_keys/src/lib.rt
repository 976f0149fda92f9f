//! The types that every layer of the cache uses: keys, the traits of values, and the faults.
#![tactic(auto)]

mod fault;
mod key;
mod name;
mod rows;
mod seeded;
mod shared;
mod value;

pub use fault::{Fault, Field, NoMemory};
pub use key::CacheKey;
pub use name::Name;
pub use rows::{bits_for, places, shard_of};
pub use seeded::{Seed, Seeded, seeds_tell_keys_apart};
pub use shared::Shared;
pub use value::{Answers, Share};
