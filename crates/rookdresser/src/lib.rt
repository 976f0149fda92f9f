//! A loading cache for threads, in front of a slow source: [`serve`] makes it, a [`Service`] is what
//! each thread does with it, and [`Cache`] has the calls.
#![tactic(auto)]

mod cache;
mod clock;
mod laws;
mod service;
mod world;

pub use cache::Cache;
pub use clock::{Clock, Monotonic};
pub use laws::{got_values_are_young, looked_up_values_are_young};
pub use service::{Served, Service, serve};
pub use world::World;
pub use wt_cache::{Keyed, Loader, Tally};
pub use wt_core::{Cause, Config, Measure, Notice, Notices, Stats, Weighs};
pub use wt_keys::{Answers, CacheKey, Fault, Name, NoMemory, Share};
