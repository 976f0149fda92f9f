//! The three regions of a W-TinyLFU cache: window, probation and protected, with the duel, expiry
//! and weight.
#![tactic(auto)]

mod caches;
mod caps;
mod held;
mod lru_cache;
mod notices;
mod place;
mod regions;
mod settle;
mod slide;
mod sweep;
mod touch;
mod trim;
mod weighs;

pub use caches::Region;
pub use caps::{Caps, Freshness};
pub use held::Held;
pub use notices::{Cause, Notice, Notices};
pub use regions::Regions;
pub use settle::Fate;
pub use touch::Found;
pub use weighs::{Measure, Weighs};
