//! A lock for a value that is read more often than it is changed: threads read it beside each
//! other.
#![tactic(auto)]

mod exclusive;
mod guards;
mod hold;
mod striped;

pub use exclusive::Exclusive;
pub use guards::{ReadGuard, WriteGuard};
pub use striped::Striped;
