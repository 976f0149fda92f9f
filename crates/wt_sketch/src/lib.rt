//! How often each key was used, about: counters of four bits that stop at 15 and fade.
#![tactic(auto)]

mod sketch;
mod words;

pub use sketch::Sketch;
pub use words::halve;
