//! Advises how many entries the window of a W-TinyLFU cache should hold, by four small caches that
//! look a sample of the keys up.
#![tactic(auto)]

mod adviser;
mod following;
mod mark;
mod share;
mod small;
mod tally;

pub use adviser::{Adviser, Seen, window_after};
pub use following::follow;
pub use mark::Mark;
pub use share::Share;
pub use tally::Tally;
