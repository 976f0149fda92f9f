//! The types that the tests of several crates share. Among them are values whose shares can be
//! refused or wait, calls and replies as rows of a table, and random numbers. The rules of the
//! regions stand here once more over plain lists. Its contracts promise nothing.
#![tactic(auto)]

mod acts;
mod dice;
mod fussy;
mod gated;
mod lists;
mod loaded;
mod plain_reply;

pub use acts::{Do, Step, call_of, call_with, choose};
pub use dice::Dice;
pub use fussy::{Fussy, counter};
pub use gated::{Gate, Gated};
pub use lists::{Lists, Row};
pub use loaded::{Loaded, light, random_value};
pub use plain_reply::{PlainReply, comparable};
