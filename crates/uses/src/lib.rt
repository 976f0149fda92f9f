//! One short use of each call, as a program writes it. A function is named for the call that it
//! shows.
#![tactic(auto)]

pub mod callers;
pub mod lines;
pub mod plain;
pub mod settings;
pub mod source;
