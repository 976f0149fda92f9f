//! Tests of replays on threads, turn by turn and shard by shard, in a crate of their own: so what
//! they test is proved once.
#![tactic(auto)]

#[cfg(test)]
mod tests;
