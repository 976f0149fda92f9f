//! Tests of `wt_shards` by its public calls, in a crate of their own: so no crate above `wt_shards`
//! waits for their proofs.
#![tactic(auto)]

#[cfg(test)]
mod tests;
