//! Tests of `wt_cache` by its public calls, in a crate of their own: so the product isn't proved
//! again beside them.
#![tactic(auto)]

#[cfg(test)]
mod tests;
