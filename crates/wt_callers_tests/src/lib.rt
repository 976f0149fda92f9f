//! Tests of `wt_cache` by its public calls: callers that are lent, services, tallies, the line of
//! loads, and values whose shares are refused or wait. They stand beside `wt_cache_tests`, so that
//! the two are proved at once.
#![tactic(auto)]

#[cfg(test)]
mod tests;
