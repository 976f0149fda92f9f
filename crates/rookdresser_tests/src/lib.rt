//! Tests of `rookdresser`, in a crate of their own: so the crate itself is proved once, and none
//! above it waits for its tests.
#![tactic(auto)]

#[cfg(test)]
mod tests;
