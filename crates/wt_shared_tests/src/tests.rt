// Callers of one cache, which all tests use.
mod busy;
mod compare;
mod meetings;
mod numbers;
mod peeks;
mod refusals;
mod turns;

use wt_core::{Cause, Config};
use wt_shared::{Caller, Unmade};
use wt_tests::{Do, Loaded, PlainReply, call_of, comparable};

// A caller of a cache whose values can be compared.
type LoadedCaller = Caller<u64, Loaded>;

// Four entries of weight 10 together. They expire only after this time without a use.
fn limits(after_access: Option<u64>) -> Config {
    Config {
        entries: 4,
        window: 1,
        bound: 10,
        after_write: None,
        after_access,
        refresh: None,
        flights: 32,
        ring: 64,
    }
}

// The reply of the call, if it was made.
fn reply_to(caller: &mut LoadedCaller, act: Do, key: u64, now: u64) -> Result<PlainReply, Unmade> {
    match caller.call(call_of(act, key, now)) {
        Ok(reply) => Ok(comparable(reply)),
        Err(why) => Err(why),
    }
}

// How many entries left in the caller's latest call, and the first of them.
fn first_left(caller: &LoadedCaller) -> (usize, Option<(u64, Loaded, Cause)>) {
    let left = caller.left();
    let first = left
        .first()
        .map(|notice| (notice.key, notice.value, notice.cause));
    (left.len(), first)
}
