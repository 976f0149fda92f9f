// The caller behind an open handle of a shared cache. C opens the cache for one of two kinds of keys.
use crate::token::Timed;
use wt_keys::Name;
use wt_shared::Caller;

/// A caller of a cache that threads share.
#[derive(Drop)]
pub enum Sharing {
    /// Of one whose keys are numbers of 64 bits.
    Numbers(Caller<u64, Timed>),
    /// Of one whose keys are names of at most 24 bytes.
    Names(Caller<Name, Timed>),
}
