// The tokens of a shard's ledgers.
use std::sync::ledger::{Book, Ledger, Share as Part};

// The books of a shard's steps and hits, and the parts of them that nobody has got yet.
//
// Threads may not share a `&` of a token. Readers of the shard have no business with them, so they
// lie in an `Exclusive`.
#[derive(Drop)]
pub(crate) struct Ledgers<S: Ledger, H: Ledger> {
    pub(crate) steps: Book<S>,
    pub(crate) hits: Book<H>,
    pub(crate) steps_left: Part<S>,
    pub(crate) hits_left: Part<H>,
}
