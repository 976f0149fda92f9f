// The ledgers of the shards' books, and the fresh parts from which shards make their books and
// histories.
use crate::shard_ledger::ShardLedger;
use std::marker::PhantomData;
use std::sync::ledger::{Blank, Ledger};
use wt_core::Call;
use wt_history::Fresh;

/// The ledgers of the steps and of the hits of the shard numbers 0 to 3.
pub trait Books {
    type S0: ShardLedger;

    type H0: Ledger;

    type S1: ShardLedger;

    type H1: Ledger;

    type S2: ShardLedger;

    type H2: Ledger;

    type S3: ShardLedger;

    type H3: Ledger;
}

/// Any eight ledgers.
#[derive(Drop)]
pub struct Named<S0, H0, S1, H1, S2, H2, S3, H3> {
    marker: PhantomData<(S0, H0, S1, H1, S2, H2, S3, H3)>,
}

impl<
    S0: ShardLedger,
    H0: Ledger,
    S1: ShardLedger,
    H1: Ledger,
    S2: ShardLedger,
    H2: Ledger,
    S3: ShardLedger,
    H3: Ledger,
> Books for Named<S0, H0, S1, H1, S2, H2, S3, H3> {
    type S0 = S0;

    type H0 = H0;

    type S1 = S1;

    type H1 = H1;

    type S2 = S2;

    type H2 = H2;

    type S3 = S3;

    type H3 = H3;
}

/// Their blanks, of 65,536 parts each, and four histories of calls that are still empty.
#[derive(Drop)]
pub struct Blanks<K, V> {
    pub s0: Blank,
    pub h0: Blank,
    pub c0: Fresh<Call<K, V>>,
    pub s1: Blank,
    pub h1: Blank,
    pub c1: Fresh<Call<K, V>>,
    pub s2: Blank,
    pub h2: Blank,
    pub c2: Fresh<Call<K, V>>,
    pub s3: Blank,
    pub h3: Blank,
    pub c3: Fresh<Call<K, V>>,
}

impl<K, V> Blanks<K, V> {
    ghost use Rattle.wt_shards.specs.Opening.{AreBlanksOf, books_of, names_of};

    /// Makes the blanks of eight ledgers and four histories. Takes no memory. O(1).
    pub fn new() -> Blanks<K, V>
        ensures { AreBlanksOf (names_of result) (books_of result) result }
    {
        Blanks {
            s0: Blank::new(65536),
            h0: Blank::new(65536),
            c0: Fresh::new(),
            s1: Blank::new(65536),
            h1: Blank::new(65536),
            c1: Fresh::new(),
            s2: Blank::new(65536),
            h2: Blank::new(65536),
            c2: Fresh::new(),
            s3: Blank::new(65536),
            h3: Blank::new(65536),
            c3: Fresh::new(),
        }
    }
}
