// The load that was opened last, while it is open.
//
// It stands behind a pointer, so that the size of a table, and of all that holds one, doesn't depend
// on the key's. Its place is made by the first load, and kept for the next ones.
ghost use Rattle.std.specs.Prelude.{◌≡◌, Some, None, IsSome, OnOk, OnErr};

use crate::row::Row;
use std::alloc::Global;
use std::marker::Model;
use wt_keys::{CacheKey, NoMemory};

// The load that was opened last, while it is open.
#[derive(Drop)]
pub(crate) struct Last<K: CacheKey> {
    // This load alone, or none.
    rows: Vec<Row<K>>,
}

impl<K: CacheKey> Model for Last<K> {
    ghost use Rattle.std.specs.Prelude.{Option};
    ghost use Rattle.std.specs.List.{slice_get};
    ghost use Rattle.wt_flights.specs.declared.row.Row.{Row};

    ghost Value = { Option (Row K) };

    ghost view = { λ n. slice_get n.rows.items 0 };
}

impl<K: CacheKey> Last<K> {
    // Returns the place, with no load.
    pub(crate) fn new(alloc: Global) -> Last<K>
        ensures { result ≡ None }
    {
        Last {
            rows: Vec::new(alloc),
        }
    }

    // Returns the load.
    #[inline(always)]
    pub(crate) fn get(&self) -> Option<Row<K>>
        ensures { result ≡ self.now }
    {
        self.rows.first().copied()
    }

    // Puts a load in the place of the one that is here.
    #[inline(always)]
    pub(crate) fn set(&mut self, row: Row<K>)
        requires { IsSome self.old }
        ensures { self.new ≡ Some row }
    {
        self.rows[0] = row;
    }

    // Puts a load here. Takes memory only for the first one.
    pub(crate) fn open(&mut self, row: Row<K>) -> Result<(), NoMemory>
        ensures state { OnOk result (self.new ≡ Some row) }
        ensures err { OnErr result (self.new ≡ self.old) }
        ensures refusal { OnErr result (self.old ≡ None) }
    {
        if self.rows.is_empty() {
            self.rows.push(row)?;
        } else {
            self.rows[0] = row;
        }
        Ok(())
    }

    // Takes the load away.
    #[inline(always)]
    pub(crate) fn clear(&mut self)
        ensures { self.new ≡ None }
    {
        self.rows.clear();
    }
}
