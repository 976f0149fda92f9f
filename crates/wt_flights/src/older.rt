// All open loads but the newest one.
//
//     by_id     id ──► key, sharers, current      every load here
//     by_key    key ──► id                        the loads that a further caller joins
//     since                                       from which id on a load can be current
//
// A load is current exactly while the table by key names its id. Its own record shows this: the
// flag is set, and the id isn't below `since`. So a row takes one look-up, and a landing two
// removals. To forget a load, a call removes it from the table by key and resets its flag. To
// forget all, a call clears that table and sets `since` to the next id. None of these takes memory,
// and a row is put together only for a caller that reads it.
ghost use Rattle.std.specs.Prelude.{◌≡◌, ℕ, ◌==◌, ◌&&◌, if◌then◌else◌, false, Some, IsSome, ◌<◌, ◌^◌, length, nat_eq, IfSome, OnOk, OnErr};
ghost use Rattle.std.specs.HashMap.{get, hash_map_len};
ghost use Rattle.std.specs.Option.{option_map, is_some};
ghost use Rattle.wt_flights.specs.Lawful.{IsLawful};
ghost use Rattle.wt_flights.specs.Newest.{IsNewest};
ghost use Rattle.wt_flights.specs.Rows.{Flights, no_flights, begun, adopted, row, landed, taken_back, forgotten_all, current_row, current_of, joined, forgotten, oldest_load, CanTakeBack};
ghost use Rattle.wt_flights.specs.Tables.{IsSound, rows_of};

use crate::row::{Open, Row};
use std::alloc::Global;
use std::collections::HashMap;
use std::marker::Model;
use wt_keys::{CacheKey, NoMemory};

// All open loads but the newest one, oldest first.
#[derive(Drop)]
pub(crate) struct Older<K: CacheKey> {
    // Every load here by its id.
    by_id: HashMap<u64, Open<K>>,
    // The id of each key's current load.
    by_key: HashMap<K, u64>,
    // The id behind that of the last load which these took over; 1 before the first.
    next: u64,
    // How many loads may be open at once.
    limit: u32,
    // No load with an id below this one is current: all of them were forgotten at once.
    since: u64,
}

impl<K: CacheKey> Model for Older<K> {
    ghost Value = { Flights K };

    ghost view = { λ t. record {
      limit = t.limit;
      next = t.next;
      rows = rows_of (get nat_eq t.by_id) (get K.eq t.by_key) t.next;
    } };

    ghost invariant = { λ t. IsSound (get nat_eq t.by_id) (get K.eq t.by_key)
        t.next (hash_map_len t.by_id) t.limit t.since };
}

impl<K: CacheKey> Older<K> {
    // Returns a table with no loads.
    pub(crate) fn new(alloc: Global, limit: u32) -> Older<K>
        ensures { result ≡ no_flights limit }
    {
        Older {
            by_id: HashMap::new(alloc),
            by_key: HashMap::new(alloc),
            next: 1,
            limit,
            since: 1,
        }
    }

    // Returns how many loads may be open at once, the newest one among them.
    pub(crate) fn limit(&self) -> u32
        ensures { result ≡ self.now.limit }
    {
        self.limit
    }

    // Returns how many loads are here.
    pub(crate) fn len(&self) -> usize
        ensures count { result ≡ length self.now.rows }
        ensures lawful { IsLawful K.eq self.now }
    {
        self.by_id.len()
    }

    // Returns the id of the key's current load, if it is here.
    pub(crate) fn current(&self, key: K) -> Option<u64>
        ensures { result ≡ current_of K.eq key self.now }
    {
        // Mostly no load is open, and then there is no look-up.
        if self.by_key.is_empty() {
            return None;
        }
        self.by_key.get(&key).copied()
    }

    // Returns the load with an id, if it is here.
    pub(crate) fn row(&self, id: u64) -> Option<Row<K>>
        ensures { result ≡ row id self.now }
    {
        let open = self.by_id.get(&id)?;
        let current = open.is_current(id, self.since);
        Some(Row {
            id,
            key: open.key,
            current,
            sharers: open.sharers,
        })
    }

    // Returns the id of the key's oldest load here, current or not. O(loads).
    pub(crate) fn oldest_load(&self, key: K) -> Option<u64>
        ensures { result ≡ option_map (λ r. r.id) (oldest_load K.eq key self.now) }
    {
        let mut least = None;
        for (id, open) in self.by_id.iter() {
            if key == open.key && least.is_none_or(|found| *id < found) {
                least = Some(*id);
            }
        }
        least
    }

    // Lets no further caller join the key's current load, and returns whether it was here.
    #[inline(always)]
    pub(crate) fn forget(&mut self, key: K) -> bool
        ensures state { self.new ≡ forgotten K.eq key self.old }
        ensures answer { result ≡ is_some (current_of K.eq key self.old) }
    {
        if self.by_key.is_empty() {
            return false;
        }
        let Some(id) = self.by_key.remove(&key) else {
            return false;
        };
        unflag(&mut self.by_id, id);
        true
    }

    // Lets no further caller join any load that is here now.
    pub(crate) fn forget_all(&mut self)
        ensures { self.new ≡ forgotten_all self.old }
    {
        self.by_key.clear();
        self.since = self.next;
    }

    // Takes over a load that is newer than all of these, as it is; `next` is the id after the load's.
    // Only this call takes memory. If it is refused, the table is as it was.
    pub(crate) fn adopt(&mut self, row: Row<K>, next: u64) -> Result<(), NoMemory>
        requires { IsNewest K.eq next self.old row }
        ensures state { OnOk result (self.new ≡ adopted row self.old) }
        ensures err { OnErr result (self.new ≡ self.old) }
    {
        self.by_id.reserve(1)?;
        name_current(&mut self.by_key, &row)?;
        // `reserve` has made the room, so that `by_id` can't refuse a load that is in `by_key`
        // already.
        let open = Open {
            key: row.key,
            sharers: row.sharers,
            current: row.current,
        };
        let Ok(_) = self.by_id.insert(row.id, open) else {
            unreachable!();
        };
        self.next = next;
        Ok(())
    }

    // Adds a sharer to the key's current load and returns its id, if it is here.
    pub(crate) fn join(&mut self, key: K) -> Option<u64>
        requires sharers_left { IfSome (current_row K.eq key self.old) (λ r. r.sharers < 2 ^ 63) }
        ensures answer { result ≡ current_of K.eq key self.old }
        ensures state { self.new ≡ joined K.eq key self.old }
    {
        let id = *self.by_key.get(&key)?;
        match self.by_id.get_mut(&id) {
            Some(open) => open.sharers += 1,
            None => unreachable!(),
        }
        Some(id)
    }

    // Closes the load `id` and returns it as it was, if it is here.
    pub(crate) fn land(&mut self, id: u64) -> Option<Row<K>>
        ensures answer { result ≡ row id self.old }
        ensures state { self.new ≡ landed id self.old }
    {
        let open = self.by_id.remove(&id)?;
        let current = open.is_current(id, self.since);
        if current {
            self.by_key.remove(&open.key);
        }
        Some(Row {
            id,
            key: open.key,
            current,
            sharers: open.sharers,
        })
    }

    // Undoes the opening of the last load, which nobody joined: its id is free again.
    pub(crate) fn take_back(&mut self)
        requires { CanTakeBack self.old }
        ensures state { self.new ≡ taken_back self.old }
        ensures undone { (k : K) (t : Flights K) → self.old ≡ begun k t → self.new ≡ t }
    {
        let id = self.next - 1;
        let Some(open) = self.by_id.remove(&id) else {
            unreachable!();
        };
        self.by_key.remove(&open.key);
        self.next = id;
    }
}

// Lets further callers join the load, if it is current.
fn name_current<K: CacheKey>(by_key: &mut HashMap<K, u64>, row: &Row<K>) -> Result<(), NoMemory>
    ensures ok { OnOk result ((q : K) → get K.eq by_key.new q
        ≡ (if row.now.current && K.eq row.now.key q then Some row.now.id else get K.eq by_key.old q)) }
    ensures err { OnErr result ((q : K) → get K.eq by_key.new q ≡ get K.eq by_key.old q) }
{
    if row.current {
        by_key.insert(row.key, row.id)?;
    }
    Ok(())
}

// Takes the flag of the load with this id. Apart, since few puts and removals meet a load.
#[cold]
#[inline(never)]
fn unflag<K: CacheKey>(by_id: &mut HashMap<u64, Open<K>>, id: u64)
    requires { IsSome (get nat_eq by_id.old id) }
    ensures state { IfSome (get nat_eq by_id.old id) (λ o. (q : ℕ) → get nat_eq by_id.new q
        ≡ (if id == q then Some (record o { current = false }) else get nat_eq by_id.old q)) }
    ensures len { hash_map_len by_id.new ≡ hash_map_len by_id.old }
{
    match by_id.get_mut(&id) {
        Some(open) => open.current = false,
        None => unreachable!(),
    }
}
