// A cache as one thread sees it: a caller, and what its calls need besides.
//
//   get ──► the window follows ──► read ──► found                      (beside other threads' reads)
//                                    └────► nothing there ──► seek, and load if nobody does
//
// The window follows first, since it empties the list of the entries that left. With `refresh` set a
// get doesn't read first: a read would find a due value and open no load of it.
ghost use Rattle.std.specs.Prelude.{◌≡◌, IsTrue, IfOk};
ghost use Rattle.wt_shards.specs.Members.{members_of};
ghost use Rattle.wt_shards.specs.Peeks.{FoundAnswers};
ghost use Rattle.wt_cache.specs.Loads.{MayReturn};
ghost use Rattle.wt_cache.specs.Peeks.{AreLentNumbers, IsLentRead};
ghost use Rattle.rookdresser.specs.Doors.{IsReady, MayShow};
ghost use Rattle.rookdresser.specs.Gets.{IsBrought, IsSeen};

mod at;
mod now;

use crate::clock::Clock;
use crate::world::World;
use std::alloc::Global;
use wt_cache::{Caller, Countable, Followers, Tally, Unseen};
use wt_core::{Notice, Reply, Stats};
use wt_keys::{CacheKey, Fault};
use wt_shards::Value;

/// A cache that threads share, as one thread calls it.
///
/// A call takes place at the moment that the clock of `serve` shows; `get_at` and so on take a moment,
/// in milliseconds. Each thread has a `Cache` of its own, so its calls take `&mut self`.
#[derive(Drop)]
pub struct Cache<'d, 'c, 'f, K: CacheKey, V: Value<K>, W: World<K, V>> {
    pub(crate) caller: &'d mut Caller<'c, K, V, W::Loader, W::Books, W::Waiting>,
    // There if the windows follow the stream.
    pub(crate) followers: Option<&'f Followers<K>>,
    // The keys that this thread keeps for the followers, once there was memory for them.
    pub(crate) unseen: Option<Unseen<K>>,
    // Whether a get reads first.
    pub(crate) reads: bool,
    pub(crate) clock: W::Clock,
    // For the lists of `clear` and `clean`.
    pub(crate) alloc: Global,
    // What this thread's calls have returned.
    pub(crate) tally: Tally,
}

impl<'d, 'c, 'f, K: CacheKey, V: Value<K>, W: World<K, V>> Cache<'d, 'c, 'f, K, V, W> {
    // Lets the window of the key's shard follow the look-up that is to come.
    fn follow(&mut self, key: K, now: u64)
        ensures made { IsReady (members_of K.CacheKey V.Value) key now self.old.caller.now
            self.new.caller.now }
    {
        let Some(followers) = self.followers else {
            return;
        };
        // A fault is one of a slide or of memory, and the look-up stands without it.
        match &mut self.unseen {
            Some(unseen) => {
                let _ = self.caller.follow_by(followers, unseen, key, now);
            }
            // The first look-up makes the list for those behind it.
            None => {
                let _ = self.caller.follow(followers, key, now);
                let shards = self.caller.cache().shards();
                self.unseen = Unseen::new(self.alloc, shards).ok();
            }
        }
    }

    // Counts what a call returned, and what left by it.
    fn count<T: Countable>(&mut self, done: &Result<T, Fault>)
        ensures same { self.new.caller.now ≡ self.old.caller.now }
    {
        self.tally.count(done, self.caller.left());
    }

    // Reads the value. A read that finds nothing isn't counted, since a look-up follows.
    fn read(&mut self, key: K, now: u64) -> Result<Option<V>, Fault>
        ensures answers { IfOk result (FoundAnswers V.answers key) }
        ensures made { IsLentRead (members_of K.CacheKey V.Value) key now self.old.caller.now
            self.new.caller.now result }
    {
        let found = self.caller.read(key, now);
        match &found {
            Ok(Some(_)) => self.tally.hits = self.tally.hits.saturating_add(1),
            Ok(None) => {}
            Err(_) => self.count(&found),
        }
        found
    }

    // Reads the value, and else gets it.
    fn bring(&mut self, key: K, now: u64) -> Result<V, Fault>
        ensures answers { IfOk result (λ value. IsTrue (V.answers value key)) }
        ensures made { IsBrought (members_of K.CacheKey V.Value) key now
            (MayReturn W.Loader.may_return) self.old.caller.now self.new.caller.now result }
    {
        if self.reads {
            if let Some(value) = self.read(key, now)? {
                return Ok(value);
            }
        }
        let got = self.caller.get(key, now);
        self.count(&got);
        Ok(got?.value)
    }

    // Reads the value, and else looks it up.
    fn see(&mut self, key: K, now: u64) -> Result<Option<V>, Fault>
        ensures answers { IfOk result (FoundAnswers V.answers key) }
        ensures made { IsSeen (members_of K.CacheKey V.Value) key now self.old.caller.now
            self.new.caller.now result }
    {
        if let Some(value) = self.read(key, now)? {
            return Ok(Some(value));
        }
        let done = self.caller.get_if_present(key, now);
        self.count(&done);
        match done?.reply {
            Reply::Hit(value) => Ok(Some(value)),
            _ => Ok(None),
        }
    }

    /// Returns the moment that the clock shows, in milliseconds.
    pub fn moment(&self) -> u64
        ensures { MayShow W.Clock.shows result }
    {
        self.clock.moment()
    }

    /// Returns the numbers of all shards, added up, each after all calls that this thread then has
    /// seen there.
    ///
    /// The shards count the hits that they hear of, which are all misses and a part of the hits.
    /// Takes no memory, and each shard's lock in turn. O(shards).
    pub fn stats(&mut self) -> Stats
        ensures made { AreLentNumbers (members_of K.CacheKey V.Value) self.old.caller.now
            self.new.caller.now result }
    {
        self.caller.seen_stats()
    }

    /// Returns the entries that left the cache in this thread's latest call of `get`, `look`, `put`,
    /// `remove` or `forget`, the earliest first. Takes no memory and no lock. O(1).
    pub fn left(&self) -> &[Notice<K, V>]
        ensures { result.now ≡ self.now.caller.now.left.list }
    {
        self.caller.left()
    }
}
