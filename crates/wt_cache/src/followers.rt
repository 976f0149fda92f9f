// Windows that follow the look-ups of a cache:
//
//   a look-up ──► its shard's adviser sees the key ──► up to four slides of the shard
//                 (`follow` shows it at once, `follow_by` sixteen at a time)
//
// Each slide is a call of its own at the shard, under the shard's lock, and stands in its history. At
// most four follow a look-up, so that its cost stays bounded. A caller claims its slides under the
// adviser's lock and makes them behind it, so it never holds two locks. Others count on what it
// claimed, so no two callers make the same slide.
ghost use Rattle.std.specs.Prelude.{◌≡◌, ◌≤◌, nat_le, ◌&&◌, if◌then◌else◌, IfErr};
ghost use Rattle.wt_keys.specs.declared.fault.Fault.TheVariants as fault;
ghost use Rattle.wt_keys.specs.declared.fault.Field.TheVariants.{Entries};
ghost use Rattle.wt_shards.specs.Members.{members_of};
ghost use Rattle.wt_shards.specs.Place.{home_at};
ghost use Rattle.wt_cache.specs.Follows.{IsFollowed};

use crate::cache::LoadingCache;
use crate::loader::Loader;
use crate::unseen::Unseen;
use std::alloc::Global;
use std::sync::atomic::{AtomicBool, Ordering};
use std::sync::{Mutex, Wait};
use wt_adviser::Adviser;
use wt_core::{Config, Notices};
use wt_keys::{CacheKey, Fault, NoMemory, shard_of};
use wt_shards::{Books, Pass, Value};

// How many slides may follow a look-up.
const SLIDES: u32 = 4;

/// Lets the window of each shard of a cache follow the look-ups, by an adviser for each shard, which
/// has a lock of its own.
///
/// Any number of threads call `follow` and `follow_by`. Make one `Followers` for a cache. If a program
/// makes slides of its own beside them, the windows reach the wanted size later, and no call fails.
#[derive(Drop)]
pub struct Followers<K: CacheKey> {
    shards: Vec<Mutex<Follower<K>>>,
    // Whether slides of a shard are left to claim. Threads read this without the adviser's lock, so it
    // may be out of date; it decides only how soon they claim the next ones.
    moving: Vec<AtomicBool>,
}

// The adviser of a shard, and how many entries the shard's window holds once all claimed slides are
// made.
#[derive(Drop)]
struct Follower<K: CacheKey> {
    adviser: Adviser<K>,
    window: u32,
}

// The slides that a caller still has to make, and which way. If the window stood at this end already,
// the caller makes no more.
#[derive(Clone, Copy)]
struct Claim {
    // What the adviser said of the keys.
    seen: Result<(), NoMemory>,
    wider: bool,
    left: u32,
    is_at_end: bool,
}

impl<K: CacheKey> Followers<K> {
    /// Makes the advisers of a cache of `shards` shards of this configuration.
    ///
    /// `BadConfig` of the entries, if a shard has below 64 of them, comes before `NoMemory`. Takes
    /// memory as [`Adviser::new`] for each shard. O(entries).
    pub fn new(alloc: Global, config: &Config, shards: usize) -> Result<Followers<K>, Fault>
        ensures refusal { IfErr result (λ f. f ≡ (if nat_le 64 config.now.entries
            && nat_le config.now.entries 4194304
            then fault.NoMemory else fault.BadConfig Entries)) }
    {
        let mut followers = Vec::new(alloc);
        let mut moving = Vec::new(alloc);
        for _ in 0..shards {
            followers.push(Mutex::new(Follower {
                adviser: Adviser::new(alloc, config.entries)?,
                window: config.window,
            }))?;
            moving.push(AtomicBool::new(true))?;
        }
        Ok(Followers {
            shards: followers,
            moving,
        })
    }

    /// Lets the window of the key's shard follow a look-up of the key: call it behind each `get` and
    /// `get_if_present`. The shard's adviser sees the key, and up to four slides move the window
    /// towards what it then wants. Returns how many slides were made.
    ///
    /// `now` is in milliseconds. A fault is that of a slide, behind those that were made, or
    /// `NoMemory` of the adviser, which has then not seen the key whole; a later look-up goes on from
    /// there. The look-up stands, so a caller may leave a fault alone. No entry leaves. Takes one lock
    /// at a time: the adviser's, then the lock of the key's shard for each slide, and the adviser's
    /// again if a slide wasn't made. Amortised O(1). Not promised: that it returns.
    pub fn follow<V: Value<K>, L: Loader<K, V> + Drop, B: Books, R: Wait>(
        &self,
        rt: &R,
        cache: &LoadingCache<K, V, L, B>,
        pass: &mut Pass<K, V, B>,
        key: K,
        now: u64,
        notices: &mut Notices<K, V>,
    ) -> Result<u32, Fault>
        requires room { cache.now.layout.config.entries ≤ notices.old.room }
        ensures made { IsFollowed (members_of K.CacheKey V.Value)
            (home_at K.word key cache.now.layout) now pass.old pass.new notices.old notices.new
            result }
    {
        let home = shard_of(key.word(), cache.shards());
        let (Some(follower), Some(moving)) = (self.shards.get(home), self.moving.get(home)) else {
            return Ok(0);
        };
        let claim = Follower::see(rt, follower, moving, key);
        make_slides(rt, cache, pass, follower, key, claim, now, notices)
    }

    /// Lets the window of the key's shard follow a look-up of the key, as `follow` does, but keeps the
    /// key among the `unseen` ones of this caller until there are sixteen of its shard. Then the adviser
    /// sees them all. So threads seldom meet at the adviser's lock.
    ///
    /// While the window is on its way to the wanted size, each look-up shows its keys and claims up to
    /// four slides at once. What is left unseen when the caller ends is never shown. `now`, the result
    /// and the faults are those of `follow`. Takes no lock but as `follow` does. Amortised O(1). Not
    /// promised: that it returns.
    pub fn follow_by<V: Value<K>, L: Loader<K, V> + Drop, B: Books, R: Wait>(
        &self,
        rt: &R,
        cache: &LoadingCache<K, V, L, B>,
        pass: &mut Pass<K, V, B>,
        unseen: &mut Unseen<K>,
        key: K,
        now: u64,
        notices: &mut Notices<K, V>,
    ) -> Result<u32, Fault>
        requires room { cache.now.layout.config.entries ≤ notices.old.room }
        ensures made { IsFollowed (members_of K.CacheKey V.Value)
            (home_at K.word key cache.now.layout) now pass.old pass.new notices.old notices.new
            result }
    {
        let home = shard_of(key.word(), cache.shards());
        let is_full = unseen.keep(home, key);
        let (Some(follower), Some(moving)) = (self.shards.get(home), self.moving.get(home)) else {
            return Ok(0);
        };
        if !is_full && !moving.load(Ordering::SeqCst) {
            return Ok(0);
        }
        let claim = Follower::see_all(rt, follower, moving, unseen.of(home));
        unseen.empty(home);
        make_slides(rt, cache, pass, follower, key, claim, now, notices)
    }
}

impl<K: CacheKey> Follower<K> {
    // Shows the adviser a key, and claims slides.
    fn see<R: Wait>(rt: &R, follower: &Mutex<Follower<K>>, moving: &AtomicBool, key: K) -> Claim {
        let mut held = follower.lock(rt);
        let seen = held.adviser.saw(key);
        held.claim(moving, seen)
    }

    // Shows the adviser these keys, and claims slides.
    fn see_all<R: Wait>(
        rt: &R,
        follower: &Mutex<Follower<K>>,
        moving: &AtomicBool,
        keys: &[K],
    ) -> Claim {
        let mut held = follower.lock(rt);
        let seen = held.adviser.saw_all(keys);
        held.claim(moving, seen)
    }

    // Claims up to four slides towards the window that the adviser wants.
    fn claim(&mut self, moving: &AtomicBool, seen: Result<(), NoMemory>) -> Claim {
        let wanted = self.adviser.wanted();
        let wider = self.window < wanted;
        let left = self.window.abs_diff(wanted).min(SLIDES);
        self.window = if wider {
            self.window + left
        } else {
            self.window - left
        };
        let is_moving = self.window != wanted;
        // A write takes the line from all threads that read it, so there is one only for a change.
        if moving.load(Ordering::SeqCst) != is_moving {
            moving.store(is_moving, Ordering::SeqCst);
        }
        let is_at_end = false;
        Claim {
            seen,
            wider,
            left,
            is_at_end,
        }
    }

    // Takes back what was claimed and not made.
    fn take_back(&mut self, claim: Claim, entries: u32) {
        self.window = match (claim.is_at_end, claim.wider) {
            (true, true) => entries,
            (true, false) => 1,
            (false, true) => self.window.saturating_sub(claim.left),
            (false, false) => self.window.saturating_add(claim.left),
        };
    }
}

// Makes the claimed slides at the key's shard, and has the follower take back those that weren't made.
fn make_slides<K: CacheKey, V: Value<K>, L: Loader<K, V> + Drop, B: Books, R: Wait>(
    rt: &R,
    cache: &LoadingCache<K, V, L, B>,
    pass: &mut Pass<K, V, B>,
    follower: &Mutex<Follower<K>>,
    key: K,
    claim: Claim,
    now: u64,
    notices: &mut Notices<K, V>,
) -> Result<u32, Fault>
    requires room { cache.now.layout.config.entries ≤ notices.old.room }
    ensures made { IsFollowed (members_of K.CacheKey V.Value)
        (home_at K.word key cache.now.layout) now pass.old pass.new notices.old notices.new
        result }
{
    let mut claim = claim;
    let slides = slide(rt, cache, pass, key, &mut claim, now, notices);
    if claim.left > 0 || claim.is_at_end {
        follower.lock(rt).take_back(claim, cache.entries());
    }
    match (slides, claim.seen) {
        (Ok(_), Err(NoMemory)) => Err(Fault::NoMemory),
        (slides, _) => slides,
    }
}

// Makes the claimed slides at the key's shard.
fn slide<K: CacheKey, V: Value<K>, L: Loader<K, V> + Drop, B: Books, R: Wait>(
    rt: &R,
    cache: &LoadingCache<K, V, L, B>,
    pass: &mut Pass<K, V, B>,
    key: K,
    claim: &mut Claim,
    now: u64,
    notices: &mut Notices<K, V>,
) -> Result<u32, Fault>
    requires room { cache.now.layout.config.entries ≤ notices.old.room }
    ensures made { IsFollowed (members_of K.CacheKey V.Value)
        (home_at K.word key cache.now.layout) now pass.old pass.new notices.old notices.new
        result }
{
    let mut slides = 0;
    while slides < SLIDES && claim.left > 0 {
        let done = cache.slide(rt, pass, key, claim.wider, now, notices)?;
        claim.is_at_end = !done.reply;
        claim.left -= 1;
        if claim.is_at_end {
            claim.left = 0;
        }
        slides += 1;
    }
    Ok(slides)
}
