// A peek of a caller: what a look would find, with no step made.
ghost use Rattle.wt_shared.specs.Peeks.{Finds, Peeks};
ghost use Rattle.wt_shared.specs.Shared.{IsKept};

use super::Caller;
use crate::kept::Kept;
use crate::known::Known;
use crate::slot::{give, take};
use crate::unmade::Unmade;
use wt_core::Call;
use wt_keys::{CacheKey, Share};
use wt_regions::Weighs;

// What a look of the key would find. Shows that the caller's calls are a beginning of the history.
#[inline(always)]
fn read<K: CacheKey, V: Share + Weighs>(
    kept: &Kept<K, V>,
    known: &Known<K, V>,
    key: K,
    now: u64,
) -> Result<Option<V>, Unmade>
    requires lawful { IsKept K.eq K.word V.measure known.now kept.now }
    ensures found { Finds K.eq K.word V.measure V.Share.is_copied result known.now key now kept.now }
{
    let asked = kept.log.ask(&Call::Look(key, now));
    if !kept.log.cover(&known.seen, asked, kept.count) {
        return Err(Unmade::Lost);
    }
    match kept.core.peek(key, now) {
        Ok(found) => Ok(found),
        Err(_refused) => Err(Unmade::NoMemory),
    }
}

impl<K: CacheKey, V: Share + Weighs> Caller<K, V> {
    /// Returns a share of the value that a look of the key would hit at `now`, if it would hit, or
    /// finds that another call is at work.
    ///
    /// Is no step: it uses no entry and adds nothing to the history, and what left in the call
    /// before can still be read. The caller has then seen all calls up to now. `now` is in
    /// milliseconds. Never waits. Takes memory for that share alone, and none if a share is a copy.
    /// Expected O(1), unless an attacker chooses the keys (see `Seeded`).
    #[inline(always)]
    #[tactic(auto, using(crate::proofs::Peeking::peeks))]
    pub fn peek(&mut self, key: K, now: u64) -> Result<Option<V>, Unmade>
        ensures made { Peeks K.eq K.word V.measure V.Share.is_copied result key now self.old self.new }
    {
        let Some(held) = take(&self.slot) else {
            return Err(Unmade::Busy);
        };
        let found = read(&held.kept, &self.known, key, now);
        if let Err(Unmade::Lost) = found {
            return found;
        }
        self.known.seen = held.kept.log.seen();
        give(&self.slot, held);
        found
    }
}
