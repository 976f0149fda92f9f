// The numbers of a shared cache, read in one go, with no step made.
ghost use Rattle.wt_shared.specs.Numbers.{Reads, Shows};
ghost use Rattle.wt_shared.specs.Shared.{IsKept};

use super::Caller;
use crate::kept::Kept;
use crate::known::Known;
use crate::numbers::Numbers;
use crate::slot::{give, take};
use crate::unmade::Unmade;
use wt_core::Call;
use wt_keys::{CacheKey, Share};
use wt_regions::Weighs;

// The numbers of the cache. Shows that the caller's calls are a beginning of the history.
#[inline(always)]
fn read<K: CacheKey, V: Share + Weighs>(
    kept: &Kept<K, V>,
    known: &Known<K, V>,
) -> Result<Numbers, Unmade>
    requires lawful { IsKept K.eq K.word V.measure known.now kept.now }
    ensures numbers { Reads K.eq K.word V.measure result known.now kept.now }
{
    let asked = kept.log.ask(&Call::Clean(0));
    if !kept.log.cover(&known.seen, asked, kept.count) {
        return Err(Unmade::Lost);
    }
    Ok(Numbers {
        stats: kept.core.stats(),
        step: kept.core.step(),
        latest: kept.core.latest(),
        flights: kept.core.open_flights() as u64,
    })
}

impl<K: CacheKey, V: Share + Weighs> Caller<K, V> {
    /// Returns the numbers of the cache right behind all calls up to now, or finds that another
    /// call is at work.
    ///
    /// Is no step: it adds nothing to the history, and what left in the call before can still be
    /// read. The caller has then seen all calls up to now. Never waits. Takes no memory. O(1).
    #[inline(always)]
    #[tactic(auto, using(crate::proofs::Counting::shows))]
    pub fn numbers(&mut self) -> Result<Numbers, Unmade>
        ensures numbers { Shows K.eq K.word V.measure result self.old self.new }
    {
        let Some(held) = take(&self.slot) else {
            return Err(Unmade::Busy);
        };
        let numbers = read(&held.kept, &self.known);
        if let Err(Unmade::Lost) = numbers {
            return numbers;
        }
        self.known.seen = held.kept.log.seen();
        give(&self.slot, held);
        numbers
    }
}
