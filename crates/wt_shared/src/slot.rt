// The lock: a slot that holds the cache while no call is at work.
//
//     FREE, with the cache ──take──► TAKEN ──► PRESENT, with nothing ──give──► TAKEN ──► FREE
//
// Only one call's exchange finds `FREE`. Nobody waits, and nobody is woken.
ghost use Rattle.std.specs.Prelude.{IfSome};
ghost use Rattle.wt_shared.specs.Shared.{IsKept};

use crate::kept::Kept;
use crate::known::Known;
use counted_slot::{Counted, FREE, Fits, PRESENT, TAKEN};
use std::alloc::Global;
use wt_keys::{CacheKey, Share};
use wt_regions::Weighs;

/// What lies behind the lock.
#[derive(Drop)]
pub struct Held<K: CacheKey, V: Share + Weighs> {
    pub(crate) kept: Box<Kept<K, V>, Global>,
}

impl<K: CacheKey, V: Share + Weighs> Fits for Held<K, V> {
    ghost use Rattle.wt_shared.specs.Shared.{IsKept};

    type Tag = Known<K, V>;

    ghost fits = { λ tag held. IsKept K.eq K.word V.measure tag held.kept.value };
}

// Takes the cache out, if no other call has it.
#[inline(always)]
pub(crate) fn take<K: CacheKey, V: Share + Weighs>(
    slot: &Counted<Option<Held<K, V>>>,
) -> Option<Held<K, V>>
    ensures { IfSome result (λ held. IsKept K.eq K.word V.measure slot.now held.kept.value) }
{
    let (found, claim) = slot.turn(FREE, TAKEN);
    if found != FREE {
        claim.done();
        return None;
    }
    claim.put(None, PRESENT)
}

// Puts the cache back. It is dropped if one lies there, which no call does.
#[inline(always)]
pub(crate) fn give<K: CacheKey, V: Share + Weighs>(
    slot: &Counted<Option<Held<K, V>>>,
    held: Held<K, V>,
)
    requires { IsKept K.eq K.word V.measure slot.now held.kept.value }
{
    let (found, claim) = slot.turn(PRESENT, TAKEN);
    if found != PRESENT {
        claim.done();
        return;
    }
    let _nothing = claim.put(Some(held), FREE);
}
