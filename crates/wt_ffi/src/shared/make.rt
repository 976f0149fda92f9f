// Makes the one call of each of C's calls on a shared cache.
ghost use Rattle.std.specs.Prelude.{◌≡◌};
ghost use Rattle.wt_ffi.specs.Sharing.{HasOutcome, IsSharedCall, answer_told, number_told};

use crate::answer::{Answer, answer_of, number_of};
use crate::handle::{CLOSED, OTHER_KEYS};
use crate::shared::handle::SharedHandle;
use crate::shared::sharing::Sharing;
use crate::token::Timed;
use std::alloc::Global;
use wt_core::{Call, Reply};
use wt_keys::CacheKey;
use wt_shared::{Caller, Unmade};

// The numbers that a call returns if another one is at work, and if the cache is lost.
pub(crate) const BUSY: u64 = 105;

pub(crate) const LOST: u64 = 106;

// Writes what became of a call, and returns its number.
#[inline(always)]
pub(crate) fn tell(made: &Result<Reply<Timed>, Unmade>, left: u64, answer: &mut Answer) -> u64
    ensures answer { answer.new ≡ answer_told made.now left answer.old }
    ensures number { result ≡ number_told made.now }
{
    match made {
        Ok(reply) => {
            *answer = answer_of(reply, left);
            number_of(reply)
        }
        Err(Unmade::NoMemory) => {
            *answer = Answer {
                kind: 0,
                weight: 0,
                token: 0,
                number: 1,
                notices: 0,
            };
            1
        }
        Err(Unmade::Busy) => BUSY,
        Err(Unmade::Lost) => LOST,
    }
}

// Makes a call of an open caller.
#[inline(always)]
#[tactic(auto, using(crate::proofs::Outcomes::has_outcome))]
pub(crate) fn make_of<K: CacheKey>(
    caller: &mut Caller<K, Timed>,
    call: Call<K, Timed>,
    answer: &mut Answer,
) -> u64
    ensures made { HasOutcome K.eq K.word call caller.old caller.new answer.old answer.new result }
{
    let made = caller.call(call);
    let left = caller.left().len() as u64;
    tell(&made, left, answer)
}

// Makes a call on the cache of numbers behind the handle. If the handle is closed, or one of names,
// nothing happens, and `CLOSED` or `OTHER_KEYS` is returned.
#[inline(always)]
pub(crate) fn make_shared(
    alloc: Global,
    handle: &mut SharedHandle,
    call: Call<u64, Timed>,
    answer: &mut Answer,
) -> u64
    ensures made { IsSharedCall call handle.old handle.new answer.old answer.new result }
{
    let Some(mut sharing) = handle.take(alloc) else {
        return CLOSED;
    };
    let number = match &mut *sharing {
        Sharing::Numbers(caller) => make_of(caller, call, answer),
        Sharing::Names(_) => OTHER_KEYS,
    };
    handle.give(sharing);
    number
}
