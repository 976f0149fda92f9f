// Makes the one step of each of C's calls by number.
ghost use Rattle.std.specs.Prelude.{◌≡◌, ◌<◌};
ghost use Rattle.wt_ffi.specs.Handle.{HasNumbers, IfNumbers, IsIdleIfClosed, IsIdleIfNames};
ghost use Rattle.wt_ffi.specs.Numbered.{after, number_after, answer_after, IsRefused, IsFree};

use crate::answer::Answer;
use crate::handle::{CLOSED, Handle, OTHER_KEYS};
use crate::opened::Opened;
use crate::token::Timed;
use std::alloc::Global;
use wt_core::Call;

// Makes a call on the handle's cache of numbers. Where it is closed or one of names nothing
// happens, and `CLOSED` or `OTHER_KEYS` is returned.
#[inline(always)]
pub(crate) fn make(
    alloc: Global,
    handle: &mut Handle,
    call: Call<u64, Timed>,
    answer: &mut Answer,
) -> u64
    ensures state { IfNumbers handle.old (λ c. HasNumbers handle.new (after answer.new call c)) }
    ensures number { IfNumbers handle.old (λ c. result ≡ number_after answer.new call c) }
    ensures answer { IfNumbers handle.old (λ c. answer.new ≡ answer_after answer.new call c) }
    ensures refusal { IfNumbers handle.old (λ c. IsRefused call c → 0 < answer.new.kind) }
    ensures memory { IfNumbers handle.old (λ c. IsFree call c → 0 < answer.new.kind) }
    ensures closed { IsIdleIfClosed handle.old handle.new answer.old answer.new result }
    ensures other { IsIdleIfNames handle.old handle.new answer.old answer.new result }
{
    let Some(mut opened) = handle.take(alloc) else {
        return CLOSED;
    };
    let number = match &mut *opened {
        Opened::Numbers(cache) => cache.call(call, answer),
        Opened::Names(_) => OTHER_KEYS,
    };
    handle.give(opened);
    number
}
