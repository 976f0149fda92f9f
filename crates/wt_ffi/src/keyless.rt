// Makes the one step of a call of C's that names no key, whichever keys the cache has.
ghost use Rattle.std.specs.Prelude.{◌≡◌, ◌<◌};
ghost use Rattle.wt_ffi.specs.Keyless.{keyless_call, after, number_after, answer_after, IsRefused, IsFree};
ghost use Rattle.wt_ffi.specs.Handle.{Has, IfOpen, IsIdleIfClosed};

use crate::answer::Answer;
use crate::handle::{CLOSED, Handle};
use crate::opened::Opened;
use crate::token::Timed;
use std::alloc::Global;
use wt_core::Call;

/// The calls that name no key.
#[derive(Clone, Copy)]
pub enum Keyless {
    /// Every entry leaves.
    Clear,
    /// Those leave that have expired.
    Clean,
    /// The border between window and main moves.
    Slide {
        /// Whether window becomes wider; narrower else.
        wider: bool,
    },
}

// The call, for keys of any kind.
pub(crate) fn call_of<K>(keyless: Keyless, now: u64) -> Call<K, Timed>
    ensures { result ≡ keyless_call keyless now }
{
    match keyless {
        Keyless::Clear => Call::Clear(now),
        Keyless::Clean => Call::Clean(now),
        Keyless::Slide { wider } => Call::Slide { wider, now },
    }
}

// Makes the call on the handle's cache. Where that is closed nothing happens, and `CLOSED` is
// returned.
#[inline(always)]
pub(crate) fn make_keyless(
    alloc: Global,
    handle: &mut Handle,
    keyless: Keyless,
    now: u64,
    answer: &mut Answer,
) -> u64
    ensures state { IfOpen handle.old (λ c. Has handle.new (after answer.new keyless now c)) }
    ensures number { IfOpen handle.old (λ c. result ≡ number_after answer.new keyless now c) }
    ensures answer { IfOpen handle.old (λ c. answer.new ≡ answer_after answer.new keyless now c) }
    ensures refusal { IfOpen handle.old (λ c. IsRefused keyless now c → 0 < answer.new.kind) }
    ensures memory { IfOpen handle.old (λ c. IsFree keyless now c → 0 < answer.new.kind) }
    ensures closed { IsIdleIfClosed handle.old handle.new answer.old answer.new result }
{
    let Some(mut opened) = handle.take(alloc) else {
        return CLOSED;
    };
    let number = match &mut *opened {
        Opened::Numbers(cache) => cache.call(call_of(keyless, now), answer),
        Opened::Names(cache) => cache.call(call_of(keyless, now), answer),
    };
    handle.give(opened);
    number
}
