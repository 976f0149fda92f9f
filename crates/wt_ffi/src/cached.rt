// A cache with the notices of its latest call.
ghost use Rattle.wt_ffi.specs.Contract.{IsStepMade};

use crate::answer::Answer;
use crate::token::Timed;
use std::marker::Model;
use wt_core::{Call, Core};
use wt_keys::CacheKey;
use wt_regions::Notices;

/// A cache, with the notices of its latest call.
#[derive(Drop)]
pub struct Cached<K: CacheKey> {
    pub core: Core<K, Timed>,
    pub notices: Notices<K, Timed>,
}

impl<K: CacheKey> Model for Cached<K> {
    ghost use Rattle.std.specs.Prelude.{◌≤◌, ◌+◌, length};
    ghost use Rattle.wt_ffi.specs.Open.{Open};

    ghost Value = { Open K };

    ghost view = { λ o. record { core = o.core; notices = o.notices } };

    // There is room for the notices of any call.
    ghost invariant = { λ o. o.core.regions.caps.entries ≤ o.notices.room + length o.notices.list };
}

impl<K: CacheKey> Cached<K> {
    // Makes the call, and returns its fault's number, or 0. If an allocation failed, the answer's
    // kind is 0 and the number 1.
    //
    // Each kind of call is a function in its own file of `steps`. Inlined, so that a caller that
    // knows the kind leads straight to its function.
    #[inline(always)]
    pub(crate) fn call(&mut self, call: Call<K, Timed>, answer: &mut Answer) -> u64
        ensures made { IsStepMade K.eq K.word call self.old self.new answer.new result }
    {
        match call {
            Call::Look(key, now) => self.look(key, now, answer),
            Call::Seek(key, now) => self.seek(key, now, answer),
            Call::Land(id, key, what, now) => self.land(id, key, what, now, answer),
            Call::Put(key, value, now) => self.put(key, value, now, answer),
            Call::DropKey(key, now) => self.drop_key(key, now, answer),
            Call::Clear(now) => self.clear(now, answer),
            Call::Forget(key, now) => self.forget(key, now, answer),
            Call::Clean(now) => self.clean(now, answer),
            Call::Slide { wider, now } => self.slide(wider, now, answer),
        }
    }
}

// Writes the answer of a step of the cache, and evaluates to the number that the call returns.
//
// `Core::take` turns an outcome into a reply in the same way (`reply_of!` of wt_core). The calls
// of C don't go through it: a look, a put and a seek take fewer instructions as they are.
macro_rules! write_answer {
    ($cache:expr, $answer:expr, $made:expr, $of:pat => $reply:expr) => {
        match $made {
            Ok($of) => {
                let reply = $reply;
                let told = $cache.notices.list().len() as u64;
                *$answer = answer_of(&reply, told);
                number_of(&reply)
            }
            Err(Fault::NoMemory) => {
                *$answer = Answer {
                    kind: 0,
                    weight: 0,
                    token: 0,
                    number: 1,
                    notices: 0,
                };
                1
            }
            Err(fault) => {
                let reply = Reply::Refused(fault);
                *$answer = answer_of(&reply, 0);
                number_of(&reply)
            }
        }
    };
}

pub(crate) use write_answer;
