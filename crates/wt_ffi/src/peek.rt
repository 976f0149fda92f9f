// A peek, by number and by name: what a look-up would find, with nothing used.
ghost use Rattle.std.specs.Prelude.{◌≡◌};
ghost use Rattle.wt_ffi.specs.Peeks.{IsNamePeek, IsPeek, peek_of};

use crate::answer::{Answer, answer_of};
use crate::cached::Cached;
use crate::handle::{CLOSED, Handle, OTHER_KEYS, TOO_LONG};
use crate::opened::Opened;
use crate::text::{Text, name_of};
use std::alloc::Global;
use wt_core::Reply;
use wt_keys::CacheKey;

impl<K: CacheKey> Cached<K> {
    // Tells what a look of the key would be answered, and returns 0. Takes no memory, since a share
    // of a token is a copy.
    fn peek(&self, key: K, now: u64, answer: &mut Answer) -> u64
        ensures number { result ≡ 0 }
        ensures answer { answer.new ≡ peek_of K.eq K.word key now self.now }
    {
        let reply = match self.core.peek(key, now) {
            Ok(Some(token)) => Reply::Hit(token),
            Ok(None) => Reply::Absent,
            Err(_) => unreachable!(),
        };
        *answer = answer_of(&reply, 0);
        0
    }
}

/// Tells what a look of the key at the moment `now` would be answered: `RD_HIT` with its token, or
/// `RD_ABSENT`. Returns 0.
///
/// Is no step: it uses no entry, counts nothing, and leaves the notices of the latest call. 100 if
/// the cache is closed, 103 if its keys are names. Takes no memory. Expected O(1), unless an
/// attacker chooses the keys.
#[unsafe(no_mangle)]
pub extern "C" fn rd_peek(
    alloc: Global,
    handle: &mut Handle,
    key: u64,
    now: u64,
    answer: &mut Answer,
) -> u64
    ensures made { IsPeek key now handle.old handle.new answer.old answer.new result }
{
    let Some(opened) = handle.take(alloc) else {
        return CLOSED;
    };
    let number = match &*opened {
        Opened::Numbers(cache) => cache.peek(key, now, answer),
        Opened::Names(_) => OTHER_KEYS,
    };
    handle.give(opened);
    number
}

/// Tells what a look of the name at the moment `now` would be answered: `RD_HIT` with its token, or
/// `RD_ABSENT`. Returns 0.
///
/// Is no step, as `rd_peek`. It does nothing in three cases, checked in this order. It returns 104
/// if the name is too long, 100 if the cache is closed, and 103 if its keys are numbers. Takes no
/// memory. Expected O(1), unless an attacker chooses the names.
#[unsafe(no_mangle)]
pub extern "C" fn rd_peek_name(
    alloc: Global,
    handle: &mut Handle,
    key: &Text,
    now: u64,
    answer: &mut Answer,
) -> u64
    ensures made { IsNamePeek key.now now handle.old handle.new answer.old answer.new result }
{
    let Some(name) = name_of(key) else {
        return TOO_LONG;
    };
    let Some(opened) = handle.take(alloc) else {
        return CLOSED;
    };
    let number = match &*opened {
        Opened::Names(cache) => cache.peek(name, now, answer),
        Opened::Numbers(_) => OTHER_KEYS,
    };
    handle.give(opened);
    number
}
