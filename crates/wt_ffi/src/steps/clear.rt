// The removal of every entry, whichever keys the cache has.
ghost use Rattle.std.specs.Prelude.{◌<◌, IsSome};
ghost use Rattle.wt_ffi.specs.declared.keyless.Keyless.TheVariants as keyless;
ghost use Rattle.wt_core.specs.declared.calls.Call.TheVariants.{Clear};
ghost use Rattle.wt_ffi.specs.Contract.{IsStepMade, IsKeylessCall};
ghost use Rattle.wt_ffi.specs.Handle.{cache_of};

use crate::answer::{Answer, answer_of, number_of};
use crate::cached::{Cached, write_answer};
use crate::handle::Handle;
use crate::keyless::{Keyless, make_keyless};
use std::alloc::Global;
use wt_core::Reply;
use wt_keys::{CacheKey, Fault};

impl<K: CacheKey> Cached<K> {
    // Makes the removal of every entry, as `call` does.
    pub(crate) fn clear(&mut self, now: u64, answer: &mut Answer) -> u64
        ensures made { IsStepMade K.eq K.word (Clear now) self.old self.new answer.new result }
    {
        self.notices.empty();
        write_answer!(self, answer, self.core.clear(now, &mut self.notices), () => Reply::Cleared)
    }
}

/// Takes every entry out: `RD_CLEARED`. The loads that are open store nothing.
///
/// Takes no memory. O(entries).
#[unsafe(no_mangle)]
pub extern "C" fn rd_clear(alloc: Global, handle: &mut Handle, now: u64, answer: &mut Answer) -> u64
    ensures made { IsKeylessCall keyless.Clear now handle.old handle.new answer.old answer.new result }
    ensures memory { IsSome (cache_of handle.old) → 0 < answer.new.kind }
{
    make_keyless(alloc, handle, Keyless::Clear, now, answer)
}
