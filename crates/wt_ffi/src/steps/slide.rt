// The move of the border between window and main, whichever keys the cache has.
ghost use Rattle.wt_core.specs.declared.calls.Call.TheVariants.{Slide};
ghost use Rattle.wt_ffi.specs.declared.keyless.Keyless.TheVariants as keyless;
ghost use Rattle.wt_ffi.specs.Contract.{IsStepMade, IsKeylessCall};

use crate::answer::{Answer, answer_of, number_of};
use crate::cached::{Cached, write_answer};
use crate::handle::Handle;
use crate::keyless::{Keyless, make_keyless};
use std::alloc::Global;
use wt_core::Reply;
use wt_keys::{CacheKey, Fault};

impl<K: CacheKey> Cached<K> {
    // Makes the slide, as `call` does.
    pub(crate) fn slide(&mut self, wider: bool, now: u64, answer: &mut Answer) -> u64
        ensures made { IsStepMade K.eq K.word (Slide wider now)
            self.old self.new answer.new result }
    {
        self.notices.empty();
        write_answer!(self, answer, self.core.slide(wider, now), moved => Reply::Slid(moved))
    }
}

/// Moves the border between window and main by one entry: `RD_SLID`, whose number is 1 if it moved.
///
/// A window that may hold all entries can't become wider, nor one that may hold one entry narrower.
/// No entry leaves. Takes memory only if the border moves. Expected O(1).
#[unsafe(no_mangle)]
pub extern "C" fn rd_slide(
    alloc: Global,
    handle: &mut Handle,
    wider: bool,
    now: u64,
    answer: &mut Answer,
) -> u64
    ensures made { IsKeylessCall (keyless.Slide wider) now
        handle.old handle.new answer.old answer.new result }
{
    make_keyless(alloc, handle, Keyless::Slide { wider }, now, answer)
}
