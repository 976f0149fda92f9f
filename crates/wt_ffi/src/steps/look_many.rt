// Look-ups by number, one after another in one call.
ghost use Rattle.std.specs.Prelude.{◌≡◌};
ghost use Rattle.wt_ffi.specs.Contract.{IsLookedThrough};
ghost use Rattle.wt_ffi.specs.Looks.{looked_through, AreAnswered};

use crate::answer::Answer;
use crate::cached::Cached;
use crate::handle::{CLOSED, Handle, OTHER_KEYS};
use crate::opened::Opened;
use std::alloc::Global;

/// One look-up of several, with its answer: `rd_looked` of the header.
#[repr(C)]
#[derive(Clone, Copy, PartialEq, Eq)]
pub struct Looked {
    /// The key to look up.
    pub key: u64,
    /// The moment of it.
    pub now: u64,
    /// Its answer.
    pub answer: Answer,
}

impl Cached<u64> {
    // Makes the look-ups up to the first that is refused or has a notice. Writes how many that are,
    // and returns the number of the last one's fault, or 0.
    fn look_through(&mut self, looks: &mut [Looked], made: &mut u64) -> u64
        ensures state { self.new ≡ (looked_through looks.new self.old).cache }
        ensures made { made.new ≡ (looked_through looks.new self.old).made }
        ensures number { result ≡ (looked_through looks.new self.old).number }
        ensures answers { AreAnswered looks.old looks.new self.old }
    {
        let mut done = 0;
        for look in looks.iter_mut() {
            let number = self.look(look.key, look.now, &mut look.answer);
            done += 1;
            if number > 0 || look.answer.notices > 0 {
                *made = done;
                return number;
            }
        }
        *made = done;
        0
    }
}

/// Makes look-ups as `rd_look` does, one after another, and writes each one's answer and their
/// number.
///
/// It ends early after one that is refused, whose fault's number it returns, and after one that has
/// a notice, since the notices are those of the last one. Each takes memory only for a hit in
/// probation. Expected O(look-ups), unless an attacker chooses the keys.
#[unsafe(no_mangle)]
pub extern "C" fn rd_look_many(
    alloc: Global,
    handle: &mut Handle,
    looks: &mut [Looked],
    made: &mut u64,
) -> u64
    ensures made { IsLookedThrough looks.old looks.new handle.old handle.new made.old made.new result }
{
    let Some(mut opened) = handle.take(alloc) else {
        return CLOSED;
    };
    let number = match &mut *opened {
        Opened::Numbers(cache) => cache.look_through(looks, made),
        Opened::Names(_) => OTHER_KEYS,
    };
    handle.give(opened);
    number
}
