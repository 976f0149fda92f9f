// A window that follows the advice:
//
//   a look-up ──► the adviser sees its key ──► up to four slides towards the window that it wants
//
// Each slide is a step of the cache, which a caller sees in its number of steps. At most four follow
// a look-up, so that its cost stays bounded.
ghost use Rattle.std.specs.Prelude.{◌≡◌, ◌≤◌, ℕ, IsOk, OnOk, OnErr};
ghost use Rattle.wt_regions.specs.Slide.{KeepsAllButWindow};
ghost use Rattle.wt_adviser.specs.declared.adviser.Seen.{Seen};
ghost use Rattle.wt_adviser.specs.Advice.{saw, saw_by, wanted};
ghost use Rattle.wt_adviser.specs.Follow.{slid_by, slid_towards};

use crate::adviser::Adviser;
use wt_core::Core;
use wt_keys::{CacheKey, Fault, NoMemory, Share};
use wt_regions::Weighs;

// How many slides may follow a look-up.
const SLIDES: u32 = 4;

// Makes a slide towards the window that is wanted, unless it is that wide or no step is left.
#[tactic(auto, unfolding(crate::specs::Follow::slid_towards))]
fn slide_towards<K: CacheKey, V: Share + Weighs>(
    core: &mut Core<K, V>,
    wanted: u32,
    now: u64,
) -> Result<(), NoMemory>
    ensures state { OnOk result (core.new ≡ slid_towards K.eq K.word V.measure wanted now core.old) }
    ensures same { KeepsAllButWindow core.old.regions.caps core.new.regions.caps }
    ensures err { OnErr result (core.new ≡ core.old) }
{
    let window = core.window();
    if window == wanted {
        return Ok(());
    }
    match core.slide(window < wanted, now) {
        Err(Fault::NoMemory) => Err(NoMemory),
        _ => Ok(()),
    }
}

/// Lets the window of a cache follow a look-up of the key at the moment `now`, in milliseconds: call
/// it behind each look and seek. The adviser sees the key, and up to four slides move the window
/// towards what it then wants.
///
/// `NoMemory` if an allocation failed: a small cache has then not seen the key, or fewer slides were
/// made, and a later look-up goes on from there. If no step is left, no slide is made. Takes memory
/// as [`Adviser::saw`] and [`Core::slide`] do. Expected O(1), and O(entries / 64) if the adviser's
/// sketch halves.
pub fn follow<K: CacheKey, V: Share + Weighs>(
    adviser: &mut Adviser<K>,
    core: &mut Core<K, V>,
    key: K,
    now: u64,
) -> Result<(), NoMemory>
    ensures advice { OnOk result (adviser.new ≡ saw K.eq K.word key adviser.old) }
    ensures state { OnOk result (core.new
        ≡ slid_by K.eq K.word V.measure 4 (wanted adviser.new) now core.old) }
    // Whatever was refused.
    ensures part_advice { (seen : Seen) × (adviser.new ≡ saw_by K.eq K.word seen key adviser.old) }
    ensures part_state { (slides : ℕ) × (slides ≤ 4) × (core.new
        ≡ slid_by K.eq K.word V.measure slides (wanted adviser.new) now core.old) }
    ensures same { KeepsAllButWindow core.old.regions.caps core.new.regions.caps }
{
    let seen = adviser.saw_by(key);
    let wanted = adviser.wanted();
    let mut slides = 0;
    while slides < SLIDES {
        slide_towards(core, wanted, now)?;
        slides += 1;
    }
    if seen.is_whole() {
        Ok(())
    } else {
        Err(NoMemory)
    }
}
