// A slide: the border between window and main moves by one entry, and no entry leaves.
//
//   narrower   window's last, if it has one too many ────────► probation's front
//   wider      protected's last, if it has one too many ─────► probation's front
//              probation's last, if main has one too many ───► window's front
//
// Shares go to their new places first. A share that is there already is taken back if another is
// refused; then the old ones leave, and the regions get their new places.
ghost use Rattle.std.specs.Prelude.{◌≡◌, ◌+◌, ◌<◌, None, length, false, IfOk, IfSome, IsOk, OnOk, OnErr};
ghost use Rattle.std.specs.Map.{lookup};
ghost use Rattle.lru.specs.LruCache.{last_entry, lru_cache};
ghost use Rattle.wt_regions.specs.Lists.{main_cap};
ghost use Rattle.wt_regions.specs.Moves.{IsPlaced};
ghost use Rattle.wt_regions.specs.Slide.{can_slide, wider_caps, last_past, less_last, with_first, narrowed, widened, slid};

use crate::caches::Caches;
use crate::caps::Caps;
use crate::held::Held;
use crate::lru_cache::{push_new, resize};
use crate::weighs::Weighs;
use lru::LruCache;
use wt_keys::{CacheKey, NoMemory, Share};

// The last of a region that has more entries than `most` goes to the front of another.
fn move_past<K: CacheKey, V: Share>(
    from: &mut LruCache<K, Held<V>>,
    to: &mut LruCache<K, Held<V>>,
    most: usize,
) -> Result<(), NoMemory>
    requires fresh { IfSome (last_entry from.old.entries)
        (λ e. lookup (K.eq e.0) to.old.entries ≡ None) }
    requires place { length to.old.entries < to.old.cap }
    ensures left { OnOk result (from.new ≡ lru_cache (less_last
        (last_past most (length from.old.entries) from.old.entries) from.old.entries)
        from.old.cap) }
    ensures came { OnOk result (to.new ≡ lru_cache (with_first
        (last_past most (length from.old.entries) from.old.entries) to.old.entries) to.old.cap) }
    ensures err { OnErr result ((from.new ≡ from.old) × (to.new ≡ to.old)) }
{
    if from.len() <= most {
        return Ok(());
    }
    let Some((key, last)) = from.peek_lru() else {
        return Ok(());
    };
    let (key, last) = (*key, last.share_held()?);
    push_new(to, key, last)?;
    drop(from.pop_lru());
    Ok(())
}

impl<K: CacheKey, V: Share + Weighs> Caches<K, V> {
    // Window is narrower by one.
    fn narrow(&mut self) -> Result<(), NoMemory>
        requires placed { IsPlaced K.eq V.measure self.old }
        requires some { 1 < self.old.caps.window }
        ensures state { OnOk result (self.new ≡ narrowed self.old) }
        ensures err { OnErr result (self.new ≡ self.old) }
    {
        let window = self.caps.window - 1;
        move_past(&mut self.window, &mut self.probation, window as usize)?;
        self.caps.window = window;
        resize(&mut self.window, window as usize);
        resize(&mut self.probation, self.caps.main_cap() + 1);
        resize(&mut self.protected, self.caps.protected_cap());
        Ok(())
    }

    // Main is past the cap that a wider window leaves it: probation's last comes to window's front,
    // and protected's, if it has one too many, to probation's.
    fn give(&mut self, caps: Caps) -> Result<(), NoMemory>
        requires placed { IsPlaced K.eq V.measure self.old }
        requires some { self.old.caps.window < self.old.caps.entries }
        requires alike { caps ≡ wider_caps self.old.caps }
        requires full { main_cap caps < length self.old.probation + length self.old.protected }
        ensures state { OnOk result (self.new ≡ widened self.old) }
        ensures err { OnErr result (self.new ≡ self.old) }
    {
        let Some((key, last)) = self.probation.peek_lru() else {
            unreachable!();
        };
        let (key, last) = (*key, last.share_held()?);
        let most = caps.protected_cap();
        resize(&mut self.window, caps.window as usize);
        if push_new(&mut self.window, key, last).is_err() {
            resize(&mut self.window, self.caps.window as usize);
            return Err(NoMemory);
        }
        if move_past(&mut self.protected, &mut self.probation, most).is_err() {
            drop(self.window.pop_entry(&key));
            resize(&mut self.window, self.caps.window as usize);
            return Err(NoMemory);
        }
        drop(self.probation.pop_lru());
        resize(&mut self.probation, caps.main_cap() + 1);
        resize(&mut self.protected, most);
        self.caps = caps;
        Ok(())
    }

    // Window is wider by one.
    fn widen(&mut self) -> Result<(), NoMemory>
        requires placed { IsPlaced K.eq V.measure self.old }
        requires some { self.old.caps.window < self.old.caps.entries }
        ensures state { OnOk result (self.new ≡ widened self.old) }
        ensures err { OnErr result (self.new ≡ self.old) }
    {
        let mut caps = self.caps;
        caps.window += 1;
        if self.probation.len() + self.protected.len() > caps.main_cap() {
            return self.give(caps);
        }
        move_past(
            &mut self.protected,
            &mut self.probation,
            caps.protected_cap(),
        )?;
        resize(&mut self.window, caps.window as usize);
        resize(&mut self.probation, caps.main_cap() + 1);
        resize(&mut self.protected, caps.protected_cap());
        self.caps = caps;
        Ok(())
    }

    // Moves the border, unless it is at this end, and answers whether it moved.
    pub(crate) fn slide(&mut self, wider: bool) -> Result<bool, NoMemory>
        requires placed { IsPlaced K.eq V.measure self.old }
        ensures answer { IfOk result (λ moved. moved ≡ can_slide wider self.old.caps) }
        ensures state { OnOk result (self.new ≡ slid wider self.old) }
        ensures end_succeeds { can_slide wider self.old.caps ≡ false → IsOk result }
        ensures err { OnErr result (self.new ≡ self.old) }
    {
        if wider {
            if self.caps.window == self.caps.entries {
                return Ok(false);
            }
            self.widen()?;
        } else {
            if self.caps.window == 1 {
                return Ok(false);
            }
            self.narrow()?;
        }
        Ok(true)
    }
}
