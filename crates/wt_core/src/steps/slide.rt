// The step that moves the border between window and main.
ghost use Rattle.std.specs.Prelude.{◌≡◌, ◌<◌, ◌^◌, [], false, IsOk, OnErr, OnOk};
ghost use Rattle.std.specs.List.Sorted.{IsPermutation};
ghost use Rattle.wt_regions.specs.Lists.{all_entries};
ghost use Rattle.wt_regions.specs.Slide.{KeepsAllButWindow, can_slide};
ghost use Rattle.wt_core.specs.declared.calls.Call.TheVariants.{Slide};
ghost use Rattle.wt_core.specs.declared.calls.Reply.TheVariants.{Slid};
ghost use Rattle.wt_core.specs.Step.{step};

use crate::refusals::unspent;
use crate::sequential::Core;
use wt_keys::{CacheKey, Fault, Share};
use wt_regions::Weighs;

impl<K: CacheKey, V: Share + Weighs> Core<K, V> {
    ghost use Rattle.wt_core.specs.Contract.{Steps, RepliesBy, Refuses};

    /// Moves the border between window and main by one entry, and returns whether it moved. A
    /// window that may hold all entries can't become wider, nor one that may hold one entry
    /// narrower.
    ///
    /// No entry leaves, so it has no notices. `now` is in milliseconds. `StepsSpent` comes before
    /// memory is asked for. Takes memory for at most two shares with a place for each, and for the
    /// regions' tables as they grow; none if the border doesn't move. Expected O(1), as
    /// [`Regions::slide`](wt_regions::Regions::slide) has it.
    ///
    /// In use: `uses::plain::slide`.
    pub fn slide(&mut self, wider: bool, now: u64) -> Result<bool, Fault>
        ensures state { Steps K.eq K.word V.measure (Slide wider now) self.old self.new result }
        ensures answer { RepliesBy K.eq K.word V.measure Slid (Slide wider now) self.old result }
        ensures notices { (step K.eq K.word V.measure self.old (Slide wider now)).notices ≡ [] }
        // None leaves, and none comes.
        ensures entries { OnOk result
            (IsPermutation (all_entries self.old.regions) (all_entries self.new.regions)) }

        ensures refusal { Refuses K.eq K.word V.measure (Slide wider now) self.old result }
        ensures end_succeeds { can_slide wider self.old.regions.caps ≡ false
            → self.old.step < 2 ^ 60 → IsOk result }
        ensures same { KeepsAllButWindow self.old.regions.caps self.new.regions.caps }
        ensures err { OnErr result (self.new ≡ self.old) }
    {
        unspent(self.step)?;
        let moved = self.regions.slide(wider)?;
        self.latest = self.latest.max(now);
        self.step += 1;
        Ok(moved)
    }
}
