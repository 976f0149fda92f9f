// An entry of a region without its key, and shares of it. A move first puts a share in the new
// place, and then removes the old one.
ghost use Rattle.std.specs.Prelude.{◌≡◌, IfOk, IsOk, IsTrue};
ghost use Rattle.wt_regions.specs.Lists.{used};

use wt_keys::{NoMemory, Share};

/// An entry of a region, without its key. Contracts see all of it; callers get its value alone.
#[derive(Drop)]
pub struct Held<V> {
    /// The value.
    pub value: V,
    /// The value's weight when it was stored.
    pub weight: u32,
    /// The value's life when it was stored, in milliseconds; 0 for none.
    pub life: u32,
    /// The number of the step that stored it.
    pub stamp: u64,
    /// The moment of that step, in milliseconds.
    pub written: u64,
    /// The moment of its latest use, in milliseconds; a store counts as a use.
    pub accessed: u64,
}

impl<V: Share> Held<V> {
    // A share of it.
    pub(crate) fn share_held(&self) -> Result<Held<V>, NoMemory>
        ensures { IfOk result (λ shared. shared ≡ self.now) }
    {
        self.share_used(self.accessed)
    }

    // A share of it that is used now.
    pub(crate) fn share_used(&self, now: u64) -> Result<Held<V>, NoMemory>
        ensures answer { IfOk result (λ shared. shared ≡ used now self.now) }
        ensures succeeds { IsTrue V.Share.is_copied → IsOk result }
    {
        let value = self.value.share()?;
        Ok(Held {
            value,
            weight: self.weight,
            life: self.life,
            stamp: self.stamp,
            written: self.written,
            accessed: now,
        })
    }
}
