// The limits of the regions: their ranges, and the age at which an entry expires or is due.
ghost use Rattle.std.specs.Prelude.{◌≡◌, ◌&&◌, ◌||◌, not, is_some, if◌then◌else◌};
ghost use Rattle.wt_regions.specs.declared.notices.Cause.TheVariants.{Expired};
ghost use Rattle.wt_regions.specs.Lists.{freshness_of, gone_by, is_expired, is_due, main_cap, outlived, protected_cap};
ghost use Rattle.wt_regions.specs.Lawful.{IsFit, caps_fault};

use crate::held::Held;
use crate::notices::Cause;
use wt_keys::Field;

/// The limits of the three regions. Durations are in milliseconds; `None` for none.
#[derive(Clone, Copy, Debug, PartialEq, Eq)]
pub struct Caps {
    /// How many entries all regions may hold: 1 to 65,536. For example, with 10,000 pages of 2 KB
    /// the values take 20 MB.
    pub entries: u32,
    /// How many of them window may hold: 1 to `entries`. With 100 of 10,000, main may hold 9,900,
    /// and protected 7,920 of these.
    pub window: u32,
    /// How much all entries may weigh together: 1 to 2^48. For example, 67,108,864 is 64 MiB, if
    /// each value weighs its size in bytes.
    pub bound: u64,
    /// How long after it was written an entry expires, in milliseconds. With 60,000 an entry that
    /// was written at 5,000 is expired from 65,000 on.
    pub after_write: Option<u64>,
    /// How long after it was used an entry expires, in milliseconds. With 60,000 an entry that was
    /// last used at 5,000 is expired from 65,000 on.
    pub after_access: Option<u64>,
    /// How long after it was written an entry is due for a further load, in milliseconds. With
    /// 45,000 an entry that was written at 5,000 is due from 50,000 on, until it expires.
    pub refresh: Option<u64>,
}

/// Whether an unexpired entry of a key is there, and whether it is due for a further load.
#[derive(Clone, Copy, Debug, PartialEq, Eq)]
pub enum Freshness {
    /// No entry, or an expired one.
    Absent,
    /// An entry that isn't due.
    Fresh,
    /// An entry that is due.
    Due,
}

// Ours: a cache with more entries should have more shards, and not larger tables in one.
const MOST_ENTRIES: u32 = 65_536;

// 2^48, so that a sum of weights and one more value's never wraps.
const MOST_BOUND: u64 = 0x1_0000_0000_0000;

impl Caps {
    /// The first field that is out of its range, in the order of the fields; `None` if each is
    /// within.
    ///
    /// Takes no memory. O(1).
    pub fn fault(&self) -> Option<Field>
        ensures { result ≡ caps_fault self.now }
    {
        if self.entries < 1 || self.entries > MOST_ENTRIES {
            return Some(Field::Entries);
        }
        if self.window < 1 || self.window > self.entries {
            return Some(Field::Window);
        }
        if self.bound < 1 || self.bound > MOST_BOUND {
            return Some(Field::Bound);
        }
        if self.after_write == Some(0) {
            return Some(Field::AfterWrite);
        }
        if self.after_access == Some(0) {
            return Some(Field::AfterAccess);
        }
        if self.refresh == Some(0) {
            return Some(Field::Refresh);
        }
        None
    }

    // How many entries probation and protected may hold together.
    pub(crate) fn main_cap(&self) -> usize
        requires { IsFit self.now }
        ensures { result ≡ main_cap self.now }
    {
        (self.entries - self.window) as usize
    }

    // How many of them protected may hold.
    pub(crate) fn protected_cap(&self) -> usize
        requires { IsFit self.now }
        ensures { result ≡ protected_cap self.now }
    {
        (4 * (self.entries - self.window) / 5) as usize
    }

    // Whether no entry expires but by its own life: neither duration is set.
    pub(crate) fn never_expires(&self) -> bool
        ensures { result ≡ not (is_some self.now.after_write || is_some self.now.after_access) }
    {
        self.after_write.is_none() && self.after_access.is_none()
    }

    // Whether an entry is too old, since it was written or since it was used, or its own life is over.
    pub(crate) fn is_expired<V>(&self, now: u64, held: &Held<V>) -> bool
        ensures { result ≡ is_expired self.now now held.now }
    {
        gone_by(self.after_write, held.written, now)
            || gone_by(self.after_access, held.accessed, now)
            || outlived(held.life, held.written, now)
    }

    // Whether an unexpired entry is old enough to be loaded again.
    pub(crate) fn is_due<V>(&self, now: u64, held: &Held<V>) -> bool
        ensures { result
            ≡ (not (is_expired self.now now held.now) && is_due self.now now held.now) }
    {
        !self.is_expired(now, held) && gone_by(self.refresh, held.written, now)
    }

    // Whether an entry is unexpired, and old enough to be loaded again.
    pub(crate) fn freshness<V>(&self, now: u64, held: &Held<V>) -> Freshness
        ensures { result ≡ freshness_of self.now now held.now }
    {
        if self.is_expired(now, held) {
            return Freshness::Absent;
        }
        if gone_by(self.refresh, held.written, now) {
            Freshness::Due
        } else {
            Freshness::Fresh
        }
    }

    // Why an entry leaves that is taken out.
    pub(crate) fn cause_of<V>(&self, now: u64, held: &Held<V>, unexpired: Cause) -> Cause
        ensures { result ≡ (if is_expired self.now now held.now then Expired else unexpired) }
    {
        if self.is_expired(now, held) {
            Cause::Expired
        } else {
            unexpired
        }
    }
}

// Whether a duration that is set has gone by. An age that equals it counts; ours.
fn gone_by(duration: Option<u64>, since: u64, now: u64) -> bool
    ensures { result ≡ gone_by duration since now }
{
    match duration {
        Some(duration) => duration <= now.saturating_sub(since),
        None => false,
    }
}

// Whether a life is over. An age that equals it counts, as it does for a duration.
fn outlived(life: u32, since: u64, now: u64) -> bool
    ensures { result ≡ outlived life since now }
{
    life > 0 && life as u64 <= now.saturating_sub(since)
}
