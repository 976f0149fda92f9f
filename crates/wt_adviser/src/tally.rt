// Counts the hits of the small caches, and chooses among their windows.
ghost use Rattle.std.specs.Prelude.{◌≡◌, ◌<◌, ◌^◌};
ghost use Rattle.wt_adviser.specs.Tally.{IsBelow, better, choice, count_of, counted, faded, hits_of, passed};

use crate::share::Share;

// A hit counts 65,536, and so does a look-up: rounding then matters little when counts fade.
const HIT: u64 = 1 << 16;

/// The hits of the small caches, and the choice among their windows.
#[derive(Clone, Copy, Debug, PartialEq, Eq)]
pub struct Tally {
    /// The hits with a window of a hundredth, each 65,536; older ones weigh less.
    pub hundredth: u64,
    /// The hits with a window of a tenth.
    pub tenth: u64,
    /// The hits with a window of two fifths.
    pub two_fifths: u64,
    /// The hits of the cache that is all window.
    pub whole: u64,
    /// The look-ups of each small cache, each 65,536; older ones weigh less.
    pub sampled: u64,
    /// The look-ups of the whole cache since a window was last chosen.
    pub since: u32,
    /// The window that was chosen last.
    pub chosen: Share,
}

/// Which of the small caches hit.
#[derive(Clone, Copy, Debug, PartialEq, Eq)]
pub struct Hits {
    pub hundredth: bool,
    pub tenth: bool,
    pub two_fifths: bool,
    pub whole: bool,
}

// The count of a look-up for a window.
fn count_of(hit: bool) -> u64
    ensures { result ≡ count_of hit }
{
    if hit { HIT } else { 0 }
}

// Fifteen sixteenths.
fn faded(count: u64) -> u64
    requires { count < 2 ^ 60 }
    ensures { result ≡ faded count }
{
    15 * count / 16
}

impl Tally {
    // Nothing was counted.
    pub(crate) const NOTHING: Tally = Tally {
        hundredth: 0,
        tenth: 0,
        two_fifths: 0,
        whole: 0,
        sampled: 0,
        since: 0,
        chosen: Share::Tenth,
    };

    // The hits with a window of this share.
    fn hits_of(&self, share: Share) -> u64
        ensures { result ≡ hits_of share self.now }
    {
        match share {
            Share::Hundredth => self.hundredth,
            Share::Tenth => self.tenth,
            Share::TwoFifths => self.two_fifths,
            Share::Whole => self.whole,
        }
    }

    // The share with more hits, the first if they have as many.
    fn better(&self, first: Share, second: Share) -> Share
        ensures { result ≡ better self.now first second }
    {
        if self.hits_of(first) < self.hits_of(second) {
            second
        } else {
            first
        }
    }

    // The share that is used from now on: the best, if it leads the one in use by more than a
    // hundredth of the look-ups.
    fn choice(&self) -> Share
        requires below { IsBelow (2 ^ 56) self.now }
        ensures { result ≡ choice self.now }
    {
        let best = self.better(self.chosen, Share::Hundredth);
        let best = self.better(best, Share::Tenth);
        let best = self.better(best, Share::TwoFifths);
        let best = self.better(best, Share::Whole);
        if self.sampled + 100 * self.hits_of(self.chosen) < 100 * self.hits_of(best) {
            best
        } else {
            self.chosen
        }
    }

    // Counts a look-up of the small caches.
    pub(crate) fn count(&mut self, hits: Hits)
        requires below { IsBelow (2 ^ 56) self.old }
        ensures { self.new ≡ counted hits self.old }
    {
        self.hundredth += count_of(hits.hundredth);
        self.tenth += count_of(hits.tenth);
        self.two_fifths += count_of(hits.two_fifths);
        self.whole += count_of(hits.whole);
        self.sampled += HIT;
    }

    // Counts a look-up of the whole cache, whose choice is made after each `epoch` of them.
    pub(crate) fn pass(&mut self, epoch: u32)
        requires below { IsBelow (2 ^ 56) self.old }
        requires fits { self.old.since < epoch }
        ensures { self.new ≡ passed epoch self.old }
    {
        self.since += 1;
        if self.since == epoch {
            *self = Tally {
                hundredth: faded(self.hundredth),
                tenth: faded(self.tenth),
                two_fifths: faded(self.two_fifths),
                whole: faded(self.whole),
                sampled: faded(self.sampled),
                since: 0,
                chosen: self.choice(),
            };
        }
    }
}
