// Regions under a harness that runs them as a cache does, which all tests of the regions use.
mod beside_lists;
mod compare;
mod parts;
mod refusals;

use std::alloc::Global;
use std::marker::Model;
use wt_keys::{Fault, NoMemory, Share};
use wt_regions::{Caps, Found, Notices, Regions, Weighs};
use wt_sketch::Sketch;

// The stamp of each store: the greatest, so that none is refused for its stamp.
const STAMP: u64 = u64::MAX;

// Regions with a sketch, which counts the key of each look and each put last, and with the notices
// of the latest step alone.
#[derive(Drop)]
struct Run<V: Share + Weighs> {
    regions: Regions<u64, V>,
    sketch: Sketch,
    notices: Notices<u64, V>,
}

impl<V: Share + Weighs> Model for Run<V> {
    ghost use Rattle.std.specs.Prelude.{ℕ, ◌+◌, ◌≤◌, length};

    ghost Value = { ℕ };

    ghost view = { λ r. r.regions.caps.entries };

    ghost invariant = { λ r. r.regions.caps.entries ≤ r.notices.room + length r.notices.list };
}

impl<V: Share + Weighs> Run<V> {
    fn new(alloc: Global, caps: Caps) -> Result<Run<V>, Fault> {
        let regions = Regions::new(alloc, &caps)?;
        let sketch = Sketch::new(alloc, caps.entries)?;
        let notices = Notices::new(alloc, caps.entries as usize)?;
        Ok(Run {
            regions,
            sketch,
            notices,
        })
    }

    fn put(&mut self, key: u64, value: V, now: u64) -> Result<(), Fault> {
        self.notices.empty();
        self.regions
            .store(key, value, now, STAMP, &self.sketch, &mut self.notices)?;
        self.sketch.count_all(&[key]);
        Ok(())
    }

    fn look(&mut self, key: u64, now: u64) -> Result<Found<V>, NoMemory> {
        self.notices.empty();
        let found = self.regions.get(key, now)?;
        self.sketch.count_all(&[key]);
        Ok(found)
    }

    fn remove(&mut self, key: u64, now: u64) -> bool {
        self.notices.empty();
        self.regions.remove(key, now, &mut self.notices)
    }

    fn clean(&mut self, now: u64) {
        self.notices.empty();
        self.regions.clean(now, &mut self.notices);
    }

    fn clear(&mut self, now: u64) {
        self.notices.empty();
        self.regions.clear(now, &mut self.notices);
    }
}

// Limits without expiry.
fn caps(entries: u32, window: u32, bound: u64) -> Caps {
    Caps {
        entries,
        window,
        bound,
        after_write: None,
        after_access: None,
        refresh: None,
    }
}
