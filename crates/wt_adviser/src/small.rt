// The look-ups of a small cache, which stores each missing key at once.
ghost use Rattle.std.specs.Prelude.{◌≡◌, ◌+◌, ◌≤◌, ◌&&◌, length, IfOk};
ghost use Rattle.wt_regions.specs.Lists.{has_at, no_entries};
ghost use Rattle.wt_adviser.specs.Small.{KeepsWhole, looked_if, small_caps};

use crate::mark::Mark;
use crate::share::Share;
use std::alloc::Global;
use wt_keys::{CacheKey, Fault};
use wt_regions::{Caps, Found, Notices, Regions};
use wt_sketch::Sketch;

// A small cache. No entry of it expires, and none weighs anything.
pub(crate) type Small<K> = Regions<K, Mark>;

// The result of a look-up in a small cache.
#[derive(Clone, Copy)]
pub(crate) struct Probe {
    // Whether it has seen the key: not if memory was refused.
    pub seen: bool,
    // Whether the key was there.
    pub hit: bool,
}

// An empty cache of `entries` entries, of which window holds this share.
pub(crate) fn new_small<K: CacheKey>(
    alloc: Global,
    entries: u32,
    share: Share,
) -> Result<Small<K>, Fault>
    requires { 1 ≤ entries }
    ensures { IfOk result (λ small. small ≡ no_entries (small_caps share entries)) }
{
    let caps = Caps {
        entries,
        window: share.window_of(entries),
        bound: 1,
        after_write: None,
        after_access: None,
        refresh: None,
    };
    Regions::new(alloc, &caps)
}

// Looks the key up, and stores it if it isn't there. Entries that leave are put aside.
pub(crate) fn look<K: CacheKey>(
    small: &mut Small<K>,
    key: K,
    sketch: &Sketch,
    aside: &mut Notices<K, Mark>,
) -> Probe
    requires room { small.old.caps.entries ≤ aside.old.room + length aside.old.list }
    ensures state { small.new ≡ looked_if K.eq K.word sketch.now key result.seen small.old }
    ensures answer { result.hit ≡ (result.seen && has_at K.eq key 0 small.old) }
    ensures same { small.new.caps ≡ small.old.caps }
    ensures whole { KeepsWhole aside.old aside.new }
{
    aside.empty();
    let Ok(found) = small.get(key, 0) else {
        return Probe {
            seen: false,
            hit: false,
        };
    };
    match found {
        Found::Hit(_) => Probe {
            seen: true,
            hit: true,
        },
        _missed => {
            // For the prover: shows `lawful`, which bounds the notices.
            let _len = small.len();
            match small.store(key, Mark {}, 0, 0, sketch, aside) {
                Ok(()) => Probe {
                    seen: true,
                    hit: false,
                },
                Err(_) => Probe {
                    seen: false,
                    hit: false,
                },
            }
        }
    }
}
