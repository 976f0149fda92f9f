// Allocates the parts of a new shard. A function whose allocation fails drops all that it has made
// so far, and each of these exits is proved. So `Shard::new` leaves most of them to two functions
// here, where less is dropped.
ghost use Rattle.std.specs.Prelude.{◌≡◌, ◌≤◌, IfOk, [], vec_capacity};
ghost use Rattle.circular_buffer.specs.Buffer.{buffer};
ghost use Rattle.wt_core.specs.State.{opening};
ghost use Rattle.wt_regions.specs.Notices.{no_notices};

use crate::kept::Kept;
use crate::shade::Shade;
use circular_buffer::HeapCircularBuffer;
use std::alloc::Global;
use wt_core::{Call, Config, Core, Notices, Weighs};
use wt_keys::{CacheKey, NoMemory, Share};

/// Makes the cache and its copy.
pub(super) fn caches<K: CacheKey, V: Share + Weighs>(
    alloc: Global,
    config: &Config,
) -> Result<(Core<K, V>, Core<K, Shade>), NoMemory>
    ensures { IfOk result (λ made. (made.0 ≡ opening config.now)
        × (made.1 ≡ opening config.now)) }
{
    let Ok(core) = Core::new(alloc, config) else {
        return Err(NoMemory);
    };
    let Ok(lagging) = Core::new(alloc, config) else {
        return Err(NoMemory);
    };
    Ok((core, lagging))
}

/// The ring, the landings and the copy's notices.
pub(super) type Lists<K, V> = (
    HeapCircularBuffer<Call<K, Shade>>,
    Vec<Kept<K, V>>,
    Notices<K, Shade>,
);

/// Makes the ring, the landings and the copy's notices, each with its room.
pub(super) fn lists<K: CacheKey, V: Share + Weighs>(
    alloc: Global,
    config: &Config,
) -> Result<Lists<K, V>, NoMemory>
    ensures { IfOk result (λ made. (made.0 ≡ buffer [] config.now.ring)
        × (made.1.items ≡ [])
        × (config.now.flights ≤ vec_capacity made.1)
        × (made.2 ≡ no_notices config.now.entries)) }
{
    let ring = HeapCircularBuffer::with_capacity(alloc, config.ring as usize)?;
    let landings = Vec::with_capacity(alloc, config.flights as usize)?;
    let aside = Notices::new(alloc, config.entries as usize)?;
    Ok((ring, landings, aside))
}
