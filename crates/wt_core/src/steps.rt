// The nine steps, a file for each call, and the two ends that a look-up can have.
//
//   refused? ──► what takes memory ──► the entries, the loads ──► the counts, the moment, the
//   number of the step ──► the key's use
//
// All that can fail comes first, so that a refused step leaves everything as it was.
mod clean;
mod clear;
mod drop_key;
mod forget;
pub(crate) mod land;
mod look;
mod put;
mod seek;
mod slide;

// Ends a step whose look-up hit: counts it, and last the key.
macro_rules! end_hit {
    ($core:expr, $key:expr, $now:expr) => {{
        $core.counts.lookups += 1;
        $core.counts.hits += 1;
        $core.latest = $now;
        $core.step += 1;
        crate::counting::count_key(&mut $core.sketch, $key);
    }};
}

// Ends a step whose look-up missed: the key's own expired entry leaves, and the miss is counted, and
// last the key.
macro_rules! end_miss {
    ($core:expr, $key:expr, $now:expr, $missed:expr, $notices:expr) => {{
        let evicted =
            crate::expired::expire_missed(&mut $core.regions, $key, $now, $missed, $notices);
        $core.counts.lookups += 1;
        $core.counts.misses += 1;
        $core.counts.evicted += evicted;
        $core.latest = $now;
        $core.step += 1;
        crate::counting::count_key(&mut $core.sketch, $key);
    }};
}

pub(crate) use end_hit;
pub(crate) use end_miss;
