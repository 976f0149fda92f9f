// Laws of the report's definition, each as the promise of a function that does nothing.
ghost use Rattle.wt_trace.specs.Keys.{keys_of};
ghost use Rattle.wt_trace.specs.Laws.{ActsAlone, AreRuns, GetsLeaveLoads};

use crate::trace::key::TraceKey;

/// After a line of letter G the same loads are open as before it.
///
/// A law of the definition: the function does nothing, and takes no memory.
pub fn a_get_leaves_no_load_open<K: TraceKey>()
    ensures { GetsLeaveLoads (keys_of K.TraceKey) }
{}

/// The lines of a trace leave a shard in the state in which a run of their calls ends, from the
/// opening of a cache. The slides that follow a look-up are among the calls. The shard's numbers in
/// the report are those of that state.
///
/// So each law of the cache's runs holds for each shard of a replay. A law of the definition: the
/// function does nothing, and takes no memory.
pub fn a_shard_is_a_run_of_its_calls<K: TraceKey>()
    ensures { AreRuns (keys_of K.TraceKey) }
{}

/// At a shard without an adviser a line does what its act does, and nothing follows: no slide is
/// made.
///
/// So whoever doesn't ask for `adaptive` has the cache of a fixed window. A law of the definition:
/// the function does nothing, and takes no memory.
pub fn a_fixed_window_makes_no_slide<K: TraceKey>()
    ensures { ActsAlone (keys_of K.TraceKey) }
{}
