// What the threads of a replay turn by turn use beside the cache.
ghost use Rattle.std.specs.Prelude.{◌≡◌, None, nat_lt, is_some, IfOk};
ghost use Rattle.wt_trace.specs.Options.{option_fault};

use crate::by_turn::loader::TraceLoader;
use std::alloc::Global;
use wt_cache::Followers;
use wt_keys::NoMemory;
use wt_trace::{Options, TraceKey};

/// The loader of a replay turn by turn, and what moves the windows if they follow the look-ups.
#[derive(Drop)]
pub(crate) struct Aids<K: TraceKey> {
    /// Makes the values that lines put, as it makes those that are loaded.
    pub loader: TraceLoader,
    /// The followers of the cache's windows, exactly with `adaptive`.
    pub followers: Option<Followers<K>>,
    ghost follows: { is_some followers ≡ nat_lt 0 loader.options.adaptive },
}

impl<K: TraceKey> Aids<K> {
    // Makes what a replay with these options uses. Takes memory only with `adaptive`.
    pub(crate) fn new(alloc: Global, options: &Options) -> Result<Aids<K>, NoMemory>
        requires { option_fault options.now ≡ None }
        ensures { IfOk result (λ aids. aids.loader.options ≡ options.now) }
    {
        Ok(Aids {
            loader: TraceLoader::of(options),
            followers: followers_for(alloc, options)?,
        })
    }
}

// The followers of a new cache's windows, if the windows follow the look-ups.
fn followers_for<K: TraceKey>(
    alloc: Global,
    options: &Options,
) -> Result<Option<Followers<K>>, NoMemory>
    requires { option_fault options.now ≡ None }
    ensures { IfOk result (λ followers. is_some followers ≡ nat_lt 0 options.now.adaptive) }
{
    if options.adaptive == 0 {
        return Ok(None);
    }
    // The options are in their ranges, so only memory can be refused.
    match Followers::new(alloc, &options.config(), options.shards()) {
        Ok(followers) => Ok(Some(followers)),
        Err(_) => Err(NoMemory),
    }
}
