// One call that makes a cache, and runs threads over it.
ghost use Rattle.std.specs.Prelude.{◌≡◌, IfOk, vec_len};
ghost use Rattle.wt_shards.specs.Opening.{AreBlanksOf};
ghost use Rattle.wt_cache.specs.Contract.{AreBrought, IsBrought, IsServed};

use crate::cache::LoadingCache;
use crate::caller::Caller;
use crate::callers::Callers;
use crate::loader::Loader;
use std::alloc::Global;
use std::marker::Brand;
use std::sync::Wait;
use std::thread;
use std::thread::Threads;
use wt_core::Config;
use wt_keys::{CacheKey, Fault, NoMemory};
use wt_shards::{Blanks, Books, Names, Of, Shards, Value};

/// A source of values, and the work of each thread with a cache before it.
pub trait Service<K: CacheKey, V: Value<K> + Copy>: Loader<K, V> + Copy {
    ghost use Rattle.std.specs.Prelude.{⊤, ℕ, Result};
    ghost use Rattle.wt_keys.specs.declared.fault.Fault.{Fault};

    /// The result of a thread's work.
    type Answer: Send + Drop;

    /// The results that the work of a thread may have, by its number: all, unless the service
    /// narrows them.
    ghost gives: { Self → ℕ → Result Self.Answer Fault → Type 0 } = { λ _ _ _. ⊤ };

    /// Does the work of one thread, by its number from 0. `serve` returns its result.
    ///
    /// It is called in each thread at once. Not promised: that it returns.
    fn work<B: Books, R: Wait>(
        &self,
        thread: usize,
        caller: &mut Caller<K, V, Self, B, R>,
    ) -> Result<Self::Answer, Fault>
        ensures { gives self.now thread result };
}

/// Makes a cache before the service, runs `threads` threads over it, and returns the result of
/// each. The cache has `shards` shards, 1, 2 or 4, each for this configuration.
///
/// `BadConfig` of the number of shards first, then as `Config::check` returns it, before memory is
/// asked for. If a thread gets no caller, its own result is the fault of `Callers::lend`. If no
/// thread can be made, the work is done one after another. Takes memory as `Shards::new` does, and
/// for the results. Not promised: that it returns.
pub fn serve<
    K: CacheKey,
    V: Value<K> + Copy,
    S: Service<K, V> + Copy + Send + Sync,
    R: Threads + Wait + Sync,
>(
    rt: &R,
    alloc: Global,
    config: &Config,
    shards: usize,
    threads: usize,
    service: S,
) -> Result<Vec<Result<S::Answer, Fault>>, Fault>
    ensures made { IsServed (S.gives service) config.now shards threads result }
{
    serve_as::<K, V, S, Brand, R>(rt, alloc, Blanks::new(), config, shards, threads, service)
}

// The same, over books of these names.
fn serve_as<
    K: CacheKey,
    V: Value<K> + Copy,
    S: Service<K, V> + Copy + Send + Sync,
    N: Names + Send + Sync,
    R: Threads + Wait + Sync,
>(
    rt: &R,
    alloc: Global,
    blanks: Blanks<K, V>,
    config: &Config,
    shards: usize,
    threads: usize,
    service: S,
) -> Result<Vec<Result<S::Answer, Fault>>, Fault>
    requires layout { N.layout ≡ record { shards = shards; config = config.now } }
    requires blanks { AreBlanksOf N.name N.book blanks }
    ensures made { IsServed (S.gives service) config.now shards threads result }
{
    match Shards::<K, V, Of<N>>::new(rt, alloc, blanks, config, shards) {
        Ok(made) => match serve_over(rt, alloc, made, threads, service) {
            Ok(answers) => Ok(answers),
            Err(_refused) => Err(Fault::NoMemory),
        },
        Err(fault) => Err(fault),
    }
}

// The same, over these shards.
fn serve_over<
    K: CacheKey,
    V: Value<K> + Copy,
    S: Service<K, V> + Copy + Send + Sync,
    N: Names + Send + Sync,
    R: Threads + Wait + Sync,
>(
    rt: &R,
    alloc: Global,
    shards: Shards<K, V, Of<N>>,
    threads: usize,
    service: S,
) -> Result<Vec<Result<S::Answer, Fault>>, NoMemory>
    ensures len { IfOk result (λ answers. vec_len answers ≡ threads) }
    ensures each { IfOk result (λ answers. AreBrought (S.gives service) threads answers.items) }
{
    let cache: LoadingCache<K, V, S, Of<N>> = LoadingCache::new(shards, service, None);
    let callers = Callers::new(alloc, cache);
    let shared = &callers;
    let answers = thread::map_indices(
        rt,
        alloc,
        threads,
        &|thread: usize| -> Result<S::Answer, Fault>
            ensures { IsBrought (S.gives service thread) result }
        { work_at(rt, shared, service, thread) },
    )?;
    Ok(answers)
}

// The work of one thread, through a caller that is lent for it.
fn work_at<
    K: CacheKey,
    V: Value<K> + Copy,
    S: Service<K, V> + Copy + Send + Sync,
    B: Books,
    R: Wait,
>(rt: &R, callers: &Callers<K, V, S, B>, service: S, thread: usize) -> Result<S::Answer, Fault>
    ensures { IsBrought (S.gives service thread) result }
{
    let mut caller = callers.lend(rt)?;
    let answer = service.work(thread, &mut caller);
    caller.give_back();
    answer
}
