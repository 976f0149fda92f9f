// The loader of a replay turn by turn: makes the values that the cache loads.
ghost use Rattle.std.specs.Prelude.{◌≡◌, ◌<◌, ◌≤◌, None, false, IfOk, IsTrue};
ghost use Rattle.wt_turns.specs.Loading.{loaded};
ghost use Rattle.wt_trace.specs.Answers.{version};
ghost use Rattle.wt_trace.specs.Keys.{keys_by};
ghost use Rattle.wt_regions.specs.Lawful.{is_zero};
ghost use Rattle.wt_trace.specs.Options.{option_fault};

use wt_cache::Loader;
use wt_keys::CacheKey;
use wt_trace::{FAILED_LOAD, Options, TraceKey, Version, fails_by, version_by, weight_by};

/// Makes the values of a trace: a load makes one of line 0, and fails by the options' rule.
#[derive(Clone, Copy, Debug, Drop)]
pub(crate) struct TraceLoader {
    options: Options,
    ghost sound: { option_fault options ≡ None },
    ghost some: { 0 < options.modulus },
    ghost small: { options.modulus ≤ 1000000 },
    ghost divides: { is_zero options.fail_mod ≡ false },
}

impl TraceLoader {
    // Makes the loader of these options.
    pub(crate) fn of(options: &Options) -> TraceLoader
        requires { option_fault options.now ≡ None }
        ensures { result.options ≡ options.now }
    {
        TraceLoader { options: *options }
    }

    // The value that line n stores for a key.
    pub(crate) fn version<K: TraceKey>(&self, n: u64, key: K) -> Version<K>
        ensures { result ≡ version (keys_by K.eq K.word K.read K.shown) self.now.options n key }
    {
        version_by(&self.options, n, key)
    }
}

// Loaders are shared by threads, and the prover makes no proof for a generic call in one. So this
// puts the value together from `fails_by` and `weight_by`, which are not generic.
impl<K: CacheKey> Loader<K, Version<K>> for TraceLoader {
    ghost use Rattle.std.specs.Prelude.{◌≡◌};
    ghost use Rattle.wt_turns.specs.Loading.{loaded};

    ghost may_return = { λ loader key result. result ≡ loaded K.word loader.options key };

    fn load(&self, key: &K) -> Result<Version<K>, u32>
        ensures answers { IfOk result (λ value. IsTrue (K.eq value.key key.now)) }
        ensures value { result ≡ loaded K.word self.now.options key.now }
    {
        if fails_by(self.options.fail_mod, key.word()) {
            return Err(FAILED_LOAD);
        }
        Ok(Version {
            key: *key,
            line: 0,
            weight: weight_by(self.options.modulus, key.word()),
        })
    }
}
