// The rules of a trace by which values weigh and loads fail.
ghost use Rattle.std.specs.Prelude.{◌≡◌, ◌+◌, ◌%◌, ◌<◌, ◌≤◌, ◌==◌, None, false};
ghost use Rattle.std.specs.Option.{option_map_or};
ghost use Rattle.wt_regions.specs.Lawful.{is_zero};
ghost use Rattle.wt_trace.specs.Answers as spec;
ghost use Rattle.wt_trace.specs.Keys.{keys_of};
ghost use Rattle.wt_trace.specs.Options.{option_fault};

use crate::options::Options;
use crate::shard::version::Version;
use crate::trace::key::TraceKey;
use wt_core::Land;

/// The code with which a load of a trace fails. The report prints it.
pub const FAILED_LOAD: u32 = 7;

/// Returns the weight of a value whose key has this word: 1 and the word modulo the modulus.
pub fn weight_by(modulus: u64, word: u64) -> u32
    requires { (0 < modulus) × (modulus ≤ 1000000) }
    ensures { result ≡ 1 + word % modulus }
{
    (1 + word % modulus) as u32
}

/// Returns whether the load of a key with this word fails: if there is a divisor and it divides the
/// word.
pub fn fails_by(divisor: Option<u64>, word: u64) -> bool
    requires { is_zero divisor ≡ false }
    ensures { result ≡ option_map_or (λ f. word % f == 0) divisor false }
{
    match divisor {
        Some(divisor) => word % divisor == 0,
        None => false,
    }
}

/// Returns the value that line n stores for a key.
pub fn version_by<K: TraceKey>(options: &Options, n: u64, key: K) -> Version<K>
    requires { option_fault options.now ≡ None }
    ensures { result ≡ spec.version (keys_of K.TraceKey) options.now n key }
{
    Version {
        key,
        line: n,
        weight: weight_by(options.modulus, key.word()),
    }
}

// How the load of a key on line n ends.
pub(crate) fn load_by<K: TraceKey>(options: &Options, n: u64, key: K) -> Land<Version<K>>
    requires { option_fault options.now ≡ None }
    ensures { result ≡ spec.load (keys_of K.TraceKey) options.now n key }
{
    if fails_by(options.fail_mod, key.word()) {
        return Land::Failed;
    }
    Land::Keep(version_by(options, n, key))
}
