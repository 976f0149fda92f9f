// Opens shards, and gives out passes.
ghost use Rattle.std.specs.Prelude.{◌≡◌, ◌+◌, ◌<◌, ◌↔◌, [], None, IfOk, IfErr, OnOk, IsSome, IsOkUnless, MatchOption, Ok, Err};
ghost use Rattle.wt_keys.specs.declared.fault.Fault.TheVariants as fault;
ghost use Rattle.wt_shards.specs.Counts.{IsBlankOf, no_steps};
ghost use Rattle.wt_shards.specs.Opening.{AreBlanks, ArePlacesOf, layout_fault};
ghost use Rattle.wt_shards.specs.Passes.{counts_of, front_of, new_shard_pass, new_pass};
ghost use Rattle.wt_shards.specs.Place.{place_of};

use crate::books::{Blanks, Books};
use crate::pass::Pass;
use crate::recorded::Recorded;
use crate::sampler::Sampler;
use crate::shard::Shard;
use crate::shard_ledger::ShardLedger;
use crate::shard_pass::ShardPass;
use crate::shards::Shards;
use crate::value::Value;
use std::alloc::Global;
use std::sync::Wait;
use std::sync::ledger::{Blank, Ledger};
use wt_core::{Call, Config};
use wt_history::Fresh;
use wt_keys::{CacheKey, Fault, Field, NoMemory};
use wt_stripes::Striped;

// Checks the number of shards, and then the configuration.
fn check(config: &Config, shards: usize) -> Result<(), Fault>
    ensures ok { OnOk result (layout_fault shards config.now ≡ None) }
    ensures refusal { MatchOption (layout_fault shards config.now)
        (result ≡ Ok tt) (λ field. result ≡ Err (fault.BadConfig field)) }
{
    if shards != 1 && (shards != 2 && shards != 4) {
        return Err(Fault::BadConfig {
            field: Field::Shards,
        });
    }
    config.check()
}

// One shard behind its lock, if there is one of this number.
fn locked<K: CacheKey, V: Value<K>, S: ShardLedger, H: Ledger>(
    alloc: Global,
    config: &Config,
    index: usize,
    shards: usize,
    steps: Blank,
    hits: Blank,
    calls: Fresh<Call<K, V>>,
) -> Result<Option<Striped<Recorded<K, V, S, H>>>, NoMemory>
    requires place { index < shards
        → S.ShardLedger.place ≡ place_of index (record { shards = shards; config = config.now }) }
    requires steps { IsBlankOf steps S.Ledger.name S.Ledger.parts }
    requires hits { IsBlankOf hits H.name H.parts }
    requires histories { calls ≡ S.Naming.book }
    ensures there { IfOk result (λ shard. (index < shards) ↔ IsSome shard) }
{
    if index >= shards {
        return Ok(None);
    }
    match Shard::new(alloc, config, index, shards, steps, hits) {
        Ok(shard) => {
            let recorded = Recorded {
                shard,
                history: calls.named::<S>(),
            };
            match Striped::new(alloc, recorded) {
                Ok(striped) => Ok(Some(striped)),
                Err(_) => Err(NoMemory),
            }
        }
        Err(_) => Err(NoMemory),
    }
}

// Opens a new caller's pass at one shard: no counts, and an empty front.
fn open_pass_of<K: CacheKey, V: Value<K>, S: ShardLedger, H: Ledger, R: Wait>(
    rt: &R,
    shard: &Striped<Recorded<K, V, S, H>>,
) -> Result<ShardPass<K, V, S, H>, Fault>
    ensures ok { IfOk result (λ pass. pass ≡ new_shard_pass) }
    ensures spent { IfErr result (λ f. f ≡ fault.PassesSpent) }
{
    let mut held = shard.write(rt);
    held.value(rt).open_pass()
}

// Opens a caller's pass at one shard, if there is one.
fn open_pass_at<K: CacheKey, V: Value<K>, S: ShardLedger, H: Ledger, R: Wait>(
    rt: &R,
    shard: &Option<Striped<Recorded<K, V, S, H>>>,
) -> Result<Option<ShardPass<K, V, S, H>>, Fault>
    ensures there { IfOk result (λ pass. IsSome pass ↔ IsSome shard.now) }
    ensures counts { IfOk result (λ pass. counts_of pass ≡ no_steps) }
    ensures front { IfOk result (λ pass. front_of pass ≡ []) }
    ensures spent { IfErr result (λ f. f ≡ fault.PassesSpent) }
{
    let Some(shard) = shard else {
        return Ok(None);
    };
    let pass = open_pass_of(rt, shard)?;
    Ok(Some(pass))
}

// Opens a caller's passes at two shards. So `Shards::pass` has two exits in place of four, and
// each of them drops less.
fn open_passes_at<
    K: CacheKey,
    V: Value<K>,
    S: ShardLedger,
    H: Ledger,
    T: ShardLedger,
    I: Ledger,
    R: Wait,
>(
    rt: &R,
    one: &Option<Striped<Recorded<K, V, S, H>>>,
    two: &Option<Striped<Recorded<K, V, T, I>>>,
) -> Result<(Option<ShardPass<K, V, S, H>>, Option<ShardPass<K, V, T, I>>), Fault>
    ensures there { IfOk result (λ pass. (IsSome pass.0 ↔ IsSome one.now)
        × (IsSome pass.1 ↔ IsSome two.now)) }
    ensures counts { IfOk result (λ pass. (counts_of pass.0 ≡ no_steps)
        × (counts_of pass.1 ≡ no_steps)) }
    ensures front { IfOk result (λ pass. (front_of pass.0 ≡ []) × (front_of pass.1 ≡ [])) }
    ensures spent { IfErr result (λ f. f ≡ fault.PassesSpent) }
{
    let one = open_pass_at(rt, one)?;
    let two = open_pass_at(rt, two)?;
    Ok((one, two))
}

impl<K: CacheKey, V: Value<K>, B: Books> Shards<K, V, B> {
    /// Makes `shards` empty shards, 1, 2 or 4, each for this configuration.
    ///
    /// `BadConfig` of the number of shards first, then as `Config::check` returns it, before memory
    /// is asked for. Takes memory for each shard as `Shard::new` does. Takes no lock, and `rt`
    /// isn't used. O(shards × (entries + ring)).
    pub fn new<R>(
        _rt: &R,
        alloc: Global,
        blanks: Blanks<K, V>,
        config: &Config,
        shards: usize,
    ) -> Result<Shards<K, V, B>, Fault>
        requires layout { ArePlacesOf (record { shards = shards; config = config.now })
            B.S0.ShardLedger.place B.S1.ShardLedger.place B.S2.ShardLedger.place
            B.S3.ShardLedger.place }
        requires blanks { AreBlanks B.S0.Ledger.name B.S0.Ledger.parts B.H0.name B.H0.parts blanks.s0 blanks.h0
            × AreBlanks B.S1.Ledger.name B.S1.Ledger.parts B.H1.name B.H1.parts blanks.s1 blanks.h1
            × AreBlanks B.S2.Ledger.name B.S2.Ledger.parts B.H2.name B.H2.parts blanks.s2 blanks.h2
            × AreBlanks B.S3.Ledger.name B.S3.Ledger.parts B.H3.name B.H3.parts blanks.s3 blanks.h3 }
        requires histories { (blanks.c0 ≡ B.S0.Naming.book) × (blanks.c1 ≡ B.S1.Naming.book)
            × (blanks.c2 ≡ B.S2.Naming.book) × (blanks.c3 ≡ B.S3.Naming.book) }
        ensures ok { IfOk result (λ made. made ≡ record { shards = shards; config = config.now }) }
        ensures refusal { MatchOption (layout_fault shards config.now)
            (IsOkUnless result fault.NoMemory) (λ field. result ≡ Err (fault.BadConfig field)) }
    {
        if let Err(fault) = check(config, shards) {
            return Err(fault);
        }
        let Blanks {
            s0,
            h0,
            c0,
            s1,
            h1,
            c1,
            s2,
            h2,
            c2,
            s3,
            h3,
            c3,
        } = blanks;
        let zero = locked(alloc, config, 0, shards, s0, h0, c0)?;
        let one = locked(alloc, config, 1, shards, s1, h1, c1)?;
        let two = locked(alloc, config, 2, shards, s2, h2, c2)?;
        let three = locked(alloc, config, 3, shards, s3, h3, c3)?;
        Ok(Shards {
            shards,
            config: *config,
            zero,
            one,
            two,
            three,
        })
    }

    /// Returns a caller's part at each shard, of nothing yet.
    ///
    /// `PassesSpent` comes only once a shard has given out 65,535 of them, and is the only fault.
    /// Takes no memory, `alloc` isn't used. Takes each shard's lock in turn, and is no step.
    /// O(shards). Not promised: that it returns.
    pub fn pass<R: Wait>(&self, rt: &R, _alloc: Global) -> Result<Pass<K, V, B>, Fault>
        ensures ok { IfOk result (λ pass. pass ≡ new_pass self.now.shards) }
        ensures spent { IfErr result (λ f. f ≡ fault.PassesSpent) }
    {
        let (zero, one) = open_passes_at(rt, &self.zero, &self.one)?;
        let (two, three) = open_passes_at(rt, &self.two, &self.three)?;
        Ok(Pass {
            shards: self.shards,
            zero,
            one,
            two,
            three,
            sampler: Sampler::new(),
        })
    }
}
