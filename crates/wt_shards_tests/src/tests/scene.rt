// A test on a shard of its own.
ghost use Rattle.std.specs.Prelude.{◌≡◌, ℕ, IsTrue};
ghost use Rattle.wt_shards.specs.Opening.{AreBlanksOf};

use super::run::Run;
use std::alloc::Global;
use std::marker::Brand;
use std::process::Abort;
use wt_core::{Config, Weighs};
use wt_keys::{Answers, Fault, Share};
use wt_shards::{Blanks, Names};

// The work of a test with its shard.
pub trait Scene<V: Share + Weighs + Answers<u64>> {
    fn play<N: Names, R: Abort>(
        &self,
        rt: &R,
        alloc: Global,
        limits: &Config,
        run: &mut Run<V, N>,
    ) -> Result<(), Fault>;
}

fn played<V: Share + Weighs + Answers<u64>, N: Names, R: Abort, S: Scene<V>>(
    rt: &R,
    alloc: Global,
    blanks: Blanks<u64, V>,
    limits: &Config,
    scene: &S,
) -> Result<(), Fault>
    requires layout { N.layout ≡ record { shards = 1; config = limits.now } }
    requires blanks { AreBlanksOf N.name N.book blanks }
    requires answers { (v : V) (k : ℕ) → IsTrue (V.answers v k) }
{
    let mut run: Run<V, N> = Run::new(alloc, limits, blanks)?;
    scene.play(rt, alloc, limits, &mut run)
}

// Plays on a new shard. The one place that names the ledgers of these shards.
pub fn plays<V: Share + Weighs + Answers<u64>, R: Abort, S: Scene<V>>(
    rt: &R,
    alloc: Global,
    limits: &Config,
    scene: &S,
) -> Result<(), Fault>
    requires answers { (v : V) (k : ℕ) → IsTrue (V.answers v k) }
{
    played::<V, Brand, R, S>(rt, alloc, Blanks::new(), limits, scene)
}
