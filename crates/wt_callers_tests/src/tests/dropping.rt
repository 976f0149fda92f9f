// Values are dropped under no lock of the lender: while one is, another caller is lent.
ghost use Rattle.std.specs.Prelude.{◌≡◌};
ghost use Rattle.wt_shards.specs.Opening.{AreBlanksOf};

use super::compare::same;
use std::alloc::Global;
use std::marker::{Brand, Model};
use std::sync::{Arc, Wait};
use std::test::Fail;
use std::thread;
use std::thread::Threads;
use wt_cache::{Callers, Loader, LoadingCache};
use wt_core::{Config, Measure, Weighs};
use wt_keys::{Answers, Fault, NoMemory, Share};
use wt_shards::{Blanks, Names, Of, Shards};
use wt_tests::Gate;

// A value that is dropped once its gate is open, if it has a gate. It weighs 1 and answers each key.
struct Slow {
    gate: Option<Arc<Gate, Global>>,
}

impl Drop for Slow {
    fn drop(self) {
        if let Some(shared) = &self.gate {
            let gate: &Gate = shared;
            let _ = gate.passes();
        }
        let Slow { gate: _ } = self;
    }
}

/// Contracts see nothing of it, so that a share equals its value whatever its gate is.
impl Model for Slow {
    ghost use Rattle.std.specs.Prelude.{ℕ};

    ghost Value = { ℕ };

    ghost view = { λ v. 0 };
}

/// A share is dropped at once.
impl Share for Slow {
    fn share(&self) -> Result<Slow, NoMemory> {
        // For the prover: shows what contracts see of this one.
        let _gate = &self.gate;
        Ok(Slow { gate: None })
    }
}

impl Weighs for Slow {
    ghost measure = { λ v. record { weight = 1; life = 0 } };

    fn measure(&self) -> Measure {
        Measure::lasting(1)
    }
}

impl Answers<u64> for Slow {
    ghost use Rattle.std.specs.Prelude.{true};

    ghost answers = { λ v key. true };

    fn answers(&self, _key: &u64) -> bool {
        true
    }
}

// A source of values that are dropped at once.
#[derive(Drop)]
struct Swiftly {}

impl Loader<u64, Slow> for Swiftly {
    fn load(&self, _key: &u64) -> Result<Slow, u32> {
        Ok(Slow { gate: None })
    }
}

// A cache of such values that lends callers.
type Lender<N> = Callers<u64, Slow, Swiftly, Of<N>>;

// Puts the value and another one in its place, so that the caller drops it as it is given back.
fn puts_twice<N: Names, R: Wait>(
    rt: &R,
    callers: &Lender<N>,
    gate: Arc<Gate, Global>,
) -> Result<usize, Fault> {
    let mut caller = callers.lend(rt)?;
    let first = caller.put(1, Slow { gate: Some(gate) }, 0);
    let second = caller.put(1, Slow { gate: None }, 0);
    let left = caller.left().len();
    caller.give_back();
    first?;
    second?;
    Ok(left)
}

// Lends a caller and gives it back while a value is dropped, which may end then. Whether one began.
fn lends_beside<N: Names, R: Wait>(
    rt: &R,
    callers: &Lender<N>,
    gate: &Gate,
) -> Result<bool, Fault> {
    let begun = gate.begins();
    let caller = callers.lend(rt);
    gate.open();
    caller?.give_back();
    Ok(begun)
}

// How many values a caller drops as it is given back, whether another one was lent meanwhile, and
// whether the drop ended by that.
type Seen = (usize, bool, bool);

// One thread puts twice, and so drops a value; another is lent a caller meanwhile.
fn drops_beside<N: Names + Send + Sync, R: Threads + Wait + Sync>(
    rt: &R,
    callers: &Lender<N>,
    gate: &Gate,
    theirs: Arc<Gate, Global>,
) -> Result<Seen, Fault> {
    let (left, begun) = thread::join(
        rt,
        || puts_twice(rt, callers, theirs),
        || lends_beside(rt, callers, gate),
    );
    Ok((left?, begun?, !gate.given_up()))
}

fn drop_beside<N: Names + Send + Sync, R: Threads + Wait + Sync>(
    rt: &R,
    alloc: Global,
    blanks: Blanks<u64, Slow>,
    limits: &Config,
) -> Result<Seen, Fault>
    requires layout { N.layout ≡ record { shards = 1; config = limits.now } }
    requires blanks { AreBlanksOf N.name N.book blanks }
{
    let held = Gate::new(alloc)?;
    let theirs = Arc::try_clone(&held)?;
    let shards: Shards<u64, Slow, Of<N>> = Shards::new(rt, alloc, blanks, limits, 1)?;
    let callers: Lender<N> = Callers::new(alloc, LoadingCache::new(shards, Swiftly {}, None));
    drops_beside(rt, &callers, &held, theirs)
}

#[test]
fn a_caller_is_lent_while_another_one_drops_a_value(rt: HostRuntime) -> Result<(), Fail> {
    let seen = drop_beside::<Brand, HostRuntime>(&rt, rt.alloc(), Blanks::new(), &Config::of(4));
    same(
        &rt,
        "values dropped, whether one was lent meanwhile, and before the drop ended",
        seen,
        Ok((1, true, true)),
    );
    Ok(())
}
