// The value that the example keeps for a name, and its loader.
use std::sync::atomic::{AtomicU64, Ordering};
use wt_cache::Loader;
use wt_core::{Measure, Weighs};
use wt_keys::{Answers, Name, NoMemory, Share};

/// The number of the load that found a name.
#[derive(Clone, Copy)]
pub struct Tally {
    pub name: Name,
    pub load: u64,
}

impl Share for Tally {
    fn share(&self) -> Result<Tally, NoMemory> {
        Ok(*self)
    }
}

impl Weighs for Tally {
    ghost measure = { λ tally. record { weight = 1; life = 0 } };

    fn measure(&self) -> Measure {
        Measure::lasting(1)
    }
}

impl Answers<Name> for Tally {
    ghost use Rattle.std.specs.Prelude.{nat_eq};
    ghost use Rattle.std.specs.Cmp.Lexicographic.{pointwise};

    ghost answers = { λ tally name. pointwise nat_eq tally.name name };

    fn answers(&self, name: &Name) -> bool {
        self.name == *name
    }
}

/// Numbers its loads.
#[derive(Drop)]
pub struct Loads {
    pub made: AtomicU64,
}

impl Loader<Name, Tally> for Loads {
    #[tactic(auto, using(crate::proofs::Reflexive::itself))]
    fn load(&self, name: &Name) -> Result<Tally, u32> {
        let load = self.made.fetch_add(1, Ordering::SeqCst).wrapping_add(1);
        Ok(Tally { name: *name, load })
    }
}
