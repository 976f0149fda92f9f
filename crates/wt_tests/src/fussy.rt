//! A value whose shares can be refused.
use std::alloc::Global;
use std::cell::Cell;
use std::marker::Model;
use std::rc::Rc;
use wt_keys::{Answers, NoMemory, Share};
use wt_regions::{Measure, Weighs};

/// A value that counts down with each share of it and of its like: the share that comes to 0 is
/// refused. It weighs 1, and answers each key.
#[derive(Drop)]
pub struct Fussy {
    version: u64,
    left: Rc<Cell<u32>>,
}

impl Model for Fussy {
    ghost use Rattle.std.specs.Prelude.{ℕ};

    ghost Value = { ℕ };

    ghost view = { λ f. f.version };
}

impl Fussy {
    /// Makes a value that counts by `left`.
    pub fn new(version: u64, left: Rc<Cell<u32>>) -> Fussy {
        Fussy { version, left }
    }
}

/// Makes the counter of values: the number of the next share that is refused, where 0 refuses none.
/// If the first is refused memory, it asks once more.
pub fn counter(alloc: Global) -> Result<Rc<Cell<u32>>, NoMemory> {
    if let Ok(left) = Rc::new(alloc, Cell::new(0)) {
        return Ok(left);
    }
    match Rc::new(alloc, Cell::new(0)) {
        Ok(left) => Ok(left),
        Err(_) => Err(NoMemory),
    }
}

impl Share for Fussy {
    fn share(&self) -> Result<Fussy, NoMemory> {
        let left = self.left.get();
        self.left.set(left.saturating_sub(1));
        if left == 1 {
            return Err(NoMemory);
        }
        Ok(Fussy {
            version: self.version,
            left: self.left.clone()?,
        })
    }
}

impl Weighs for Fussy {
    ghost use Rattle.wt_regions.specs.Lists.{lasting};

    ghost measure = { λ _. lasting 1 };

    fn measure(&self) -> Measure {
        Measure::lasting(1)
    }
}

impl Answers<u64> for Fussy {
    ghost use Rattle.std.specs.Prelude.{true};

    ghost answers = { λ v key. true };

    fn answers(&self, _key: &u64) -> bool {
        true
    }
}
