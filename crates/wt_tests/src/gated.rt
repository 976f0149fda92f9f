//! A gate, and a value whose share waits before it: a look-up that finds it holds its shard's lock
//! until the gate opens.
use std::alloc::Global;
use std::marker::Model;
use std::sync::Arc;
use std::sync::atomic::{AtomicBool, Ordering};
use std::thread;
use wt_keys::{Answers, NoMemory, Share};
use wt_regions::{Measure, Weighs};

/// A gate at which a share or a drop waits. It shows that one has begun, and lets it go on once it
/// is opened.
#[derive(Drop)]
pub struct Gate {
    begun: AtomicBool,
    open: AtomicBool,
    given_up: AtomicBool,
}

// Returns whether the mark is set within 10,000,000 turns.
fn comes(mark: &AtomicBool) -> bool {
    for _ in 0..10_000_000u32 {
        if mark.load(Ordering::SeqCst) {
            return true;
        }
        thread::yield_now();
    }
    false
}

impl Gate {
    /// Makes a gate that is shut.
    pub fn new(alloc: Global) -> Result<Arc<Gate, Global>, NoMemory> {
        let begun = AtomicBool::new(false);
        let open = AtomicBool::new(false);
        let given_up = AtomicBool::new(false);
        Ok(Arc::new(
            alloc,
            Gate {
                begun,
                open,
                given_up,
            },
        )?)
    }

    /// Waits for one to begin. Returns whether it did within 10,000,000 turns.
    pub fn begins(&self) -> bool {
        comes(&self.begun)
    }

    /// Tells that somebody has come, and waits until the gate is open. Returns whether it was within
    /// 10,000,000 turns.
    pub fn passes(&self) -> bool {
        self.begun.store(true, Ordering::SeqCst);
        let passed = comes(&self.open);
        if !passed {
            self.given_up.store(true, Ordering::SeqCst);
        }
        passed
    }

    /// Returns whether one gave up waiting.
    pub fn given_up(&self) -> bool {
        self.given_up.load(Ordering::SeqCst)
    }

    /// Opens the gate, for good.
    pub fn open(&self) {
        self.open.store(true, Ordering::SeqCst);
    }
}

/// A value whose share waits until its gate is open, if it has a gate. It weighs 1 and answers each
/// key.
#[derive(Drop)]
pub struct Gated {
    gate: Option<Arc<Gate, Global>>,
}

/// Contracts see nothing of it, so that a share equals its value whatever its gate is.
impl Model for Gated {
    ghost use Rattle.std.specs.Prelude.{ℕ};

    ghost Value = { ℕ };

    ghost view = { λ v. 0 };
}

impl Gated {
    /// Makes a value whose shares wait for this gate.
    pub fn by(gate: Arc<Gate, Global>) -> Gated {
        Gated { gate: Some(gate) }
    }

    /// Makes a value whose shares wait for nothing.
    pub fn free() -> Gated {
        Gated { gate: None }
    }
}

impl Share for Gated {
    fn share(&self) -> Result<Gated, NoMemory> {
        let Some(shared) = &self.gate else {
            return Ok(Gated::free());
        };
        let gate: &Gate = shared;
        if !gate.passes() {
            return Err(NoMemory);
        }
        Ok(Gated::by(Arc::try_clone(shared)?))
    }
}

impl Weighs for Gated {
    ghost use Rattle.wt_regions.specs.Lists.{lasting};

    ghost measure = { λ v. lasting 1 };

    fn measure(&self) -> Measure {
        Measure::lasting(1)
    }
}

impl Answers<u64> for Gated {
    ghost use Rattle.std.specs.Prelude.{true};

    ghost answers = { λ v key. true };

    fn answers(&self, _key: &u64) -> bool {
        true
    }
}
