// Where the loading cache's values come from.
use crate::line::Load;
use std::sync::atomic::{AtomicBool, AtomicU32, AtomicU64, Ordering};
use wt_cache::Loader;
use wt_tests::Loaded;

/// A source that returns the result that was set last.
#[derive(Drop)]
pub struct Source {
    fails: AtomicBool,
    version: AtomicU64,
    // The value's weight, or the error's code.
    number: AtomicU32,
    life: AtomicU32,
}

impl Source {
    /// Makes a source without a result: it fails with code 0.
    pub fn new() -> Source {
        Source {
            fails: AtomicBool::new(true),
            version: AtomicU64::new(0),
            number: AtomicU32::new(0),
            life: AtomicU32::new(0),
        }
    }

    /// Tells it what to return from now on.
    pub fn tell(&self, load: Load) {
        match load {
            Load::Value(value) => {
                self.fails.store(false, Ordering::SeqCst);
                self.version.store(value.version, Ordering::SeqCst);
                self.number.store(value.weight, Ordering::SeqCst);
                self.life.store(value.life, Ordering::SeqCst);
            }
            Load::Failed(code) => {
                self.fails.store(true, Ordering::SeqCst);
                self.number.store(code, Ordering::SeqCst);
            }
        }
    }
}

impl Loader<u64, Loaded> for Source {
    fn load(&self, _key: &u64) -> Result<Loaded, u32> {
        let number = self.number.load(Ordering::SeqCst);
        if self.fails.load(Ordering::SeqCst) {
            return Err(number);
        }
        let version = self.version.load(Ordering::SeqCst);
        Ok(Loaded {
            version,
            weight: number,
            life: self.life.load(Ordering::SeqCst),
        })
    }
}
