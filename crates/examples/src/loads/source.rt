// The slow source.
use crate::loads::error::SourceError;
use crate::loads::page::Page;
use std::alloc::Global;
use std::sync::Arc;
use std::sync::atomic::{AtomicU64, Ordering};
use std::thread;
use wt_cache::Loader;

/// What happened so far: loads begun, readers about to ask, pages put.
#[derive(Drop)]
pub struct Marks {
    pub loads: AtomicU64,
    pub asking: AtomicU64,
    pub put: AtomicU64,
}

impl Marks {
    /// Makes marks of nothing yet.
    pub fn new() -> Marks {
        Marks {
            loads: AtomicU64::new(0),
            asking: AtomicU64::new(0),
            put: AtomicU64::new(0),
        }
    }
}

/// A source that is slow: page 7 takes until eight readers ask, page 8 until a page was put.
#[derive(Drop)]
pub struct Source {
    pub marks: Arc<Marks, Global>,
}

/// Waits until the mark has risen to `many`, at most 10,000,000 turns.
pub fn wait_for(mark: &AtomicU64, many: u64) {
    for _ in 0..10_000_000u64 {
        if mark.load(Ordering::SeqCst) >= many {
            return;
        }
        thread::yield_now();
    }
}

impl Loader<u64, Page> for Source {
    fn load(&self, number: &u64) -> Result<Page, u32> {
        let number = *number;
        self.marks.loads.fetch_add(1, Ordering::SeqCst);
        match number {
            7 => wait_for(&self.marks.asking, 8),
            8 => wait_for(&self.marks.put, 1),
            404 => return Err(SourceError::Missing as u32),
            _ => {}
        }
        Ok(Page { number, words: 300 })
    }
}
