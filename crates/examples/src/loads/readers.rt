// Readers, and how threads ask at once.
use crate::loads::page::Page;
use crate::loads::source::{Marks, Source};
use std::alloc::Global;
use std::sync::Wait;
use std::sync::atomic::Ordering;
use std::thread;
use std::thread::Threads;
use wt_cache::Callers;
use wt_keys::Fault;
use wt_shards::{Names, Of};

/// A cache of pages, with the callers that it lends.
pub type Pages<N> = Callers<u64, Page, Source, Of<N>>;

/// Asks for a page, by a caller that is lent for this one request: how many words it has.
pub fn ask<N: Names, R: Wait>(rt: &R, pages: &Pages<N>, number: u64) -> Result<u64, Fault> {
    let mut caller = pages.lend(rt)?;
    let got = caller.get(number, 0);
    caller.give_back();
    Ok(got?.value.words)
}

/// Eight threads ask for page 7 at once: how many are answered.
pub fn ask_eight<N: Names + Send + Sync, R: Threads + Wait + Sync>(
    rt: &R,
    alloc: Global,
    pages: &Pages<N>,
    marks: &Marks,
) -> Result<u64, Fault> {
    let asked = thread::map_indices(
        rt,
        alloc,
        8,
        &|_reader: usize| -> Result<u64, Fault> {
            marks.asking.fetch_add(1, Ordering::SeqCst);
            ask(rt, pages, 7)
        },
    )?;
    let mut answers = 0u64;
    for words in asked {
        if words? == 300 {
            answers = answers.wrapping_add(1);
        }
    }
    Ok(answers)
}
