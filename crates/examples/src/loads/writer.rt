// Who puts a page beside a load.
use crate::loads::page::Page;
use crate::loads::readers::Pages;
use crate::loads::source::{Marks, wait_for};
use std::sync::Wait;
use std::sync::atomic::Ordering;
use wt_keys::Fault;
use wt_shards::Names;

/// Puts page 8, of 800 words, once `loads` loads have begun.
pub fn put_later<N: Names, R: Wait>(
    rt: &R,
    pages: &Pages<N>,
    marks: &Marks,
    loads: u64,
) -> Result<(), Fault> {
    let mut caller = pages.lend(rt)?;
    wait_for(&marks.loads, loads);
    let page = Page {
        number: 8,
        words: 800,
    };
    let put = caller.put(8, page, 0);
    caller.give_back();
    marks.put.fetch_add(1, Ordering::SeqCst);
    put?;
    Ok(())
}
