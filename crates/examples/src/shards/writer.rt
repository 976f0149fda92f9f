// One thread's part.
use crate::shards::page::Page;
use std::alloc::Global;
use std::sync::Wait;
use wt_core::Notices;
use wt_keys::Fault;
use wt_shards::{Books, Pass, Shards};

// Puts ten pages.
fn put_by<B: Books, R: Wait>(
    rt: &R,
    alloc: Global,
    shards: &Shards<u64, Page, B>,
    pass: &mut Pass<u64, Page, B>,
    from: u64,
) -> Result<(), Fault> {
    let mut notices = Notices::new(alloc, shards.entries() as usize)?;
    for version in 0..10u64 {
        let number = from.wrapping_add(version);
        notices.empty();
        let page = Page { number, version };
        shards.put(rt, pass, number, page, 0, &mut notices)?;
    }
    Ok(())
}

/// Puts ten pages, and hands the pass back.
pub fn put_ten<B: Books, R: Wait>(
    rt: &R,
    alloc: Global,
    shards: &Shards<u64, Page, B>,
    mut pass: Pass<u64, Page, B>,
    from: u64,
) -> Result<Pass<u64, Page, B>, Fault> {
    match put_by(rt, alloc, shards, &mut pass, from) {
        Ok(()) => Ok(pass),
        Err(fault) => Err(fault),
    }
}
