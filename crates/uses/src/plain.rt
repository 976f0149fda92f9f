// A `Core`: the cache of one thread, or one behind a lock of your own. A call that changes it is
// given a list for what it pushes out, with room for `Core::entries` notices. A program that makes
// many calls keeps one list and empties it, as `examples::shards` does.
use crate::source::Page;
use std::alloc::Global;
use wt_core::{Call, Config, Core, Foreseen, Land, Notices, Region, Reply, Stats, run_calls};
use wt_keys::Fault;

/// A cache of pages by their numbers.
pub type Pages = Core<u64, Page>;

/// Makes a cache of a thousand pages.
pub fn new(alloc: Global) -> Result<Pages, Fault> {
    Core::new(alloc, &Config::of(1000))
}

/// Returns the words of a page, if it is there.
pub fn look(alloc: Global, pages: &mut Pages, number: u64, now: u64) -> Result<Option<u64>, Fault> {
    let mut left = Notices::new(alloc, pages.entries() as usize)?;
    match pages.look(number, now, &mut left)? {
        Reply::Hit(page) => Ok(Some(page.value)),
        _absent => Ok(None),
    }
}

/// Returns the id under which the caller is to load a page and to land it, if it is to do so.
pub fn seek(alloc: Global, pages: &mut Pages, number: u64, now: u64) -> Result<Option<u64>, Fault> {
    let mut left = Notices::new(alloc, pages.entries() as usize)?;
    match pages.seek(number, now, &mut left)? {
        // Nothing is there, or what is there is due.
        Reply::Lead(id) | Reply::HitLead(_, id) => Ok(Some(id)),
        // The page is there, or another load of it is open.
        _found => Ok(None),
    }
}

/// Ends a load by what its source returned, and returns whether the page was stored.
pub fn land(
    alloc: Global,
    pages: &mut Pages,
    id: u64,
    number: u64,
    words: Option<u64>,
    now: u64,
) -> Result<bool, Fault> {
    let mut left = Notices::new(alloc, pages.entries() as usize)?;
    let what = match words {
        Some(value) => Land::Keep(Page { key: number, value }),
        None => Land::Failed,
    };
    let reply = pages.land(id, number, what, now, &mut left)?;
    Ok(matches!(reply, Reply::Kept(_)))
}

/// Stores a page, and returns how many pages left for it.
pub fn put(
    alloc: Global,
    pages: &mut Pages,
    number: u64,
    words: u64,
    now: u64,
) -> Result<usize, Fault> {
    let mut left = Notices::new(alloc, pages.entries() as usize)?;
    let page = Page {
        key: number,
        value: words,
    };
    pages.put(number, page, now, &mut left)?;
    Ok(left.list().len())
}

/// Takes a page out, and returns whether it was there.
pub fn drop_key(alloc: Global, pages: &mut Pages, number: u64, now: u64) -> Result<bool, Fault> {
    let mut left = Notices::new(alloc, pages.entries() as usize)?;
    pages.drop_key(number, now, &mut left)
}

/// Lets the open load of a page store nothing, and returns whether there was one.
pub fn forget(alloc: Global, pages: &mut Pages, number: u64, now: u64) -> Result<bool, Fault> {
    let mut left = Notices::new(alloc, pages.entries() as usize)?;
    pages.forget(number, now, &mut left)
}

/// Takes all pages out, and returns how many there were.
pub fn clear(alloc: Global, pages: &mut Pages, now: u64) -> Result<usize, Fault> {
    let mut left = Notices::new(alloc, pages.entries() as usize)?;
    pages.clear(now, &mut left)?;
    Ok(left.list().len())
}

/// Takes the expired pages out, and returns how many there were.
pub fn clean(alloc: Global, pages: &mut Pages, now: u64) -> Result<usize, Fault> {
    let mut left = Notices::new(alloc, pages.entries() as usize)?;
    pages.clean(now, &mut left)?;
    Ok(left.list().len())
}

/// Gives window a place of main, if it can, and returns how many entries window may hold then.
pub fn slide(pages: &mut Pages, now: u64) -> Result<u32, Fault> {
    pages.slide(true, now)?;
    Ok(pages.window())
}

/// Makes a call that came as data, and returns whether it hit. A refusal is a reply here.
pub fn take(alloc: Global, pages: &mut Pages, call: Call<u64, Page>) -> Result<bool, Fault> {
    let mut left = Notices::new(alloc, pages.entries() as usize)?;
    let reply = pages.take(call, &mut left)?;
    Ok(matches!(reply, Reply::Hit(_) | Reply::HitLead(_, _)))
}

/// Makes calls that came as data, one after another, and returns how many look-ups hit.
pub fn run(alloc: Global, pages: &mut Pages, calls: Vec<Call<u64, Page>>) -> Result<usize, Fault> {
    let mut left = Notices::new(alloc, pages.entries() as usize)?;
    let replies = run_calls(alloc, pages, calls, &mut left)?;
    let hits = replies
        .iter()
        .filter(|reply| matches!(reply, Reply::Hit(_)));
    Ok(hits.count())
}

/// Returns whether a seek would find the page. Nothing is counted.
pub fn foresee(pages: &Pages, number: u64, now: u64) -> bool {
    let met = pages.foresee(number, now);
    matches!(met, Foreseen::Hit | Foreseen::HitLead(_))
}

/// Returns the numbers of the cache.
pub fn stats(pages: &Pages) -> Stats {
    pages.stats()
}

/// Returns the page of the window that was used last, if there is one.
pub fn order(alloc: Global, pages: &Pages) -> Result<Option<u64>, Fault> {
    let window = pages.order(alloc, Region::Window)?;
    Ok(window.first().copied())
}
