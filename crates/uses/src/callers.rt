// A `Caller`: one thread's way to a cache that threads share.
ghost use Rattle.std.specs.Prelude.{◌≡◌, ◌*◌, ◌≤◌};

use crate::source::{Page, Source};
use std::sync::Wait;
use wt_cache::{Caller, Callers, Followers, How, Tally, Unseen};
use wt_core::{Notices, Reply};
use wt_keys::Fault;
use wt_shards::Books;

/// Returns the words of a page, and whether this call loaded it.
pub fn get<B: Books, R: Wait>(
    caller: &mut Caller<u64, Page, &Source, B, R>,
    number: u64,
    now: u64,
) -> Result<(u64, bool), Fault> {
    let got = caller.get(number, now)?;
    Ok((got.value.value, got.how == How::Loaded))
}

/// Gets a page by two callers of one cache, and returns its words, and whether they shared its load.
pub fn get_both<B: Books, R: Wait>(
    one: &mut Caller<u64, Page, &Source, B, R>,
    other: &mut Caller<u64, Page, &Source, B, R>,
    number: u64,
    now: u64,
) -> Result<(u64, bool), Fault>
    requires one_cache { other.old.cache ≡ one.old.cache }
{
    let mut mine = one.get_sharing(number, now)?;
    let mut theirs = other.get_sharing(number, now)?;
    let shared = mine.shares_with(&mut theirs);
    Ok((mine.got().value.value, shared))
}

/// Returns the words of a page, if it is there.
pub fn get_if_present<B: Books, R: Wait>(
    caller: &mut Caller<u64, Page, &Source, B, R>,
    number: u64,
    now: u64,
) -> Result<Option<u64>, Fault> {
    match caller.get_if_present(number, now)?.reply {
        Reply::Hit(page) => Ok(Some(page.value)),
        _absent => Ok(None),
    }
}

/// Returns the words of a page, if it is there, with nothing used.
pub fn peek<B: Books, R: Wait>(
    caller: &mut Caller<u64, Page, &Source, B, R>,
    number: u64,
    now: u64,
) -> Result<Option<u64>, Fault> {
    match caller.peek(number, now)? {
        Some(page) => Ok(Some(page.value)),
        None => Ok(None),
    }
}

/// Returns the words of a page: by a read, or else by a get, which loads it if it isn't there.
pub fn read<B: Books, R: Wait>(
    caller: &mut Caller<u64, Page, &Source, B, R>,
    number: u64,
    now: u64,
) -> Result<u64, Fault> {
    if let Some(page) = caller.read(number, now)? {
        return Ok(page.value);
    }
    let got = caller.get(number, now)?;
    Ok(got.value.value)
}

/// Returns for how many more pages the cache has room, after all calls that the caller has seen.
pub fn seen_stats<B: Books, R: Wait>(caller: &mut Caller<u64, Page, &Source, B, R>) -> u64 {
    let cache = caller.cache();
    let most = u64::from(cache.entries()) * cache.shards() as u64;
    most - caller.seen_stats().entries
}

/// Stores a page, and returns how many pages left for it.
pub fn put<B: Books, R: Wait>(
    caller: &mut Caller<u64, Page, &Source, B, R>,
    number: u64,
    words: u64,
    now: u64,
) -> Result<usize, Fault> {
    let page = Page {
        key: number,
        value: words,
    };
    caller.put(number, page, now)?;
    Ok(caller.left().len())
}

/// Takes a page out, and returns whether it was there.
pub fn invalidate<B: Books, R: Wait>(
    caller: &mut Caller<u64, Page, &Source, B, R>,
    number: u64,
    now: u64,
) -> Result<bool, Fault> {
    Ok(caller.invalidate(number, now)?.reply)
}

/// Has the open load of a page not stored, and returns whether there was one.
pub fn forget<B: Books, R: Wait>(
    caller: &mut Caller<u64, Page, &Source, B, R>,
    number: u64,
    now: u64,
) -> Result<bool, Fault> {
    Ok(caller.forget(number, now)?.reply)
}

/// Makes the window of a page's shard wider, and returns whether that was possible.
pub fn slide<B: Books, R: Wait>(
    caller: &mut Caller<u64, Page, &Source, B, R>,
    number: u64,
    now: u64,
) -> Result<bool, Fault> {
    Ok(caller.slide(number, true, now)?.reply)
}

/// Returns the words of a page, and lets the window of its shard follow this look-up.
pub fn follow<B: Books, R: Wait>(
    caller: &mut Caller<u64, Page, &Source, B, R>,
    followers: &Followers<u64>,
    number: u64,
    now: u64,
) -> Result<u64, Fault> {
    let got = caller.get(number, now)?;
    // A window that stays for once is no reason to refuse the page.
    let _slides = caller.follow(followers, number, now);
    Ok(got.value.value)
}

/// Returns the words of a page, and lets the window of its shard follow this look-up. The advisers see
/// the keys later, sixteen at a time.
pub fn follow_by<B: Books, R: Wait>(
    caller: &mut Caller<u64, Page, &Source, B, R>,
    followers: &Followers<u64>,
    unseen: &mut Unseen<u64>,
    number: u64,
    now: u64,
) -> Result<u64, Fault> {
    let got = caller.get(number, now)?;
    let _slides = caller.follow_by(followers, unseen, number, now);
    Ok(got.value.value)
}

/// Takes all pages out. `left` has room for those of all shards.
pub fn invalidate_all<B: Books, R: Wait>(
    caller: &mut Caller<u64, Page, &Source, B, R>,
    left: &mut Notices<u64, Page>,
    now: u64,
) -> Result<(), Fault>
    requires room { caller.old.cache.layout.shards * caller.old.cache.layout.config.entries
        ≤ left.old.room }
{
    caller.invalidate_all(now, left)
}

/// Takes the expired pages out. `left` has room for those of all shards.
pub fn clean_up<B: Books, R: Wait>(
    caller: &mut Caller<u64, Page, &Source, B, R>,
    left: &mut Notices<u64, Page>,
    now: u64,
) -> Result<(), Fault>
    requires room { caller.old.cache.layout.shards * caller.old.cache.layout.config.entries
        ≤ left.old.room }
{
    caller.clean_up(now, left)
}

/// Gets a page by a caller that is lent for this one request, and counts what the call met.
pub fn lend<B: Books, R: Wait>(
    rt: &R,
    callers: &Callers<u64, Page, &Source, B>,
    tally: &mut Tally,
    number: u64,
    now: u64,
) -> Result<u64, Fault> {
    let mut caller = callers.lend(rt)?;
    let got = caller.get(number, now);
    tally.count(&got, caller.left());
    caller.give_back();
    Ok(got?.value.value)
}

/// Stores a page by one request's caller, and returns its words as the next request reads them.
pub fn learn<B: Books, R: Wait>(
    rt: &R,
    callers: &Callers<u64, Page, &Source, B>,
    number: u64,
    words: u64,
    now: u64,
) -> Result<Option<u64>, Fault> {
    let mut first = callers.lend(rt)?;
    let stored = put(&mut first, number, words, now);
    let sight = first.give_back();
    stored?;
    let mut next = callers.lend(rt)?;
    next.learn(&sight);
    let found = get_if_present(&mut next, number, now);
    next.give_back();
    found
}
