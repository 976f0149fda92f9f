// Calls of a cache of versions, each with notices of its own: in plain values what they answer.
use crate::tests::stage::{Cache, Plain, Version};
use std::alloc::Global;
use std::sync::Wait;
use wt_cache::How;
use wt_core::{Cause, Notices, Reply};
use wt_flights::{Lead, Ticket};
use wt_keys::Fault;
use wt_shards::{Names, Of, Pass, Sought};

/// A lead and its ticket, where there is a load.
pub type Led = Option<(Lead<u64, Version>, Ticket<u64, Version>)>;

/// Seeks a key at the shards: the load that this opens.
pub fn led<N: Names, R: Wait>(
    rt: &R,
    alloc: Global,
    shards: &Plain<N>,
    pass: &mut Pass<u64, Version, Of<N>>,
    key: u64,
) -> Result<Led, Fault> {
    let mut notices = Notices::new(alloc, shards.entries() as usize)?;
    let done = shards.seek(rt, pass, key, 0, &mut notices)?;
    match done.reply {
        Sought::Lead(lead, ticket) => Ok(Some((lead, ticket))),
        _ => Ok(None),
    }
}

/// Looks a key up: the line of the version that is there, and the step.
pub fn present<N: Names, R: Wait>(
    rt: &R,
    alloc: Global,
    cache: &Cache<N>,
    pass: &mut Pass<u64, Version, Of<N>>,
    key: u64,
) -> Result<(Option<u64>, u64), Fault> {
    let mut notices = Notices::new(alloc, cache.entries() as usize)?;
    let done = cache.get_if_present(rt, pass, key, 0, &mut notices)?;
    match done.reply {
        Reply::Hit(version) => Ok((Some(version.line), done.step)),
        _ => Ok((None, done.step)),
    }
}

/// Takes a key's value out: whether there was one.
pub fn invalidate<N: Names, R: Wait>(
    rt: &R,
    alloc: Global,
    cache: &Cache<N>,
    pass: &mut Pass<u64, Version, Of<N>>,
    key: u64,
) -> Result<bool, Fault> {
    let mut notices = Notices::new(alloc, cache.entries() as usize)?;
    let done = cache.invalidate(rt, pass, key, 0, &mut notices)?;
    Ok(done.reply)
}

/// Forgets a key's load: whether there was one.
pub fn forget<N: Names, R: Wait>(
    rt: &R,
    alloc: Global,
    cache: &Cache<N>,
    pass: &mut Pass<u64, Version, Of<N>>,
    key: u64,
) -> Result<bool, Fault> {
    let mut notices = Notices::new(alloc, cache.entries() as usize)?;
    let done = cache.forget(rt, pass, key, 0, &mut notices)?;
    Ok(done.reply)
}

/// Gives a load up.
pub fn abandon<N: Names, R: Wait>(
    rt: &R,
    alloc: Global,
    cache: &Cache<N>,
    pass: &mut Pass<u64, Version, Of<N>>,
    lead: Lead<u64, Version>,
) -> Result<(), Fault> {
    let mut notices = Notices::new(alloc, cache.entries() as usize)?;
    cache.abandon(rt, pass, lead, &mut notices)
}

/// The same with a pass of its own.
pub fn abandons<N: Names, R: Wait>(
    rt: &R,
    alloc: Global,
    cache: &Cache<N>,
    lead: Lead<u64, Version>,
) -> Result<(), Fault> {
    let mut pass = cache.pass(rt, alloc)?;
    abandon(rt, alloc, cache, &mut pass, lead)
}

/// How a key is got, and the line of the version.
pub type Answer = Result<(How, u64), Fault>;

/// Gets a key.
pub fn get<N: Names, R: Wait>(
    rt: &R,
    alloc: Global,
    cache: &Cache<N>,
    pass: &mut Pass<u64, Version, Of<N>>,
    key: u64,
    now: u64,
) -> Answer {
    let mut notices = Notices::new(alloc, 2 * cache.entries() as usize)?;
    let got = cache.get(rt, pass, key, now, &mut notices)?;
    Ok((got.how, got.value.line))
}

/// Puts a version under its key: the step.
pub fn put<N: Names, R: Wait>(
    rt: &R,
    alloc: Global,
    cache: &Cache<N>,
    pass: &mut Pass<u64, Version, Of<N>>,
    version: Version,
    now: u64,
) -> Result<u64, Fault> {
    let mut notices = Notices::new(alloc, cache.entries() as usize)?;
    let done = cache.put(rt, pass, version.key, version, now, &mut notices)?;
    Ok(done.step)
}

/// The notices of a call: their number, and the key and the cause of the first.
pub type NoticeSummary = (usize, u64, Option<Cause>);

// The contents of a list of notices.
fn summary_of(notices: &Notices<u64, Version>) -> NoticeSummary {
    let list = notices.list();
    match list.first() {
        Some(first) => (list.len(), first.key, Some(first.cause)),
        None => (0, 0, None),
    }
}

/// Takes out first what has expired at the moment 10, and then all: what each of the two told.
pub fn sweep<N: Names, R: Wait>(
    rt: &R,
    alloc: Global,
    cache: &Cache<N>,
    pass: &mut Pass<u64, Version, Of<N>>,
) -> Result<(NoticeSummary, NoticeSummary), Fault> {
    let shards = cache.shards();
    let mut notices = Notices::new(alloc, shards * cache.entries() as usize)?;
    cache.clean_up(rt, pass, 10, &mut notices)?;
    let cleaned = summary_of(&notices);
    notices.empty();
    cache.invalidate_all(rt, pass, 10, &mut notices)?;
    Ok((cleaned, summary_of(&notices)))
}
