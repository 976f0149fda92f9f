// Two threads on one cache, what one of them reads of the other, and what their passes show at the
// end.
ghost use Rattle.std.specs.Prelude.{◌≡◌};
ghost use Rattle.wt_shards.specs.Opening.{AreBlanksOf};

use crate::shards::fresh::{drop_and_look, put_and_seek};
use crate::shards::handing::hand_over;
use crate::shards::page::Page;
use crate::shards::peeking::{peek, put_and_peek};
use crate::shards::reading::read;
use crate::shards::writer::put_ten;
use std::alloc::Global;
use std::sync::Wait;
use std::thread;
use std::thread::Threads;
use wt_core::{Config, Notices, Reply};
use wt_keys::Fault;
use wt_shards::{Blanks, Books, Names, Of, Pass, Shards, Sought};

/// The versions of a page that was put for the second caller; 0 if it isn't served.
#[derive(Clone, Copy)]
pub struct Versions {
    /// At once.
    pub new: u64,
    /// After 999 ms.
    pub young: u64,
    /// After 1000 ms.
    pub old: u64,
}

/// The versions of a page that the second caller gets behind a write of the first; 0 if none.
#[derive(Clone, Copy)]
pub struct Fresh {
    /// By a seek behind a put.
    pub put: u64,
    /// By a look-up behind the page's removal.
    pub dropped: u64,
}

/// What the second caller finds, and how many steps were made.
#[derive(Clone, Copy)]
pub struct Seen {
    /// What it reads, by steps of its own.
    pub read: Versions,
    /// What it peeks at, which is no step.
    pub peeked: Versions,
    /// What it gets behind writes.
    pub fresh: Fresh,
    /// How many steps the settled books hold.
    pub steps: u64,
}

// The version that a look-up hits, or 0.
fn version_of(found: Reply<Page>) -> u64 {
    match found {
        Reply::Hit(page) => page.version,
        _ => 0,
    }
}

// Hands a page over from the first caller to the second one, which reads it at moment 0, at 999 and
// at 1000.
fn hands_over<B: Books, R: Wait>(
    rt: &R,
    alloc: Global,
    shards: &Shards<u64, Page, B>,
    a: &mut Pass<u64, Page, B>,
    b: &mut Pass<u64, Page, B>,
) -> Result<Versions, Fault> {
    let mut notices = Notices::new(alloc, 2 * shards.entries() as usize)?;
    let page = Page {
        number: 5,
        version: 99,
    };
    let (_, found) = hand_over(rt, shards, a, b, page.number, page, 0, &mut notices)?;
    let later = read(rt, alloc, shards, b, page.number, 999)?;
    let latest = read(rt, alloc, shards, b, page.number, 1000)?;
    Ok(Versions {
        new: version_of(found.reply),
        young: version_of(later.reply),
        old: version_of(latest.reply),
    })
}

// The version that a peek finds, or 0.
fn peeked_version(found: Option<Page>) -> u64 {
    match found {
        Some(page) => page.version,
        None => 0,
    }
}

// Puts a page with the first caller's pass at moment 1000. The second one peeks at it then, at 1999
// and at 2000.
fn puts_and_peeks<B: Books, R: Wait>(
    rt: &R,
    alloc: Global,
    shards: &Shards<u64, Page, B>,
    a: &mut Pass<u64, Page, B>,
    b: &mut Pass<u64, Page, B>,
) -> Result<Versions, Fault> {
    let mut notices = Notices::new(alloc, shards.entries() as usize)?;
    let page = Page {
        number: 6,
        version: 98,
    };
    let (_, found) = put_and_peek(rt, shards, a, b, page.number, page, 1000, &mut notices)?;
    let later = peek(rt, shards, b, page.number, 1999)?;
    let latest = peek(rt, shards, b, page.number, 2000)?;
    Ok(Versions {
        new: peeked_version(found),
        young: peeked_version(later),
        old: peeked_version(latest),
    })
}

// The version that a seek hits, or 0.
fn sought_version(sought: &Sought<u64, Page>) -> u64 {
    match sought {
        Sought::Hit(page) | Sought::HitLead(page, _, _) => page.version,
        Sought::Join(_) | Sought::Lead(_, _) => 0,
    }
}

// Puts a page with the first caller's pass, and lets the second one seek it. Then the first one
// removes it, and the second one looks it up.
fn puts_and_drops<B: Books, R: Wait>(
    rt: &R,
    alloc: Global,
    shards: &Shards<u64, Page, B>,
    a: &mut Pass<u64, Page, B>,
    b: &mut Pass<u64, Page, B>,
) -> Result<Fresh, Fault> {
    let mut notices = Notices::new(alloc, 2 * shards.entries() as usize)?;
    let page = Page {
        number: 7,
        version: 97,
    };
    let (_, sought) = put_and_seek(rt, shards, a, b, page.number, page, 2000, &mut notices)?;
    let mut others = Notices::new(alloc, 2 * shards.entries() as usize)?;
    let (_, found) = drop_and_look(rt, shards, a, b, page.number, 2000, &mut others)?;
    Ok(Fresh {
        put: sought_version(&sought.reply),
        dropped: version_of(found.reply),
    })
}

type Passes<B> = (Pass<u64, Page, B>, Pass<u64, Page, B>);

// Two passes, made here so that whoever makes them has one exit at which it drops neither.
fn two_passes<B: Books, R: Wait>(
    rt: &R,
    alloc: Global,
    shards: &Shards<u64, Page, B>,
) -> Result<Passes<B>, Fault> {
    let a = shards.pass(rt, alloc)?;
    let b = shards.pass(rt, alloc)?;
    Ok((a, b))
}

// Lets two threads put ten pages each, with a pass of its own each. Returns the passes.
fn puts<N: Names + Send + Sync, R: Threads + Wait + Sync>(
    rt: &R,
    alloc: Global,
    shards: &Shards<u64, Page, Of<N>>,
) -> Result<Passes<Of<N>>, Fault> {
    let (a, b) = two_passes(rt, alloc, shards)?;
    let (a, b) = thread::join(
        rt,
        || put_ten(rt, alloc, shards, a, 1),
        || put_ten(rt, alloc, shards, b, 101),
    );
    Ok((a?, b?))
}

// Hands the passes back, or the first one alone. Returns how many steps the settled books hold.
fn settles<N: Names, R: Wait>(
    rt: &R,
    alloc: Global,
    shards: Shards<u64, Page, Of<N>>,
    (a, b): Passes<Of<N>>,
    all: bool,
) -> Result<u64, Fault> {
    let mut passes = Vec::with_capacity(alloc, 2)?;
    passes.push_reserved(a);
    if all {
        passes.push_reserved(b);
    } else {
        drop(b);
    }
    let totals = shards.settle(rt, alloc, passes)?;
    let mut steps: u64 = 0;
    for shard in 0..4 {
        steps = steps.saturating_add(totals.of(shard).map_or(0, |total| total.steps));
    }
    Ok(steps)
}

/// Lets two threads put ten pages each, and hands three pages over from the first to the second.
///
/// Returns what the second one finds of them, then and later. If not all passes are handed back,
/// returns the fault that tells of it.
pub fn session<N: Names + Send + Sync, R: Threads + Wait + Sync>(
    rt: &R,
    alloc: Global,
    blanks: Blanks<u64, Page>,
    config: &Config,
    all: bool,
) -> Result<Seen, Fault>
    requires layout { N.layout ≡ record { shards = 4; config = config.now } }
    requires blanks { AreBlanksOf N.name N.book blanks }
{
    let shards: Shards<u64, Page, Of<N>> = Shards::new(rt, alloc, blanks, config, 4)?;
    let (mut a, mut b) = puts(rt, alloc, &shards)?;
    let read = hands_over(rt, alloc, &shards, &mut a, &mut b)?;
    let peeked = puts_and_peeks(rt, alloc, &shards, &mut a, &mut b)?;
    let fresh = puts_and_drops(rt, alloc, &shards, &mut a, &mut b)?;
    let steps = settles(rt, alloc, shards, (a, b), all)?;
    Ok(Seen {
        read,
        peeked,
        fresh,
        steps,
    })
}
