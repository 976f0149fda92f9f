// The readers of a cache that loads pages, and their results.
ghost use Rattle.std.specs.Prelude.{◌≡◌};
ghost use Rattle.wt_shards.specs.Opening.{AreBlanksOf};

use crate::loads::page::Page;
use crate::loads::readers::{Pages, ask, ask_eight};
use crate::loads::requests::{first_request, next_request};
use crate::loads::source::{Marks, Source};
use crate::loads::writer::put_later;
use std::alloc::Global;
use std::sync::atomic::Ordering;
use std::sync::{Arc, Wait};
use std::thread;
use std::thread::Threads;
use wt_cache::{Callers, LoadingCache};
use wt_core::{Config, Reply};
use wt_keys::Fault;
use wt_shards::{Blanks, Names, Of, Shards};

/// The results of the readers.
#[derive(Drop)]
pub struct Seen {
    /// How many of eight were answered, and by how many loads.
    pub eight: (u64, u64),
    /// The words that were loaded while others were put, and those that are there then.
    pub beside: (u64, u64),
    /// The result of a load that fails.
    pub failed: Result<u64, Fault>,
    /// The words that a request reads behind another one's put; 0 if it reads no page.
    pub read: u64,
}

// Puts page 9, of 900 words, by a request in a thread of its own, and reads it by the next request.
fn reads_put<N: Names + Send + Sync, R: Threads + Wait + Sync>(
    rt: &R,
    pages: &Pages<N>,
) -> Result<u64, Fault> {
    let (first, _) = thread::join(
        rt,
        || first_request(
            rt,
            pages,
            9,
            Page {
                number: 9,
                words: 900,
            },
            0,
        ),
        || ask(rt, pages, 7),
    );
    let (_, sight) = first?;
    let (found, _) = next_request(rt, pages, &sight, 9, 0)?;
    match found.reply {
        Reply::Hit(page) => Ok(page.words),
        _ => Ok(0),
    }
}

// Lets eight readers ask for page 7 at once, one ask for page 8 while it is put, one for a page that
// there isn't, and one for page 9 behind its put.
fn reads<N: Names + Send + Sync, R: Threads + Wait + Sync>(
    rt: &R,
    alloc: Global,
    pages: &Pages<N>,
    marks: &Marks,
) -> Result<Seen, Fault> {
    let answers = ask_eight(rt, alloc, pages, marks)?;
    let eight = (answers, marks.loads.load(Ordering::SeqCst));
    let (loaded, put) = thread::join(rt, || ask(rt, pages, 8), || put_later(rt, pages, marks, 2));
    put?;
    let beside = (loaded?, ask(rt, pages, 8)?);
    let failed = ask(rt, pages, 404);
    let read = reads_put(rt, pages)?;
    Ok(Seen {
        eight,
        beside,
        failed,
        read,
    })
}

/// Runs the readers on a cache of four shards.
pub fn session<N: Names + Send + Sync, R: Threads + Wait + Sync>(
    rt: &R,
    alloc: Global,
    blanks: Blanks<u64, Page>,
    config: &Config,
) -> Result<Seen, Fault>
    requires layout { N.layout ≡ record { shards = 4; config = config.now } }
    requires blanks { AreBlanksOf N.name N.book blanks }
{
    let shards: Shards<u64, Page, Of<N>> = Shards::new(rt, alloc, blanks, config, 4)?;
    let marks = Arc::new(alloc, Marks::new())?;
    let source = Source {
        marks: Arc::try_clone(&marks)?,
    };
    let callers: Pages<N> = Callers::new(alloc, LoadingCache::new(shards, source, None));
    reads(rt, alloc, &callers, &marks)
}
