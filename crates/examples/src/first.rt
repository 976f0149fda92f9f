// A first cache: pages of a site are put, looked up, and some leave.
use std::alloc::Global;
use std::io::Print;
use wt_core::{Config, Core, Measure, Notices, Reply, Weighs};
use wt_keys::{NoMemory, Share};

/// A page, by how often it was seen.
#[derive(Clone, Copy)]
struct Page {
    views: u64,
}

impl Share for Page {
    fn share(&self) -> Result<Page, NoMemory> {
        Ok(*self)
    }
}

impl Weighs for Page {
    ghost measure = { λ _. record { weight = 1; life = 0 } };

    fn measure(&self) -> Measure {
        Measure::lasting(1)
    }
}

// Puts a page, and prints the entries that left for it.
fn put<R: Print>(
    rt: &R,
    alloc: Global,
    cache: &mut Core<u64, Page>,
    key: u64,
    page: Page,
) -> anyhow::Result<()> {
    let mut left = Notices::new(alloc, cache.entries() as usize)?;
    cache.put(key, page, 0, &mut left)?;
    for notice in left.list() {
        println!(rt; "page {} left: {:?}", notice.key, notice.cause)?;
    }
    Ok(())
}

// Looks a page up, and prints how often it was seen.
fn look<R: Print>(
    rt: &R,
    alloc: Global,
    cache: &mut Core<u64, Page>,
    key: u64,
) -> anyhow::Result<()> {
    let mut left = Notices::new(alloc, cache.entries() as usize)?;
    if let Reply::Hit(page) = cache.look(key, 5, &mut left)? {
        println!(rt; "page {key} has {} views", page.views)?;
    }
    Ok(())
}

fn visit<R: Print>(rt: &R, alloc: Global, cache: &mut Core<u64, Page>) -> anyhow::Result<()> {
    for key in [1, 2, 3, 4] {
        put(rt, alloc, cache, key, Page { views: 10 * key })?;
    }
    look(rt, alloc, cache, 1)?;
    println!(rt; "{:?}", cache.stats())?;
    Ok(())
}

/// Visits pages by a cache of three, and prints what leaves and what is looked up.
pub fn show<R: Print>(rt: &R, alloc: Global) -> anyhow::Result<()> {
    let config = Config {
        entries: 3,
        window: 1,
        bound: 100,
        after_write: Some(60_000),
        after_access: None,
        refresh: None,
        flights: 16,
        ring: 64,
    };
    let mut cache: Core<u64, Page> = Core::new(alloc, &config)?;
    visit(rt, alloc, &mut cache)
}
