// Entries that weigh what they take, and what leaves for them.
use std::alloc::Global;
use std::io::Print;
use wt_core::{Config, Core, Measure, Notices, Weighs};
use wt_keys::{Fault, NoMemory, Share};

/// A picture, by its size in kilobytes.
#[derive(Clone, Copy)]
struct Picture {
    kilobytes: u32,
}

impl Share for Picture {
    fn share(&self) -> Result<Picture, NoMemory> {
        Ok(*self)
    }
}

impl Weighs for Picture {
    ghost measure = { λ p. record { weight = p.kilobytes; life = 0 } };

    fn measure(&self) -> Measure {
        Measure::lasting(self.kilobytes)
    }
}

// Puts a picture, and prints the result and the entries that left for it.
fn put<R: Print>(
    rt: &R,
    alloc: Global,
    cache: &mut Core<u64, Picture>,
    key: u64,
    picture: Picture,
) -> anyhow::Result<()> {
    let mut left = Notices::new(alloc, cache.entries() as usize)?;
    match cache.put(key, picture, 0, &mut left) {
        Ok(()) => println!(rt; "{key} is stored, all weigh {}", cache.weight())?,
        Err(Fault::TooHeavy { weight, bound }) => {
            println!(rt; "{key} weighs {weight}, and {bound} is the bound: nothing changed")?
        }
        Err(other) => return Err(other.into()),
    }
    for notice in left.list() {
        println!(rt;
            "  {} left, {} kilobytes",
            notice.key, notice.value.kilobytes
        )?;
    }
    Ok(())
}

fn store<R: Print>(rt: &R, alloc: Global, cache: &mut Core<u64, Picture>) -> anyhow::Result<()> {
    for (key, kilobytes) in [(1, 400), (2, 300), (3, 2000), (4, 250), (5, 500)] {
        put(rt, alloc, cache, key, Picture { kilobytes })?;
    }
    Ok(())
}

/// Stores pictures in a cache of 1000 kilobytes, and prints what came of each.
pub fn show<R: Print>(rt: &R, alloc: Global) -> anyhow::Result<()> {
    let config = Config {
        entries: 100,
        window: 10,
        bound: 1000,
        after_write: None,
        after_access: None,
        refresh: None,
        flights: 16,
        ring: 64,
    };
    let mut cache: Core<u64, Picture> = Core::new(alloc, &config)?;
    store(rt, alloc, &mut cache)
}
