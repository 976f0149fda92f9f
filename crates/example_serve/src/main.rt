//! Pages of a slow source, cached for eight threads: one load for all of them.
#![tactic(auto)]

// README begins
use rookdresser::{Cache, Config, Fault, Keyed, Loader, Monotonic, Service, World, serve};

type Page = Keyed<u64, u64>;

#[derive(Drop)]
struct Source {}

impl Loader<u64, Page> for Source {
    fn load(&self, number: &u64) -> Result<Page, u32> {
        let key = *number;
        Ok(Keyed { key, value: 300 })
    }
}

impl Service<u64, Page> for Source {
    type Answer = u64;

    fn work<W: World<u64, Page>>(
        &self,
        _thread: usize,
        cache: &mut Cache<u64, Page, W>,
    ) -> Result<u64, Fault> {
        Ok(cache.get(7)?.value)
    }
}

fn main(rt: HostRuntime) -> Result<(), anyhow::Error> {
    let config = Config::of(64).with_after_write(60_000);
    let clock = Monotonic::of(&rt);
    for words in serve(&rt, rt.alloc(), &config, 4, 8, &Source {}, &clock)?.answers {
        println!(rt; "page 7 has {} words", words?)?;
    }
    Ok(())
}
// README ends
