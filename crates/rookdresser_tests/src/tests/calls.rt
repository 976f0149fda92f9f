// What each call of a thread's cache returns.
use super::compare::same;
use super::{Number, number, tenfold};
use rookdresser::{Cache, Cause, Config, Fault, Keyed, Loader, Service, World, serve};
use std::test::Fail;

// What a look-up of some key found, as a number.
type Found = Option<u64>;

// A thread makes calls of the key 1, and each other's answer is a row of what they return.
#[derive(Drop)]
struct Calls {}

impl Loader<u64, Number> for Calls {
    fn load(&self, key: &u64) -> Result<Number, u32> {
        let key = *key;
        Ok(Keyed {
            key,
            value: tenfold(key),
        })
    }
}

// The value of a look-up.
fn value(found: Option<Number>) -> Found {
    found.map(|number| number.value)
}

// What look-ups of the key 1 find, before and behind a put of 11, a removal, and a get.
#[derive(Clone, Copy, Debug, PartialEq, Eq)]
struct LookUps {
    first: Found,
    put: (Found, Found),
    removed: (bool, bool),
    gone: (Found, Found),
    got: u64,
    kept: Found,
}

fn look_ups<W: World<u64, Number>>(cache: &mut Cache<u64, Number, W>) -> Result<LookUps, Fault> {
    let first = value(cache.look(1)?);
    cache.put(1, number(1, 11))?;
    let put = (value(cache.look(1)?), value(cache.peek(1)?));
    let removed = (cache.remove(1)?, cache.remove(1)?);
    let gone = (value(cache.look(1)?), value(cache.peek(1)?));
    let got = cache.get(1)?.value;
    let kept = value(cache.look(1)?);
    Ok(LookUps {
        first,
        put,
        removed,
        gone,
        got,
        kept,
    })
}

// What sweeps take out, of two entries put at 0 and at 5 which live for 10 ms; and what a forget finds.
#[derive(Clone, Copy, Debug, PartialEq, Eq)]
struct Swept {
    forgot: bool,
    cleaned: usize,
    cleared: usize,
    left: Option<Cause>,
    entries: u64,
}

fn sweeps<W: World<u64, Number>>(cache: &mut Cache<u64, Number, W>) -> Result<Swept, Fault> {
    cache.clear_at(0)?;
    cache.put_at(3, number(3, 30), 0)?;
    cache.put_at(4, number(4, 40), 5)?;
    let forgot = cache.forget_at(3, 5)?;
    let cleaned = cache.clean_at(10)?.list().len();
    cache.put_at(4, number(4, 41), 10)?;
    let left = cache.left().first().map(|notice| notice.cause);
    let cleared = cache.clear_at(10)?.list().len();
    let entries = cache.stats().entries;
    Ok(Swept {
        forgot,
        cleaned,
        cleared,
        left,
        entries,
    })
}

impl Service<u64, Number> for Calls {
    type Answer = (LookUps, Swept);

    fn work<W: World<u64, Number>>(
        &self,
        _thread: usize,
        cache: &mut Cache<u64, Number, W>,
    ) -> Result<(LookUps, Swept), Fault> {
        Ok((look_ups(cache)?, sweeps(cache)?))
    }
}

#[test]
fn each_call_does_as_its_name_says(rt: HostRuntime) -> Result<(), Fail> {
    let look_ups = LookUps {
        first: None,
        put: (Some(11), Some(11)),
        removed: (true, false),
        gone: (None, None),
        got: 10,
        kept: Some(10),
    };
    let sweeps = Swept {
        forgot: false,
        cleaned: 1,
        cleared: 1,
        left: Some(Cause::Replaced),
        entries: 0,
    };
    for (shards, entries) in [(1, 8), (4, 600)] {
        let config = Config::of(entries).with_after_write(10);
        let returned = serve(&rt, rt.alloc(), &config, shards, 1, &Calls {}, &0)?.answers;
        let hoped = [Ok((look_ups, sweeps))];
        same(&rt, "what they return", returned.as_slice(), &hoped);
    }
    Ok(())
}
