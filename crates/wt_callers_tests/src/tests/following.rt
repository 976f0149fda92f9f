// Windows that follow by a batch of keys reach the size that they reach key by key.
use super::compare::same;
use super::lending::Number;
use std::alloc::Global;
use std::sync::Wait;
use std::test::Fail;
use wt_cache::{Caller, Followers, Keyed, Loader, Service, Unseen, serve};
use wt_core::Config;
use wt_keys::Fault;
use wt_shards::Books;

const ENTRIES: u32 = 64;

// A service whose window follows a stream, and counts the slides.
#[derive(Clone, Copy)]
struct Follows {
    alloc: Global,
    by_batch: bool,
}

impl Loader<u64, Number> for Follows {
    fn load(&self, key: &u64) -> Result<Number, u32> {
        let key = *key;
        Ok(Keyed { key, value: 0 })
    }
}

// The key of a look-up: a new one, and then one that was new 21 look-ups before and never returns.
fn key_of(call: u64) -> u64 {
    if call % 2 == 0 {
        call / 2
    } else {
        (call / 2).saturating_sub(10)
    }
}

impl Service<u64, Number> for Follows {
    type Answer = u32;

    fn work<B: Books, R: Wait>(
        &self,
        _thread: usize,
        caller: &mut Caller<u64, Number, Follows, B, R>,
    ) -> Result<u32, Fault> {
        let followers = Followers::new(self.alloc, &Config::of(ENTRIES), 1)?;
        let mut unseen = Unseen::new(self.alloc, 1)?;
        let mut slides = 0u32;
        for call in 0..400 {
            let key = key_of(call);
            let made = if self.by_batch {
                caller.follow_by(&followers, &mut unseen, key, 0)?
            } else {
                caller.follow(&followers, key, 0)?
            };
            slides = slides.wrapping_add(made);
        }
        Ok(slides)
    }
}

// The window begins with 1 entry, and goes to a tenth, which is 6. There each key is gone before it
// returns, since 20 others come in between. With two fifths, which are 25, each is still there. That
// makes 5 slides and 19.
#[test]
fn a_batch_of_keys_moves_the_window_as_they_do_one_by_one(rt: HostRuntime) -> Result<(), Fail> {
    let alloc = rt.alloc();
    for by_batch in [false, true] {
        for slides in serve(
            &rt,
            alloc,
            &Config::of(ENTRIES),
            1,
            1,
            Follows { alloc, by_batch },
        )? {
            same(&rt, "the slides of the window", slides, Ok(24));
        }
    }
    Ok(())
}
