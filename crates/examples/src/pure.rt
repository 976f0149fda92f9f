// A cache before a function: whatever `get` returns is the function of its key.
ghost use Rattle.std.specs.Prelude.{◌≡◌, IfOk};
ghost use Rattle.examples.specs.Check.{check_of};

mod check;

use crate::pure::check::{Check, Checks};
use rookdresser::{Cache, Config, Fault, Service, World, serve};
use std::alloc::Global;
use std::io::Print;
use std::sync::Wait;
use std::thread::Threads;

/// Returns the check number of an account, by the cache. The number is right in every schedule: if
/// it was there, loaded, shared with another caller's load or due for a refresh. Earlier refusals
/// of memory don't change it.
fn check_number<W: World<u64, Check>>(
    cache: &mut Cache<u64, Check, W>,
    account: u64,
) -> Result<u64, Fault>
    ensures { IfOk result (λ number. number ≡ check_of account) }
{
    Ok(cache.get(account)?.number)
}

impl Service<u64, Check> for Checks {
    ghost use Rattle.std.specs.Prelude.{◌≡◌, IfOk};
    ghost use Rattle.examples.specs.Check.{check_of};

    type Answer = u64;

    // Each thread asks for the account of its own number.
    ghost gives = { λ _ thread result. IfOk result (λ number. number ≡ check_of thread) };

    fn work<W: World<u64, Check>>(
        &self,
        thread: usize,
        cache: &mut Cache<u64, Check, W>,
    ) -> Result<u64, Fault> {
        check_number(cache, thread as u64)
    }
}

/// Prints the check numbers that three threads get.
pub fn show<R: Print + Threads + Wait + Sync>(rt: &R, alloc: Global) -> anyhow::Result<()> {
    let config = Config::of(64).with_refresh(1000);
    for number in serve(rt, alloc, &config, 4, 3, &Checks {}, &0)?.answers {
        println!(rt; "check number {}", number?)?;
    }
    Ok(())
}
