mod compare;
mod name;
mod rows;
mod seeded;

use compare::{holds, same};
use std::alloc::{AllocError, Global};
use std::process::Abort;
use std::rc::Rc;
use std::test::Fail;
use wt_keys::{Answers, CacheKey, Fault, Field, NoMemory, Share, Shared};

// Answers the keys below it.
#[derive(Drop)]
struct Below(u64);

impl Answers<u64> for Below {
    ghost use Rattle.std.specs.Prelude.{nat_lt};

    ghost answers = { λ v k. nat_lt k v.0 };

    fn answers(&self, key: &u64) -> bool {
        *key < self.0
    }
}

fn word_of<K: CacheKey>(key: K) -> u64 {
    key.word()
}

fn second<V: Share>(value: &V) -> Result<V, NoMemory> {
    value.share()
}

#[test]
fn a_share_equals_its_value(rt: HostRuntime) -> Result<(), Fail> {
    let first = Shared::new(rt.alloc(), 5u64)?;
    let other = second(&first)?;
    same(&rt, "the first owner's value", *first.get(), 5);
    same(&rt, "the second owner's value", *other.get(), 5);
    same(&rt, "the share of a number", second(&7u64)?, 7);
    same(&rt, "the word of a number", word_of(7u64), 7);
    Ok(())
}

#[test]
fn a_shared_value_answers_as_its_value(rt: HostRuntime) -> Result<(), Fail> {
    let shared = Shared::new(rt.alloc(), Below(5))?;
    holds(&rt, "it answers 4", shared.answers(&4));
    holds(&rt, "it doesn't answer 5", !shared.answers(&5));
    Ok(())
}

fn expect_faults(
    rt: &impl Abort,
    alloc: Global,
    faults: &[(Fault, u64, &str)],
) -> Result<(), Fail> {
    for (fault, number, sentence) in faults {
        same(rt, "the fault's number", fault.number(), *number);
        same(
            rt,
            "the fault's sentence",
            format!(in alloc; "{fault}")?.as_str(),
            *sentence,
        );
    }
    Ok(())
}

#[test]
fn a_fault_is_a_sentence_with_a_number(rt: HostRuntime) -> Result<(), Fail> {
    let faults = [
        (Fault::NoMemory, 1, "no memory was left for the call"),
        (
            Fault::BadConfig {
                field: Field::FailMod,
            },
            2,
            "the setting `fail-mod` is out of its range",
        ),
        (
            Fault::TooHeavy {
                weight: 10,
                bound: 5,
            },
            3,
            "the value weighs 10, and all entries together may weigh 5",
        ),
        (
            Fault::TooManyFlights { limit: 32 },
            4,
            "32 loads are open already, which is the limit",
        ),
        (
            Fault::StepsSpent,
            5,
            "the cache has made all of its 2^60 steps",
        ),
    ];
    expect_faults(&rt, rt.alloc(), &faults)
}

#[test]
fn a_fault_of_loads_is_a_sentence_with_a_number(rt: HostRuntime) -> Result<(), Fail> {
    let faults = [
        (
            Fault::LoadFailed { code: 7 },
            6,
            "the load failed with code 7",
        ),
        (
            Fault::Abandoned,
            7,
            "the load was abandoned before it ended",
        ),
        (
            Fault::Mixed,
            8,
            "the outcome of the load doesn't answer the key",
        ),
        (Fault::LineFull, 9, "the line of loads is full"),
        (Fault::LineClosed, 10, "the line of loads is closed"),
        (
            Fault::PassMissing { shard: 3 },
            16,
            "the passes handed back don't account for each step of shard 3",
        ),
        (
            Fault::PassesSpent,
            18,
            "all of the 65535 passes were given out",
        ),
    ];
    expect_faults(&rt, rt.alloc(), &faults)
}

#[test]
fn a_shared_value_is_dropped_with_its_last_owner(rt: HostRuntime) -> Result<(), Fail> {
    // Each value that isn't dropped yet is an owner of the counter.
    let counter = Rc::new(rt.alloc(), 7u64)?;
    let first = Shared::new(rt.alloc(), counter.clone()?)?;
    let second = first.share()?;
    let third = second.share()?;
    same(
        &rt,
        "owners of the counter, at three shares",
        Rc::strong_count(&counter),
        2,
    );
    drop(first);
    drop(third);
    same(
        &rt,
        "owners of the counter, at one share",
        Rc::strong_count(&counter),
        2,
    );
    same(&rt, "the value of the last share", **second.get(), 7);
    drop(second);
    same(
        &rt,
        "owners of the counter, at no share",
        Rc::strong_count(&counter),
        1,
    );
    Ok(())
}

#[test]
fn refused_memory_is_told_as_such(rt: HostRuntime) -> Result<(), Fail> {
    same(
        &rt,
        "NoMemory by Display",
        format!(in rt.alloc(); "{NoMemory}")?.as_str(),
        "no memory was left",
    );
    same(
        &rt,
        "std's error as NoMemory",
        NoMemory::from(AllocError),
        NoMemory,
    );
    same(
        &rt,
        "std's error as a fault",
        Fault::from(AllocError),
        Fault::NoMemory,
    );
    same(
        &rt,
        "NoMemory as a fault",
        Fault::from(NoMemory),
        Fault::NoMemory,
    );
    Ok(())
}
