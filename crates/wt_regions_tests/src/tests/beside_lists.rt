// The regions beside plain lists, run on the same calls.
use super::compare::{holds, same};
use super::{Run, caps};
use std::alloc::Global;
use std::process::Abort;
use std::test::Fail;
use wt_keys::{Fault, places};
use wt_regions::{Caps, Cause, Found, Region};
use wt_tests::{Dice, Lists, Loaded, Row, random_value};

impl Run<Loaded> {
    // How often each key was counted, by the sketch.
    fn counted(&self) -> [u8; 16] {
        let mut counted = [0; 16];
        for (key, times) in counted.iter_mut().enumerate() {
            *times = self
                .sketch
                .estimate(&places(key as u64, self.sketch.bits()));
        }
        counted
    }

    // Asserts that both hold the same entries, and that the latest step had the same notices.
    fn expect_same(&self, rt: &impl Abort, alloc: Global, lists: &Lists) -> Result<(), Fail> {
        same(rt, "how many entries", self.regions.len(), lists.len());
        same(rt, "the weight", self.regions.weight(), lists.weight());
        for region in [Region::Window, Region::Probation, Region::Protected] {
            self.expect_order(rt, alloc, lists, region)?;
        }
        self.expect_notices(rt, lists);
        Ok(())
    }

    fn expect_order(
        &self,
        rt: &impl Abort,
        alloc: Global,
        lists: &Lists,
        region: Region,
    ) -> Result<(), Fail> {
        let order = self.regions.order(alloc, region)?;
        let rows = lists.rows(region);
        same(
            rt,
            "how many keys of a region",
            (region, order.len()),
            (region, rows.len()),
        );
        for (key, row) in order.iter().zip(rows) {
            same(
                rt,
                "a key of a region in its order",
                (region, *key),
                (region, row.key),
            );
        }
        Ok(())
    }

    fn expect_notices(&self, rt: &impl Abort, lists: &Lists) {
        let list = self.notices.list();
        same(rt, "how many notices", list.len(), lists.told.len());
        for (notice, told) in list.iter().zip(&lists.told) {
            same(
                rt,
                "a notice",
                (notice.key, notice.value, notice.cause),
                *told,
            );
        }
    }
}

fn put_both(
    rt: &impl Abort,
    run: &mut Run<Loaded>,
    lists: &mut Lists,
    key: u64,
    value: Loaded,
    now: u64,
) -> Result<(), Fail> {
    let row = Row {
        key,
        value,
        written: now,
        accessed: now,
    };
    let counted = run.counted();
    match run.put(key, value, now) {
        Ok(()) => lists.put(row, now, &counted)?,
        Err(fault) => {
            let (weight, bound) = (value.weight, lists.caps.bound);
            same(
                rt,
                "the fault of a refused put",
                fault,
                Fault::TooHeavy { weight, bound },
            );
            holds(rt, "a refused put is too heavy", weight as u64 > bound);
        }
    }
    Ok(())
}

fn one_call(
    rt: &impl Abort,
    dice: &mut Dice,
    run: &mut Run<Loaded>,
    lists: &mut Lists,
    (keys, version, now): (u64, u64, u64),
) -> Result<(), Fail> {
    let key = dice.roll(keys);
    lists.told.clear();
    match dice.roll(20) {
        0 => {
            same(
                rt,
                "whether a removal took an entry",
                run.remove(key, now),
                lists.find(key).is_some_and(|row| !lists.is_old(row, now)),
            );
            if let Some(row) = lists.take(key) {
                lists.tell_by_age(row, now, Cause::Explicit)?;
            }
        }
        1 => {
            run.clean(now);
            lists.sweep(now, false)?;
        }
        2 if dice.roll(4) == 0 => {
            run.clear(now);
            lists.sweep(now, true)?;
        }
        3..=9 => {
            let wanted = lists.look(key, now)?;
            match run.look(key, now)? {
                Found::Hit(value) => same(rt, "the value of a hit", Some(value), wanted),
                _ => same(rt, "the value of a miss", None, wanted),
            }
        }
        _ => {
            let value = random_value(dice, version);
            put_both(rt, run, lists, key, value, now)?;
        }
    }
    Ok(())
}

// Limits, of which each finds its own corner, and a number of keys that is near to the entries.
fn tables() -> [(Caps, u64); 6] {
    [
        (caps(1, 1, 5), 2),
        (
            Caps {
                after_write: Some(5),
                ..caps(2, 1, 100)
            },
            4,
        ),
        (
            Caps {
                after_access: Some(4),
                ..caps(6, 2, 12)
            },
            9,
        ),
        (
            Caps {
                after_write: Some(30),
                after_access: Some(12),
                ..caps(8, 1, 1000)
            },
            12,
        ),
        (
            Caps {
                after_write: Some(3),
                ..caps(5, 5, 11)
            },
            7,
        ),
        (caps(12, 3, 30), 16),
    ]
}

// Plays both on as many keys, and compares them after each call.
fn play(
    rt: &impl Abort,
    alloc: Global,
    dice: &mut Dice,
    run: &mut Run<Loaded>,
    lists: &mut Lists,
    keys: u64,
) -> Result<(), Fail> {
    // Moments repeat, go on, and now and then go back a little.
    let mut now: u64 = 100;
    for version in 0..1000 {
        now = now.saturating_add(dice.roll(3));
        let moment = now.saturating_sub(dice.roll(2));
        one_call(rt, dice, run, lists, (keys, version, moment))?;
        run.expect_same(rt, alloc, lists)?;
        expect_has(rt, run, lists, dice.roll(keys), moment);
    }
    Ok(())
}

fn expect_has(rt: &impl Abort, run: &Run<Loaded>, lists: &Lists, key: u64, moment: u64) {
    let held = lists.find(key);
    let has = held.is_some_and(|row| !lists.is_old(row, moment));
    same(
        rt,
        "whether a key is there",
        run.regions.has(key, moment),
        has,
    );
}

fn play_at(
    rt: &impl Abort,
    alloc: Global,
    dice: &mut Dice,
    limits: Caps,
    keys: u64,
) -> Result<(), Fail> {
    let mut lists = Lists::new(alloc, limits);
    let mut run = Run::new(alloc, limits)?;
    play(rt, alloc, dice, &mut run, &mut lists, keys)
}

#[test]
fn the_regions_do_as_plain_lists_do(rt: HostRuntime) -> Result<(), Fail> {
    let mut dice = Dice(1);
    for (limits, keys) in tables() {
        play_at(&rt, rt.alloc(), &mut dice, limits, keys)?;
    }
    Ok(())
}
