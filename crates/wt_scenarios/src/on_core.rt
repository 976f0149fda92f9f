// The lines on a `Core`.
use crate::answer::{Answer, peek_answer, print_answer, print_keys, print_stats};
use crate::line::{Line, Load, Slide};
use std::alloc::Global;
use std::io::Print;
use wt_cache::How;
use wt_core::{Call, Config, Core, Land, Notices, Region, Reply};
use wt_keys::{Fault, NoMemory};
use wt_tests::Loaded;

// The cache.
type Cache = Core<u64, Loaded>;

// The entries that left.
type Left = Notices<u64, Loaded>;

/// Plays the lines on a new `Core`.
pub fn play_on_core<R: Print>(
    rt: &R,
    alloc: Global,
    config: &Config,
    lines: Vec<Line>,
) -> anyhow::Result<()> {
    let mut core: Cache = Core::new(alloc, config)?;
    play_lines(rt, alloc, &mut core, lines)
}

fn play_lines<R: Print>(
    rt: &R,
    alloc: Global,
    core: &mut Cache,
    lines: Vec<Line>,
) -> anyhow::Result<()> {
    for line in lines {
        play_line(rt, alloc, core, line)?;
    }
    Ok(())
}

fn play_line<R: Print>(rt: &R, alloc: Global, core: &mut Cache, line: Line) -> anyhow::Result<()> {
    match line {
        Line::Call(call) => play_call(rt, alloc, core, call),
        Line::Peek(key, now) => play_peek(rt, core, key, now),
        Line::Read(_, _) => Ok(print_answer(rt, 0, &Answer::NoSuchCall, &[], &[])?),
        Line::Get(key, load, now) => play_get(rt, alloc, core, key, load, now),
        Line::Slide(_, Slide { wider, now }) => {
            play_call(rt, alloc, core, Call::Slide { wider, now })
        }
        Line::Stats => Ok(print_stats(rt, &core.stats())?),
        Line::Order => print_order(rt, alloc, core),
        Line::Nothing => Ok(()),
    }
}

fn play_call<R: Print>(
    rt: &R,
    alloc: Global,
    core: &mut Cache,
    call: Call<u64, Loaded>,
) -> anyhow::Result<()> {
    let mut left = Notices::new(alloc, core.entries() as usize)?;
    let reply = core.take(call, &mut left)?;
    print_answer(rt, core.step(), &Answer::Reply(reply), left.list(), &[])?;
    Ok(())
}

fn play_peek<R: Print>(rt: &R, core: &Cache, key: u64, now: u64) -> anyhow::Result<()> {
    let (step, answer) = peek_answer(core.peek(key, now));
    print_answer(rt, step, &answer, &[], &[])?;
    Ok(())
}

// How a load ends.
fn landing(load: Load) -> Land<Loaded> {
    match load {
        Load::Value(value) => Land::Keep(value),
        Load::Failed(_) => Land::Failed,
    }
}

// The result of a get of an absent key.
fn loaded(load: Load) -> Answer {
    match load {
        Load::Value(value) => Answer::Got(How::Loaded, value),
        Load::Failed(code) => Answer::Reply(Reply::Refused(Fault::LoadFailed { code })),
    }
}

// The result of a get by its seek's reply, and the load that the seek opened.
fn got_by(reply: Reply<Loaded>, load: Load) -> (Answer, Option<u64>) {
    match reply {
        Reply::Hit(value) => (Answer::Got(How::Hit, value), None),
        Reply::HitLead(value, id) => (Answer::Got(How::Refreshed, value), Some(id)),
        Reply::Lead(id) => (loaded(load), Some(id)),
        other => (Answer::Reply(other), None),
    }
}

// Lands the load, if there is one, and returns what left.
fn landed(
    alloc: Global,
    core: &mut Cache,
    id: Option<u64>,
    key: u64,
    load: Load,
    now: u64,
) -> Result<Left, NoMemory> {
    let mut later = Notices::new(alloc, core.entries() as usize)?;
    if let Some(id) = id {
        core.take(Call::Land(id, key, landing(load), now), &mut later)?;
    }
    Ok(later)
}

// A get: a seek, and the landing of the load that it opened, at once.
fn play_get<R: Print>(
    rt: &R,
    alloc: Global,
    core: &mut Cache,
    key: u64,
    load: Load,
    now: u64,
) -> anyhow::Result<()> {
    let mut left = Notices::new(alloc, core.entries() as usize)?;
    let reply = core.take(Call::Seek(key, now), &mut left)?;
    let step = core.step();
    let (answer, id) = got_by(reply, load);
    let later = landed(alloc, core, id, key, load, now)?;
    print_answer(rt, step, &answer, left.list(), later.list())?;
    Ok(())
}

fn print_region<R: Print>(
    rt: &R,
    alloc: Global,
    core: &Cache,
    name: &str,
    region: Region,
) -> anyhow::Result<()> {
    let keys = core.order(alloc, region)?;
    print_keys(rt, name, keys.as_slice())?;
    Ok(())
}

fn print_order<R: Print>(rt: &R, alloc: Global, core: &Cache) -> anyhow::Result<()> {
    print!(rt; "order")?;
    print_region(rt, alloc, core, "window", Region::Window)?;
    print_region(rt, alloc, core, "probation", Region::Probation)?;
    print_region(rt, alloc, core, "protected", Region::Protected)?;
    println!(rt; "")?;
    Ok(())
}
