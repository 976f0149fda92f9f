// The lines on a `LoadingCache`, with one pass.
ghost use Rattle.std.specs.Prelude.{◌≤◌};

use crate::answer::{
    Answer, AnswerAt, answer_by, drop_answer, forget_answer, peek_answer, print_answer,
    print_stats, put_answer, refused, slide_answer, sweep_answer,
};
use crate::line::{Line, Load, Slide};
use crate::source::Source;
use std::alloc::Global;
use std::io::Print;
use std::sync::Wait;
use wt_cache::LoadingCache;
use wt_core::{Call, Notices, Reply};
use wt_shards::{Books, Pass, Shards};
use wt_tests::Loaded;

// The cache.
type Cache<'s, B> = LoadingCache<u64, Loaded, &'s Source, B>;

// The entries that left.
type Left = Notices<u64, Loaded>;

/// Plays the lines with one pass.
pub fn play_on_cache<B: Books, R: Print + Wait>(
    rt: &R,
    alloc: Global,
    shards: Shards<u64, Loaded, B>,
    lines: Vec<Line>,
) -> anyhow::Result<()> {
    let source = Source::new();
    let cache: Cache<'_, B> = LoadingCache::new(shards, &source, None);
    play_lines(rt, alloc, &cache, &source, lines)
}

fn play_lines<'s, B: Books, R: Print + Wait>(
    rt: &R,
    alloc: Global,
    cache: &Cache<'s, B>,
    source: &Source,
    lines: Vec<Line>,
) -> anyhow::Result<()> {
    let mut pass = cache.pass(rt, alloc)?;
    for line in lines {
        play_line(rt, alloc, cache, source, &mut pass, line)?;
    }
    Ok(())
}

fn play_line<'s, B: Books, R: Print + Wait>(
    rt: &R,
    alloc: Global,
    cache: &Cache<'s, B>,
    source: &Source,
    pass: &mut Pass<u64, Loaded, B>,
    line: Line,
) -> anyhow::Result<()> {
    match line {
        Line::Call(Call::Clean(now)) => play_sweep(rt, alloc, cache, pass, false, now),
        Line::Call(Call::Clear(now)) => play_sweep(rt, alloc, cache, pass, true, now),
        Line::Call(call) => play_call(rt, alloc, cache, pass, call),
        Line::Peek(key, now) => play_peek(rt, cache, pass, key, now),
        Line::Read(key, now) => play_read(rt, alloc, cache, pass, key, now),
        Line::Get(key, load, now) => {
            source.tell(load);
            play_get(rt, alloc, cache, pass, key, now)
        }
        Line::Slide(key, slide) => play_slide(rt, alloc, cache, pass, key, slide),
        Line::Stats => Ok(print_stats(rt, &cache.stats(rt))?),
        Line::Order | Line::Nothing => Ok(()),
    }
}

fn play_peek<'s, B: Books, R: Print + Wait>(
    rt: &R,
    cache: &Cache<'s, B>,
    pass: &mut Pass<u64, Loaded, B>,
    key: u64,
    now: u64,
) -> anyhow::Result<()> {
    let (step, answer) = peek_answer(cache.peek(rt, pass, key, now));
    print_answer(rt, step, &answer, &[], &[])?;
    Ok(())
}

fn play_read<'s, B: Books, R: Print + Wait>(
    rt: &R,
    alloc: Global,
    cache: &Cache<'s, B>,
    pass: &mut Pass<u64, Loaded, B>,
    key: u64,
    now: u64,
) -> anyhow::Result<()> {
    let mut left = Notices::new(alloc, cache.entries() as usize)?;
    let (step, answer) = peek_answer(cache.read(rt, pass, key, now, &mut left));
    print_answer(rt, step, &answer, left.list(), &[])?;
    Ok(())
}

// A call at every shard. It reports how many steps the pass made at the first.
fn play_sweep<'s, B: Books, R: Print + Wait>(
    rt: &R,
    alloc: Global,
    cache: &Cache<'s, B>,
    pass: &mut Pass<u64, Loaded, B>,
    all: bool,
    now: u64,
) -> anyhow::Result<()> {
    let count = cache.shards();
    let mut left = Notices::new(alloc, count * cache.entries() as usize)?;
    let (outcome, reply) = if all {
        (
            cache.invalidate_all(rt, pass, now, &mut left),
            Reply::Cleared,
        )
    } else {
        (cache.clean_up(rt, pass, now, &mut left), Reply::Cleaned)
    };
    let (step, answer) = sweep_answer(outcome, reply, pass.steps(0));
    print_answer(rt, step, &answer, left.list(), &[])?;
    Ok(())
}

fn play_slide<'s, B: Books, R: Print + Wait>(
    rt: &R,
    alloc: Global,
    cache: &Cache<'s, B>,
    pass: &mut Pass<u64, Loaded, B>,
    key: u64,
    slide: Slide,
) -> anyhow::Result<()> {
    let Slide { wider, now } = slide;
    let mut left = Notices::new(alloc, cache.entries() as usize)?;
    let (step, answer) = slide_answer(cache.slide(rt, pass, key, wider, now, &mut left));
    print_answer(rt, step, &answer, left.list(), &[])?;
    Ok(())
}

fn play_call<'s, B: Books, R: Print + Wait>(
    rt: &R,
    alloc: Global,
    cache: &Cache<'s, B>,
    pass: &mut Pass<u64, Loaded, B>,
    call: Call<u64, Loaded>,
) -> anyhow::Result<()> {
    let mut left = Notices::new(alloc, cache.entries() as usize)?;
    let (step, answer) = answer_at(rt, cache, pass, call, &mut left);
    print_answer(rt, step, &answer, left.list(), &[])?;
    Ok(())
}

// A call at the shard of its key.
fn answer_at<'s, B: Books, R: Wait>(
    rt: &R,
    cache: &Cache<'s, B>,
    pass: &mut Pass<u64, Loaded, B>,
    call: Call<u64, Loaded>,
    left: &mut Left,
) -> AnswerAt
    requires room { cache.now.layout.config.entries ≤ left.old.room }
{
    match call {
        Call::Look(key, now) => answer_by(cache.get_if_present(rt, pass, key, now, left)),
        Call::Put(key, value, now) => put_answer(cache.put(rt, pass, key, value, now, left)),
        Call::DropKey(key, now) => drop_answer(cache.invalidate(rt, pass, key, now, left)),
        Call::Forget(key, now) => forget_answer(cache.forget(rt, pass, key, now, left)),
        _ => (0, Answer::NoSuchCall),
    }
}

fn play_get<'s, B: Books, R: Print + Wait>(
    rt: &R,
    alloc: Global,
    cache: &Cache<'s, B>,
    pass: &mut Pass<u64, Loaded, B>,
    key: u64,
    now: u64,
) -> anyhow::Result<()> {
    let mut left = Notices::new(alloc, 2 * cache.entries() as usize)?;
    let (step, answer) = match cache.get(rt, pass, key, now, &mut left) {
        Ok(got) => (got.step, Answer::Got(got.how, got.value)),
        Err(fault) => refused(fault),
    };
    print_answer(rt, step, &answer, left.list(), &[])?;
    Ok(())
}
