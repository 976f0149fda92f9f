// The lines on a `LoadingCache`, each call by a caller that is lent for it.
use crate::answer::{
    Answer, AnswerAt, answer_by, drop_answer, forget_answer, peek_answer, print_answer,
    print_stats, put_answer, refused, slide_answer, sweep_answer,
};
use crate::line::{Line, Load, Slide};
use crate::source::Source;
use std::alloc::Global;
use std::io::Print;
use std::sync::Wait;
use wt_cache::{Caller, Callers, LoadingCache};
use wt_core::{Call, Notices, Reply};
use wt_shards::{Books, Shards};
use wt_tests::Loaded;

// A cache that lends callers.
type Lender<'s, B> = Callers<u64, Loaded, &'s Source, B>;

// A caller that was lent.
type Lent<'c, 's, B, R> = Caller<'c, u64, Loaded, &'s Source, B, R>;

/// Plays the lines by callers that are lent.
pub fn play_on_callers<B: Books, R: Print + Wait>(
    rt: &R,
    alloc: Global,
    shards: Shards<u64, Loaded, B>,
    lines: Vec<Line>,
) -> anyhow::Result<()> {
    let source = Source::new();
    let callers: Lender<'_, B> = Callers::new(alloc, LoadingCache::new(shards, &source, None));
    play_lines(rt, alloc, &callers, &source, lines)
}

fn play_lines<'s, B: Books, R: Print + Wait>(
    rt: &R,
    alloc: Global,
    callers: &Lender<'s, B>,
    source: &Source,
    lines: Vec<Line>,
) -> anyhow::Result<()> {
    for line in lines {
        play_line(rt, alloc, callers, source, line)?;
    }
    Ok(())
}

fn play_line<'s, B: Books, R: Print + Wait>(
    rt: &R,
    alloc: Global,
    callers: &Lender<'s, B>,
    source: &Source,
    line: Line,
) -> anyhow::Result<()> {
    match line {
        Line::Call(Call::Clean(now)) => play_sweep(rt, alloc, callers, false, now),
        Line::Call(Call::Clear(now)) => play_sweep(rt, alloc, callers, true, now),
        Line::Call(call) => play_call(rt, callers, call),
        Line::Peek(key, now) => play_peek(rt, callers, key, now),
        Line::Read(key, now) => play_read(rt, callers, key, now),
        Line::Get(key, load, now) => play_get(rt, callers, source, key, load, now),
        Line::Slide(key, slide) => play_slide(rt, callers, key, slide),
        Line::Stats => Ok(print_stats(rt, &callers.cache().stats(rt))?),
        Line::Order | Line::Nothing => Ok(()),
    }
}

fn play_peek<'s, B: Books, R: Print + Wait>(
    rt: &R,
    callers: &Lender<'s, B>,
    key: u64,
    now: u64,
) -> anyhow::Result<()> {
    let mut caller = callers.lend(rt)?;
    let (step, answer) = peek_answer(caller.peek(key, now));
    let printed = print_answer(rt, step, &answer, caller.left(), &[]);
    caller.give_back();
    printed?;
    Ok(())
}

fn play_read<'s, B: Books, R: Print + Wait>(
    rt: &R,
    callers: &Lender<'s, B>,
    key: u64,
    now: u64,
) -> anyhow::Result<()> {
    let mut caller = callers.lend(rt)?;
    let (step, answer) = peek_answer(caller.read(key, now));
    let printed = print_answer(rt, step, &answer, caller.left(), &[]);
    caller.give_back();
    printed?;
    Ok(())
}

// A call at every shard. A caller isn't told how many steps it made, and lists only what left by its
// other calls: nothing, as it was lent for this one.
fn play_sweep<'s, B: Books, R: Print + Wait>(
    rt: &R,
    alloc: Global,
    callers: &Lender<'s, B>,
    all: bool,
    now: u64,
) -> anyhow::Result<()> {
    let cache = callers.cache();
    let count = cache.shards();
    let mut left = Notices::new(alloc, count * cache.entries() as usize)?;
    let mut caller = callers.lend(rt)?;
    let (outcome, reply) = if all {
        (caller.invalidate_all(now, &mut left), Reply::Cleared)
    } else {
        (caller.clean_up(now, &mut left), Reply::Cleaned)
    };
    let (step, answer) = sweep_answer(outcome, reply, 0);
    let printed = print_answer(rt, step, &answer, left.list(), caller.left());
    caller.give_back();
    printed?;
    Ok(())
}

fn play_slide<'s, B: Books, R: Print + Wait>(
    rt: &R,
    callers: &Lender<'s, B>,
    key: u64,
    slide: Slide,
) -> anyhow::Result<()> {
    let mut caller = callers.lend(rt)?;
    let (step, answer) = slide_answer(caller.slide(key, slide.wider, slide.now));
    let printed = print_answer(rt, step, &answer, caller.left(), &[]);
    caller.give_back();
    printed?;
    Ok(())
}

fn play_call<'s, B: Books, R: Print + Wait>(
    rt: &R,
    callers: &Lender<'s, B>,
    call: Call<u64, Loaded>,
) -> anyhow::Result<()> {
    let mut caller = callers.lend(rt)?;
    let (step, answer) = answer_to(&mut caller, call);
    let printed = print_answer(rt, step, &answer, caller.left(), &[]);
    caller.give_back();
    printed?;
    Ok(())
}

// A call at the shard of its key.
fn answer_to<'c, 's, B: Books, R: Wait>(
    caller: &mut Lent<'c, 's, B, R>,
    call: Call<u64, Loaded>,
) -> AnswerAt {
    match call {
        Call::Look(key, now) => answer_by(caller.get_if_present(key, now)),
        Call::Put(key, value, now) => put_answer(caller.put(key, value, now)),
        Call::DropKey(key, now) => drop_answer(caller.invalidate(key, now)),
        Call::Forget(key, now) => forget_answer(caller.forget(key, now)),
        _ => (0, Answer::NoSuchCall),
    }
}

fn play_get<'s, B: Books, R: Print + Wait>(
    rt: &R,
    callers: &Lender<'s, B>,
    source: &Source,
    key: u64,
    load: Load,
    now: u64,
) -> anyhow::Result<()> {
    source.tell(load);
    let mut caller = callers.lend(rt)?;
    let (step, answer) = match caller.get(key, now) {
        Ok(got) => (got.step, Answer::Got(got.how, got.value)),
        Err(fault) => refused(fault),
    };
    let printed = print_answer(rt, step, &answer, caller.left(), &[]);
    caller.give_back();
    printed?;
    Ok(())
}
