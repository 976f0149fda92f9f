// The lines on `Shards`, with one pass.
ghost use Rattle.std.specs.Prelude.{◌≤◌};

use crate::answer::{
    Answer, AnswerAt, answer_by, drop_answer, forget_answer, peek_answer, print_answer,
    print_stats, put_answer, refused, slide_answer, sweep_answer,
};
use crate::line::{Line, Slide};
use std::alloc::Global;
use std::io::Print;
use std::sync::Wait;
use wt_core::{Call, Land, Notices, Reply};
use wt_flights::{Lead, Ticket};
use wt_keys::Fault;
use wt_shards::{Books, Pass, Shards, Sought};
use wt_tests::Loaded;

// The shards.
type Cache<B> = Shards<u64, Loaded, B>;

// The entries that left.
type Left = Notices<u64, Loaded>;

// The loads that were opened.
type Leads = Vec<Lead<u64, Loaded>>;

/// Plays the lines with one pass.
pub fn play_on_shards<B: Books, R: Print + Wait>(
    rt: &R,
    alloc: Global,
    shards: &Cache<B>,
    lines: Vec<Line>,
) -> anyhow::Result<()> {
    let mut pass = shards.pass(rt, alloc)?;
    let mut leads: Leads = Vec::new(alloc);
    play_lines(rt, alloc, shards, &mut pass, &mut leads, lines)
}

fn play_lines<B: Books, R: Print + Wait>(
    rt: &R,
    alloc: Global,
    shards: &Cache<B>,
    pass: &mut Pass<u64, Loaded, B>,
    leads: &mut Leads,
    lines: Vec<Line>,
) -> anyhow::Result<()> {
    for line in lines {
        play_line(rt, alloc, shards, pass, leads, line)?;
    }
    Ok(())
}

fn play_line<B: Books, R: Print + Wait>(
    rt: &R,
    alloc: Global,
    shards: &Cache<B>,
    pass: &mut Pass<u64, Loaded, B>,
    leads: &mut Leads,
    line: Line,
) -> anyhow::Result<()> {
    match line {
        Line::Call(Call::Clean(now)) => play_sweep(rt, alloc, shards, pass, false, now),
        Line::Call(Call::Clear(now)) => play_sweep(rt, alloc, shards, pass, true, now),
        Line::Call(call) => play_call(rt, alloc, shards, pass, leads, call),
        Line::Peek(key, now) => play_peek(rt, shards, pass, key, now),
        Line::Read(key, now) => play_read(rt, alloc, shards, pass, key, now),
        Line::Slide(key, slide) => play_slide(rt, alloc, shards, pass, key, slide),
        Line::Get(_, _, _) => Ok(print_answer(rt, 0, &Answer::NoSuchCall, &[], &[])?),
        Line::Stats => Ok(print_stats(rt, &shards.stats(rt))?),
        Line::Order | Line::Nothing => Ok(()),
    }
}

fn play_peek<B: Books, R: Print + Wait>(
    rt: &R,
    shards: &Cache<B>,
    pass: &mut Pass<u64, Loaded, B>,
    key: u64,
    now: u64,
) -> anyhow::Result<()> {
    let (step, answer) = peek_answer(shards.peek(rt, pass, key, now));
    print_answer(rt, step, &answer, &[], &[])?;
    Ok(())
}

fn play_read<B: Books, R: Print + Wait>(
    rt: &R,
    alloc: Global,
    shards: &Cache<B>,
    pass: &mut Pass<u64, Loaded, B>,
    key: u64,
    now: u64,
) -> anyhow::Result<()> {
    let mut left = Notices::new(alloc, shards.entries() as usize)?;
    let (step, answer) = peek_answer(shards.read(rt, pass, key, now, &mut left));
    print_answer(rt, step, &answer, left.list(), &[])?;
    Ok(())
}

// A call at every shard. It reports how many steps the pass made at the first.
fn play_sweep<B: Books, R: Print + Wait>(
    rt: &R,
    alloc: Global,
    shards: &Cache<B>,
    pass: &mut Pass<u64, Loaded, B>,
    all: bool,
    now: u64,
) -> anyhow::Result<()> {
    let count = shards.shards();
    let mut left = Notices::new(alloc, count * shards.entries() as usize)?;
    let (outcome, reply) = if all {
        (shards.clear(rt, pass, now, &mut left), Reply::Cleared)
    } else {
        (shards.clean(rt, pass, now, &mut left), Reply::Cleaned)
    };
    let (step, answer) = sweep_answer(outcome, reply, pass.steps(0));
    print_answer(rt, step, &answer, left.list(), &[])?;
    Ok(())
}

fn play_slide<B: Books, R: Print + Wait>(
    rt: &R,
    alloc: Global,
    shards: &Cache<B>,
    pass: &mut Pass<u64, Loaded, B>,
    key: u64,
    slide: Slide,
) -> anyhow::Result<()> {
    let Slide { wider, now } = slide;
    let mut left = Notices::new(alloc, shards.entries() as usize)?;
    let (step, answer) = slide_answer(shards.slide(rt, pass, key, wider, now, &mut left));
    print_answer(rt, step, &answer, left.list(), &[])?;
    Ok(())
}

fn play_call<B: Books, R: Print + Wait>(
    rt: &R,
    alloc: Global,
    shards: &Cache<B>,
    pass: &mut Pass<u64, Loaded, B>,
    leads: &mut Leads,
    call: Call<u64, Loaded>,
) -> anyhow::Result<()> {
    let mut left = Notices::new(alloc, shards.entries() as usize)?;
    let (step, answer) = answer_at(rt, shards, pass, leads, call, &mut left)?;
    print_answer(rt, step, &answer, left.list(), &[])?;
    Ok(())
}

// A call at the shard of its key.
fn answer_at<B: Books, R: Wait>(
    rt: &R,
    shards: &Cache<B>,
    pass: &mut Pass<u64, Loaded, B>,
    leads: &mut Leads,
    call: Call<u64, Loaded>,
    left: &mut Left,
) -> Result<AnswerAt, Fault>
    requires room { shards.now.config.entries ≤ left.old.room }
{
    match call {
        Call::Look(key, now) => Ok(answer_by(shards.look(rt, pass, key, now, left))),
        Call::Seek(key, now) => seek(rt, shards, pass, leads, key, now, left),
        Call::Land(id, key, what, now) => {
            Ok(land(rt, shards, pass, lead_of(leads, id, key), what, now, left))
        }
        Call::Put(key, value, now) => Ok(put_answer(shards.put(rt, pass, key, value, now, left))),
        Call::DropKey(key, now) => Ok(drop_answer(shards.drop_key(rt, pass, key, now, left))),
        Call::Forget(key, now) => Ok(forget_answer(shards.forget(rt, pass, key, now, left))),
        Call::Clean(_) | Call::Clear(_) | Call::Slide { .. } => Ok((0, Answer::NoSuchCall)),
    }
}

// Keeps a load's lead, and returns its number, or 0 if its ticket has another.
fn kept(
    leads: &mut Leads,
    lead: Lead<u64, Loaded>,
    ticket: &Ticket<u64, Loaded>,
) -> Result<u64, Fault> {
    let id = lead.id();
    leads.push(lead)?;
    Ok(if ticket.id() == id { id } else { 0 })
}

// The reply of a seek. A load that it opened is kept.
fn reply_of(leads: &mut Leads, sought: Sought<u64, Loaded>) -> Result<Reply<Loaded>, Fault> {
    match sought {
        Sought::Hit(value) => Ok(Reply::Hit(value)),
        Sought::HitLead(value, lead, ticket) => {
            Ok(Reply::HitLead(value, kept(leads, lead, &ticket)?))
        }
        Sought::Join(ticket) => Ok(Reply::Join(ticket.id())),
        Sought::Lead(lead, ticket) => Ok(Reply::Lead(kept(leads, lead, &ticket)?)),
    }
}

fn seek<B: Books, R: Wait>(
    rt: &R,
    shards: &Cache<B>,
    pass: &mut Pass<u64, Loaded, B>,
    leads: &mut Leads,
    key: u64,
    now: u64,
    left: &mut Left,
) -> Result<AnswerAt, Fault>
    requires room { shards.now.config.entries ≤ left.old.room }
{
    match shards.seek(rt, pass, key, now, left) {
        Ok(done) => Ok((done.step, Answer::Reply(reply_of(leads, done.reply)?))),
        Err(fault) => Ok(refused(fault)),
    }
}

// The lead of a load that was opened for the key under this number.
fn lead_of(leads: &Leads, id: u64, key: u64) -> Option<&Lead<u64, Loaded>> {
    for lead in leads {
        if lead.id() == id && lead.key() == key {
            return Some(lead);
        }
    }
    None
}

fn land<B: Books, R: Wait>(
    rt: &R,
    shards: &Cache<B>,
    pass: &mut Pass<u64, Loaded, B>,
    lead: Option<&Lead<u64, Loaded>>,
    what: Land<Loaded>,
    now: u64,
    left: &mut Left,
) -> AnswerAt
    requires room { shards.now.config.entries ≤ left.old.room }
{
    match lead {
        Some(lead) => answer_by(shards.land(rt, pass, lead, what, now, left)),
        None => (0, Answer::NoSuchCall),
    }
}
