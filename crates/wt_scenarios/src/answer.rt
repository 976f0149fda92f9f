// How a call's answer is printed.
use std::io;
use std::io::Print;
use wt_cache::How;
use wt_core::{Cause, Notice, Reply, Stats};
use wt_keys::Fault;
use wt_shards::Done;
use wt_tests::Loaded;

/// The result of a call.
#[derive(Drop)]
pub enum Answer {
    /// The reply of a step.
    Reply(Reply<Loaded>),
    /// The result of a get.
    Got(How, Loaded),
    /// The layer has no such call.
    NoSuchCall,
}

/// A step's number, which a refused call doesn't tell, and the answer.
pub type AnswerAt = (u64, Answer);

/// Returns the result of a step, or its fault.
pub fn answer_by(outcome: Result<Done<Reply<Loaded>>, Fault>) -> AnswerAt {
    match outcome {
        Ok(done) => (done.step, Answer::Reply(done.reply)),
        Err(fault) => refused(fault),
    }
}

/// Returns the result of a refused call.
pub fn refused(fault: Fault) -> AnswerAt {
    (0, Answer::Reply(Reply::Refused(fault)))
}

/// Returns the result of a peek or a read, which tells no step.
pub fn peek_answer(outcome: Result<Option<Loaded>, Fault>) -> AnswerAt {
    match outcome {
        Ok(Some(value)) => (0, Answer::Reply(Reply::Hit(value))),
        Ok(None) => (0, Answer::Reply(Reply::Absent)),
        Err(fault) => refused(fault),
    }
}

/// Returns the result of a store.
pub fn put_answer(outcome: Result<Done<()>, Fault>) -> AnswerAt {
    match outcome {
        Ok(done) => (done.step, Answer::Reply(Reply::Stored)),
        Err(fault) => refused(fault),
    }
}

/// Returns the result of a removal.
pub fn drop_answer(outcome: Result<Done<bool>, Fault>) -> AnswerAt {
    match outcome {
        Ok(done) => (done.step, Answer::Reply(Reply::Dropped(done.reply))),
        Err(fault) => refused(fault),
    }
}

/// Returns the result of a forget.
pub fn forget_answer(outcome: Result<Done<bool>, Fault>) -> AnswerAt {
    match outcome {
        Ok(done) => (done.step, Answer::Reply(Reply::Forgot(done.reply))),
        Err(fault) => refused(fault),
    }
}

/// Returns the result of a slide.
pub fn slide_answer(outcome: Result<Done<bool>, Fault>) -> AnswerAt {
    match outcome {
        Ok(done) => (done.step, Answer::Reply(Reply::Slid(done.reply))),
        Err(fault) => refused(fault),
    }
}

/// Returns the answer of a sweep: the reply, with the number of steps that were made by then, or the
/// fault.
pub fn sweep_answer(outcome: Result<(), Fault>, reply: Reply<Loaded>, steps: u64) -> AnswerAt {
    match outcome {
        Ok(()) => (steps, Answer::Reply(reply)),
        Err(fault) => refused(fault),
    }
}

// A word and up to three numbers behind it.
#[derive(Clone, Copy)]
struct Words {
    word: &'static str,
    numbers: [Option<u64>; 3],
}

fn bare(word: &'static str) -> Words {
    Words {
        word,
        numbers: [None, None, None],
    }
}

fn with(word: &'static str, n: u64) -> Words {
    Words {
        word,
        numbers: [Some(n), None, None],
    }
}

fn with_value(word: &'static str, value: &Loaded, id: Option<u64>) -> Words {
    let weight = value.weight as u64;
    Words {
        word,
        numbers: [Some(value.version), Some(weight), id],
    }
}

// A fault: its number, and what it says beside it.
fn fault_words(fault: &Fault) -> Words {
    let (first, second) = match *fault {
        Fault::LoadFailed { code } => (Some(code as u64), None),
        Fault::TooHeavy { weight, bound } => (Some(weight as u64), Some(bound)),
        Fault::TooManyFlights { limit } => (Some(limit as u64), None),
        _ => (None, None),
    };
    Words {
        word: "fault",
        numbers: [Some(fault.number()), first, second],
    }
}

fn reply_words(reply: &Reply<Loaded>) -> Words {
    match reply {
        Reply::Hit(value) => with_value("hit", value, None),
        Reply::Absent => bare("absent"),
        Reply::HitLead(value, id) => with_value("hit-lead", value, Some(*id)),
        Reply::Join(id) => with("join", *id),
        Reply::Lead(id) => with("lead", *id),
        Reply::Kept(sharers) => with("kept", *sharers),
        Reply::Loose(sharers) => with("loose", *sharers),
        Reply::Failed(sharers) => with("failed", *sharers),
        Reply::Gone => bare("gone"),
        Reply::Stored => bare("stored"),
        Reply::Dropped(left) => bare(if *left { "dropped" } else { "not-there" }),
        Reply::Cleared => bare("cleared"),
        Reply::Forgot(was) => bare(if *was { "forgot" } else { "no-load" }),
        Reply::Cleaned => bare("cleaned"),
        Reply::Slid(moved) => bare(if *moved { "slid" } else { "at-the-end" }),
        Reply::Refused(fault) => fault_words(fault),
    }
}

fn words_of(answer: &Answer) -> Words {
    match answer {
        Answer::Reply(reply) => reply_words(reply),
        Answer::Got(How::Hit, value) => with_value("hit", value, None),
        Answer::Got(How::Loaded, value) => with_value("loaded", value, None),
        Answer::Got(How::Joined, value) => with_value("joined", value, None),
        Answer::Got(How::Refreshed, value) => with_value("refreshed", value, None),
        Answer::NoSuchCall => bare("no-such-call"),
    }
}

// The number of a step, which a refused call doesn't have; 0 is none.
fn shown_step(step: u64, answer: &Answer) -> Option<u64> {
    match answer {
        Answer::Reply(Reply::Refused(_)) | Answer::NoSuchCall => None,
        _ if step == 0 => None,
        _ => Some(step),
    }
}

fn print_words<R: Print>(rt: &R, step: Option<u64>, words: Words) -> io::Result<()> {
    match step {
        Some(step) => print!(rt; "{step} {}", words.word)?,
        None => print!(rt; "- {}", words.word)?,
    }
    for number in words.numbers {
        if let Some(n) = number {
            print!(rt; " {n}")?;
        }
    }
    Ok(())
}

fn cause_name(cause: Cause) -> &'static str {
    match cause {
        Cause::Explicit => "explicit",
        Cause::Replaced => "replaced",
        Cause::Expired => "expired",
        Cause::Size => "size",
    }
}

fn print_left<R: Print>(rt: &R, left: &[Notice<u64, Loaded>]) -> io::Result<()> {
    for notice in left {
        print!(rt;
            " {}:{}:{}",
            notice.key,
            notice.value.version,
            cause_name(notice.cause)
        )?;
    }
    Ok(())
}

/// Prints a call's line: the step, the answer, what left, and what left later in the same call.
pub fn print_answer<R: Print>(
    rt: &R,
    step: u64,
    answer: &Answer,
    left: &[Notice<u64, Loaded>],
    later: &[Notice<u64, Loaded>],
) -> io::Result<()> {
    print_words(rt, shown_step(step, answer), words_of(answer))?;
    print_left(rt, left)?;
    print_left(rt, later)?;
    println!(rt; "")
}

/// Prints the numbers of a cache.
pub fn print_stats<R: Print>(rt: &R, stats: &Stats) -> io::Result<()> {
    print!(rt;
        "stats lookups {} hits {} misses {}",
        stats.lookups, stats.hits, stats.misses
    )?;
    print!(rt; " loads {} failed {}", stats.loads, stats.failed)?;
    println!(rt;
        " evicted {} entries {} weight {}",
        stats.evicted, stats.entries, stats.weight
    )
}

/// Prints a region's name and its keys in their order.
pub fn print_keys<R: Print>(rt: &R, name: &str, keys: &[u64]) -> io::Result<()> {
    print!(rt; " {name}")?;
    for key in keys {
        print!(rt; " {key}")?;
    }
    Ok(())
}
