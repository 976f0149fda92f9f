// The report of a trace with the shards on threads: thread t runs the shards whose number modulo
// the threads is t, each shard's lines in order.
ghost use Rattle.std.specs.Prelude.{◌≡◌, ◌≤◌, ◌<◌, [], Ok, IfOk, OnOk, None, length, vec_len, get_or, true};
ghost use Rattle.wt_trace.specs.Contract.{AreOfShards, HaveRan, IsPartOf, IsReadyOn, IsReportedBy};
ghost use Rattle.wt_trace.specs.Keys.{keys_of};
ghost use Rattle.wt_trace.specs.Options.{option_fault};
ghost use Rattle.wt_trace.specs.Parts.{all_without, place_at};
ghost use Rattle.wt_trace.specs.Report.{IsVerdict, report, report_of};
ghost use Rattle.wt_trace.specs.Stops.{AllAsked, Asked};

use crate::fault::ReplayFault;
use crate::report::printing::{Answered, text_on_threads};
use crate::report::texts::Texts;
use crate::shard::answers::ShardAnswers;
use crate::shard::gate::Gate;
use crate::shard::job::Job;
use crate::shard::shard_answers;
use crate::trace::header::behind_header;
use crate::trace::key::TraceKey;
use crate::trace::parsing::read_on_threads;
use crate::trace::pieces::Pieces;
use std::alloc::AllocError;
use std::marker::Model;
use std::thread;
use std::thread::Threads;
use wt_keys::Name;

// The result of one thread: a place for each shard, with the answers of the thread's own shards.
#[derive(Drop)]
struct Part {
    places: Vec<Option<ShardAnswers>>,
}

impl Model for Part {
    ghost use Rattle.std.specs.Prelude.{List, Option};
    ghost use Rattle.wt_trace.specs.Answers.{ShardAnswers};

    ghost Value = { List (Option ShardAnswers) };

    ghost view = { λ p. p.places.items };
}

// Runs the shards of thread t, one after another: those whose number modulo the threads is t.
fn part_of<K: TraceKey, G: Gate>(
    job: &Job<'_, G>,
    first: u64,
    read: &Pieces<K>,
    t: usize,
) -> Result<Part, ReplayFault>
    requires { IsReadyOn job.now.threads job.now.options.now first (length read.now.lines) }
    ensures { IsPartOf (keys_of K.TraceKey) job.now.options.now (G.answers job.now.gate.now) first
        read.now.lines job.now.threads t result }
{
    let mut places = Vec::new(job.alloc);
    for shard in 0..job.options.shards() {
        if shard % job.threads != t {
            places.push(None)?;
            continue;
        }
        let one = shard_answers(job, shard, first, read.walk())?;
        places.push(Some(one))?;
    }
    Ok(Part { places })
}

// Takes a shard's answers out of the t-th part.
fn take_answers(
    parts: &mut Vec<Result<Part, ReplayFault>>,
    t: usize,
    shard: usize,
) -> Result<Option<ShardAnswers>, ReplayFault>
    requires within { t < vec_len parts.old }
    requires place { IfOk (get_or parts.old.items t (Ok [])) (λ places. shard < length places) }
    ensures taken { result ≡ place_at shard (get_or parts.old.items t (Ok [])) }
    ensures left { parts.new.items ≡ all_without t shard parts.old.items }
{
    match &mut parts[t] {
        Ok(part) => Ok(part.places[shard].take()),
        Err(fault) => Err(*fault),
    }
}

// The parts of all threads.
fn parts<H: Threads + Sync, K: TraceKey, G: Gate>(
    rt: &H,
    job: &Job<'_, G>,
    first: u64,
    read: &Pieces<K>,
) -> Result<Vec<Result<Part, ReplayFault>>, AllocError>
    requires { IsReadyOn job.now.threads job.now.options.now first (length read.now.lines) }
    ensures len { IfOk result (λ parts. vec_len parts ≡ job.now.threads) }
    ensures each { HaveRan (keys_of K.TraceKey) job.now.options.now (G.answers job.now.gate.now)
        first read.now.lines job.now.threads result }
{
    thread::map_indices(
        rt,
        job.alloc,
        job.threads,
        &|t: usize| -> Result<Part, ReplayFault>
            requires { IsReadyOn job.now.threads job.now.options.now first
                (length read.now.lines) }
            ensures { IsPartOf (keys_of K.TraceKey) job.entry.now.options.now
                (G.answers job.entry.now.gate.now) first read.entry.now.lines job.entry.now.threads
                t result }
        { part_of(job, first, read, t) },
    )
}

// The answers of each shard to the lines, the first of which is line `first`, in the order of the
// shards. If threads stop, the fault is that of the least shard without answers.
fn answers_by_shard<H: Threads + Sync, K: TraceKey, G: Gate>(
    rt: &H,
    job: &Job<'_, G>,
    first: u64,
    read: &Pieces<K>,
) -> Result<Vec<ShardAnswers>, ReplayFault>
    requires { IsReadyOn job.now.threads job.now.options.now first (length read.now.lines) }
    ensures { AreOfShards (keys_of K.TraceKey) job.now.options.now (G.answers job.now.gate.now)
        first read.now.lines result }
{
    let mut parts = parts(rt, job, first, read)?;
    let mut all = Vec::new(job.alloc);
    for shard in 0..job.options.shards() {
        let Some(one) = take_answers(&mut parts, shard % job.threads, shard)? else {
            continue;
        };
        all.push(one)?;
    }
    Ok(all)
}

// The report of lines, the first of which is line `first`, whatever their keys are. They are given
// back before it is printed.
fn report_on_threads<H: Threads + Sync, K: TraceKey, G: Gate>(
    rt: &H,
    job: &Job<'_, G>,
    first: u64,
    read: Pieces<K>,
) -> Result<(Texts, Result<(), ReplayFault>), ReplayFault>
    requires ready { IsReadyOn job.now.threads job.now.options.now first (length read.lines) }
    requires most { job.now.threads ≤ 64 }
    requires kind { IsVerdict read.verdict }
    ensures made { IsReportedBy (report_of (keys_of K.TraceKey) job.now.options.now first read)
        (G.answers job.now.gate.now) result }
    ensures asked { OnOk result (AllAsked (keys_of K.TraceKey) job.now.options.now
        (λ n. G.answers job.now.gate.now n true) first read.lines) }
{
    let all = answers_by_shard(rt, job, first, &read)?;
    let count = read.len();
    let verdict = read.verdict();
    drop(read);
    let answered = Answered {
        first,
        count,
        all: &all,
    };
    let text = text_on_threads(rt, job.alloc, &answered, verdict.is_ok(), job.threads)?;
    Ok((text, verdict))
}

/// Returns the report of the bytes of a trace, and the verdict, as `report` does, with the shards
/// on the job's threads, which read and print the lines, too.
///
/// `GateShut` of a line before which the gate was shut, for a thread that stopped there. Gives the
/// bytes back once the lines are read, and these before the report is printed.
pub fn report_by_shard<H: Threads + Sync, G: Gate>(
    rt: &H,
    job: &Job<'_, G>,
    bytes: Vec<u8>,
) -> Result<(Texts, Result<(), ReplayFault>), ReplayFault>
    requires options { option_fault job.now.options.now ≡ None }
    requires threads { (0 < job.now.threads) × (job.now.threads ≤ 64) }
    ensures made { IsReportedBy (report job.now.options.now bytes.items)
        (G.answers job.now.gate.now) result }
    ensures asked { OnOk result (Asked job.now.options.now
        (λ n. G.answers job.now.gate.now n true) bytes.items) }
{
    let Some(rest) = behind_header(&bytes) else {
        let read = read_on_threads::<H, u64>(rt, job.alloc, 1, &bytes, job.threads)?;
        drop(bytes);
        return report_on_threads(rt, job, 1, read);
    };
    let read = read_on_threads::<H, Name>(rt, job.alloc, 2, rest, job.threads)?;
    drop(bytes);
    report_on_threads(rt, job, 2, read)
}
