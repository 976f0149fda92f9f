// One shard of a replay: it does its lines of the trace, and writes their part of the report.
ghost use Rattle.std.specs.Prelude.{◌≡◌, ◌++◌, [], ◌∷◌, IfOk, IfErr, OnOk, length, vec_len, None, true, false};
ghost use Rattle.wt_trace.specs.Keys.{keys_of};
ghost use Rattle.wt_trace.specs.Options.{option_fault};
ghost use Rattle.wt_trace.specs.Answers as spec;
ghost use Rattle.wt_trace.specs.Answers.{new_cache};
ghost use Rattle.wt_trace.specs.Line.{looked_up};
ghost use Rattle.wt_trace.specs.Contract.{Adds, AddsLine, IsOfShard, IsReady};
ghost use Rattle.wt_trace.specs.Stops.{IsStop};
ghost use Rattle.wt_trace.specs.declared.trace.line.Act.TheVariants as act;

pub(crate) mod answers;
pub(crate) mod gate;
pub(crate) mod job;
pub(crate) mod rules;
pub(crate) mod version;
pub(crate) mod words;

use crate::fault::ReplayFault;
use crate::options::Options;
use crate::shard::answers::ShardAnswers;
use crate::shard::gate::Gate;
use crate::shard::job::Job;
use crate::shard::rules::{load_by, version_by};
use crate::shard::version::Version;
use crate::shard::words::{show, show_loaded, show_notices, show_reply, show_with};
use crate::trace::key::TraceKey;
use crate::trace::line::{Act, Line};
use crate::trace::pieces::Walk;
use std::alloc::Global;
use std::marker::Model;
use wt_adviser::{Adviser, follow};
use wt_core::{Call, Core, Notices, Reply, Stats};
use wt_keys::{NoMemory, shard_of};

// Bytes that a shard's text takes at once for each line: a line that belongs to the shard adds some
// 10, and with four shards every fourth line does. More are taken if they are needed.
const TEXT_A_LINE: usize = 4;

// A shard with its cache, and the notices of its latest call.
#[derive(Drop)]
pub(crate) struct Shard<K: TraceKey> {
    options: Options,
    number: usize,
    core: Core<K, Version<K>>,
    // Where the window follows the stream.
    adviser: Option<Adviser<K>>,
    told: Notices<K, Version<K>>,
    // The notices of the landing on a `G` line.
    later: Notices<K, Version<K>>,
}

impl<K: TraceKey> Model for Shard<K> {
    ghost use Rattle.std.specs.Prelude.{◌≡◌, ◌+◌, ◌≤◌, length, None};
    ghost use Rattle.wt_trace.specs.Answers.{Work};
    ghost use Rattle.wt_trace.specs.Options.{option_fault};

    ghost Value = { Work K };

    ghost view = { λ s. record {
      options = s.options;
      shard = s.number;
      cache = record { state = s.core; advice = s.adviser };
      told = s.told.list;
    } };

    ghost invariant = { λ s. (option_fault s.options ≡ None)
        × (s.core.regions.caps.entries ≤ s.told.room + length s.told.list)
        × (s.core.regions.caps.entries ≤ s.later.room + length s.later.list) };
}

impl<K: TraceKey> Shard<K> {
    ghost use Rattle.wt_core.specs.Lawful.{AreSmall};
    ghost use Rattle.wt_core.specs.State.{stats_of};

    // Makes a shard of this number with a new cache.
    //
    // Takes memory for the cache, for its adviser if it has one, and for two lists of notices with
    // room for its entries.
    pub(crate) fn new(alloc: Global, options: &Options, number: usize) -> Result<Shard<K>, NoMemory>
        requires { option_fault options.now ≡ None }
        ensures options { IfOk result (λ shard. shard.options ≡ options.now) }
        ensures number { IfOk result (λ shard. shard.shard ≡ number) }
        ensures cache { IfOk result (λ shard. shard.cache ≡ new_cache options.now) }
    {
        let Ok(core) = Core::new(alloc, &options.config()) else {
            return Err(NoMemory);
        };
        Ok(Shard {
            options: *options,
            number,
            core,
            adviser: adviser_for(alloc, options)?,
            told: Notices::new(alloc, options.entries as usize)?,
            later: Notices::new(alloc, options.entries as usize)?,
        })
    }

    // The numbers of the shard's cache.
    pub(crate) fn stats(&self) -> Stats
        ensures numbers { result ≡ stats_of self.now.cache.state }
        ensures small { AreSmall result }
    {
        self.core.stats()
    }

    // Makes one call, and appends its words and its notices.
    fn one_call(&mut self, call: Call<K, Version<K>>, out: &mut Vec<u8>) -> Result<(), NoMemory>
        ensures { Adds (spec.one_call (keys_of K.TraceKey) self.old.shard self.old.cache.state call)
            self.old self.new out.old.items out.new.items result }
    {
        self.told.empty();
        let reply = self.core.take(call, &mut self.told)?;
        show_reply(out, self.number, &reply)?;
        show_notices(out, self.told.list())?;
        Ok(())
    }

    // Lands a flight that a seek has just opened, and appends the words of the load and the notices
    // of both.
    fn land_now(
        &mut self,
        id: u64,
        n: u64,
        key: K,
        moment: u64,
        out: &mut Vec<u8>,
    ) -> Result<(), NoMemory>
        ensures { Adds (spec.landed_by (keys_of K.TraceKey) self.old id n key moment)
            self.old self.new out.old.items out.new.items result }
    {
        self.later.empty();
        let call = Call::Land(id, key, load_by(&self.options, n, key), moment);
        let reply = self.core.take(call, &mut self.later)?;
        show_loaded(out, &reply)?;
        show_notices(out, self.told.list())?;
        show_notices(out, self.later.list())?;
        Ok(())
    }

    // Does a line of letter G: a seek, and the landing of the flight that it opens.
    fn fetch(&mut self, n: u64, key: K, moment: u64, out: &mut Vec<u8>) -> Result<(), NoMemory>
        ensures { Adds (spec.done_by (keys_of K.TraceKey) self.old n moment (act.Get key))
            self.old self.new out.old.items out.new.items result }
    {
        self.told.empty();
        let reply = self.core.take(Call::Seek(key, moment), &mut self.told)?;
        match &reply {
            Reply::Lead(id) => self.land_now(*id, n, key, moment, out),
            Reply::HitLead(value, id) => {
                show_with(out, " hit ", value.line)?;
                self.land_now(*id, n, key, moment, out)
            }
            _ => {
                show_reply(out, 0, &reply)?;
                show_notices(out, self.told.list())?;
                Ok(())
            }
        }
    }

    // Does a line of letter E: the landing of the key's oldest open flight, if there is one.
    fn land_oldest(
        &mut self,
        n: u64,
        key: K,
        moment: u64,
        out: &mut Vec<u8>,
    ) -> Result<(), NoMemory>
        ensures { Adds (spec.done_by (keys_of K.TraceKey) self.old n moment (act.Land key))
            self.old self.new out.old.items out.new.items result }
    {
        match self.core.oldest_load(key) {
            Some(id) => {
                let call = Call::Land(id, key, load_by(&self.options, n, key), moment);
                self.one_call(call, out)
            }
            None => {
                show(out, " none")?;
                Ok(())
            }
        }
    }

    // Does line n, and appends the shard's text for it.
    fn act(&mut self, n: u64, line: &Line<K>, out: &mut Vec<u8>) -> Result<(), NoMemory>
        ensures { Adds (spec.done_by (keys_of K.TraceKey) self.old n line.now.moment line.now.act)
            self.old self.new out.old.items out.new.items result }
    {
        let now = line.moment;
        match line.act {
            Act::Look(key) => self.one_call(Call::Look(key, now), out),
            Act::Put(key) => {
                let value = version_by(&self.options, n, key);
                self.one_call(Call::Put(key, value, now), out)
            }
            Act::Seek(key) => self.one_call(Call::Seek(key, now), out),
            Act::Get(key) => self.fetch(n, key, now, out),
            Act::Land(key) => self.land_oldest(n, key, now, out),
            Act::Drop(key) => self.one_call(Call::DropKey(key, now), out),
            Act::Forget(key) => self.one_call(Call::Forget(key, now), out),
            Act::Clean => self.one_call(Call::Clean(now), out),
            Act::Clear => self.one_call(Call::Clear(now), out),
        }
    }

    // Lets the window follow the line's look-up, if it makes one and there is an adviser.
    fn follow(&mut self, line: &Line<K>) -> Result<(), NoMemory>
        ensures cache { OnOk result (self.new.cache ≡ spec.followed (keys_of K.TraceKey)
            (looked_up line.now.act) line.now.moment self.old.cache) }
        ensures same { (self.new.options ≡ self.old.options) × (self.new.shard ≡ self.old.shard) }
    {
        let Some(key) = line.act.looked_up() else {
            return Ok(());
        };
        match &mut self.adviser {
            Some(adviser) => follow(adviser, &mut self.core, key, line.moment),
            None => Ok(()),
        }
    }

    // Does line n, if it belongs to the shard and the gate lets it through, and appends the shard's
    // text for it.
    #[tactic(auto, unfolding(crate::specs::Answers::line_step))]
    pub(crate) fn do_line<G: Gate>(
        &mut self,
        gate: &G,
        n: u64,
        line: &Line<K>,
        out: &mut Vec<u8>,
    ) -> Result<(), ReplayFault>
        ensures made { AddsLine (spec.line_step (keys_of K.TraceKey) self.old.options self.old.shard
            n line.now self.old.cache) self.old self.new out.old.items out.new.items result }
        ensures asked { OnOk result (spec.belongs (keys_of K.TraceKey) self.old.options
            self.old.shard line.now.act ≡ true → G.answers gate.now n true) }
        ensures err { IfErr result (IsStop (λ m. G.answers gate.now m false)) }
    {
        if !belongs(&self.options, self.number, &line.act) {
            return Ok(());
        }
        if !gate.pass(n) {
            return Err(ReplayFault::GateShut { n });
        }
        self.act(n, line, out)?;
        self.follow(line)?;
        Ok(())
    }

    // The same, and notes where the text ends then.
    fn add_line<G: Gate>(
        &mut self,
        gate: &G,
        n: u64,
        line: &Line<K>,
        text: &mut Vec<u8>,
        ends: &mut Vec<u32>,
    ) -> Result<(), ReplayFault>
        ensures made { AddsLine (spec.line_step (keys_of K.TraceKey) self.old.options self.old.shard
            n line.now self.old.cache) self.old self.new text.old.items text.new.items result }
        ensures ends { OnOk result (ends.new.items
            ≡ ends.old.items ++ length text.new.items ∷ []) }
        ensures asked { OnOk result (spec.belongs (keys_of K.TraceKey) self.old.options
            self.old.shard line.now.act ≡ true → G.answers gate.now n true) }
        ensures err { IfErr result (IsStop (λ m. G.answers gate.now m false)) }
    {
        self.do_line(gate, n, line, text)?;
        let end = end_of(text)?;
        ends.push(end)?;
        Ok(())
    }
}

// The adviser of a new shard, if its window follows the stream.
fn adviser_for<K: TraceKey>(
    alloc: Global,
    options: &Options,
) -> Result<Option<Adviser<K>>, NoMemory>
    requires { option_fault options.now ≡ None }
    ensures { IfOk result (λ adviser. adviser ≡ (new_cache options.now).advice) }
{
    if options.adaptive == 0 {
        return Ok(None);
    }
    match Adviser::new(alloc, options.entries as u32) {
        Ok(adviser) => Ok(Some(adviser)),
        Err(_) => Err(NoMemory),
    }
}

// Whether the call of a line belongs to the shard: a call on a key to its key's shard, others to
// each.
fn belongs<K: TraceKey>(options: &Options, shard: usize, act: &Act<K>) -> bool
    requires { option_fault options.now ≡ None }
    ensures { result ≡ spec.belongs (keys_of K.TraceKey) options.now shard act.now }
{
    match act.key() {
        Some(key) => shard_of(key.word(), options.shards()) == shard,
        None => true,
    }
}

// How long a text is, in 4 bytes: no memory if they can't hold it.
fn end_of(text: &Vec<u8>) -> Result<u32, NoMemory>
    ensures { IfOk result (λ end. end ≡ vec_len text.now) }
{
    match u32::try_from(text.len()) {
        Ok(end) => Ok(end),
        Err(_) => Err(NoMemory),
    }
}

// Does the lines, the first of which is line `first`, at a new shard, with lists that are empty yet.
#[tactic(auto, unfolding(crate::specs::Answers::answers))]
fn answers_of<K: TraceKey, G: Gate>(
    job: &Job<'_, G>,
    number: usize,
    first: u64,
    lines: Walk<'_, K>,
    mut shard: Shard<K>,
    mut text: Vec<u8>,
    mut ends: Vec<u32>,
) -> Result<ShardAnswers, ReplayFault>
    requires ready { IsReady job.now.options.now first (length lines) }
    requires options { shard.options ≡ job.now.options.now }
    requires number { shard.shard ≡ number }
    requires cache { shard.cache ≡ new_cache job.now.options.now }
    requires none { (text.items ≡ []) × (ends.items ≡ []) }
    ensures made { IsOfShard (keys_of K.TraceKey) job.now.options.now (G.answers job.now.gate.now)
        first lines.entry number result }
{
    let mut rest = lines;
    let mut n = first;
    while let Some(line) = rest.next() {
        shard.add_line(job.gate, n, line, &mut text, &mut ends)?;
        n += 1;
    }
    Ok(ShardAnswers {
        stats: shard.stats(),
        text,
        ends,
    })
}

/// Does the lines, the first of which is line `first`, at a new shard of this number, and asks the
/// job's gate before each that belongs to it.
///
/// The first line that the gate doesn't let through ends it with `GateShut`. Takes memory for the
/// shard, for two lists of notices with room for its entries, and for the texts. Texts of 2^32 bytes
/// or more count as refused memory. No trace makes them: a line stores at most one entry, so a
/// shard reports at most 1,000,000 entries that left.
pub fn shard_answers<K: TraceKey, G: Gate>(
    job: &Job<'_, G>,
    number: usize,
    first: u64,
    lines: Walk<'_, K>,
) -> Result<ShardAnswers, ReplayFault>
    requires { IsReady job.now.options.now first (length lines) }
    ensures made { IsOfShard (keys_of K.TraceKey) job.now.options.now (G.answers job.now.gate.now)
        first lines.entry number result }
{
    let text = Vec::with_capacity(job.alloc, lines.room().saturating_mul(TEXT_A_LINE))?;
    let ends = Vec::with_capacity(job.alloc, lines.room())?;
    let shard = Shard::new(job.alloc, job.options, number)?;
    answers_of(job, number, first, lines, shard, text, ends)
}
