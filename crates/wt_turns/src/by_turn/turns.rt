// One thread of a replay turn by turn: it does its lines, each when its turn comes.
ghost use Rattle.std.specs.Prelude.{◌≡◌, ◌*◌, ◌+◌, ◌≤◌, false, true, length, OnOk, IfErr};
ghost use Rattle.wt_turns.specs.ByTurn.{IsReady};
ghost use Rattle.wt_turns.specs.Turns.{HasActed, HasFollowed, HasHandled, AreTurns, IsDone, IsTurn, IsRunStop, is_passed_over, is_turn};
ghost use Rattle.wt_trace.specs.Keys.{keys_by};
ghost use Rattle.wt_trace.specs.Replayed.{is_config_fault};
ghost use Rattle.wt_trace.specs.declared.fault.ReplayFault.TheVariants as fault;

use crate::by_turn::aids::Aids;
use crate::by_turn::loader::TraceLoader;
use std::alloc::Global;
use std::sync::Wait;
use std::sync::atomic::{AtomicBool, Ordering};
use wt_cache::{JobLine, LoadingCache};
use wt_core::Notices;
use wt_keys::Fault;
use wt_shards::{Books, Pass};
use wt_trace::{Act, Gate, Line, TraceKey, Version};

/// Why a run ended before its last line.
#[derive(Clone, Copy, Debug)]
pub(crate) enum RunFault {
    /// The cache refused a line, or memory was refused.
    Cache(Fault),
    /// A thread was not let through before line n.
    GateShut { n: u64 },
}

/// The lines of a trace that threads do in turn.
#[derive(Drop)]
pub(crate) struct Deal<'a, K: TraceKey> {
    /// What all threads use beside the cache.
    pub aids: &'a Aids<K>,
    /// The number of the first line: 2 behind a header, else 1.
    pub first: u64,
    /// The lines, at most 1,000,000.
    pub lines: &'a [Line<K>],
    /// How many threads share them, 1 to 64.
    pub threads: usize,
    ghost ready: { IsReady first (length lines.now) threads },
}

/// The turns of one thread with the lines of a deal.
#[derive(Drop)]
struct Turns<'a, K: TraceKey, B: Books> {
    cache: &'a LoadingCache<K, Version<K>, TraceLoader, B>,
    deal: &'a Deal<'a, K>,
    // The thread's number, from 0.
    t: usize,
    ghost few: { cache.now.layout.shards ≤ 4 },
}

// A fault of a line that doesn't end the run: a load that failed, a value too heavy, no place for a
// load.
fn passed_over(fault: Fault) -> Result<(), Fault>
    ensures ok { OnOk result (is_passed_over fault ≡ true) }
    ensures err { IfErr result (λ f. (f ≡ fault) × (is_passed_over fault ≡ false)) }
{
    match fault {
        Fault::LoadFailed { .. } | Fault::TooHeavy { .. } | Fault::TooManyFlights { .. } => Ok(()),
        _ => Err(fault),
    }
}

// Makes the call of line n, once. A replay turn by turn has no lines that leave a load open or land
// one.
fn act<K: TraceKey, B: Books, R: Wait>(
    rt: &R,
    cache: &LoadingCache<K, Version<K>, TraceLoader, B>,
    loader: &TraceLoader,
    pass: &mut Pass<K, Version<K>, B>,
    n: u64,
    line: &Line<K>,
    notices: &mut Notices<K, Version<K>>,
) -> Result<(), Fault>
    requires few { cache.now.layout.shards ≤ 4 }
    requires room { 4 * cache.now.layout.config.entries ≤ notices.old.room }
    ensures step { OnOk result (HasActed (keys_by K.eq K.word K.read K.shown)
        loader.now.options cache.now n line.now pass.old pass.new) }
    ensures faults { IfErr result (λ f. is_config_fault (fault.Cache f) ≡ false) }
    ensures whole { notices.new.room + length notices.new.list ≡ notices.old.room
        + length notices.old.list }
{
    let now = line.moment;
    match line.act {
        Act::Get(key) => match cache.get(rt, pass, key, now, notices) {
            Ok(_) => Ok(()),
            Err(fault) => passed_over(fault),
        },
        Act::Look(key) => match cache.get_if_present(rt, pass, key, now, notices) {
            Ok(_) => Ok(()),
            Err(fault) => Err(fault),
        },
        Act::Put(key) => match cache.put(rt, pass, key, loader.version(n, key), now, notices) {
            Ok(_) => Ok(()),
            Err(fault) => passed_over(fault),
        },
        Act::Drop(key) => match cache.invalidate(rt, pass, key, now, notices) {
            Ok(_) => Ok(()),
            Err(fault) => Err(fault),
        },
        Act::Forget(key) => match cache.forget(rt, pass, key, now, notices) {
            Ok(_) => Ok(()),
            Err(fault) => Err(fault),
        },
        Act::Clean => cache.clean_up(rt, pass, now, notices),
        Act::Clear => cache.invalidate_all(rt, pass, now, notices),
        Act::Seek(_) => Ok(()),
        Act::Land(_) => Ok(()),
    }
}

// Lets the window of the key's shard follow a line's look-up, if the windows follow.
fn follow<K: TraceKey, B: Books, R: Wait>(
    rt: &R,
    cache: &LoadingCache<K, Version<K>, TraceLoader, B>,
    aids: &Aids<K>,
    pass: &mut Pass<K, Version<K>, B>,
    line: &Line<K>,
    notices: &mut Notices<K, Version<K>>,
) -> Result<(), Fault>
    requires room { cache.now.layout.config.entries ≤ notices.old.room }
    ensures step { OnOk result (HasFollowed (keys_by K.eq K.word K.read K.shown)
        aids.now.loader.options cache.now line.now pass.old pass.new) }
    ensures faults { IfErr result (λ f. is_config_fault (fault.Cache f) ≡ false) }
    ensures same { notices.new ≡ notices.old }
{
    let Some(followers) = &aids.followers else {
        return Ok(());
    };
    let Some(key) = line.act.looked_up() else {
        return Ok(());
    };
    match followers.follow(rt, cache, pass, key, line.moment, notices) {
        Ok(_) => Ok(()),
        Err(fault) => Err(fault),
    }
}

// Whether line n is thread t's: lines are dealt out in turn.
fn is_turn(n: u64, t: u64, threads: u64) -> bool
    requires { (1 ≤ n) × (1 ≤ threads) }
    ensures { result ≡ is_turn threads t n }
{
    (n - 1) % threads == t
}

impl<'a, K: TraceKey, B: Books> Turns<'a, K, B> {
    // Makes the call of line n, drops the entries that left, and lets the window follow the line's
    // look-up.
    fn handle<R: Wait>(
        &self,
        rt: &R,
        pass: &mut Pass<K, Version<K>, B>,
        n: u64,
        line: &Line<K>,
        notices: &mut Notices<K, Version<K>>,
    ) -> Result<(), Fault>
        requires room { 4 * self.now.cache.now.layout.config.entries ≤ notices.old.room }
        ensures step { OnOk result (HasHandled (keys_by K.eq K.word K.read K.shown)
            self.now.deal.now.aids.now.loader.options self.now.cache.now n line.now pass.old
            pass.new) }
        ensures faults { IfErr result (λ f. is_config_fault (fault.Cache f) ≡ false) }
        ensures room { 4 * self.now.cache.now.layout.config.entries ≤ notices.new.room }
    {
        let done = act(
            rt,
            self.cache,
            &self.deal.aids.loader,
            pass,
            n,
            line,
            notices,
        );
        notices.empty();
        match done {
            Ok(()) => follow(rt, self.cache, self.deal.aids, pass, line, notices),
            Err(fault) => Err(fault),
        }
    }

    // Does line n if it is this thread's and the gate lets it through, and drops the entries that
    // left. Leaves another thread's line alone.
    #[tactic(auto, using(crate::proofs::Dealt::own_turn, crate::proofs::Dealt::other_turn))]
    fn take_turn<G: Gate, R: Wait>(
        &self,
        rt: &R,
        gate: &G,
        pass: &mut Pass<K, Version<K>, B>,
        n: u64,
        line: &Line<K>,
        notices: &mut Notices<K, Version<K>>,
    ) -> Result<(), RunFault>
        requires room { 4 * self.now.cache.now.layout.config.entries ≤ notices.old.room }
        requires n { 1 ≤ n }
        ensures turn { OnOk result (IsTurn (is_turn self.now.deal.now.threads self.now.t n)
            (G.answers gate.now n true)
            (HasHandled (keys_by K.eq K.word K.read K.shown) self.now.deal.now.aids.now.loader.options
            self.now.cache.now n line.now) pass.old pass.new) }
        ensures err { IfErr result (IsRunStop (λ m. G.answers gate.now m false)) }
        ensures room { 4 * self.now.cache.now.layout.config.entries ≤ notices.new.room }
    {
        if !is_turn(n, self.t as u64, self.deal.threads as u64) {
            return Ok(());
        }
        if !gate.pass(n) {
            return Err(RunFault::GateShut { n });
        }
        match self.handle(rt, pass, n, line, notices) {
            Ok(()) => Ok(()),
            Err(fault) => Err(RunFault::Cache(fault)),
        }
    }

    // Does the thread's lines in their order, up to its first fault.
    fn do_lines<G: Gate, R: Wait>(
        &self,
        rt: &R,
        gate: &G,
        pass: &mut Pass<K, Version<K>, B>,
        notices: &mut Notices<K, Version<K>>,
    ) -> Result<(), RunFault>
        requires room { 4 * self.now.cache.now.layout.config.entries ≤ notices.old.room }
        ensures turns { OnOk result (AreTurns (is_turn self.now.deal.now.threads self.now.t)
            (λ n. G.answers gate.now n true)
            (HasHandled (keys_by K.eq K.word K.read K.shown) self.now.deal.now.aids.now.loader.options
            self.now.cache.now) self.now.deal.now.first self.now.deal.now.lines.now pass.old pass.new) }
        ensures err { IfErr result (IsRunStop (λ n. G.answers gate.now n false)) }
    {
        let mut rest = self.deal.lines;
        let mut n = self.deal.first;
        while let Some((line, after)) = rest.split_first() {
            self.take_turn(rt, gate, pass, n, line, notices)?;
            rest = after;
            n += 1;
        }
        Ok(())
    }

    // The same, with a list of its own for the entries that leave.
    fn do_all<G: Gate, R: Wait>(
        &self,
        rt: &R,
        alloc: Global,
        gate: &G,
        pass: &mut Pass<K, Version<K>, B>,
    ) -> Result<(), RunFault>
        ensures turns { OnOk result (AreTurns (is_turn self.now.deal.now.threads self.now.t)
            (λ n. G.answers gate.now n true)
            (HasHandled (keys_by K.eq K.word K.read K.shown) self.now.deal.now.aids.now.loader.options
            self.now.cache.now) self.now.deal.now.first self.now.deal.now.lines.now pass.old pass.new) }
        ensures err { IfErr result (IsRunStop (λ n. G.answers gate.now n false)) }
    {
        let Ok(mut notices) = Notices::new(alloc, 4 * self.cache.entries() as usize) else {
            return Err(RunFault::Cache(Fault::NoMemory));
        };
        self.do_lines(rt, gate, pass, &mut notices)
    }
}

/// Does the lines of thread t with a pass of its own, and returns the pass.
pub(crate) fn run_thread<K: TraceKey, B: Books, G: Gate, R: Wait>(
    rt: &R,
    alloc: Global,
    cache: &LoadingCache<K, Version<K>, TraceLoader, B>,
    deal: &Deal<'_, K>,
    t: usize,
    gate: &G,
) -> Result<Pass<K, Version<K>, B>, RunFault>
    requires few { cache.now.layout.shards ≤ 4 }
    ensures made { IsDone (keys_by K.eq K.word K.read K.shown) deal.now.aids.now.loader.options cache.now
        (G.answers gate.now) deal.now.first deal.now.lines.now deal.now.threads t result }
{
    let mut pass = match cache.pass(rt, alloc) {
        Ok(pass) => pass,
        Err(fault) => return Err(RunFault::Cache(fault)),
    };
    let turns = Turns { cache, deal, t };
    match turns.do_all(rt, alloc, gate, &mut pass) {
        Ok(()) => Ok(pass),
        Err(stop) => Err(stop),
    }
}

// Runs loads until the line of loads is closed and empty.
//
// It makes everything that can be refused before it sets `manned`, so that a manned line is served
// to its end.
fn man<K: TraceKey, B: Books, R: Wait>(
    rt: &R,
    alloc: Global,
    cache: &LoadingCache<K, Version<K>, TraceLoader, B>,
    line: &JobLine<K, Version<K>>,
    pass: &mut Pass<K, Version<K>, B>,
    manned: &AtomicBool,
) -> Result<(), Fault>
    ensures faults { IfErr result (λ f. is_config_fault (fault.Cache f) ≡ false) }
{
    let Ok(mut line_pass) = line.pass(rt) else {
        return Err(Fault::NoMemory);
    };
    let Ok(mut notices) = Notices::new(alloc, 4 * cache.entries() as usize) else {
        return Err(Fault::NoMemory);
    };
    manned.store(true, Ordering::SeqCst);
    let _report = cache.run_worker(rt, pass, &mut line_pass, &mut notices);
    Ok(())
}

/// Runs loads with a pass of its own until the line of loads is closed and empty, and returns the
/// pass.
pub(crate) fn run_loads<K: TraceKey, B: Books, R: Wait>(
    rt: &R,
    alloc: Global,
    cache: &LoadingCache<K, Version<K>, TraceLoader, B>,
    manned: &AtomicBool,
) -> Result<Pass<K, Version<K>, B>, Fault>
    ensures faults { IfErr result (λ f. is_config_fault (fault.Cache f) ≡ false) }
{
    let mut pass = cache.pass(rt, alloc)?;
    let Some(line) = cache.line() else {
        return Ok(pass);
    };
    match man(rt, alloc, cache, line, &mut pass, manned) {
        Ok(()) => Ok(pass),
        Err(fault) => Err(fault),
    }
}
