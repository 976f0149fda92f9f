// Replays shard by shard on threads.
use super::compare::{holds, same};
use super::of_four;
use std::alloc::Global;
use std::sync::atomic::{AtomicU64, Ordering};
use std::test::*;
use std::thread;
use std::thread::Threads;
use wt_trace::{Gate, Options, ReplayFault, Tallied, replay_by_shard};

// The output for an input on `threads` threads, 1 to 64, and how the run ends.
fn by_shard<H: Threads + Sync + Alloc<A = Global>, G: Gate>(
    rt: &H,
    input: &[u8],
    options: &Options,
    threads: u64,
    gate: &G,
) -> (Vec<u8>, Result<(), ReplayFault>) {
    let alloc = rt.alloc();
    let mut reader = Tallied::new(input);
    let mut writer = Tallied::new(Vec::new(alloc));
    let threads = threads.min(64).max(1);
    let outcome = replay_by_shard(rt, alloc, &mut reader, &mut writer, options, threads, gate);
    (writer.into_inner(), outcome)
}

// Lets nothing through but the lines before one.
#[derive(Drop)]
pub(super) struct Before(pub(super) u64);

impl Gate for Before {
    ghost use Rattle.std.specs.Prelude.{◌≡◌, nat_lt};

    ghost answers = { λ g n answer. answer ≡ nat_lt n g.0 };

    fn pass(&self, line: u64) -> bool {
        line < self.0
    }
}

#[test]
fn a_shut_gate_is_told_and_nothing_is_written(rt: HostRuntime) {
    let input = b"0 P 1\n0 P 2\n0 P 3\n0 P 4\n";
    // Key 4 is of shard 0, key 3 of shard 1.
    for (threads, gate, n) in [(1, 3, 4), (2, 3, 4), (4, 3, 4), (4, 4, 4)] {
        let (text, outcome) = by_shard(&rt, input, &of_four(4), threads, &Before(gate));
        holds(&rt, "nothing is written", text.is_empty());
        same(
            &rt,
            "how the run ends",
            outcome,
            Err(ReplayFault::GateShut { n }),
        );
    }
    let (_, outcome) = by_shard(&rt, input, &of_four(4), 4, &Before(5));
    same(&rt, "how the open run ends", outcome, Ok(()));
}

// Lets each line below 64 through once, and shuts where a line is asked for again.
#[derive(Drop)]
pub(super) struct Once(AtomicU64);

impl Once {
    // With no line asked for.
    pub(super) fn new() -> Once {
        Once(AtomicU64::new(0))
    }
}

impl Gate for Once {
    ghost use Rattle.std.specs.Prelude.{◌≡◌};

    ghost answers = { λ _ _ answer. answer ≡ answer };

    fn pass(&self, line: u64) -> bool {
        let bit = 1u64.wrapping_shl((line % 64) as u32);
        self.0.fetch_or(bit, Ordering::SeqCst) & bit == 0
    }
}

#[test]
fn a_gate_is_asked_once_for_each_line_and_for_none_behind_the_last(rt: HostRuntime) {
    let input = b"0 P 1\n0 P 2\n0 G 3\n0 D 4\n";
    for threads in [1, 2, 4] {
        let (_, outcome) = by_shard(&rt, input, &of_four(4), threads, &Once::new());
        same(&rt, "no line is asked for twice", outcome, Ok(()));
        let (_, outcome) = by_shard(&rt, input, &of_four(4), threads, &Before(5));
        same(&rt, "no line behind the last", outcome, Ok(()));
    }
}

// Holds each of lines 1 and 2 until the other one was asked for.
#[derive(Drop)]
pub(super) struct Pair {
    first: AtomicU64,
    second: AtomicU64,
}

impl Pair {
    // With neither line asked for.
    pub(super) fn new() -> Pair {
        Pair {
            first: AtomicU64::new(0),
            second: AtomicU64::new(0),
        }
    }
}

impl Gate for Pair {
    ghost use Rattle.std.specs.Prelude.{◌≡◌};

    ghost answers = { λ _ _ answer. answer ≡ answer };

    fn pass(&self, line: u64) -> bool {
        let (mine, other) = if line == 1 {
            (&self.first, &self.second)
        } else {
            (&self.second, &self.first)
        };
        mine.store(1, Ordering::SeqCst);
        for _ in 0..10000000 {
            if other.load(Ordering::SeqCst) == 1 {
                return true;
            }
            thread::yield_now();
        }
        false
    }
}

#[test]
fn shards_of_two_threads_run_beside_each_other(rt: HostRuntime) {
    let (text, outcome) = by_shard(&rt, b"0 P 4\n0 P 3\n", &of_four(4), 2, &Pair::new());
    same(
        &rt,
        "the report",
        text.as_slice(),
        b"1 put\n2 put\nlookups 0 hits 0 misses 0 loads 0 failed 0 evicted 0 entries 2 weight 2\n",
    );
    same(&rt, "how the run ends", outcome, Ok(()));
}
