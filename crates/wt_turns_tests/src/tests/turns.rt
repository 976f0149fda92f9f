// Replays turn by turn on one shared cache.
use super::compare::{holds, same};
use super::of_four;
use super::threads::{Before, Once, Pair};
use std::alloc::Global;
use std::sync::Wait;
use std::test::*;
use std::thread::Threads;
use wt_trace::{Gate, Open, Options, ReplayFault, Tallied};
use wt_turns::replay_by_turn;

// The output for an input by `threads` threads in turn, and how the run ends.
fn by_turn<H: Threads + Wait + Sync + Alloc<A = Global>, G: Gate>(
    rt: &H,
    input: &[u8],
    options: &Options,
    threads: u64,
    gate: &G,
) -> (Vec<u8>, Result<(), ReplayFault>) {
    let alloc = rt.alloc();
    let mut reader = Tallied::new(input);
    let mut writer = Tallied::new(Vec::new(alloc));
    let threads = threads.min(64).max(1);
    let outcome = replay_by_turn(rt, alloc, &mut reader, &mut writer, options, threads, gate);
    (writer.into_inner(), outcome)
}

// Gets of keys 1, 2, 3, 4, 1, 5, 4, 6.
const GETS: &[u8] = b"0 G 1\n0 G 2\n0 G 3\n0 G 4\n0 G 1\n0 G 5\n0 G 4\n0 G 6\n";

#[test]
fn threads_in_turn_look_each_key_up_once_a_line(rt: HostRuntime) {
    let mut options = of_four(4);
    options.turn = 8;
    for workers in [0, 2] {
        options.workers = workers;
        let (text, outcome) = by_turn(&rt, GETS, &options, 8, &Open);
        same(&rt, "how the run ends", outcome, Ok(()));
        same(
            &rt,
            "how the summary begins",
            text.as_slice().get(..10),
            Some(b"lookups 8 ".as_slice()),
        );
    }
}

// A slide is no look-up.
#[test]
fn threads_in_turn_look_each_key_up_once_where_windows_follow(rt: HostRuntime) {
    let options = Options {
        shards: 4,
        entries: 512,
        turn: 8,
        workers: 2,
        adaptive: 1,
        ..Options::default()
    };
    let (text, outcome) = by_turn(&rt, GETS, &options, 8, &Open);
    same(&rt, "how the run ends", outcome, Ok(()));
    same(
        &rt,
        "how the summary begins",
        text.as_slice().get(..10),
        Some(b"lookups 8 ".as_slice()),
    );
}

#[test]
fn a_shut_gate_ends_the_turns(rt: HostRuntime) {
    let (text, outcome) = by_turn(&rt, GETS, &of_four(1), 1, &Before(3));
    same(
        &rt,
        "how the run ends",
        outcome,
        Err(ReplayFault::GateShut { n: 3 }),
    );
    holds(&rt, "nothing is written", text.is_empty());
}

// Line 4 is the second of the first thread, lines 2 and 3 are the first of the others.
#[test]
fn of_several_threads_that_stop_the_first_by_its_number_tells_why(rt: HostRuntime) {
    let (text, outcome) = by_turn(&rt, GETS, &of_four(1), 3, &Before(2));
    same(
        &rt,
        "how the run ends",
        outcome,
        Err(ReplayFault::GateShut { n: 4 }),
    );
    holds(&rt, "nothing is written", text.is_empty());
}

#[test]
fn a_turn_asks_its_gate_once_for_each_line_and_for_none_behind_the_last(rt: HostRuntime) {
    for threads in [1, 2, 3] {
        let (_, outcome) = by_turn(&rt, GETS, &of_four(1), threads, &Once::new());
        same(&rt, "no line is asked for twice", outcome, Ok(()));
        let (_, outcome) = by_turn(&rt, GETS, &of_four(1), threads, &Before(9));
        same(&rt, "no line behind the last", outcome, Ok(()));
    }
}

#[test]
fn two_threads_take_turns_beside_each_other(rt: HostRuntime) {
    let (text, outcome) = by_turn(&rt, b"0 P 4\n0 P 3\n", &of_four(1), 2, &Pair::new());
    same(&rt, "how the run ends", outcome, Ok(()));
    same(
        &rt,
        "the summary",
        text.as_slice(),
        b"lookups 0 hits 0 misses 0 loads 0 failed 0 evicted 0 entries 2 weight 2\n",
    );
}
