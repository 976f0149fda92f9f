//! Replays a trace on a cache, and reports the result of each line.
#![tactic(auto)]

ghost use Rattle.std.specs.Prelude.{◌≡◌, IfOk, is_ok, if◌then◌else◌};

use clap::{Arg, ArgAction, ArgMatches, Command, value_parser};
use std::alloc::Global;
use std::io;
use std::process::ExitCode;
use wt_trace::{
    MOST_THREADS, Open, Options, ReplayFault, Tallied, replay, replay_by_shard, status_and_line,
};
use wt_turns::replay_by_turn;

// The text of `--version`.
const VERSION: &str = "0.2.0-dev";

// Each option with what it does, its range and its default, in the order in which the ranges are
// checked.
const OPTIONS: [(&str, &str); 15] = [
    ("shards", "Shards: 1, 2 or 4 [default: 1]"),
    (
        "entries",
        "Entries a shard may hold: 1 to 65536 [default: 1024]",
    ),
    (
        "window",
        "Window: 1 to entries [default: entries / 100, at least 1]",
    ),
    (
        "weight",
        "Weight: 1 to 281474976710656 [default: 281474976710656]",
    ),
    ("mod", "Weighs 1 + key mod this: 1 to 1000000 [default: 1]"),
    ("write", "Expires ms after a write: 1 up [default: never]"),
    ("access", "Expires ms after a use: 1 up [default: never]"),
    (
        "refresh",
        "Loaded again ms after a write: 1 up [default: never]",
    ),
    (
        "fail-mod",
        "Loads of its multiples fail: 1 up [default: none fails]",
    ),
    ("flights", "Loads open in a shard: 1 to 4096 [default: 32]"),
    (
        "ring",
        "Ring: flights + 1 to 65536 [default: 64, or flights + 1]",
    ),
    ("threads", "Threads, shard by shard: 0 to 64 [default: 0]"),
    ("turn", "Threads, turn by turn: 0 to 64 [default: 0]"),
    (
        "workers",
        "Threads that load for --turn: 0 to 64 [default: 0]",
    ),
    (
        "adaptive",
        "The window follows the stream: 0 or 1 [default: 0]",
    ),
];

// The numbers of the fault line, as docs/FORMATS.md has them.
const FAULTS: &str =
    "Faults: 1 no memory, 2 an option out of its range, 11 a bad line, 12 a line too long, 13 too many lines, 14 the reader failed, 15 the writer failed";

// An option that takes a whole number.
fn option<'a>(alloc: Global, name: &'a str, help: &'a str) -> Arg<'a> {
    Arg::new(alloc, name)
        .long(name)
        .value_name("n")
        .action(ArgAction::Set)
        .value_parser(value_parser!(u64))
        .help(help)
}

fn command<'a>(alloc: Global) -> Result<Command<'a>, clap::Error> {
    let mut command = Command::new(alloc, "wt_replay")
        .version(VERSION)
        .about("Replays the trace on standard input on a cache, and reports on each line")
        .after_help(FAULTS);
    for (name, help) in OPTIONS {
        command = command.arg(option(alloc, name, help))?;
    }
    Ok(command)
}

fn options_of(matches: &ArgMatches) -> Options {
    let default = Options::default();
    Options {
        shards: matches.get_one("shards").unwrap_or(default.shards),
        entries: matches.get_one("entries").unwrap_or(default.entries),
        window: matches.get_one("window"),
        weight: matches.get_one("weight").unwrap_or(default.weight),
        modulus: matches.get_one("mod").unwrap_or(default.modulus),
        write: matches.get_one("write"),
        access: matches.get_one("access"),
        refresh: matches.get_one("refresh"),
        fail_mod: matches.get_one("fail-mod"),
        flights: matches.get_one("flights").unwrap_or(default.flights),
        ring: matches.get_one("ring"),
        threads: matches.get_one("threads").unwrap_or(default.threads),
        turn: matches.get_one("turn").unwrap_or(default.turn),
        workers: matches.get_one("workers").unwrap_or(default.workers),
        adaptive: matches.get_one("adaptive").unwrap_or(default.adaptive),
    }
}

// The exit status of a run, after its fault line, if it has one, went to standard error.
fn status_of<R: Eprint>(rt: &R, alloc: Global, outcome: Result<(), ReplayFault>) -> io::Result<u8>
    ensures { IfOk result (λ status. status ≡ (if is_ok outcome then 0 else 1)) }
{
    let Err(fault) = outcome else {
        return Ok(0);
    };
    match status_and_line(alloc, &fault) {
        Ok((status, line)) => {
            eprint!(rt; "{line}")?;
            Ok(status)
        }
        Err(_) => Ok(1),
    }
}

fn main(rt: HostRuntime) -> anyhow::Result<ExitCode> {
    let alloc = rt.alloc();
    let words: Vec<String> = std::env::args(&rt)?.collect(alloc)?;
    let matches = match command(alloc)?.try_get_matches_from(words.as_slice()) {
        Ok(matches) => matches,
        Err(error) => {
            error.print(&rt)?;
            return Ok(ExitCode::from(error.exit_code() as u8));
        }
    };
    let options = options_of(&matches);
    let mut reader = Tallied::new(rt.reader());
    let mut writer = Tallied::new(io::writer(&rt));
    let outcome = if 0 < options.turn {
        let threads = options.turn.min(MOST_THREADS);
        replay_by_turn(
            &rt,
            alloc,
            &mut reader,
            &mut writer,
            &options,
            threads,
            &Open,
        )
    } else if options.threads == 0 {
        replay(alloc, &mut reader, &mut writer, &options)
    } else {
        let threads = options.threads.min(MOST_THREADS);
        replay_by_shard(
            &rt,
            alloc,
            &mut reader,
            &mut writer,
            &options,
            threads,
            &Open,
        )
    };
    Ok(ExitCode::from(status_of(&rt, alloc, outcome)?))
}
