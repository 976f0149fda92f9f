// Options, inputs and outputs of a replay, which all tests of the trace use.
mod compare;
mod options;
mod pieces;
mod reports;
mod streams;

use std::alloc::Global;
use wt_keys::Field;
use wt_trace::{Options, ReplayFault, Tallied, replay};

// So many entries, all in window.
fn of(entries: u64) -> Options {
    Options {
        entries,
        window: Some(entries),
        ..Options::default()
    }
}

// The output for an input, and how the run ends.
fn replayed(alloc: Global, input: &[u8], options: &Options) -> (Vec<u8>, Result<(), ReplayFault>) {
    let mut reader = Tallied::new(input);
    let mut writer = Tallied::new(Vec::new(alloc));
    let outcome = replay(alloc, &mut reader, &mut writer, options);
    (writer.into_inner(), outcome)
}

const FIRST: &[u8] = b"0 P 1\n0 L 1\n";

const FIRST_REPORT: &[u8] =
    b"1 put\n2 hit 1\nlookups 1 hits 1 misses 0 loads 0 failed 0 evicted 0 entries 1 weight 1\n";

// Four entries, one of them in window.
fn four() -> Options {
    Options {
        entries: 4,
        window: Some(1),
        weight: 1000,
        ..Options::default()
    }
}

// The same, but for this field.
fn four_but(field: Field, value: u64) -> Options {
    let mut options = four();
    match field {
        Field::Shards => options.shards = value,
        Field::Entries => options.entries = value,
        Field::Window => options.window = Some(value),
        Field::Bound => options.weight = value,
        Field::Modulus => options.modulus = value,
        Field::AfterWrite => options.write = Some(value),
        Field::AfterAccess => options.access = Some(value),
        Field::Refresh => options.refresh = Some(value),
        Field::FailMod => options.fail_mod = Some(value),
        Field::Flights => options.flights = value,
        Field::Ring => options.ring = Some(value),
        Field::Threads => options.threads = value,
        Field::Turn => options.turn = value,
        Field::Workers => options.workers = value,
        Field::Adaptive => options.adaptive = value,
        Field::Line => {}
    }
    options
}
