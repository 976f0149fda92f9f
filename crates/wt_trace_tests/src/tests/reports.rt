// Reports of whole traces, with values from the rules' own text.
use super::compare::{holds, same};
use super::{FIRST, FIRST_REPORT, four, four_but, of, replayed};
use std::alloc::Global;
use std::process::Abort;
use std::test::*;
use wt_keys::{Fault, Field};
use wt_trace::{Options, ReplayFault, status_and_line};

#[test]
fn a_report_is_written_for_each_trace(rt: HostRuntime) {
    let rows: [(u64, &[u8], &[u8], Result<(), ReplayFault>); 7] = [
        (4, FIRST, FIRST_REPORT, Ok(())),
        (
            4,
            b"",
            b"lookups 0 hits 0 misses 0 loads 0 failed 0 evicted 0 entries 0 weight 0\n",
            Ok(()),
        ),
        (
            2,
            b"0 P 1\n0 P 2\n0 P 3\n",
            b"1 put\n2 put\n3 put 1:1:size\nlookups 0 hits 0 misses 0 loads 0 failed 0 evicted 1 entries 2 weight 2\n",
            Ok(()),
        ),
        (
            4,
            b"0 P 1\n0 L 1\n0 L 2\n0 Q 1\n",
            b"1 put\n2 hit 1\n3 absent\n",
            Err(ReplayFault::BadLine { n: 4 }),
        ),
        (
            4,
            b"0 P 1\n0 L 1\n0 L 2\n11111111111111111111111111111111111111111111111111111111111111111\n",
            b"1 put\n2 hit 1\n3 absent\n",
            Err(ReplayFault::LineTooLong { n: 4 }),
        ),
        (4, b"0  L 1\n", b"", Err(ReplayFault::BadLine { n: 1 })),
        (
            4,
            b"00000000000000000000 L 1",
            b"1 absent\nlookups 1 hits 0 misses 1 loads 0 failed 0 evicted 0 entries 0 weight 0\n",
            Ok(()),
        ),
    ];
    for (entries, input, report, outcome) in rows {
        expect_report(&rt, rt.alloc(), input, &of(entries), (report, outcome));
    }
}

// Asserts what is written for an input, and how the run ends.
fn expect_report(
    rt: &impl Abort,
    alloc: Global,
    input: &[u8],
    options: &Options,
    (report, outcome): (&[u8], Result<(), ReplayFault>),
) {
    let (text, ended) = replayed(alloc, input, options);
    same(rt, "the report", text.as_slice(), report);
    same(rt, "how the run ends", ended, outcome);
}

// Each input with its options and the report that is written for it.
fn expect_reports(rt: &impl Abort, alloc: Global, rows: &[(Options, &[u8], &[u8])]) {
    for (options, input, report) in rows {
        expect_report(rt, alloc, input, options, (report, Ok(())));
    }
}

#[test]
fn each_letter_prints_what_it_met(rt: HostRuntime) {
    let rows: [(Options, &[u8], &[u8]); 4] = [
        (
            four(),
            b"0 G 1\n0 G 2\n0 G 3\n0 G 4\n0 G 1\n0 G 5\n0 G 4\n0 G 6\n",
            b"1 load\n2 load\n3 load\n4 load\n5 hit 1\n6 load 4:4:size\n7 load 5:6:size\n8 load 2:2:size\nlookups 8 hits 1 misses 7 loads 7 failed 0 evicted 3 entries 4 weight 4\n",
        ),
        (
            four(),
            b"0 S 1\n0 S 1\n0 F 1\n0 S 1\n0 E 1\n0 L 1\n0 E 1\n0 L 1\n",
            b"1 lead 1\n2 join 1\n3 forget\n4 lead 2\n5 loose 2\n6 absent\n7 land 1\n8 hit 7\nlookups 5 hits 1 misses 4 loads 2 failed 0 evicted 0 entries 1 weight 1\n",
        ),
        (
            four_but(Field::Flights, 1),
            b"0 S 1\n0 S 2\n0 G 1\n0 E 1\n0 E 1\n",
            b"1 lead 1\n2 full\n3 join 1\n4 land 2\n5 none\nlookups 2 hits 0 misses 2 loads 1 failed 0 evicted 0 entries 1 weight 1\n",
        ),
        (
            four(),
            b"wt 2\n0 P foobar\n0 L foobar\n0 D foobar\n0 X\n",
            b"2 put\n3 hit 2\n4 drop foobar:2:explicit\n5 clear\nlookups 1 hits 1 misses 0 loads 0 failed 0 evicted 0 entries 0 weight 0\n",
        ),
    ];
    expect_reports(&rt, rt.alloc(), &rows);
}

#[test]
fn durations_weights_and_failures_are_the_options(rt: HostRuntime) {
    let rows: [(Options, &[u8], &[u8]); 5] = [
        (
            Options {
                weight: 8,
                modulus: 10,
                write: Some(100),
                refresh: Some(50),
                ..four()
            },
            b"0 S 1\n1 S 1\n9 E 1\n10 L 1\n20 P 9\n60 S 1\n70 E 1\n170 G 1\n",
            b"1 lead 1\n2 join 1\n3 land 2\n4 hit 3\n5 heavy\n6 hit 3 lead 2\n7 land 1 1:3:replaced\n8 load 1:7:expired\nlookups 5 hits 2 misses 3 loads 3 failed 0 evicted 1 entries 1 weight 2\n",
        ),
        (
            four_but(Field::AfterWrite, 100),
            b"0 P 1\n0 P 2\n0 P 3\n0 P 4\n100 P 5\n150 P 6\n150 C\n",
            b"1 put\n2 put\n3 put\n4 put\n5 put 4:4:expired\n6 put 1:1:expired\n7 clean 2:2:expired 3:3:expired\nlookups 0 hits 0 misses 0 loads 0 failed 0 evicted 4 entries 2 weight 2\n",
        ),
        (
            four_but(Field::FailMod, 3),
            b"0 S 3\n0 S 3\n0 E 3\n0 E 3\n",
            b"1 lead 1\n2 join 1\n3 fail 7\n4 none\nlookups 2 hits 0 misses 2 loads 0 failed 1 evicted 0 entries 0 weight 0\n",
        ),
        (
            four_but(Field::Refresh, 50),
            b"0 P 1\n49 G 1\n50 G 1\n51 G 1\n",
            b"1 put\n2 hit 1\n3 hit 1 load 1:1:replaced\n4 hit 3\nlookups 3 hits 3 misses 0 loads 1 failed 0 evicted 0 entries 1 weight 1\n",
        ),
        (
            Options {
                weight: 5,
                modulus: 10,
                ..four()
            },
            b"0 P 9\n0 P 3\n0 P 2\n0 G 9\n",
            b"1 heavy\n2 put\n3 put 3:2:size\n4 loose 1\nlookups 1 hits 0 misses 1 loads 1 failed 0 evicted 1 entries 1 weight 3\n",
        ),
    ];
    expect_reports(&rt, rt.alloc(), &rows);
}

// Until its first choice an adviser wants a tenth of the entries, and a store is no look-up.
#[test]
fn an_adaptive_window_begins_with_a_tenth(rt: HostRuntime) -> Result<(), Fail> {
    let mut input = Vec::new(rt.alloc());
    for n in 0..600u32 {
        let (hundreds, tens, ones) = (n / 100 % 10, n / 10 % 10, n % 10);
        input.extend_from_slice(b"0 P 1")?;
        input.push(b'0' + hundreds as u8)?;
        input.push(b'0' + tens as u8)?;
        input.push(b'0' + ones as u8)?;
        input.push(b'\n')?;
    }
    let of_512 = |window, adaptive| Options {
        entries: 512,
        window,
        adaptive,
        ..Options::default()
    };
    let (tenth, _) = replayed(rt.alloc(), &input, &of_512(Some(51), 0));
    let (hundredth, _) = replayed(rt.alloc(), &input, &of_512(None, 0));
    let (adaptive, ended) = replayed(rt.alloc(), &input, &of_512(None, 1));
    same(&rt, "how the run ends", ended, Ok(()));
    same(&rt, "the report", adaptive.as_slice(), tenth.as_slice());
    holds(
        &rt,
        "another window gives up other keys",
        hundredth.as_slice() != tenth.as_slice(),
    );
    Ok(())
}

// Asserts how many bytes are written for an input, and how the run ends.
fn expect_length(
    rt: &impl Abort,
    alloc: Global,
    input: &[u8],
    length: usize,
    outcome: Result<(), ReplayFault>,
) {
    let (text, ended) = replayed(alloc, input, &of(4));
    same(rt, "how the run ends", ended, outcome);
    same(rt, "the report's length", text.len(), length);
}

#[test]
fn the_millionth_line_is_the_last(rt: HostRuntime) -> Result<(), Fail> {
    let mut input = Vec::new(rt.alloc());
    for _ in 0..1000000 {
        input.extend_from_slice(b"0 L 1\n")?;
    }
    expect_length(&rt, rt.alloc(), &input, 13888896 + 84, Ok(()));
    input.extend_from_slice(
        b"1111111111111111111111111111111111111111111111111111111111111111111\n",
    )?;
    let past = Err(ReplayFault::TooManyLines);
    expect_length(&rt, rt.alloc(), &input, 13888896, past);
    Ok(())
}

#[test]
fn a_fault_is_a_sentence(rt: HostRuntime) -> Result<(), Fail> {
    let rows = [
        (
            ReplayFault::Cache(Fault::TooManyFlights { limit: 5 }),
            "5 loads are open already, which is the limit",
        ),
        (
            ReplayFault::BadLine { n: 4 },
            "line 4 is no line of a trace",
        ),
        (
            ReplayFault::LineTooLong { n: 5 },
            "line 5 has more than 64 bytes",
        ),
        (
            ReplayFault::TooManyLines,
            "the trace has more than 1000000 lines",
        ),
        (ReplayFault::ReadFault, "the trace could not be read"),
        (ReplayFault::WriteFault, "the report could not be written"),
        (
            ReplayFault::GateShut { n: 6 },
            "the run was stopped before line 6",
        ),
    ];
    for (fault, sentence) in rows {
        same(
            &rt,
            "the fault's sentence",
            format!(in rt.alloc(); "{fault}")?.as_str(),
            sentence,
        );
    }
    Ok(())
}

#[test]
fn a_fault_has_a_line_and_a_status(rt: HostRuntime) -> Result<(), Fail> {
    let field = Field::Entries;
    let rows = [
        (ReplayFault::Cache(Fault::NoMemory), "fault 1\n"),
        (
            ReplayFault::Cache(Fault::BadConfig { field }),
            "fault 2 field entries\n",
        ),
        (ReplayFault::BadLine { n: 4 }, "fault 11 line 4\n"),
        (ReplayFault::LineTooLong { n: 5 }, "fault 12 line 5\n"),
        (ReplayFault::TooManyLines, "fault 13\n"),
        (ReplayFault::ReadFault, "fault 14\n"),
        (ReplayFault::WriteFault, "fault 15\n"),
        (ReplayFault::GateShut { n: 6 }, "fault 17 line 6\n"),
    ];
    for (fault, line) in rows {
        let (status, text) = status_and_line(rt.alloc(), &fault)?;
        same(&rt, "the status", status, 1);
        same(&rt, "the fault's line", text.as_str(), line);
    }
    Ok(())
}
