// Readers and writers that give or take little, or fail.
ghost use Rattle.std.specs.Prelude.{◌≤◌, IfOk};

use super::compare::{holds, same};
use super::{FIRST, FIRST_REPORT, of};
use std::alloc::Global;
use std::io;
use std::io::{Read, Write};
use std::process::Abort;
use std::test::*;
use wt_trace::{ReplayFault, Tallied, replay};

// Gives one byte a call, and then an error where it is to.
#[derive(Drop)]
struct Slow<'a> {
    bytes: &'a [u8],
    fails: bool,
}

impl Read for Slow<'_> {
    fn read(&mut self, buf: &mut [u8]) -> io::Result<usize> {
        if self.bytes.is_empty() && self.fails {
            return Err(io::Error::from(io::ErrorKind::Other));
        }
        if self.bytes.is_empty() || buf.is_empty() {
            return Ok(0);
        }
        buf[0] = self.bytes[0];
        self.bytes = &self.bytes[1..];
        Ok(1)
    }
}

// Takes one byte a call, `calls` times, and then fails or takes nothing.
#[derive(Drop)]
struct Narrow {
    bytes: Vec<u8>,
    calls: u8,
    fails: bool,
}

impl Write for Narrow {
    fn write(&mut self, buf: &[u8]) -> io::Result<usize> {
        if self.calls == 0 && self.fails {
            return Err(io::Error::from(io::ErrorKind::Other));
        }
        if self.calls == 0 || buf.is_empty() {
            return Ok(0);
        }
        self.calls -= 1;
        match self.bytes.push(buf[0]) {
            Ok(()) => Ok(1),
            Err(_) => Err(io::Error::from(io::ErrorKind::OutOfMemory)),
        }
    }

    fn flush(&mut self) -> io::Result<()> {
        Ok(())
    }
}

#[test]
fn a_reader_that_gives_a_byte_a_call_is_read_whole(rt: HostRuntime) {
    let mut reader = Tallied::new(Slow {
        bytes: FIRST,
        fails: false,
    });
    let mut writer = Tallied::new(Vec::new(rt.alloc()));
    same(
        &rt,
        "how the run ends",
        replay(rt.alloc(), &mut reader, &mut writer, &of(4)),
        Ok(()),
    );
    same(&rt, "failures of the reader", reader.failures(), 0);
    same(
        &rt,
        "the report",
        writer.into_inner().as_slice(),
        FIRST_REPORT,
    );
}

// Asserts that 20,000 looks, each byte of which is a read of its own, are replayed.
fn expect_read_whole(rt: &impl Abort, alloc: Global, looks: &[u8]) {
    let mut reader = Tallied::new(Slow {
        bytes: looks,
        fails: false,
    });
    let mut writer = Tallied::new(Vec::new(alloc));
    let ended = replay(alloc, &mut reader, &mut writer, &of(4));
    same(rt, "how the run ends", ended, Ok(()));
    same(
        rt,
        "reads and failures",
        (reader.reads(), reader.failures()),
        (120_001, 0),
    );
    let summary =
        b"lookups 20000 hits 0 misses 20000 loads 0 failed 0 evicted 0 entries 0 weight 0\n";
    let text = writer.into_inner();
    holds(
        rt,
        "the report ends with the summary",
        text.as_slice().ends_with(summary),
    );
}

#[test]
fn a_hundred_thousand_reads_are_read_whole(rt: HostRuntime) -> Result<(), Fail> {
    let mut input = Vec::new(rt.alloc());
    for _ in 0..20_000 {
        input.extend_from_slice(b"0 L 1\n")?;
    }
    expect_read_whole(&rt, rt.alloc(), &input);
    Ok(())
}

#[test]
fn a_reader_that_fails_leaves_nothing_written(rt: HostRuntime) {
    let mut reader = Tallied::new(Slow {
        bytes: b"0 P 1\n",
        fails: true,
    });
    let mut writer = Tallied::new(Vec::new(rt.alloc()));
    let outcome = replay(rt.alloc(), &mut reader, &mut writer, &of(4));
    same(
        &rt,
        "how the run ends",
        outcome,
        Err(ReplayFault::ReadFault),
    );
    same(&rt, "failures of the reader", reader.failures(), 1);
    holds(&rt, "nothing is written", writer.into_inner().is_empty());
}

#[test]
fn a_writer_that_fails_took_a_prefix_of_the_report(rt: HostRuntime) {
    let rows: [(&[u8], u8, bool, &[u8]); 4] = [
        (FIRST, 3, true, b"1 p"),
        (FIRST, 0, false, b""),
        (b"0 P 1\n0 L 1\n0 L 2\n0 Q 1\n", 0, true, b""),
        (FIRST, 2, false, b"1 "),
    ];
    for (input, calls, fails, written) in rows {
        let mut reader = Tallied::new(input);
        let mut writer = Tallied::new(Narrow {
            bytes: Vec::new(rt.alloc()),
            calls,
            fails,
        });
        let outcome = replay(rt.alloc(), &mut reader, &mut writer, &of(4));
        same(
            &rt,
            "how the run ends",
            outcome,
            Err(ReplayFault::WriteFault),
        );
        same(&rt, "failures of the writer", writer.failures(), 1);
        same(
            &rt,
            "a prefix of the report",
            writer.into_inner().bytes.as_slice(),
            written,
        );
    }
}

// Takes or gives two bytes, then none, then fails, over and over.
#[derive(Drop)]
struct Moody {
    calls: u8,
}

impl Moody {
    // The next answer, of `most` bytes at most.
    fn next(&mut self, most: usize) -> io::Result<usize>
        ensures { IfOk result (λ n. n ≤ most) }
    {
        self.calls = self.calls.wrapping_add(1);
        match self.calls % 3 {
            1 => Ok(most.min(2)),
            2 => Ok(0),
            _ => Err(io::Error::from(io::ErrorKind::Other)),
        }
    }
}

impl Read for Moody {
    fn read(&mut self, buf: &mut [u8]) -> io::Result<usize> {
        self.next(buf.len())
    }
}

impl Write for Moody {
    fn write(&mut self, buf: &[u8]) -> io::Result<usize> {
        self.next(buf.len())
    }

    fn flush(&mut self) -> io::Result<()> {
        self.next(0)?;
        Ok(())
    }
}

fn expect_reads(rt: &impl Abort) {
    let mut part = [0u8; 4];
    let mut reader = Tallied::new(Moody { calls: 0 });
    same(
        rt,
        "a read of two bytes",
        reader.read(&mut part).ok(),
        Some(2),
    );
    same(rt, "a read of none", reader.read(&mut part).ok(), Some(0));
    same(rt, "a read that fails", reader.read(&mut part).ok(), None);
    same(
        rt,
        "reads and failures of the reader",
        (reader.reads(), reader.failures()),
        (3, 1),
    );
}

fn expect_writes(rt: &impl Abort) {
    let mut writer = Tallied::new(Moody { calls: 0 });
    same(
        rt,
        "a write of two bytes",
        writer.write(b"four").ok(),
        Some(2),
    );
    same(rt, "a write of none", writer.write(b"four").ok(), Some(0));
    same(rt, "a write that fails", writer.write(b"four").ok(), None);
    same(rt, "the first flush", writer.flush().ok(), Some(()));
    same(rt, "the second flush", writer.flush().ok(), Some(()));
    same(rt, "a flush that fails", writer.flush().ok(), None);
    same(
        rt,
        "reads and failures of the writer",
        (writer.reads(), writer.failures()),
        (0, 2),
    );
}

#[test]
fn what_the_inner_one_answers_is_answered(rt: HostRuntime) {
    expect_reads(&rt);
    expect_writes(&rt);
}
