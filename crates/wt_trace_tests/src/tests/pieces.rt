// Readers and writers are used in pieces as large as they give and take them.
use super::compare::same;
use super::of;
use std::alloc::Global;
use std::io;
use std::io::{Read, Write};
use std::process::Abort;
use std::test::Fail;
use wt_trace::{Tallied, replay};

// The most that is given or taken by one call.
const PIECE: usize = 100_000;

// Gives as much as it may.
#[derive(Drop)]
struct Wide<'a> {
    bytes: &'a [u8],
}

impl Read for Wide<'_> {
    fn read(&mut self, buf: &mut [u8]) -> io::Result<usize> {
        let most = buf.len().min(PIECE);
        self.bytes.read(&mut buf[..most])
    }
}

// Takes as much as it may, and counts the bytes and the calls.
#[derive(Drop)]
struct Broad {
    bytes: usize,
    calls: u64,
}

impl Write for Broad {
    fn write(&mut self, buf: &[u8]) -> io::Result<usize> {
        let taken = buf.len().min(PIECE);
        self.bytes = self.bytes.saturating_add(taken);
        self.calls = self.calls.saturating_add(1);
        Ok(taken)
    }

    fn flush(&mut self) -> io::Result<()> {
        Ok(())
    }
}

// The lines have 600,000 bytes: six reads, and one that finds the end. The report's lines have 8
// bytes beside their number, whose digits are 9 + 180 + 2,700 + 36,000 + 450,000 + 6, and the
// summary has 82: 13 writes.
fn expect_pieces(rt: &impl Abort, alloc: Global, looks: &[u8]) {
    let mut reader = Tallied::new(Wide { bytes: looks });
    let mut writer = Tallied::new(Broad { bytes: 0, calls: 0 });
    let ended = replay(alloc, &mut reader, &mut writer, &of(4));
    same(rt, "how the run ends", ended, Ok(()));
    same(rt, "how many reads", reader.reads(), 7);
    let broad = writer.into_inner();
    same(
        rt,
        "bytes of the report, and writes",
        (broad.bytes, broad.calls),
        (800_000 + 488_895 + 82, 13),
    );
}

#[test]
fn pieces_are_as_large_as_they_are_given_and_taken(rt: HostRuntime) -> Result<(), Fail> {
    let mut input = Vec::new(rt.alloc());
    for _ in 0..100_000 {
        input.extend_from_slice(b"0 L 1\n")?;
    }
    expect_pieces(&rt, rt.alloc(), &input);
    Ok(())
}
