// A reader or a writer that counts its reads and its failures.
ghost use Rattle.std.specs.Prelude.{◌≡◌};
ghost use Rattle.wt_trace.specs.Tally.{IsTalliedRead, IsTalliedWrite};

use std::io;
use std::io::{Read, Write};
use std::marker::Model;

/// A reader or a writer that counts its reads, and its failures: errors, and writes that take
/// nothing of something.
///
/// `failures` shows whether an error came from here, `reads` how often it was read. Both counts
/// stay at 2^64 - 1. Only tests show that its results are those of the reader or writer inside.
#[derive(Drop)]
pub struct Tallied<T> {
    inner: T,
    // How many times it was read.
    reads: u64,
    // How many reads and writes failed.
    failures: u64,
}

impl<T> Model for Tallied<T> {
    ghost use Rattle.wt_trace.specs.Tally.{Tally};

    ghost Value = { Tally T };

    ghost view = { λ t. record { inner = t.inner; reads = t.reads; failures = t.failures } };
}

impl<T> Tallied<T> {
    /// Makes one that counted nothing.
    pub fn new(inner: T) -> Tallied<T>
        ensures { result ≡ record { inner = inner; reads = 0; failures = 0 } }
    {
        Tallied {
            inner,
            reads: 0,
            failures: 0,
        }
    }

    /// Returns how many reads were asked for; at 2^64 - 1 it stays.
    pub fn reads(&self) -> u64
        ensures { result ≡ self.now.reads }
    {
        self.reads
    }

    /// Returns how many reads and writes failed; at 2^64 - 1 it stays.
    pub fn failures(&self) -> u64
        ensures { result ≡ self.now.failures }
    {
        self.failures
    }

    /// Returns the reader or the writer.
    pub fn into_inner(self) -> T
        ensures { result ≡ self.inner }
    {
        let Tallied { inner, .. } = self;
        inner
    }
}

impl<T: Read> Read for Tallied<T> {
    ghost remaining = { λ t. T.remaining t.inner };

    fn read(&mut self, buf: &mut [u8]) -> io::Result<usize>
        ensures made { IsTalliedRead T.remaining self.old self.new buf.new result }
    {
        self.reads = self.reads.saturating_add(1);
        let result = self.inner.read(buf);
        if result.is_err() {
            self.failures = self.failures.saturating_add(1);
        }
        result
    }
}

impl<T: Write> Write for Tallied<T> {
    ghost contents = { λ t. T.contents t.inner };

    fn write(&mut self, buf: &[u8]) -> io::Result<usize>
        ensures made { IsTalliedWrite T.contents self.old self.new buf.now result }
    {
        let result = self.inner.write(buf);
        let failed = match &result {
            Ok(n) => *n == 0 && !buf.is_empty(),
            Err(_) => true,
        };
        if failed {
            self.failures = self.failures.saturating_add(1);
        }
        result
    }

    fn flush(&mut self) -> io::Result<()> {
        self.inner.flush()
    }
}
