//! Readers and writers that remember whether a call failed.
ghost use Rattle.std.specs.Prelude.{◌≡◌, true, false, length};
ghost use Rattle.std.specs.Io.{ReadsAtMost, WritesAtMost};
ghost use Rattle.std.specs.Io.KnownBytes.{ReadConsumes, WriteAppends, Keeps};
ghost use Rattle.smap_run.specs.Words.{read_flag, write_flag};

use std::io;
use std::io::{Read, Write};

/// A reader or writer with a flag, which is set by the first call that fails: the inner value reports an error, or takes none
/// of the bytes that it is to write.
///
/// A port passes each call on to its inner value, and returns what that returns.
#[derive(Drop)]
pub struct Port<T> {
    inner: T,
    failed: bool,
}

impl<T> Port<T> {
    /// A port over a reader or writer, its flag unset.
    pub fn new(inner: T) -> Port<T>
        ensures { result ≡ record { inner = inner; failed = false } }
    {
        Port {
            inner,
            failed: false,
        }
    }

    /// Whether the flag is set.
    pub fn failed(&self) -> bool
        ensures { result ≡ self.now.failed }
    {
        self.failed
    }

    /// The reader or writer inside.
    pub fn into_inner(self) -> T
    where
        T: Drop,
        ensures { result ≡ self.inner }
    {
        self.inner
    }
}

impl<T: Read> Read for Port<T> {
    // A port has left to read what its inner value has left.
    ghost remaining = { λ port. T.remaining port.inner };

    fn read(&mut self, buf: &mut [u8]) -> io::Result<usize>
        ensures bound { ReadsAtMost result buf.new }
        ensures bytes { ReadConsumes (T.remaining self.old.inner)
            (T.remaining self.new.inner) result buf.new }
        ensures flag { self.new.failed ≡ read_flag self.old.failed result }
    {
        let result = self.inner.read(buf);
        if result.is_err() {
            self.failed = true;
        }
        result
    }
}

impl<T: Write> Write for Port<T> {
    // What was written to a port is what its inner value holds.
    ghost contents = { λ port. T.contents port.inner };

    fn write(&mut self, buf: &[u8]) -> io::Result<usize>
        ensures bound { WritesAtMost result buf.now }
        ensures bytes { WriteAppends (T.contents self.old.inner)
            (T.contents self.new.inner) result buf.now }
        ensures flag { self.new.failed ≡ write_flag self.old.failed result (length buf.now) }
    {
        let result = self.inner.write(buf);
        match &result {
            Ok(0) if !buf.is_empty() => self.failed = true,
            Ok(_) => {}
            Err(_) => self.failed = true,
        }
        result
    }

    fn flush(&mut self) -> io::Result<()>
        ensures bytes { Keeps (T.contents self.old.inner) (T.contents self.new.inner) }
        ensures flag { self.new.failed ≡ self.old.failed }
    {
        self.inner.flush()
    }
}
