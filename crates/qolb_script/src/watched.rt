ghost use Rattle.std.specs.Prelude.{◌≡◌, ℕ, ◌<◌, ◌≤◌, ◌↔◌, true, false, length, take, IsErr, IfOk, OnOk, OnErr};
ghost use Rattle.std.specs.Io.KnownBytes.{Consumes, Appends, Keeps, IsAtEnd};
ghost use Rattle.qolb_script.specs.Watched.{inner_of, has_failed};

use std::io::{ErrorKind, Read, Write};

/// A reader or a writer with a flag, which its first failure sets for good.
#[derive(Drop)]
pub struct Watched<T> {
    inner: T,
    failed: bool,
}

/// The error of a read or a write that failed, or that followed a failure.
#[derive(Clone, Copy, Debug, PartialEq, Eq)]
pub struct Fault;

impl<T> Watched<T> {
    /// Wraps a reader or a writer that has not failed.
    pub fn new(inner: T) -> Watched<T>
        ensures inner { inner_of result ≡ inner }
        ensures failed { has_failed result ≡ false }
    {
        Watched {
            inner,
            failed: false,
        }
    }

    /// Returns the reader or writer that is wrapped.
    pub fn into_inner(self) -> T
        ensures { result ≡ inner_of self }
    {
        let Watched { inner, failed: _ } = self;
        inner
    }

    /// Returns `true` if a read or a write has failed.
    pub fn failed(&self) -> bool
        ensures { result ≡ has_failed self.now }
    {
        self.failed
    }
}

impl<R: Read> Watched<R> {
    /// Fills a part of the buffer, and returns the number of bytes read.
    ///
    /// Returns 0 only at the end of the input, or if the buffer has no room. An interrupted read is tried again.
    pub fn read(&mut self, buf: &mut [u8]) -> Result<usize, Fault>
        ensures bound { IfOk result (λ n. n ≤ length buf.new) }
        ensures fault { IsErr result ↔ (has_failed self.new ≡ true) }

        // The bytes read are the next bytes of the reader. After a failure no byte is read.
        ensures bytes { IfOk result (λ n.
            Consumes (R.remaining (inner_of self.old)) (R.remaining (inner_of self.new))
            (take n buf.new)) }
        ensures end { IfOk result (λ n. n ≡ 0 → 0 < length buf.new
            → IsAtEnd (R.remaining (inner_of self.new))) }
        ensures none_lost { OnErr result (Keeps (R.remaining (inner_of self.old))
            (R.remaining (inner_of self.new))) }
        ensures stopped { has_failed self.old ≡ true → (self.new ≡ self.old) × (buf.new ≡ buf.old) }
    {
        if self.failed {
            return Err(Fault);
        }
        for _ in 0..u64::MAX {
            match self.inner.read(buf) {
                Ok(n) => return Ok(n),
                Err(error) => {
                    if error.kind() != ErrorKind::Interrupted {
                        break;
                    }
                }
            }
        }
        self.failed = true;
        Err(Fault)
    }
}

impl<W: Write> Watched<W> {
    /// Writes all the bytes.
    ///
    /// An interrupted write is tried again. A write that takes no byte is a failure.
    pub fn write_all(&mut self, buf: &[u8]) -> Result<(), Fault>
        ensures fault { IsErr result ↔ (has_failed self.new ≡ true) }
        ensures bytes { OnOk result (Appends (W.contents (inner_of self.old))
            (W.contents (inner_of self.new)) buf.now) }
        ensures stopped { has_failed self.old ≡ true → self.new ≡ self.old }
    {
        if self.failed {
            return Err(Fault);
        }
        if self.inner.write_all(buf).is_err() {
            self.failed = true;
            return Err(Fault);
        }
        Ok(())
    }
}
