//! Readers and writers whose calls are counted.
ghost use Rattle.std.specs.Prelude.{◌≡◌, ℕ, ◌≤◌, List, Option, length, IfOk};
ghost use Rattle.std.specs.Io.KnownBytes.{Keeps, ReadConsumes, WriteAppends};
ghost use Rattle.lj_wire.specs.Ends.{next_count};

use std::io;
use std::io::{Read, Write};

/// A reader whose calls are counted.
pub trait Reads {
    // The bytes still to be read, where they are known.
    ghost remaining: { Self → Option (List ℕ) };

    // The number of reads it was asked for, up to `u64::MAX`.
    ghost asked: { Self → ℕ };

    /// Asks for one read, as std's `Read::read`.
    fn read_once(&mut self, buf: &mut [u8]) -> io::Result<usize>
        ensures bound { IfOk result (λ n. n ≤ length buf.new) }
        ensures bytes { ReadConsumes (remaining self.old) (remaining self.new) result buf.new }
        ensures once { asked self.new ≡ next_count (asked self.old) };
}

/// A writer whose calls are counted.
pub trait Writes {
    // The bytes written so far, where they are known.
    ghost contents: { Self → Option (List ℕ) };

    // The number of writes and flushes it was asked for, up to `u64::MAX`.
    ghost asked: { Self → ℕ };

    /// Asks for one write, as std's `Write::write`.
    fn write_once(&mut self, bytes: &[u8]) -> io::Result<usize>
        ensures bound { IfOk result (λ n. n ≤ length bytes.now) }
        ensures bytes { WriteAppends (contents self.old) (contents self.new) result bytes.now }
        ensures once { asked self.new ≡ next_count (asked self.old) };

    /// Asks for one flush, as std's `Write::flush`.
    fn flush_once(&mut self) -> io::Result<()>
        ensures kept { Keeps (contents self.old) (contents self.new) }
        ensures once { asked self.new ≡ next_count (asked self.old) };
}

/// A reader or a writer of std. No clause of std counts its calls, so only the bodies below show that each of them makes one.
#[derive(Drop)]
pub struct Asked<T> {
    inner: T,
    asked: u64,
}

impl<T> Asked<T> {
    pub fn into_inner(self) -> T {
        let Asked { inner, asked: _ } = self;
        inner
    }
}

impl<R: Read> Asked<R> {
    /// Wraps a reader, with no call counted yet.
    pub fn reader(inner: R) -> Self
        ensures { ⟦<Asked<R> as Reads>⟧.remaining result ≡ R.remaining inner }
    {
        Asked { inner, asked: 0 }
    }
}

impl<W: Write> Asked<W> {
    /// Wraps a writer, with no call counted yet.
    pub fn writer(inner: W) -> Self
        ensures { ⟦<Asked<W> as Writes>⟧.contents result ≡ W.contents inner }
    {
        Asked { inner, asked: 0 }
    }
}

impl<R: Read> Reads for Asked<R> {
    ghost remaining = { λ a. R.remaining a.inner };

    ghost asked = { λ a. a.asked };

    fn read_once(&mut self, buf: &mut [u8]) -> io::Result<usize> {
        self.asked = self.asked.saturating_add(1);
        self.inner.read(buf)
    }
}

impl<W: Write> Writes for Asked<W> {
    ghost contents = { λ a. W.contents a.inner };

    ghost asked = { λ a. a.asked };

    fn write_once(&mut self, bytes: &[u8]) -> io::Result<usize> {
        self.asked = self.asked.saturating_add(1);
        self.inner.write(bytes)
    }

    fn flush_once(&mut self) -> io::Result<()> {
        self.asked = self.asked.saturating_add(1);
        self.inner.flush()
    }
}
