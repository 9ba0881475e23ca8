//! Ends of a stream: the source and the sink of its bytes, which may count their errors.
ghost use Rattle.std.specs.Prelude.{◌≡◌, ℕ, ◌<◌, ◌≤◌, Bool, false, List, Option, Some, None, length, IfOk, OnOk, OnErr};
ghost use Rattle.std.specs.Io.KnownBytes.{Keeps, ReadConsumes, WriteAppends};
ghost use Rattle.lj_wire.specs.Ends.{Rises, next_count};

use crate::asked::{Reads, Writes};
use std::fmt;
use std::io::{Read, Write};
use thiserror::Error;

/// A read that returned an error.
#[derive(Clone, Copy, Debug, PartialEq, Eq, Error)]
pub struct ReadFault;

impl fmt::Display for ReadFault {
    ghost use Rattle.std.specs.Prelude.{Some, codes};

    ghost output = { λ _. Some (codes "read fault") };

    fn fmt<W: fmt::Write>(&self, f: &mut fmt::Formatter<W>) -> fmt::Result {
        f.write_str("read fault")
    }
}

/// A write that returned an error, or took none of its bytes.
#[derive(Clone, Copy, Debug, PartialEq, Eq, Error)]
pub struct WriteFault;

impl fmt::Display for WriteFault {
    ghost use Rattle.std.specs.Prelude.{Some, codes};

    ghost output = { λ _. Some (codes "write fault") };

    fn fmt<W: fmt::Write>(&self, f: &mut fmt::Formatter<W>) -> fmt::Result {
        f.write_str("write fault")
    }
}

/// A source of bytes.
pub trait Source {
    // The bytes still to be read, where they are known.
    ghost remaining: { Self → Option (List ℕ) };

    // The number of reads that returned an error, where they are counted.
    ghost errors: { Self → Option ℕ };

    /// Reads some bytes into the front of `buf`, and returns how many: 0 only at the end of the input, or where `buf` is empty.
    /// Each error is a fault, an interrupted read too.
    fn read(&mut self, buf: &mut [u8]) -> Result<usize, ReadFault>
        ensures bound { IfOk result (λ n. n ≤ length buf.new) }
        ensures bytes { ReadConsumes (remaining self.old) (remaining self.new) result buf.new }
        ensures counted { OnOk result (errors self.new ≡ errors self.old) }
        ensures risen { OnErr result (Rises (errors self.old) (errors self.new)) };
}

/// A sink of bytes.
pub trait Sink {
    // The bytes written so far, where they are known.
    ghost contents: { Self → Option (List ℕ) };

    // The number of writes that returned an error or took nothing, and of flushes that returned an error, where they are counted.
    ghost faults: { Self → Option ℕ };

    // Whether bytes may be held back that were written since the last flush that succeeded.
    ghost unflushed: { Self → Bool };

    /// Writes some bytes from the front of `bytes`, and returns how many. Each error is a fault, an interrupted write too, and so
    /// is a write that takes nothing where `bytes` is not empty.
    fn write(&mut self, bytes: &[u8]) -> Result<usize, WriteFault>
        ensures bound { IfOk result (λ n. n ≤ length bytes.now) }
        ensures some { IfOk result (λ n. 0 < length bytes.now → 0 < n) }
        ensures bytes { WriteAppends (contents self.old) (contents self.new) result bytes.now }
        ensures counted { OnOk result (faults self.new ≡ faults self.old) }
        ensures risen { OnErr result (Rises (faults self.old) (faults self.new)) };

    /// Flushes what was written, so that nothing is held back. An error is a fault, after which written bytes may be lost.
    fn flush(&mut self) -> Result<(), WriteFault>
        ensures kept { Keeps (contents self.old) (contents self.new) }
        ensures sent { OnOk result (unflushed self.new ≡ false) }
        ensures counted { OnOk result (faults self.new ≡ faults self.old) }
        ensures risen { OnErr result (Rises (faults self.old) (faults self.new)) };
}

/// A reader whose errors are not counted.
#[derive(Drop)]
pub struct Reading<R> {
    reader: R,
}

impl<R: Read> Reading<R> {
    /// Wraps `reader`, and reads nothing.
    pub fn new(reader: R) -> Self
        ensures { ⟦<Reading<R> as Source>⟧.remaining result ≡ R.remaining reader }
    {
        Reading { reader }
    }

    pub fn into_inner(self) -> R
        ensures { R.remaining result ≡ ⟦<Reading<R> as Source>⟧.remaining self }
    {
        let Reading { reader } = self;
        reader
    }
}

impl<R: Read> Source for Reading<R> {
    ghost remaining = { λ reading. R.remaining reading.reader };

    ghost errors = { λ _. None };

    fn read(&mut self, buf: &mut [u8]) -> Result<usize, ReadFault> {
        match self.reader.read(buf) {
            Ok(count) => Ok(count),
            Err(_) => Err(ReadFault),
        }
    }
}

/// A reader whose errors are counted, up to `u64::MAX`. Each read makes one call.
#[derive(Drop)]
pub struct CountedReading<R> {
    reader: R,
    errors: u64,
}

impl<R: Reads> CountedReading<R> {
    /// Wraps `reader`, and reads nothing.
    pub fn new(reader: R) -> Self
        ensures remaining { ⟦<CountedReading<R> as Source>⟧.remaining result ≡ R.remaining reader }
        ensures errors { ⟦<CountedReading<R> as Source>⟧.errors result ≡ Some 0 }
    {
        CountedReading { reader, errors: 0 }
    }

    /// Returns the number of reads that returned an error, at most `u64::MAX`.
    pub fn errors(&self) -> u64
        ensures { ⟦<CountedReading<R> as Source>⟧.errors self.now ≡ Some result }
    {
        self.errors
    }

    pub fn into_inner(self) -> R
        ensures { R.remaining result ≡ ⟦<CountedReading<R> as Source>⟧.remaining self }
    {
        let CountedReading { reader, errors: _ } = self;
        reader
    }

    // Asks for one read, and counts an error.
    fn ask(&mut self, buf: &mut [u8]) -> Result<usize, ReadFault>
        ensures bound { IfOk result (λ n. n ≤ length buf.new) }
        ensures bytes { ReadConsumes (R.remaining self.old.reader) (R.remaining self.new.reader) result buf.new }
        ensures counted { OnOk result (self.new.errors ≡ self.old.errors) }
        ensures risen { OnErr result (Rises (Some self.old.errors) (Some self.new.errors)) }
        ensures once { R.asked self.new.reader ≡ next_count (R.asked self.old.reader) }
    {
        match self.reader.read_once(buf) {
            Ok(count) => Ok(count),
            Err(_) => Err(self.fault()),
        }
    }

    // Counts a fault.
    fn fault(&mut self) -> ReadFault
        ensures kept { self.new.reader ≡ self.old.reader }
        ensures risen { Rises (Some self.old.errors) (Some self.new.errors) }
    {
        self.errors = self.errors.saturating_add(1);
        ReadFault
    }
}

impl<R: Reads> Source for CountedReading<R> {
    ghost remaining = { λ reading. R.remaining reading.reader };

    ghost errors = { λ reading. Some reading.errors };

    fn read(&mut self, buf: &mut [u8]) -> Result<usize, ReadFault> {
        self.ask(buf)
    }
}

/// A writer whose faults are not counted.
#[derive(Drop)]
pub struct Writing<W> {
    writer: W,
    unflushed: bool,
}

impl<W: Write> Writing<W> {
    /// Wraps `writer`, and writes nothing.
    pub fn new(writer: W) -> Self
        ensures contents { ⟦<Writing<W> as Sink>⟧.contents result ≡ W.contents writer }
        ensures flushed { ⟦<Writing<W> as Sink>⟧.unflushed result ≡ false }
    {
        Writing {
            writer,
            unflushed: false,
        }
    }

    pub fn into_inner(self) -> W
        ensures { W.contents result ≡ ⟦<Writing<W> as Sink>⟧.contents self }
    {
        let Writing {
            writer,
            unflushed: _,
        } = self;
        writer
    }
}

impl<W: Write> Sink for Writing<W> {
    ghost contents = { λ writing. W.contents writing.writer };

    ghost faults = { λ _. None };

    ghost unflushed = { λ writing. writing.unflushed };

    fn write(&mut self, bytes: &[u8]) -> Result<usize, WriteFault> {
        self.unflushed = true;
        match self.writer.write(bytes) {
            Ok(0) if !bytes.is_empty() => Err(WriteFault),
            Ok(count) => Ok(count),
            Err(_) => Err(WriteFault),
        }
    }

    fn flush(&mut self) -> Result<(), WriteFault> {
        match self.writer.flush() {
            Ok(()) => {
                self.unflushed = false;
                Ok(())
            }
            Err(_) => Err(WriteFault),
        }
    }
}

/// A writer whose faults are counted, up to `u64::MAX`. Each write and each flush makes one call.
#[derive(Drop)]
pub struct CountedWriting<W> {
    writer: W,
    faults: u64,
    unflushed: bool,
}

impl<W: Writes> CountedWriting<W> {
    /// Wraps `writer`, and writes nothing.
    pub fn new(writer: W) -> Self
        ensures contents { ⟦<CountedWriting<W> as Sink>⟧.contents result ≡ W.contents writer }
        ensures faults { ⟦<CountedWriting<W> as Sink>⟧.faults result ≡ Some 0 }
        ensures flushed { ⟦<CountedWriting<W> as Sink>⟧.unflushed result ≡ false }
    {
        CountedWriting {
            writer,
            faults: 0,
            unflushed: false,
        }
    }

    /// Returns the number of writes that returned an error or took nothing, and of flushes that returned an error; at most
    /// `u64::MAX`.
    pub fn faults(&self) -> u64
        ensures { ⟦<CountedWriting<W> as Sink>⟧.faults self.now ≡ Some result }
    {
        self.faults
    }

    pub fn into_inner(self) -> W
        ensures { W.contents result ≡ ⟦<CountedWriting<W> as Sink>⟧.contents self }
    {
        let CountedWriting {
            writer,
            faults: _,
            unflushed: _,
        } = self;
        writer
    }

    // Asks for one flush, and counts a fault.
    fn ask_flush(&mut self) -> Result<(), WriteFault>
        ensures kept { Keeps (W.contents self.old.writer) (W.contents self.new.writer) }
        ensures sent { OnOk result (self.new.unflushed ≡ false) }
        ensures counted { OnOk result (self.new.faults ≡ self.old.faults) }
        ensures risen { OnErr result (Rises (Some self.old.faults) (Some self.new.faults)) }
        ensures once { W.asked self.new.writer ≡ next_count (W.asked self.old.writer) }
    {
        match self.writer.flush_once() {
            Ok(()) => {
                self.unflushed = false;
                Ok(())
            }
            Err(_) => Err(self.fault()),
        }
    }

    // Asks for one write, and counts a fault.
    fn ask(&mut self, bytes: &[u8]) -> Result<usize, WriteFault>
        ensures bound { IfOk result (λ n. n ≤ length bytes.now) }
        ensures some { IfOk result (λ n. 0 < length bytes.now → 0 < n) }
        ensures bytes { WriteAppends (W.contents self.old.writer) (W.contents self.new.writer) result bytes.now }
        ensures counted { OnOk result (self.new.faults ≡ self.old.faults) }
        ensures risen { OnErr result (Rises (Some self.old.faults) (Some self.new.faults)) }
        ensures once { W.asked self.new.writer ≡ next_count (W.asked self.old.writer) }
    {
        self.unflushed = true;
        match self.writer.write_once(bytes) {
            Ok(count) if count > 0 || bytes.is_empty() => Ok(count),
            Ok(_) | Err(_) => Err(self.fault()),
        }
    }

    // Counts a fault.
    fn fault(&mut self) -> WriteFault
        ensures kept { self.new.writer ≡ self.old.writer }
        ensures risen { Rises (Some self.old.faults) (Some self.new.faults) }
    {
        self.faults = self.faults.saturating_add(1);
        WriteFault
    }
}

impl<W: Writes> Sink for CountedWriting<W> {
    ghost contents = { λ writing. W.contents writing.writer };

    ghost faults = { λ writing. Some writing.faults };

    ghost unflushed = { λ writing. writing.unflushed };

    fn write(&mut self, bytes: &[u8]) -> Result<usize, WriteFault> {
        self.ask(bytes)
    }

    fn flush(&mut self) -> Result<(), WriteFault> {
        self.ask_flush()
    }
}
