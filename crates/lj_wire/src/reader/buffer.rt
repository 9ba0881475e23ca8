//! The buffer of bytes that were read and are not yet taken.
ghost use Rattle.std.specs.Prelude.{◌≡◌, ℕ, ◌+◌, ◌-◌, ◌<◌, ◌≤◌, List, [], ◌++◌, length, take, drop, slice_range, IfOk};
ghost use Rattle.std.specs.Prelude.{OnOk, OnErr};
ghost use Rattle.std.specs.Io.KnownBytes.{Consumes, Keeps, IsAtEnd};
ghost use Rattle.lj_wire.specs.Ends.{Rises};

use crate::source_and_sink::{ReadFault, Source};
use std::marker::Model;

/// Maximum number of bytes that a reader has read ahead.
pub(crate) const MAX_HELD_BYTES: usize = 8192;

/// A buffer that holds the bytes from `start` to `end`.
#[derive(Drop)]
pub(crate) struct Buffer {
    bytes: [u8; MAX_HELD_BYTES],
    start: usize,
    end: usize,
}

impl Model for Buffer {
    ghost use Rattle.std.specs.Prelude.{ℕ, ◌≤◌, List, slice_range};
    ghost use Rattle.lj_wire.specs.declared.reader.buffer.TheConstants.{MAX_HELD_BYTES};

    ghost Value = { List ℕ };

    ghost view = { λ buffer. slice_range buffer.bytes buffer.start buffer.end };

    ghost invariant = { λ buffer. (buffer.start ≤ buffer.end) × (buffer.end ≤ MAX_HELD_BYTES) };
}

impl Buffer {
    pub(crate) fn new() -> Buffer
        ensures { result ≡ [] }
    {
        Buffer {
            bytes: [0; MAX_HELD_BYTES],
            start: 0,
            end: 0,
        }
    }

    pub(crate) fn as_slice(&self) -> &[u8]
        ensures value { result.now ≡ self.now }
        ensures bounded { length result.now ≤ MAX_HELD_BYTES }
    {
        &self.bytes[self.start..self.end]
    }

    /// Takes the first `count` bytes.
    pub(crate) fn take(&mut self, count: usize)
        requires { count ≤ length self.old }
        ensures { self.new ≡ drop count self.old }
    {
        self.start += count;
    }

    /// Takes all bytes.
    pub(crate) fn clear(&mut self)
        ensures { self.new ≡ [] }
    {
        self.start = 0;
        self.end = 0;
    }

    /// Reads some bytes after those held, and returns how many: 0 only at the end of the input.
    pub(crate) fn read_from<S: Source>(&mut self, source: &mut S) -> Result<usize, ReadFault>
        requires { length self.old < MAX_HELD_BYTES }
        ensures more { IfOk result (λ n. (more : List ℕ) × (length more ≡ n) × (self.new ≡ self.old ++ more)
            × Consumes (S.remaining source.old) (S.remaining source.new) more) }
        ensures ended { IfOk result (λ n. n ≡ 0 → IsAtEnd (S.remaining source.new)) }
        ensures counted { OnOk result (S.errors source.new ≡ S.errors source.old) }
        ensures unchanged { OnErr result ((self.new ≡ self.old)
            × Keeps (S.remaining source.old) (S.remaining source.new)) }
        ensures risen { OnErr result (Rises (S.errors source.old) (S.errors source.new)) }
    {
        let held = self.end - self.start;
        move_to_front(&mut self.bytes, self.start, self.end);
        self.start = 0;
        self.end = held;
        let count = source.read(&mut self.bytes[held..])?;
        self.end = held + count;
        Ok(count)
    }
}

fn move_to_front(bytes: &mut [u8; MAX_HELD_BYTES], start: usize, end: usize)
    requires ordered { start ≤ end }
    requires within { end ≤ MAX_HELD_BYTES }
    ensures { slice_range bytes.new 0 (end - start) ≡ slice_range bytes.old start end }
{
    bytes.copy_within(start..end, 0);
}
