//! A writer that holds replies back until it is flushed, or its buffer is full.
ghost use Rattle.std.specs.Prelude.{◌≡◌, ◌<◌, ◌≤◌, false, Some, [], length, take, vec_len, vec_capacity, IfOk, OnOk, OnErr};
ghost use Rattle.std.specs.Io.KnownBytes.{Appends, Keeps};
ghost use Rattle.lj_wire.specs.Ends.{Rises};
ghost use Rattle.lj_wire.specs.declared.held_writing.TheConstants.{MAX_HELD_BYTES};

use crate::asked::Writes;
use crate::source_and_sink::{CountedWriting, Sink, WriteFault};
use std::alloc::{AllocError, Global};

/// Maximum number of reply bytes that are held back.
const MAX_HELD_BYTES: usize = 65_536;

/// A counted writer, and the bytes held back from it. The first `sent` of them were written; after a fault the others stay held,
/// so that it is known what was handed over.
#[derive(Drop)]
pub struct HeldWriting<W> {
    counted_writer: CountedWriting<W>,
    bytes: Vec<u8>,
    sent: usize,
    ghost within: { sent ≤ vec_len bytes },
    ghost few: { vec_len bytes ≤ MAX_HELD_BYTES },
    ghost room: { MAX_HELD_BYTES ≤ vec_capacity bytes },
}

impl<W: Writes> HeldWriting<W> {
    /// Wraps `writer`, and writes nothing.
    ///
    /// # Errors
    /// Out of memory for the bytes that are held back.
    pub fn new(alloc: Global, writer: W) -> Result<Self, AllocError>
    where
        W: Drop,
        ensures contents { IfOk result
            (λ held. Keeps (W.contents writer) (⟦<HeldWriting<W> as Sink>⟧.contents held)) }
        ensures faults { IfOk result (λ held. ⟦<HeldWriting<W> as Sink>⟧.faults held ≡ Some 0) }
        ensures flushed { IfOk result (λ held. ⟦<HeldWriting<W> as Sink>⟧.unflushed held ≡ false) }
    {
        let bytes = Vec::with_capacity(alloc, MAX_HELD_BYTES)?;
        Ok(HeldWriting {
            counted_writer: CountedWriting::new(writer),
            bytes,
            sent: 0,
        })
    }

    // Writes the bytes held back. After a fault those not written stay held back.
    fn send(&mut self) -> Result<(), WriteFault>
        ensures kept { let handed = ⟦<HeldWriting<W> as Sink>⟧.contents in
            Keeps (handed self.old) (handed self.new) }
        ensures none { OnOk result (self.new.bytes.items ≡ []) }
        ensures counted { let faults = ⟦<HeldWriting<W> as Sink>⟧.faults in
            OnOk result (faults self.new ≡ faults self.old) }
        ensures risen { let faults = ⟦<HeldWriting<W> as Sink>⟧.faults in
            OnErr result (Rises (faults self.old) (faults self.new)) }
    {
        while self.sent < self.bytes.len() {
            let (_, rest) = self.bytes.as_slice().split_at(self.sent);
            self.sent += self.counted_writer.write(rest)?;
        }
        self.sent = 0;
        self.bytes.clear();
        Ok(())
    }

    // Writes the bytes held back if the buffer is full.
    fn make_room(&mut self) -> Result<(), WriteFault>
        ensures kept { let handed = ⟦<HeldWriting<W> as Sink>⟧.contents in
            Keeps (handed self.old) (handed self.new) }
        ensures room { OnOk result (vec_len self.new.bytes < MAX_HELD_BYTES) }
        ensures counted { let faults = ⟦<HeldWriting<W> as Sink>⟧.faults in
            OnOk result (faults self.new ≡ faults self.old) }
        ensures risen { let faults = ⟦<HeldWriting<W> as Sink>⟧.faults in
            OnErr result (Rises (faults self.old) (faults self.new)) }
    {
        if self.bytes.len() < MAX_HELD_BYTES {
            return Ok(());
        }
        self.send()
    }

    // Holds back as many of the bytes as there is room for, and returns how many.
    fn hold(&mut self, bytes: &[u8]) -> usize
        requires room { vec_len self.old.bytes < MAX_HELD_BYTES }
        ensures bound { result ≤ length bytes.now }
        ensures some { 0 < length bytes.now → 0 < result }
        ensures held { let handed = ⟦<HeldWriting<W> as Sink>⟧.contents in
            Appends (handed self.old) (handed self.new) (take result bytes.now) }
        ensures counted { let faults = ⟦<HeldWriting<W> as Sink>⟧.faults in
            faults self.new ≡ faults self.old }
    {
        let room = MAX_HELD_BYTES - self.bytes.len();
        let (front, _) = bytes.split_at(bytes.len().min(room));
        if self.bytes.extend_from_slice(front).is_err() {
            unreachable!();
        }
        front.len()
    }
}

impl<W: Writes> Sink for HeldWriting<W> {
    ghost use Rattle.std.specs.Prelude.{drop};
    ghost use Rattle.std.specs.Io.KnownBytes.{append_known};
    ghost use Rattle.lj_wire.specs.Ends.{unflushed_or};

    // The bytes handed over: those written, and those held back.
    ghost contents = { λ held. append_known (⟦<CountedWriting<W> as Sink>⟧.contents held.counted_writer)
        (drop held.sent held.bytes.items) };

    ghost faults = { λ held. ⟦<CountedWriting<W> as Sink>⟧.faults held.counted_writer };

    ghost unflushed = { λ held.
        unflushed_or held.bytes.items (⟦<CountedWriting<W> as Sink>⟧.unflushed held.counted_writer) };

    fn write(&mut self, bytes: &[u8]) -> Result<usize, WriteFault> {
        self.make_room()?;
        Ok(self.hold(bytes))
    }

    fn flush(&mut self) -> Result<(), WriteFault>
        ensures kept { let handed = ⟦<HeldWriting<W> as Sink>⟧.contents in
            Keeps (handed self.old) (handed self.new) }
        ensures sent { OnOk result (⟦<HeldWriting<W> as Sink>⟧.unflushed self.new ≡ false) }
        ensures counted { let faults = ⟦<HeldWriting<W> as Sink>⟧.faults in
            OnOk result (faults self.new ≡ faults self.old) }
        ensures risen { let faults = ⟦<HeldWriting<W> as Sink>⟧.faults in
            OnErr result (Rises (faults self.old) (faults self.new)) }
    {
        self.send()?;
        self.counted_writer.flush()
    }
}
