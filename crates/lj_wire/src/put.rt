//! Writing all of some bytes.
ghost use Rattle.std.specs.Prelude.{◌≡◌, ℕ, ◌≤◌, length, take, OnOk, OnErr};
ghost use Rattle.std.specs.Io.KnownBytes.{Appends};
ghost use Rattle.lj_wire.specs.Ends.{Rises};

use crate::source_and_sink::{Sink, WriteFault};

#[tactic(auto, using(crate::proofs::Known::appends_front))]
/// Writes all of `bytes`. After a fault the first of them may have been written.
///
/// Promise: all bytes are written, or a prefix of them if a write fails.
pub fn put_all<W: Sink>(sink: &mut W, bytes: &[u8]) -> Result<(), WriteFault>
    ensures written { OnOk result (Appends (W.contents sink.old) (W.contents sink.new) bytes.now) }
    ensures counted { OnOk result (W.faults sink.new ≡ W.faults sink.old) }
    ensures begun { OnErr result ((n : ℕ) × (n ≤ length bytes.now)
        × Appends (W.contents sink.old) (W.contents sink.new) (take n bytes.now)) }
    ensures risen { OnErr result (Rises (W.faults sink.old) (W.faults sink.new)) }
{
    let mut at = 0;
    while at < bytes.len() {
        let (_, rest) = bytes.split_at(at);
        at += sink.write(rest)?;
    }
    Ok(())
}
