//! Reads that may wait for input, and the flush before them.
ghost use Rattle.std.specs.Prelude.{◌≡◌, true, false, Ok, IfOk, OnOk, OnErr};
ghost use Rattle.std.specs.Io.KnownBytes.{Keeps};
ghost use Rattle.lj_wire.specs.declared.reader.phase.Phase.TheVariants.{Open};
ghost use Rattle.lj_wire.specs.Ends.{Rises};
ghost use Rattle.lj_wire.specs.LineReader.{BeginsWithItem, HandsOutItem, HandsNone, HasFailed};
ghost use Rattle.lj_engine.specs.Waiting.{IsReady, MayRead};

use lj_wire::{Item, LineReader, ReadFault, Sink, Source, WriteFault};

/// Flushes the writer before the next item is read. Where the reader holds that item, nothing is read for it and nothing is
/// flushed, so that commands sent together are answered in few writes.
pub(crate) fn flush_before_read<R: Source, W: Sink>(
    lines: &LineReader<R>,
    writer: &mut W,
) -> Result<(), WriteFault>
    ensures ready { OnOk result (IsReady lines.now (W.unflushed writer.new)) }
    ensures kept { Keeps (W.contents writer.old) (W.contents writer.new) }
    ensures counted { OnOk result (W.faults writer.new ≡ W.faults writer.old) }
    ensures risen { OnErr result (Rises (W.faults writer.old) (W.faults writer.new)) }
{
    if lines.holds_item() {
        return Ok(());
    }
    writer.flush()
}

/// Puts the next item into `item`; returns false where there is none. A read may wait, so this is the one way to the reader: it
/// is handed the writer too, from which nothing is held back then.
pub(crate) fn next_item<R: Source, W: Sink>(
    lines: &mut LineReader<R>,
    _writer: &W,
    item: &mut Item,
) -> Result<bool, ReadFault>
    requires { MayRead lines.old (W.unflushed _writer.now) }
    ensures item { IfOk result (λ some. some ≡ true → HandsOutItem lines.old lines.new item.new) }
    ensures none { IfOk result (λ some. some ≡ false → HandsNone lines.old lines.new) }
    ensures fault { OnErr result (HasFailed lines.old lines.new) }
    ensures at_once { lines.old.phase ≡ Open → BeginsWithItem lines.old.held → result ≡ Ok true }
{
    lines.next_into(item)
}
