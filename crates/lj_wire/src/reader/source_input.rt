//! The input of a reader, read line by line.
ghost use Rattle.std.specs.Prelude.{◌≡◌, ℕ, ◌≤◌, ◌<◌, [], length, take, drop, Ok, IfOk, OnOk, OnErr};
ghost use Rattle.lj_wire.specs.Input.{CountsFault, bytes_untaken, Grows, TakesBytes, HoldsLine, HoldsNoFeed, TakesPart};
ghost use Rattle.lj_wire.specs.declared.reader.source_input.Front.TheVariants.{Line};
ghost use Rattle.std.specs.Io.KnownBytes.{Keeps, IsAtEnd};
ghost use Rattle.lj_wire.specs.Ends.{Rises};
ghost use Rattle.lj_wire.specs.ItemSteps.{Finds, Skips, SearchesFor};

use super::buffer::{Buffer, MAX_HELD_BYTES};
use crate::line::split_line;
use crate::line_limits::{LONG_LINE_BYTES, MAX_LINE_BYTES};
use crate::source_and_sink::{ReadFault, Source};
use std::marker::Model;

/// A source, and the bytes that were read from it and are not yet taken.
#[derive(Drop)]
pub(crate) struct Input<S: Source> {
    buffer: Buffer,
    source: S,
}

/// What the input begins with.
pub(crate) enum Front {
    /// A line of this many bytes and its line feed, all of them held.
    Line(usize),
    /// More bytes than a command may have, without a line feed.
    Long,
    /// Less than a line, at the end of the input.
    End,
}

/// What was skipped.
pub(crate) enum SkippedLine {
    /// A line of more than 256 bytes.
    Line,
    /// 65,536 bytes without a line feed.
    Long,
    /// Less than a line, at the end of the input.
    End,
}

impl<S: Source> Model for Input<S> {
    ghost use Rattle.lj_wire.specs.Input.{Input};

    ghost Value = { Input };

    ghost view = { λ input. record {
      held = input.buffer;
      unread = S.remaining input.source;
      errors = S.errors input.source;
    } };
}

impl<S: Source> Input<S> {
    /// Wraps `source`, and reads nothing.
    pub(crate) fn new(source: S) -> Self
        ensures held { result.held ≡ [] }
        ensures unread { result.unread ≡ S.remaining source }
        ensures errors { result.errors ≡ S.errors source }
    {
        Input {
            buffer: Buffer::new(),
            source,
        }
    }

    pub(crate) fn into_source(self) -> S
        ensures unread { S.remaining result ≡ self.unread }
        ensures errors { S.errors result ≡ self.errors }
    {
        let Input { buffer: _, source } = self;
        source
    }

    /// Returns the bytes held.
    pub(crate) fn held(&self) -> &[u8]
        ensures value { result.now ≡ self.now.held }
        ensures bounded { length result.now ≤ MAX_HELD_BYTES }
    {
        self.buffer.as_slice()
    }

    /// Takes the first `count` bytes of those that are held.
    pub(crate) fn take(&mut self, count: usize)
        requires { count ≤ length self.old.held }
        ensures { self.new ≡ record self.old { held = drop count self.old.held } }
    {
        self.buffer.take(count);
    }

    /// Takes all bytes that are held.
    pub(crate) fn clear(&mut self)
        ensures { self.new ≡ record self.old { held = [] } }
    {
        self.buffer.clear();
    }

    /// Reads some bytes after those held, and returns how many: 0 only at the end of the input.
    pub(crate) fn read_more(&mut self) -> Result<usize, ReadFault>
        requires { length self.old.held < MAX_HELD_BYTES }
        ensures grown { IfOk result (Grows self.old self.new) }
        ensures counted { OnOk result (self.new.errors ≡ self.old.errors) }
        ensures held { OnErr result (self.new.held ≡ self.old.held) }
        ensures kept { OnErr result (Keeps (bytes_untaken self.old) (bytes_untaken self.new)) }
        ensures risen { OnErr result (Rises self.old.errors self.new.errors) }
    {
        self.buffer.read_from(&mut self.source)
    }

    /// Reads some bytes into `buf` and takes them; before this no byte is held. Returns how many: 0 only at the end of the
    /// input, or where `buf` is empty.
    pub(crate) fn read_into(&mut self, buf: &mut [u8]) -> Result<usize, ReadFault>
        requires { self.old.held ≡ [] }
        ensures held { self.new.held ≡ [] }
        ensures bound { IfOk result (λ n. n ≤ length buf.new) }
        ensures taken { IfOk result (λ n. TakesBytes self.old self.new (take n buf.new)) }
        ensures ended { IfOk result (λ n. n ≡ 0 → 0 < length buf.new → IsAtEnd (bytes_untaken self.new)) }
        ensures counted { OnOk result (self.new.errors ≡ self.old.errors) }
        ensures kept { OnErr result (Keeps (bytes_untaken self.old) (bytes_untaken self.new)) }
        ensures risen { OnErr result (Rises self.old.errors self.new.errors) }
    {
        self.source.read(buf)
    }

    #[tactic(auto, using(crate::proofs::Passing::searched_more, crate::proofs::Passing::searched_long))]
    /// Reads until a whole line is held, or more bytes than a command may have, or the input ends. The bytes held at the end, or
    /// at a fault, are taken.
    pub(crate) fn find_line(&mut self) -> Result<Front, ReadFault>
        ensures found { IfOk result (λ front. Finds self.old front self.new) }
        ensures searched { IfOk result (λ front. SearchesFor self.old front self.new) }
        ensures at_once { (count : ℕ) → HoldsLine self.old count → (result ≡ Ok (Line count)) × (self.new ≡ self.old) }
        ensures part { OnErr result (TakesPart self.old self.new) }
        ensures errors { CountsFault result self.old self.new }
    {
        'reads: loop {
            if let Some((line, _)) = split_line(self.held()) {
                return Ok(Front::Line(line.len()));
            }
            if self.held().len() > MAX_LINE_BYTES {
                return Ok(Front::Long);
            }
            match self.read_more() {
                Ok(0) => {
                    self.clear();
                    return Ok(Front::End);
                }
                Ok(_) => {}
                Err(fault) => {
                    self.clear();
                    return Err(fault);
                }
            }
        }
    }

    /// Skips an overlong line with its line feed; its bytes are only counted. More of them are held than a command may have.
    pub(crate) fn skip_line(&mut self) -> Result<SkippedLine, ReadFault>
        requires { HoldsNoFeed self.old }
        ensures skipped { IfOk result (λ skipped. Skips self.old skipped self.new) }
        ensures part { OnErr result (TakesPart self.old self.new) }
        ensures errors { CountsFault result self.old self.new }
    {
        let mut seen = self.held().len();
        self.clear();
        while seen < LONG_LINE_BYTES {
            if self.read_more()? == 0 {
                return Ok(SkippedLine::End);
            }
            let wanted = (LONG_LINE_BYTES - seen).min(self.held().len());
            let (front, _) = self.held().split_at(wanted);
            if let Some((line, _)) = split_line(front) {
                let count = line.len() + 1;
                self.take(count);
                return Ok(SkippedLine::Line);
            }
            self.take(wanted);
            seen += wanted;
        }
        Ok(SkippedLine::Long)
    }
}
