//! The first line of a connection, read whole.
ghost use Rattle.std.specs.Prelude.{IfOk, OnErr};
ghost use Rattle.lj_wire.specs.Input.{CountsFault, TakesPart};
ghost use Rattle.lj_wire.specs.Greetings.{ReadsHello};

use super::source_input::{Front, Input, SkippedLine};
use crate::hello::{Hello, parse_hello};
use crate::source_and_sink::{ReadFault, Source};

/// Reads the first line, whatever its length. `None` where the input ends before a whole line came.
pub(crate) fn read_hello<S: Source>(input: &mut Input<S>) -> Result<Option<Hello>, ReadFault>
    ensures hello { IfOk result (λ hello. ReadsHello input.old hello input.new) }
    ensures part { OnErr result (TakesPart input.old input.new) }
    ensures errors { CountsFault result input.old input.new }
{
    match input.find_line()? {
        Front::Line(count) => {
            let (line, _) = input.held().split_at(count);
            let hello = parse_hello(line);
            input.take(count + 1);
            Ok(Some(hello))
        }
        Front::Long => match input.skip_line()? {
            SkippedLine::Line | SkippedLine::Long => Ok(Some(Hello::Other)),
            SkippedLine::End => Ok(None),
        },
        Front::End => Ok(None),
    }
}
