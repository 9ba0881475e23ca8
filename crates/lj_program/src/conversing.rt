//! One user served over a reader and a writer.
ghost use Rattle.std.specs.Prelude.{◌≡◌, false, Err, IfErr};
ghost use Rattle.std.specs.Io.KnownBytes.{Keeps};
ghost use Rattle.lj_wire.specs.Ends.{Rises};
ghost use Rattle.lj_program.specs.Conversations.{Converses, RunsOver};
ghost use Rattle.lj_program.specs.Outcomes.{ComesTo, IsOfRun};
ghost use Rattle.lj_program.specs.declared.program_fault.ProgramFault.TheVariants.{Write};
ghost use Rattle.lj_engine.specs.declared.served.Served.TheVariants.{PoolClosed, ReadFault, TooManyStrays, WriteFault};

use crate::program_fault::ProgramFault;
use lj_end::InlinePool;
use lj_engine::{Served, serve};
use lj_quota::Quota;
use lj_session::UserState;
use lj_table::Table;
use lj_wire::{Asked, CountedReading, HeldWriting, Sink, Source};
use std::alloc::Global;
use std::io::{Read, Write};

/// The number of the one user.
const ONLY_USER: u8 = 0;

/// Answers the commands of `reader` on `writer`, as those of one user with this quota and no sessions, until the input or the
/// connection ends. Writes all replies before it waits for more input.
///
/// # Errors
/// `Memory` before anything is read, `Read` or `Write`.
pub fn run<R: Read + Drop, W: Write + Drop>(
    alloc: Global,
    quota: Quota,
    reader: R,
    writer: W,
) -> Result<(), ProgramFault<'static>>
    ensures { IfErr result IsOfRun }
{
    let source = CountedReading::new(Asked::reader(reader));
    let mut sink = HeldWriting::new(alloc, Asked::writer(writer))?;
    run_over(alloc, quota, source, &mut sink)
}

/// Answers the items of a source on a sink, as those of one user with this quota and no sessions, until the input or the
/// connection ends, and flushes the last replies.
///
/// # Errors
/// `Read` or `Write`.
///
/// Promise: a sink whose bytes are known gets exactly the bytes that `serve` writes for a user who has this quota and starts
/// without sessions. All these bytes are sent unless a write or a flush fails.
pub fn run_over<R: Source + Drop, W: Sink>(
    alloc: Global,
    quota: Quota,
    source: R,
    sink: &mut W,
) -> Result<(), ProgramFault<'static>>
    ensures conversation { RunsOver quota (R.remaining source) (W.contents sink.old) (W.contents sink.new) result }
    ensures sent { (result ≡ Err Write → ⊥) → W.unflushed sink.new ≡ false }
    ensures fault { IfErr result IsOfRun }
{
    let (served, _source) = converse(alloc, quota, source, sink);
    finish(served, sink)
}

/// Answers the items of a source on a sink, as those of one user with this quota and no sessions, until the input
/// or the connection ends. Returns the source too.
fn converse<R: Source + Drop, W: Sink>(
    alloc: Global,
    quota: Quota,
    source: R,
    sink: &mut W,
) -> (Served, R)
    ensures dialogue { Converses result.0 quota (R.remaining source) (W.contents sink.old) (W.contents sink.new) }
    ensures read_fault { result.0 ≡ ReadFault → Rises (R.errors source) (R.errors result.1) }
    ensures write_fault { result.0 ≡ WriteFault → Rises (W.faults sink.old) (W.faults sink.new) }
{
    let mut pool = InlinePool::new(Table::new());
    let state = UserState::new(alloc, quota);
    let (_, served, source) = serve(alloc, state, ONLY_USER, source, sink, &mut pool);
    (served, source)
}

/// Flushes the last replies, unless a write has failed, and returns the outcome of the run.
fn finish<W: Sink>(served: Served, sink: &mut W) -> Result<(), ProgramFault<'static>>
    requires never_closed { served ≡ PoolClosed → ⊥ }
    requires few_strays { served ≡ TooManyStrays → ⊥ }
    ensures kept { Keeps (W.contents sink.old) (W.contents sink.new) }
    ensures sent { (result ≡ Err Write → ⊥) → W.unflushed sink.new ≡ false }
    ensures outcome { (result ≡ Err Write → ⊥) → ComesTo served result }
    ensures fault { IfErr result IsOfRun }
{
    if served != Served::WriteFault && sink.flush().is_err() {
        return Err(ProgramFault::Write);
    }
    outcome(served)
}

/// Returns the outcome of a run whose replies are written, by how serving ended.
fn outcome(served: Served) -> Result<(), ProgramFault<'static>>
    requires never_closed { served ≡ PoolClosed → ⊥ }
    requires few_strays { served ≡ TooManyStrays → ⊥ }
    ensures { ComesTo served result }
{
    match served {
        Served::End | Served::Bye | Served::Ended => Ok(()),
        Served::ReadFault => Err(ProgramFault::Read),
        Served::WriteFault => Err(ProgramFault::Write),
        Served::PoolClosed | Served::TooManyStrays => unreachable!(),
    }
}
