//! Replay of schedules: their events happen in a world, and the replies are printed.
ghost use Rattle.std.specs.Prelude.{◌≡◌, ◌≢◌, ◌++◌, IfOk, IfErr, OnOk};
ghost use Rattle.lj_access.specs.UserLists as listed;
ghost use Rattle.lj_wire.specs.Ends.{Rises};
ghost use Rattle.lj_program.specs.Printed.{printed, printed_among, printed_entry};
ghost use Rattle.lj_program.specs.Printed.{IsPrintedRun, WritesRun, BeginsRun};
ghost use Rattle.lj_program.specs.declared.program_fault.ReplayFault.TheVariants.{Write};

mod event_lines;
mod schedule;

use crate::program_fault::ReplayFault;
use crate::replaying::schedule::{Schedule, read_schedule};
use bstr::ByteSlice;
use itoa::Buffer;
use lj_access::User;
use lj_base::Name;
use lj_wire::{Sink, put_all};
use lj_world::{Entry, World};
use std::alloc::{AllocError, Global};

/// Runs a schedule in a world of its users, and prints the replies: each line after the name of its user and the number of its
/// connection.
///
/// # Errors
/// `Line` at the first bad line of the schedule, or `Memory`: nothing is written then. `Write` if a write fails: a front of the
/// transcript may have been written.
///
/// Promise: on success a run's transcript is written. The headline theorem holds for this run. If a line is bad or memory runs
/// out, nothing is written.
pub fn replay<W: Sink>(alloc: Global, bytes: &[u8], writer: &mut W) -> Result<(), ReplayFault>
    ensures written { OnOk result (WritesRun (W.contents writer.old) (W.contents writer.new)) }
    ensures nothing { IfErr result (λ fault. fault ≢ Write → writer.new ≡ writer.old) }
    ensures begun { IfErr result (λ fault. fault ≡ Write →
        BeginsRun (W.contents writer.old) (W.contents writer.new)) }
    ensures risen { IfErr result (λ fault. fault ≡ Write →
        Rises (W.faults writer.old) (W.faults writer.new)) }
{
    let printed = printed_run(alloc, bytes)?;
    put_all(writer, printed.as_slice())?;
    Ok(())
}

/// Returns what a run of a schedule prints.
fn printed_run(alloc: Global, bytes: &[u8]) -> Result<Vec<u8>, ReplayFault>
    ensures run { IfOk result (λ printed. IsPrintedRun printed.items) }
    ensures fault { IfErr result (λ fault. fault ≢ Write) }
{
    let Schedule { users, events } = read_schedule(alloc, bytes)?;
    let names = names(alloc, users.as_slice())?;
    let transcript = World::run(alloc, users, events)?;
    Ok(rendered(alloc, names.as_slice(), transcript.entries())?)
}

/// Returns the names of users, in their order.
fn names(alloc: Global, users: &[User]) -> Result<Vec<Name>, AllocError>
    ensures { IfOk result (λ names. names.items ≡ listed.user_names users.now) }
{
    users.iter().map(|user| user.name.copy()).collect(alloc)
}

/// Returns these replies as they are printed.
fn rendered(alloc: Global, names: &[Name], entries: &[Entry]) -> Result<Vec<u8>, AllocError>
    ensures { IfOk result (λ bytes. bytes.items ≡ printed names.now entries.now) }
{
    let mut bytes = Vec::new(alloc);
    for entry in entries {
        append_entry(&mut bytes, names, entry)?;
    }
    Ok(bytes)
}

/// Prints a reply, if its user is one of these.
fn append_entry(bytes: &mut Vec<u8>, names: &[Name], entry: &Entry) -> Result<(), AllocError>
    ensures { OnOk result (bytes.new.items ≡ bytes.old.items ++ printed_among names.now entry.now) }
{
    match names.get(usize::from(entry.user)) {
        Some(name) => append_lines(bytes, name, entry),
        None => Ok(()),
    }
}

/// Prints each line of a reply after the name of its user and the number of its connection.
fn append_lines(bytes: &mut Vec<u8>, name: &Name, entry: &Entry) -> Result<(), AllocError>
    ensures { OnOk result (bytes.new.items ≡ bytes.old.items ++ printed_entry name.now entry.now) }
{
    let mut digits = Buffer::new();
    let connection = digits.format(entry.connection);
    for line in entry.text.as_bytes().lines_with_terminator() {
        bytes.extend_from_slice(name.as_bytes())?;
        bytes.push(b' ')?;
        bytes.extend_from_slice(connection.as_bytes())?;
        bytes.push(b' ')?;
        bytes.extend_from_slice(line)?;
    }
    Ok(())
}
