//! A connection, from its first line to its end.
ghost use Rattle.std.specs.Prelude.{◌≡◌, ◌≤◌, ℕ, false, length, take, OnOk, OnErr};
ghost use Rattle.std.specs.Io.KnownBytes.{Appends};
ghost use Rattle.lj_wire.specs.declared.reader.phase.Phase.TheVariants.{Open};
ghost use Rattle.lj_wire.specs.Ends.{Rises};
ghost use Rattle.lj_visit.specs.declared.visiting.Visited.TheVariants.{Denied};
ghost use Rattle.lj_visit.specs.Events.{Happens};
ghost use Rattle.lj_visit.specs.Visits.{IsAdmission, IsServing, IsVisit, WritesLine, denied_line, events_closing, events_leaving, welcome_line};

use crate::backend::Backend;
use crate::lent::{LentState, LentTicket};
use crate::shut::{NoTicket, Shut};
use crate::visit_laws::reached_is_answered_behind;
use lj_base::Name;
use lj_engine::{Served, serve_lines};
use lj_session::{Refusal, UserState};
use lj_wire::{
    Hello, Line, LineReader, Sink, Source, WriteFault, put_all, put_refusal_line, put_welcome_line,
};

/// How a visit has ended.
#[derive(Clone, Copy, PartialEq, Eq, Debug)]
pub enum Visited {
    /// No first line came.
    NoLine,
    /// The first line was no HELLO, or the user was not let in.
    Denied,
    /// As many connections of the user waited as may. Nothing was written.
    TurnedAway,
    /// The ticket did not enter.
    ShutOut(Shut),
    /// The ticket entered, but OK HELLO could not be written.
    NotWelcomed,
    /// The user's commands were answered.
    Attended(Served),
}

/// Serves a connection: reads its first line, lets in the user named there, answers the lines that follow, and takes the user's
/// state home.
///
/// Promise: for each way a visit can end, the contract states what was read, what was written, and the backend's events in order.
pub fn visit<B: Backend, S: Source, W: Sink>(
    backend: &mut B,
    lines: &mut LineReader<S>,
    writer: &mut W,
) -> Visited
    requires fresh { lines.old.items ≡ 0 }
    requires at_work { lines.old.phase ≡ Open }
    ensures { IsVisit result
        (record {
          lines = lines.old;
          writer = record { contents = W.contents writer.old; faults = W.faults writer.old; unflushed = W.unflushed writer.old };
          events = B.events backend.old;
        })
        (record {
          lines = lines.new;
          writer = record { contents = W.contents writer.new; faults = W.faults writer.new; unflushed = W.unflushed writer.new };
          events = B.events backend.new;
        }) }
{
    let (name, token) = match lines.hello() {
        Ok(Some(Hello::Asked { name, token })) => (name, token),
        Ok(Some(Hello::Other)) => return deny(writer),
        Ok(None) | Err(_) => return Visited::NoLine,
    };
    match backend.hello(&name, &token) {
        Ok(ticket) => {
            reached_is_answered_behind();
            admit(backend, &name, ticket, lines, writer)
        }
        Err(NoTicket::Denied) => deny(writer),
        Err(NoTicket::Crowded) => Visited::TurnedAway,
    }
}

/// Waits until the ticket enters, lets its user in by this name, and answers the user's lines.
fn admit<B: Backend, S: Source, W: Sink>(
    backend: &mut B,
    name: &Name,
    ticket: LentTicket,
    lines: &mut LineReader<S>,
    writer: &mut W,
) -> Visited
    requires fresh { lines.old.items ≡ 0 }
    requires at_work { lines.old.phase ≡ Open }
    ensures { IsAdmission result name.now ticket.ticket
        (record {
          lines = lines.old;
          writer = record { contents = W.contents writer.old; faults = W.faults writer.old; unflushed = W.unflushed writer.old };
          events = B.events backend.old;
        })
        (record {
          lines = lines.new;
          writer = record { contents = W.contents writer.new; faults = W.faults writer.new; unflushed = W.unflushed writer.new };
          events = B.events backend.new;
        }) }
{
    let lent = match backend.enter(ticket, lines.holds_bytes()) {
        Ok(lent) => lent,
        Err(why) => return Visited::ShutOut(why),
    };
    if welcome(writer, name).is_err() {
        backend.leave(lent);
        return Visited::NotWelcomed;
    }
    Visited::Attended(serve_user(backend, lent, lines, writer))
}

/// Answers the lines of a user whose state was lent, over an end of the user's own, and takes the state home.
fn serve_user<B: Backend, S: Source, W: Sink>(
    backend: &mut B,
    lent: LentState,
    lines: &mut LineReader<S>,
    writer: &mut W,
) -> Served
    requires fresh { lines.old.items ≡ 0 }
    requires at_work { lines.old.phase ≡ Open }
    ensures { IsServing result lent.ticket lent.state
        (record {
          lines = lines.old;
          writer = record { contents = W.contents writer.old; faults = W.faults writer.old; unflushed = W.unflushed writer.old };
          events = B.events backend.old;
        })
        (record {
          lines = lines.new;
          writer = record { contents = W.contents writer.new; faults = W.faults writer.new; unflushed = W.unflushed writer.new };
          events = B.events backend.new;
        }) }
{
    let (ticket, state) = lent.take_out();
    let mut end = backend.open(ticket.ticket().user());
    let (state, served) = serve_lines(state, end.user, lines, writer, &mut end.pool);
    backend.finish(end);
    bring_home(backend, ticket, state);
    close_after(backend, served);
    served
}

/// Takes the state home, if there is one, from the ticket that it was lent to. The ticket is lost with a state that the pool has
/// kept from coming home.
fn bring_home<B: Backend>(backend: &mut B, ticket: LentTicket, state: Option<UserState>)
    ensures { Happens (B.events backend.old) (B.events backend.new) (events_leaving ticket.ticket state) }
{
    match state {
        Some(state) => backend.leave(ticket.with_state(state)),
        None => ticket.lose(),
    }
}

/// Closes the backend if serving ended with too many strays.
fn close_after<B: Backend>(backend: &mut B, served: Served)
    ensures { Happens (B.events backend.old) (B.events backend.new) (events_closing served) }
{
    if let Served::TooManyStrays = served {
        backend.close();
    }
}

/// Writes OK HELLO with the user's name, and flushes it.
fn welcome<W: Sink>(writer: &mut W, name: &Name) -> Result<(), WriteFault>
    ensures written { OnOk result
        (Appends (W.contents writer.old) (W.contents writer.new) (welcome_line name.now)) }
    ensures sent { OnOk result (W.unflushed writer.new ≡ false) }
    ensures counted { OnOk result (W.faults writer.new ≡ W.faults writer.old) }
    ensures begun { OnErr result ((n : ℕ) × (n ≤ length (welcome_line name.now))
        × Appends (W.contents writer.old) (W.contents writer.new) (take n (welcome_line name.now))) }
    ensures risen { OnErr result (Rises (W.faults writer.old) (W.faults writer.new)) }
{
    let mut line = Line::new();
    put_welcome_line(&mut line, name);
    tell(writer, &line)
}

/// Writes the refusal DENIED, and returns how the visit has ended.
fn deny<W: Sink>(writer: &mut W) -> Visited
    ensures denied { result ≡ Denied }
    ensures told { WritesLine denied_line
        (record { contents = W.contents writer.old; faults = W.faults writer.old; unflushed = W.unflushed writer.old })
        (record { contents = W.contents writer.new; faults = W.faults writer.new; unflushed = W.unflushed writer.new }) }
{
    let mut line = Line::new();
    put_refusal_line(&mut line, Refusal::Denied);
    let _ = tell(writer, &line);
    Visited::Denied
}

/// Writes a line and flushes it. After a fault the first bytes of it may have been written.
fn tell<W: Sink>(writer: &mut W, line: &Line) -> Result<(), WriteFault>
    ensures written { OnOk result (Appends (W.contents writer.old) (W.contents writer.new) line.now.items) }
    ensures sent { OnOk result (W.unflushed writer.new ≡ false) }
    ensures counted { OnOk result (W.faults writer.new ≡ W.faults writer.old) }
    ensures begun { OnErr result ((n : ℕ) × (n ≤ length line.now.items)
        × Appends (W.contents writer.old) (W.contents writer.new) (take n line.now.items)) }
    ensures risen { OnErr result (Rises (W.faults writer.old) (W.faults writer.new)) }
{
    put_all(writer, line.as_slice())?;
    writer.flush()
}
