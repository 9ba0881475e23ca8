//! Visits over a backend that notes its events: the replies to a connection, and the events, in order.
ghost use Rattle.std.specs.Prelude.{◌≡◌, ◌++◌, ◌∷◌, []};

use crate::pending_steps::ClosingPool;
use crate::users::users;
use arrayvec::{ArrayString, ArrayVec};
use lj_access::{Directory, Ticket};
use lj_base::{Name, Token};
use lj_pool::{PoolEnd, Served};
use lj_quota::Quota;
use lj_session::UserState;
use lj_visit::{
    Backend, Lender, LentState, LentTicket, NoTicket, SeenClosed, Shut, UserEnd, Visited, visit,
};
use lj_wire::{LineReader, Reading, Sink, WriteFault, Writing};
use std::alloc::AllocGlobal;
use std::fmt;
use std::fmt::Write;
use std::marker::Model;
use std::process::Abort;
use std::test::Fail;

/// An event of a backend. A state that entered was made of its quota, and has no sessions. The flag is whether bytes were held.
#[derive(Drop)]
enum Fact {
    Granted(Name, Vec<u8>, u8, u32),
    Ungranted(Name, Vec<u8>, NoTicket),
    Entered(u8, u32, bool, Quota),
    ShutOut(Ticket, bool, Shut),
    Opened(u8),
    Withdrawn(UserEnd<ClosingPool>),
    Left(Ticket, UserState),
    Closed,
}

/// One of these as a note, whose model is an event.
#[derive(Drop)]
struct Note {
    fact: Fact,
}

impl Model for Note {
    ghost use Rattle.lj_session.specs.UserState.{empty_state};
    ghost use Rattle.lj_visit.specs.Events.{Event};
    ghost use Rattle.lj_visit.specs.Events.Event.{granted, ungranted, entered, shut_out, opened, withdrawn, left, closed};
    ghost use Rattle.lj_tests.specs.declared.visits.Fact.TheVariants.{Granted, Ungranted, Entered, ShutOut, Opened, Withdrawn, Left, Closed};

    ghost Value = { Event };

    ghost view = { λ note. elim note.fact as (λ _. Event) [
      | Granted name token user number ↦ granted name token.items (record { user = user; number = number })
      | Ungranted name token why ↦ ungranted name token.items why
      | Entered user number held quota ↦ entered (record { user = user; number = number }) held (empty_state quota)
      | ShutOut ticket held why ↦ shut_out ticket held why
      | Opened user ↦ opened user
      | Withdrawn end ↦ withdrawn end.user (⟦<ClosingPool as PoolEnd>⟧.seen end.pool) 0
      | Left ticket state ↦ left ticket state
      | Closed ↦ closed
    ] };
}

/// Notes, a line each.
type NotesText = ArrayString<256>;

/// Returns why a ticket did not enter, in a word.
fn name_of(why: Shut) -> &'static str {
    match why {
        Shut::Closed(_) => "closed",
        Shut::Gone => "gone",
    }
}

/// Returns the words of a note that bytes were held.
fn bytes_told(held: bool) -> &'static str {
    if held { ", with bytes" } else { "" }
}

/// Writes a note as a line.
fn put_note(text: &mut NotesText, note: &Note) -> fmt::Result {
    match &note.fact {
        Fact::Granted(name, _, user, number) => writeln!(text, "granted {name} {user} {number}"),
        Fact::Ungranted(name, _, why) => writeln!(text, "{name}: {why}"),
        Fact::Entered(user, number, held, _) => {
            writeln!(text, "entered {user} {number}{}", bytes_told(*held))
        }
        Fact::ShutOut(ticket, held, why) => {
            writeln!(
                text,
                "shut out {} {} {}{}",
                ticket.user(),
                ticket.number(),
                name_of(*why),
                bytes_told(*held)
            )
        }
        Fact::Opened(user) => writeln!(text, "opened {user}"),
        Fact::Withdrawn(end) => writeln!(text, "withdrawn {}", end.user),
        Fact::Left(ticket, state) => {
            writeln!(
                text,
                "left {} {} {}",
                ticket.user(),
                ticket.number(),
                state.len()
            )
        }
        Fact::Closed => writeln!(text, "closed"),
    }
}

/// What becomes of each ticket of a backend.
#[derive(Clone, Copy)]
enum TicketFate {
    /// It enters.
    Open,
    /// None is granted: too many connections wait.
    Crowded,
    /// It does not: the backend is closed.
    Shut,
    /// It does not: its client is gone.
    Left,
}

/// A backend that lets users in, or shuts each of their tickets out. Its ends are closed after `calls` calls.
#[derive(Drop)]
struct FakeBackend<'t, R> {
    rt: &'t R,
    directory: Directory,
    entry: TicketFate,
    calls: u64,
    notes: Vec<Note>,
}

impl<R> Lender for FakeBackend<'_, R> {
    ghost use Rattle.std.specs.Prelude.{Bool, true, false};
    ghost use Rattle.lj_tests.specs.declared.visits.TicketFate.TheVariants.{Open, Crowded, Shut, Left};

    ghost closed = { λ fake. elim fake.entry as (λ _. Bool) [
      | Open ↦ false
      | Crowded ↦ false
      | Shut ↦ true
      | Left ↦ false
    ] };

    fn is_closed(&self) -> bool {
        matches!(self.entry, TicketFate::Shut)
    }
}

impl<R: Abort + AllocGlobal> FakeBackend<'_, R> {
    /// Grants a ticket, if any is granted.
    fn granted(&mut self, name: &Name, token: &Token) -> Result<Ticket, NoTicket>
        ensures notes { self.new.notes.items ≡ self.old.notes.items }
    {
        if let TicketFate::Crowded = self.entry {
            return Err(NoTicket::Crowded);
        }
        Ok(self.directory.hello(name.as_bytes(), token.as_bytes())?)
    }

    /// Returns why no ticket enters. None where one does.
    fn shut(&self) -> Option<Shut> {
        match self.entry {
            TicketFate::Open | TicketFate::Crowded => None,
            TicketFate::Shut => SeenClosed::look(self).map(Shut::Closed),
            TicketFate::Left => Some(Shut::Gone),
        }
    }

    fn note(&mut self, note: Note)
        ensures { self.new.notes.items ≡ self.old.notes.items ++ note ∷ [] }
    {
        self.notes
            .push(note)
            .ok()
            .expect(self.rt, "room for a note");
    }

    fn bytes(&self, word: &[u8]) -> Vec<u8>
        ensures { result.items ≡ word.now }
    {
        Vec::from_slice(self.rt.alloc(), word)
            .ok()
            .expect(self.rt, "room for a word")
    }
}

impl<R: Abort + AllocGlobal> Backend for FakeBackend<'_, R> {
    type End = ClosingPool;

    ghost use Rattle.std.specs.Prelude.{Some};
    ghost use Rattle.lj_visit.specs.Events.{Happens};
    ghost use Rattle.lj_visit.specs.Events.Event.{withdrawn};

    ghost events = { λ fake. Some fake.notes.items };

    fn hello(&mut self, name: &Name, token: &Token) -> Result<LentTicket, NoTicket> {
        let word = self.bytes(token.as_bytes());
        match self.granted(name, token) {
            Ok(ticket) => {
                self.note(Note {
                    fact: Fact::Granted(name.copy(), word, ticket.user(), ticket.number()),
                });
                Ok(LentTicket::new(ticket))
            }
            Err(why) => {
                self.note(Note {
                    fact: Fact::Ungranted(name.copy(), word, why),
                });
                Err(why)
            }
        }
    }

    fn enter(&mut self, ticket: LentTicket, held: bool) -> Result<LentState, Shut> {
        let ticket = ticket.take_back(self);
        if let Some(why) = self.shut() {
            self.note(Note {
                fact: Fact::ShutOut(ticket, held, why),
            });
            return Err(why);
        }
        let quota = Quota::USUAL;
        let state = UserState::new(self.rt.alloc(), quota);
        let _sessions = state.len();
        self.note(Note {
            fact: Fact::Entered(ticket.user(), ticket.number(), held, quota),
        });
        Ok(LentState::new(ticket, state))
    }

    fn open(&mut self, user: u8) -> UserEnd<ClosingPool> {
        self.note(Note {
            fact: Fact::Opened(user),
        });
        UserEnd {
            pool: ClosingPool::new(self.calls),
            user,
        }
    }

    fn finish(&mut self, end: UserEnd<ClosingPool>)
        ensures { Happens (Some self.old.notes.items) (Some self.new.notes.items)
            (withdrawn end.user (⟦<ClosingPool as PoolEnd>⟧.seen end.pool) 0 ∷ []) }
    {
        self.note(Note {
            fact: Fact::Withdrawn(end),
        });
    }

    fn leave(&mut self, lent: LentState) {
        let (ticket, state) = lent.take_back(self);
        self.note(Note {
            fact: Fact::Left(ticket, state),
        });
    }

    fn close(&mut self) {
        self.note(Note { fact: Fact::Closed });
    }
}

/// Makes a backend of the users A and B.
fn backend<R: Abort + AllocGlobal>(
    rt: &R,
    entry: TicketFate,
    calls: u64,
) -> Result<FakeBackend<'_, R>, Fail> {
    Ok(FakeBackend {
        rt,
        directory: Directory::new(rt.alloc(), users(rt)?)?,
        entry,
        calls,
        notes: Vec::new(rt.alloc()),
    })
}

/// Returns its notes, a line each.
fn text_of<R>(backend: &FakeBackend<'_, R>) -> Result<NotesText, fmt::Error> {
    let mut text = NotesText::new();
    for note in &backend.notes {
        put_note(&mut text, note)?;
    }
    Ok(text)
}

/// A connection: what it sends, what becomes of its ticket, and after how many calls its end is closed; the replies, the notes, and
/// how it has ended if its ticket entered or none was granted.
struct VisitCase {
    input: &'static str,
    entry: TicketFate,
    calls: u64,
    replies: &'static str,
    notes: &'static str,
    visited: Visited,
}

/// A connection that sends nothing.
const SILENT: VisitCase = VisitCase {
    input: "",
    entry: TicketFate::Open,
    calls: u64::MAX,
    replies: "",
    notes: "",
    visited: Visited::NoLine,
};

const OTHER: VisitCase = VisitCase {
    input: "LIST\n",
    replies: "ERR 01 DENIED\n",
    visited: Visited::Denied,
    ..SILENT
};

const WRONG: VisitCase = VisitCase {
    input: "HELLO A 00000000000000000000000000000001\nLIST\n",
    notes: "A: denied\n",
    ..OTHER
};

/// The input of user B: two atoms 1.5 sigma apart make a step.
const STEP: &str = "HELLO B 00000000000000000000000000000000\n\
    LOAD a 256 1 131072 rest 28\n2\ndimer\nAr 0 0 0\nAr 1.5 0 0\nADVANCE a 1\nBYE\n";

const CROWDED: VisitCase = VisitCase {
    input: STEP,
    entry: TicketFate::Crowded,
    notes: "B: too many connections of this user wait\n",
    visited: Visited::TurnedAway,
    ..SILENT
};

const CLOSED: VisitCase = VisitCase {
    input: STEP,
    entry: TicketFate::Shut,
    notes: "granted B 1 0\nshut out 1 0 closed, with bytes\n",
    ..SILENT
};

const GONE: VisitCase = VisitCase {
    input: STEP,
    entry: TicketFate::Left,
    notes: "granted B 1 0\nshut out 1 0 gone, with bytes\n",
    ..SILENT
};

/// A client that is gone, and has sent nothing behind its first line.
const QUIET: VisitCase = VisitCase {
    input: "HELLO B 00000000000000000000000000000000\n",
    notes: "granted B 1 0\nshut out 1 0 gone\n",
    ..GONE
};

const STEPPING: VisitCase = VisitCase {
    input: STEP,
    replies: "OK HELLO B\nOK LOAD a 0 2\nOK ADVANCE a 1\nOK BYE\n",
    notes: "granted B 1 0\nentered 1 0, with bytes\nopened 1\nwithdrawn 1\nleft 1 0 1\n",
    visited: Visited::Attended(Served::Bye),
    ..SILENT
};

/// The state does not come home from an end that was closed before its tasks were done.
const CUT_OFF: VisitCase = VisitCase {
    calls: 0,
    replies: "OK HELLO B\nOK LOAD a 0 2\n",
    notes: "granted B 1 0\nentered 1 0, with bytes\nopened 1\nwithdrawn 1\n",
    visited: Visited::Attended(Served::PoolClosed),
    ..STEPPING
};

const CASES: [VisitCase; 9] = [
    SILENT, OTHER, WRONG, CROWDED, CLOSED, GONE, QUIET, STEPPING, CUT_OFF,
];

#[test]
fn a_visit_asks_for_no_more_than_it_may(rt: HostRuntime) -> Result<(), Fail> {
    for case in &CASES {
        let mut backend = backend(&rt, case.entry, case.calls)?;
        let mut lines = LineReader::new(rt.alloc(), Reading::new(case.input.as_bytes()));
        let mut writer = Writing::new(ArrayVec::<u8, 256>::new());
        let visited = visit(&mut backend, &mut lines, &mut writer);
        assert_eq!(rt;
            visited,
            backend.shut().map_or(case.visited, Visited::ShutOut)
        );
        assert_eq!(rt; writer.into_inner().as_slice(), case.replies.as_bytes());
        assert_eq!(rt; text_of(&backend)?.as_str(), case.notes);
    }
    Ok(())
}

/// A sink whose writes all fail.
#[derive(Drop)]
struct LostSink {
    faults: u64,
}

impl Sink for LostSink {
    ghost use Rattle.std.specs.Prelude.{false, Some, []};

    ghost contents = { λ _. Some [] };

    ghost faults = { λ sink. Some sink.faults };

    ghost unflushed = { λ _. false };

    fn write(&mut self, _bytes: &[u8]) -> Result<usize, WriteFault> {
        self.faults = self.faults.saturating_add(1);
        Err(WriteFault)
    }

    fn flush(&mut self) -> Result<(), WriteFault> {
        Ok(())
    }
}

/// The state comes home from a user that cannot be welcomed, and no end is made for it.
#[test]
fn a_user_that_is_not_welcomed_leaves_at_once(rt: HostRuntime) -> Result<(), Fail> {
    let mut backend = backend(&rt, TicketFate::Open, u64::MAX)?;
    let mut lines = LineReader::new(rt.alloc(), Reading::new(STEP.as_bytes()));
    let mut writer = LostSink { faults: 0 };
    let visited = visit(&mut backend, &mut lines, &mut writer);
    assert_eq!(rt; visited, Visited::NotWelcomed);
    assert_eq!(rt;
        text_of(&backend)?.as_str(),
        "granted B 1 0\nentered 1 0, with bytes\nleft 1 0 0\n"
    );
    assert!(rt; writer.faults > 0);
    Ok(())
}
