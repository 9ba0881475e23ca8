//! Worlds: events at numbers of no connection and no worker. Schedules of many users are replayed by `tests/replay`, and by
//! `tests/faults` with each growth refused in turn.

use crate::users::{USERS, name, token, users};
use arrayvec::ArrayString;
use lj_base::OutOfMemory;
use lj_session::{Body, LoadBody};
use lj_wire::{Item, read_line};
use lj_world::{ConnectionEvent, Entry, Event, WorkerEvent, World};
use std::alloc::{AllocError, AllocGlobal};
use std::fmt::Write;
use std::process::Abort;
use std::test::Fail;

/// The replies.
type TranscriptText = ArrayString<4096>;

const LOAD_A: &str = "LOAD a 256 1 131072 rest 28";

const LOAD_B: &str = "LOAD b 256 1 131072 rest 28";

/// The body of both loads.
const DIMER: &str = "2\ndimer\nAr 0 0 0\nAr 1.5 0 0\n";

/// An event, with the number of its connection or worker, and what is shown, arrives or is picked there.
#[derive(Clone, Copy)]
enum Step {
    Hello(u8, &'static str),
    Arrive(u8, &'static str),
    End(u8),
    Enter(u8),
    Next(u8),
    Post(u8),
    Fetch(u8, usize),
    /// Turns this session, or the first one that is ready if the word is empty.
    Turn(u8, &'static str),
    Leave(u8),
    By(u8, WorkerEvent),
}

/// Two users load two atoms each; the first saves them, the second goes on by a step.
const STEPS: [Step; 24] = [
    Step::Hello(1, "A"),
    Step::Hello(2, "B"),
    Step::Enter(1),
    Step::Enter(2),
    Step::Arrive(1, LOAD_A),
    Step::Arrive(2, LOAD_B),
    Step::Arrive(1, "BRANCH a k"),
    Step::Arrive(1, "LIST"),
    Step::Arrive(2, "ADVANCE b 1"),
    Step::Arrive(2, "LIST"),
    Step::Next(1),
    Step::Next(2),
    Step::Next(1),
    Step::Next(1),
    Step::Next(2),
    Step::Post(2),
    Step::By(1, WorkerEvent::Take { pick: 0 }),
    Step::By(1, WorkerEvent::Compute),
    Step::By(1, WorkerEvent::Give),
    Step::Fetch(2, 0),
    Step::Turn(2, ""),
    Step::Next(2),
    Step::End(1),
    Step::Leave(1),
];

const EXPECTED: &str = "A 1 OK LOAD a 0 2\nB 2 OK LOAD b 0 2\nA 1 OK BRANCH a k 0\n\
    A 1 OK LIST 1\na 0 2 1\nB 2 OK ADVANCE b 1\nB 2 OK LIST 1\nb 1 2 0\n";

/// Numbers of no connection and of no worker: below the first one, past the last one, and the largest.
const NOBODY: [(u8, u8); 3] = [(0, 0), (65, 17), (255, 255)];

/// Returns a step for each event at this connection and by this worker, and a turn both of a session and of any.
fn all_steps(connection: u8, worker: u8) -> [Step; 14] {
    [
        Step::Hello(connection, "A"),
        Step::Arrive(connection, "BYE"),
        Step::End(connection),
        Step::Enter(connection),
        Step::Next(connection),
        Step::Post(connection),
        Step::Fetch(connection, 0),
        Step::Turn(connection, ""),
        Step::Turn(connection, "b"),
        Step::Leave(connection),
        Step::By(worker, WorkerEvent::Take { pick: 0 }),
        Step::By(worker, WorkerEvent::Compute),
        Step::By(worker, WorkerEvent::Give),
        Step::By(worker, WorkerEvent::HandBack),
    ]
}

/// Returns the item of a line, with the body of two atoms if it is a load.
fn item(rt: &impl AllocGlobal, line: &str) -> Result<Item, AllocError> {
    let reading = read_line(line.as_bytes());
    if reading.body == 0 {
        return Ok(reading.item);
    }
    let bytes = Vec::from_slice(rt.alloc(), DIMER.as_bytes())?;
    Ok(reading.item.with_body(LoadBody::Read(Body::new(bytes))))
}

fn event(rt: &(impl Abort + AllocGlobal), step: Step) -> Result<Event, AllocError> {
    Ok(match step {
        Step::Hello(connection, word) => Event::Hello {
            connection,
            name: name(rt, word),
            token: token(rt),
        },
        Step::Arrive(connection, line) => at(connection, ConnectionEvent::Arrive(item(rt, line)?)),
        Step::End(connection) => at(connection, ConnectionEvent::End),
        Step::Enter(connection) => at(connection, ConnectionEvent::Enter),
        Step::Next(connection) => at(connection, ConnectionEvent::Next),
        Step::Post(connection) => at(connection, ConnectionEvent::Post),
        Step::Fetch(connection, pick) => at(connection, ConnectionEvent::Fetch { pick }),
        Step::Turn(connection, word) => at(connection, turn(rt, word)),
        Step::Leave(connection) => at(connection, ConnectionEvent::Leave),
        Step::By(worker, event) => Event::By { worker, event },
    })
}

fn turn(rt: &impl Abort, word: &str) -> ConnectionEvent {
    let session = if word.is_empty() {
        None
    } else {
        Some(name(rt, word))
    };
    ConnectionEvent::Turn { session }
}

fn at(connection: u8, event: ConnectionEvent) -> Event {
    Event::At { connection, event }
}

/// Adds the events of these steps.
fn add_events(
    rt: &(impl Abort + AllocGlobal),
    steps: &[Step],
    events: &mut Vec<Event>,
) -> Result<(), AllocError> {
    for step in steps {
        events.push(event(rt, *step)?)?;
    }
    Ok(())
}

/// Adds the events at numbers of no connection and no worker.
fn add_events_of_nobody(
    rt: &(impl Abort + AllocGlobal),
    events: &mut Vec<Event>,
) -> Result<(), AllocError> {
    for (connection, worker) in NOBODY {
        add_events(rt, &all_steps(connection, worker), events)?;
    }
    Ok(())
}

/// Returns the events of the two users, each followed by those of nobody.
fn events(rt: &(impl Abort + AllocGlobal)) -> Result<Vec<Event>, AllocError> {
    let mut events = Vec::new(rt.alloc());
    for step in &STEPS {
        events.push(event(rt, *step)?)?;
        add_events_of_nobody(rt, &mut events)?;
    }
    Ok(events)
}

/// Writes the name of the user of an entry, the number of the connection, and the text.
fn put_entry(rt: &impl Abort, entry: &Entry, lines: &mut TranscriptText) {
    let name = USERS.get(usize::from(entry.user)).expect(rt, "a user");
    let text = str::from_utf8(entry.text.as_bytes())
        .ok()
        .expect(rt, "a text");
    let written = write!(lines, "{name} {} {text}", entry.connection).is_ok();
    assert!(rt; written);
}

/// Runs the world, and returns its replies.
fn run_once(rt: &(impl Abort + AllocGlobal)) -> Result<TranscriptText, OutOfMemory> {
    let transcript = World::run(rt.alloc(), users(rt)?, events(rt)?)?;
    let mut lines = TranscriptText::new();
    for entry in transcript.entries() {
        put_entry(rt, entry, &mut lines);
    }
    Ok(lines)
}

/// Runs the world. Any one growth may be refused (`rt try --test --fail-alloc`): the run is asked for once more.
fn run(rt: &(impl Abort + AllocGlobal)) -> Result<TranscriptText, OutOfMemory> {
    match run_once(rt) {
        Ok(lines) if !lines.as_str().contains("ERR 90 MEMORY") => Ok(lines),
        _ => run_once(rt),
    }
}

#[test]
fn events_of_nobody_change_nothing(rt: HostRuntime) -> Result<(), Fail> {
    assert_eq!(rt; run(&rt)?.as_str(), EXPECTED);
    Ok(())
}
