//! Servers over loopback sockets, with their clients in the same process.

use lj_program::{Kept, read_users, serve_on};
use log::sink::Discard;
use log::{LevelFilter, Log, Logged};
use std::alloc::AllocGlobal;
use std::io::{BufRead, BufReader, Read, Write};
use std::net::{Net, SocketAddr, TcpListener, TcpStream};
use std::rt::Clock;
use std::sync::Wait;
use std::test::Fail;
use std::thread::Threads;
use std::time::Duration;
use std::{io, thread};

/// The users of each server, as a file has them.
const USERS: &str = "# name, token, sessions, atoms, branches
A aaaaaaaaaaaaaaaaaaaaaaaaaaaaaaaa 4 100 4

B bbbbbbbbbbbbbbbbbbbbbbbbbbbbbbbb 4 64 4
";

const WORKERS: usize = 2;

const HELLO: &str = "HELLO A aaaaaaaaaaaaaaaaaaaaaaaaaaaaaaaa\n";

const LOAD: &str = "LOAD a 256 1 131072 rest 28\n2\ndimer\nAr 0 0 0\nAr 1.5 0 0\n";

/// Maximum number of seconds that a client waits for a reply.
const PATIENCE_SECONDS: u64 = 20;

/// The number of connections that count at once.
const COUNTING: u64 = 8;

/// What a server and its clients have: memory, threads that wait, a clock, notes, and sockets.
trait ServerHost: AllocGlobal
    + Threads
    + Wait
    + Clock
    + Log
    + Net<Listener = TcpListener, Stream = TcpStream> {}

impl<
    R: AllocGlobal + Threads + Wait + Clock + Log + Net<Listener = TcpListener, Stream = TcpStream>,
> ServerHost for R {}

/// What clients do.
#[derive(Clone, Copy)]
enum ClientScenario {
    /// One user has one step computed.
    Step,
    /// One user comes a second time before its first connection ends, and two are denied.
    ComeBack,
    /// One user loads two atoms, and then eight connections at once tug one of them.
    Count,
}

impl ClientScenario {
    /// Returns the number of connections.
    fn connections(self) -> u64 {
        match self {
            ClientScenario::Step => 1,
            ClientScenario::ComeBack => 4,
            ClientScenario::Count => 1 + COUNTING,
        }
    }

    /// Runs the scenario, and returns all replies to the clients.
    fn run<R: ServerHost>(self, rt: &R, address: SocketAddr) -> io::Result<String> {
        let mut output = String::new(rt.alloc());
        match self {
            ClientScenario::Step => {
                let said = [HELLO, LOAD, "ADVANCE a 1\nBYE\n"];
                hear_out(connect(rt, address, &said)?, &mut output)?;
            }
            ClientScenario::ComeBack => come_back(rt, address, &mut output)?,
            ClientScenario::Count => count(rt, address, &mut output)?,
        }
        Ok(output)
    }
}

/// Opens a connection, and sends this.
fn connect<R: ServerHost>(rt: &R, address: SocketAddr, said: &[&str]) -> io::Result<TcpStream> {
    let mut stream = TcpStream::connect(rt, address)?;
    stream.set_read_timeout(Some(Duration::from_secs(PATIENCE_SECONDS)))?;
    for words in said {
        stream.write_all(words.as_bytes())?;
    }
    Ok(stream)
}

/// Reads a connection until its end, and appends the replies.
fn hear_out<S: Read + Drop>(mut stream: S, output: &mut String) -> io::Result<()> {
    stream.read_to_string(output)?;
    Ok(())
}

/// Keeps the first connection in while the others come. It leaves last but one.
fn come_back<R: ServerHost>(rt: &R, address: SocketAddr, output: &mut String) -> io::Result<()> {
    let first = connect(rt, address, &[HELLO, LOAD, "TUG a 0 5 0 0\n"])?;
    let mut replies = BufReader::new(rt.alloc(), &first)?;
    for _ in 0..3 {
        replies.read_line(output)?;
    }
    let second = connect(rt, address, &[HELLO, "MEASURE a\nBYE\n"])?;
    let wrong_token = "HELLO A bbbbbbbbbbbbbbbbbbbbbbbbbbbbbbbb\n";
    hear_out(connect(rt, address, &[wrong_token])?, output)?;
    let no_user = "HELLO C aaaaaaaaaaaaaaaaaaaaaaaaaaaaaaaa\n";
    hear_out(connect(rt, address, &[no_user])?, output)?;
    let mut writer = &first;
    writer.write_all(b"BYE\n")?;
    hear_out(replies, output)?;
    hear_out(second, output)
}

/// Lets eight connections count, and appends their replies in the order of their counts.
fn count<R: ServerHost>(rt: &R, address: SocketAddr, output: &mut String) -> io::Result<()> {
    hear_out(connect(rt, address, &[HELLO, LOAD, "BYE\n"])?, output)?;
    let mut open = Vec::new(rt.alloc());
    for _ in 0..COUNTING {
        open.push(connect(rt, address, &[HELLO, "TUG a 0 1 0 0\nMEASURE a\nBYE\n"])?)?;
    }
    for replies in in_order(rt, open)? {
        output.push_str(&replies)?;
    }
    Ok(())
}

/// Returns the replies to these connections, sorted.
fn in_order<R: ServerHost>(rt: &R, open: Vec<TcpStream>) -> io::Result<Vec<String>> {
    let mut all = Vec::new(rt.alloc());
    for stream in open {
        let mut output = String::new(rt.alloc());
        hear_out(stream, &mut output)?;
        all.push(output)?;
    }
    all.sort()?;
    Ok(all)
}

/// Serves this many connections. Returns the number of tiles computed, if the users are read and there is memory.
fn serve<R: ServerHost + Sync>(
    rt: &R,
    listener: &TcpListener,
    connections: u64,
    kept: Kept,
) -> Option<u64> {
    let users = read_users(rt.alloc(), USERS.as_bytes()).ok()?;
    serve_on(rt, rt.alloc(), listener, users, WORKERS, connections, kept).ok()
}

/// Serves the clients of a scenario. Returns the number of tiles computed, and all replies to the clients.
fn run<R: ServerHost + Sync>(
    rt: &R,
    scenario: ClientScenario,
    kept: Kept,
) -> io::Result<(Option<u64>, String)> {
    let listener = TcpListener::bind(rt, "127.0.0.1:0")?;
    let address = listener.local_addr()?;
    let listening = &listener;
    let (tiles, output) = thread::join(
        rt,
        move || serve(rt, listening, scenario.connections(), kept),
        move || scenario.run(rt, address),
    );
    Ok((tiles, output?))
}

#[test]
fn a_server_answers_how_many_tiles_were_computed(rt: HostRuntime) -> Result<(), Fail> {
    let quiet = Logged::new(rt, LevelFilter::Off, Discard);
    for kept in [Kept::Lock, Kept::Queue] {
        let (tiles, output) = run(&quiet, ClientScenario::Step, kept)?;
        assert_eq!(quiet; tiles, Some(1));
        assert_eq!(quiet;
            output.as_str(),
            "OK HELLO A\nOK LOAD a 0 2\nOK ADVANCE a 1\nOK BYE\n"
        );
    }
    Ok(())
}

/// The second connection of a user waits, and finds the state as the first one left it.
#[test]
fn a_user_that_comes_back_finds_its_state(rt: HostRuntime) -> Result<(), Fail> {
    let quiet = Logged::new(rt, LevelFilter::Off, Discard);
    let expected = "OK HELLO A\nOK LOAD a 0 2\nOK TUG a 0 0\n\
        ERR 01 DENIED\nERR 01 DENIED\nOK BYE\n\
        OK HELLO A\nOK MEASURE a 0 2 5 0 0 25 -5349132\nOK BYE\n";
    for kept in [Kept::Lock, Kept::Queue] {
        let (tiles, output) = run(&quiet, ClientScenario::ComeBack, kept)?;
        assert_eq!(quiet; tiles, Some(1));
        assert_eq!(quiet; output.as_str(), expected);
    }
    Ok(())
}

/// No two of eight connections at once are lent the state, so each finds one tug more.
#[test]
fn connections_of_one_user_count_in_turn(rt: HostRuntime) -> Result<(), Fail> {
    let quiet = Logged::new(rt, LevelFilter::Off, Discard);
    for kept in [Kept::Lock, Kept::Queue] {
        let (tiles, output) = run(&quiet, ClientScenario::Count, kept)?;
        assert_eq!(quiet; tiles, Some(COUNTING));
        assert_eq!(quiet; output.as_str(), counted(&quiet)?.as_str());
    }
    Ok(())
}

/// Returns the replies if they do: the momentum is n and the kinetic number n² after n tugs.
fn counted(rt: &impl AllocGlobal) -> io::Result<String> {
    let mut output = String::new(rt.alloc());
    output.push_str("OK HELLO A\nOK LOAD a 0 2\nOK BYE\n")?;
    for (n, square) in [
        (1, 1),
        (2, 4),
        (3, 9),
        (4, 16),
        (5, 25),
        (6, 36),
        (7, 49),
        (8, 64),
    ] {
        let measured = format!(in rt.alloc(); "OK MEASURE a 0 2 {n} 0 0 {square} -5349132\n")?;
        output.push_str("OK HELLO A\nOK TUG a 0 0\n")?;
        output.push_str(&measured)?;
        output.push_str("OK BYE\n")?;
    }
    Ok(output)
}
