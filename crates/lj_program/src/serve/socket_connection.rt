//! A connection to a server, over its socket.
ghost use Rattle.std.specs.Prelude.{◌≡◌, ◌⊎◌, false};
ghost use Rattle.lj_wire.specs.Ends.{Rises};
ghost use Rattle.lj_program.specs.Outcomes.{is_write_fault};

use crate::serve::clock::{end_of, left_until};
use crate::serve::connection_limit::ConnectionLimit;
use crate::serve::first_line::{Deadline, Timed};
use crate::serve::history::HistoryIdentity;
use crate::serve::shared_directory::SharedDirectory;
use crate::serve::visitor::Visitor;
use crate::serve::worker_pool::WorkerPool;
use lj_engine::Served;
use lj_table::Table;
use lj_visit::Visited;
use lj_wire::{Asked, CountedReading, HeldWriting, LineReader, Sink};
use log::{Log, info};
use std::alloc::Global;
use std::io::Read;
use std::net::{Shutdown, TcpStream};
use std::rt::Clock;
use std::sync::Wait;
use std::time::Duration;

/// Maximum number of seconds that a connection that has ended waits for more input, which is read and dropped.
const LINGERING_SECONDS: u64 = 1;

/// Maximum number of reads from a connection that has ended.
const MAX_LINGERING_READS: usize = 65_536;

/// What the threads of a server share.
#[derive(Drop)]
pub struct Server<P, J: HistoryIdentity> {
    pub alloc: Global,
    pub directory: SharedDirectory<J>,
    pub pool: P,
    pub limit: ConnectionLimit,
    pub table: Table,
}

impl<P: WorkerPool, J: HistoryIdentity> Server<P, J> {
    /// Makes a server of the users of a directory over a pool, without connections.
    pub fn new(alloc: Global, directory: SharedDirectory<J>, pool: P) -> Server<P, J> {
        Server {
            alloc,
            directory,
            pool,
            limit: ConnectionLimit::new(),
            table: Table::new(),
        }
    }

    /// Answers a connection until it ends.
    pub fn serve_connection<R: Wait + Log + Clock>(&self, rt: &R, number: u64, stream: &TcpStream) {
        let _ = stream.set_nodelay(true);
        match HeldWriting::new(self.alloc, Asked::writer(stream)) {
            Ok(mut writer) => {
                // One that is turned away is told nothing that it could lose, and leaves its place at once.
                if self.answer(rt, number, stream, &mut writer) == Visited::TurnedAway {
                    return;
                }
            }
            Err(_) => info!(rt; "connection {number}: no memory"),
        }
        linger(rt, stream);
    }

    /// Answers a connection on its writer, and returns how it has ended. The last replies are sent once the state is home, so
    /// that a client that does not read them does not hold it back.
    fn answer<R: Wait + Log + Clock, W: Sink>(
        &self,
        rt: &R,
        number: u64,
        stream: &TcpStream,
        writer: &mut W,
    ) -> Visited {
        let deadline = Deadline::new(rt);
        let reader = CountedReading::new(Asked::reader(Timed {
            rt,
            stream,
            deadline: &deadline,
        }));
        let mut lines = LineReader::new(self.alloc, reader);
        let mut visitor = Visitor::new(rt, stream, &deadline, number);
        let visited = self
            .pool
            .visit(&self.directory, &mut visitor, &mut lines, writer);
        send_last(visited, writer);
        visitor.note_end(visited);
        visited
    }

    /// Closes the pool and the directory: from now on no ticket enters, and no task is computed.
    pub fn close<R: Wait>(&self, rt: &R) {
        self.pool.close(rt);
        self.directory.close(rt);
    }
}

/// Flushes the last replies of a visit, unless a write has failed.
fn send_last<W: Sink>(visited: Visited, writer: &mut W)
    ensures { is_write_fault visited ≡ false
        → (W.unflushed writer.new ≡ false) ⊎ Rises (W.faults writer.old) (W.faults writer.new) }
{
    if !is_write_fault(visited) {
        let _ = writer.flush();
    }
}

/// Returns whether a write has failed.
fn is_write_fault(visited: Visited) -> bool
    ensures { result ≡ is_write_fault visited }
{
    matches!(
        visited,
        Visited::NotWelcomed | Visited::Attended(Served::WriteFault)
    )
}

/// Ends the output, then reads and drops input until the client ends it too, for at most a second, so that the client can read
/// the last replies: closing a socket with unread input discards them.
fn linger<R: Clock>(rt: &R, stream: &TcpStream) {
    if stream.shutdown(Shutdown::Write).is_err() {
        return;
    }
    let end = end_of(rt, Duration::from_secs(LINGERING_SECONDS));
    let mut buf = [0; 4096];
    let mut reader = stream;
    for _ in 0..MAX_LINGERING_READS {
        let left = left_until(rt, end);
        if left.is_zero() || stream.set_read_timeout(Some(left)).is_err() {
            return;
        }
        match reader.read(&mut buf) {
            Ok(0) | Err(_) => return,
            Ok(_) => {}
        }
    }
}
