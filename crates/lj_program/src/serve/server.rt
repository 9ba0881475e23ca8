//! A server: threads of workers, and one thread for each connection.
ghost use Rattle.std.specs.Prelude.{◌≡◌, ◌+◌, ◌≤◌, List, length, IfOk};
ghost use Rattle.lj_program.specs.Histories.{AreNamed};
ghost use Rattle.lj_program.specs.NamedUsers.{AreUsers};

use crate::serve::connection_limit::MAX_OPEN_CONNECTIONS;
use crate::serve::history::{HistoryIdentity, NewHistories};
use crate::serve::lock_workers::LockWorkers;
use crate::serve::queue_workers::QueueWorkers;
use crate::serve::shared_directory::SharedDirectory;
use crate::serve::socket_connection::Server;
use crate::serve::worker_pool::{Kept, WorkerPool};
use lj_access::User;
use lj_base::OutOfMemory;
use lj_queue::{CONNECTIONS, PoolIdentity, QueueBlank};
use log::{Log, info};
use std::alloc::Global;
use std::marker::Brand;
use std::net::TcpListener;
use std::rt::Clock;
use std::sync::Wait;
use std::sync::ledger::{Blank, Ledger};
use std::thread;
use std::thread::Threads;
use std::time::Duration;

/// The milliseconds that the server waits after a connection could not be accepted, so that descriptors or memory may become
/// free.
const PAUSE_MILLIS: u64 = 100;

/// Serves these users on a listener, with this many workers, and keeps open tasks as `kept` says. Each connection is served in a
/// thread of its own, at most 64 at once; one more is closed without a byte. Accepts `connections` in all, with those that are
/// closed so. Returns the number of tiles computed for them, once all have ended.
///
/// # Errors
/// Out of memory before anything is accepted, or no thread for a worker.
pub fn serve_on<R: Threads + Wait + Clock + Log + Sync>(
    rt: &R,
    alloc: Global,
    listener: &TcpListener,
    users: Vec<User>,
    workers: usize,
    connections: u64,
    kept: Kept,
) -> Result<u64, OutOfMemory>
    requires users { AreUsers users.items }
    requires some { 1 ≤ length users.items }
{
    let histories = NewHistories::new(alloc, users.len())?;
    let listening = Listening {
        listener,
        connections,
    };
    let served = serve_known::<Brand, R>(rt, alloc, users, histories, workers, listening, kept)?;
    Ok(served.tiles)
}

/// What a server has done: the number of tiles computed, and of the connections that it accepted.
#[derive(Clone, Copy)]
struct ServedTotals {
    tiles: u64,
    accepted: u64,
}

/// The listener for connections, and how many of them are accepted at most.
#[derive(Clone, Copy)]
struct Listening<'a> {
    listener: &'a TcpListener,
    connections: u64,
}

/// Serves users, each with a history that has no states yet.
fn serve_known<J: HistoryIdentity + Send + Sync, R: Threads + Wait + Clock + Log + Sync>(
    rt: &R,
    alloc: Global,
    users: Vec<User>,
    histories: NewHistories,
    workers: usize,
    listening: Listening<'_>,
    kept: Kept,
) -> Result<ServedTotals, OutOfMemory>
    requires users { AreUsers users.items }
    requires some { 1 ≤ length users.items }
    requires known { users.items ≡ J.users }
    requires one_each { length histories ≡ length users.items }
    requires named { AreNamed J.books histories }
    ensures { IfOk result (λ served. served.accepted ≤ listening.entry.connections) }
{
    let directory = SharedDirectory::new(alloc, users, histories.named::<J>())?;
    match kept {
        Kept::Lock => {
            let blank = Blank::new(workers as u64);
            serve_by_lock::<Brand, J, R>(rt, alloc, blank, directory, workers, listening)
        }
        Kept::Queue => {
            let blank = QueueBlank::new(alloc, workers as u64)?;
            serve_by_queue::<Brand, J, R>(rt, alloc, blank, directory, workers, listening)
        }
    }
}

fn serve_by_lock<
    L: Ledger + Send + Sync,
    J: HistoryIdentity + Send + Sync,
    R: Threads + Wait + Clock + Log + Sync,
>(
    rt: &R,
    alloc: Global,
    blank: Blank,
    directory: SharedDirectory<J>,
    workers: usize,
    listening: Listening<'_>,
) -> Result<ServedTotals, OutOfMemory>
    requires name { blank.name ≡ L.name }
    requires parts { blank.parts ≡ L.parts }
    requires one_each { blank.parts ≡ workers }
    ensures { IfOk result (λ served. served.accepted ≤ listening.entry.connections) }
{
    let (pool, states) = LockWorkers::<L>::new(alloc, blank, workers)?;
    serve_over(rt, alloc, directory, pool, states, workers, listening)
}

fn serve_by_queue<
    L: PoolIdentity + Send + Sync,
    J: HistoryIdentity + Send + Sync,
    R: Threads + Wait + Clock + Log + Sync,
>(
    rt: &R,
    alloc: Global,
    blank: QueueBlank,
    directory: SharedDirectory<J>,
    workers: usize,
    listening: Listening<'_>,
) -> Result<ServedTotals, OutOfMemory>
    requires name { blank.name ≡ L.name }
    requires parts { blank.parts ≡ L.parts }
    requires one_each { blank.parts ≡ workers }
    requires table { blank.table ≡ L.table }
    requires passes { workers + CONNECTIONS ≡ L.passes }
    ensures { IfOk result (λ served. served.accepted ≤ listening.entry.connections) }
{
    let (pool, states) = QueueWorkers::<L>::new(alloc, blank, workers)?;
    serve_over(rt, alloc, directory, pool, states, workers, listening)
}

/// Serves the users of a directory over a pool, whose workers have these states.
fn serve_over<
    P: WorkerPool + Sync,
    J: HistoryIdentity + Send + Sync,
    R: Threads + Wait + Clock + Log + Sync,
>(
    rt: &R,
    alloc: Global,
    directory: SharedDirectory<J>,
    pool: P,
    states: Vec<P::WorkerState>,
    workers: usize,
    listening: Listening<'_>,
) -> Result<ServedTotals, OutOfMemory>
    requires { P.has_workers workers }
    ensures tiles { IfOk result (λ served. (states : List P.WorkerState) × (served.tiles ≡ P.counted states)) }
    ensures accepted { IfOk result (λ served. served.accepted ≤ listening.entry.connections) }
{
    let server = Server::new(alloc, directory, pool);
    let (states, accepted) = run_workers(rt, &server, states, listening)?;
    let tiles = server.pool.gather(rt, workers, states)?;
    Ok(ServedTotals { tiles, accepted })
}

/// Answers connections while workers compute, and then closes the pool. Returns the workers' states, and how many connections were
/// accepted; if a worker has no thread, none is, and its state is lost.
fn run_workers<
    'a,
    P: WorkerPool + Sync,
    J: HistoryIdentity + Send + Sync,
    R: Threads + Wait + Clock + Log + Sync,
>(
    rt: &'a R,
    server: &'a Server<P, J>,
    states: Vec<P::WorkerState>,
    listening: Listening<'a>,
) -> Result<(Vec<P::WorkerState>, u64), OutOfMemory>
    ensures { IfOk result (λ done. done.1 ≤ listening.entry.connections) }
{
    let count = states.len();
    let mut threads = Vec::with_capacity(server.alloc, count)?;
    let mut done = Vec::with_capacity(server.alloc, count)?;
    Ok(thread::scope(
        thread::scope_env(),
        rt,
        move |scope| -> (Vec<P::WorkerState>, u64)
            ensures { result.1 ≤ listening.entry.connections }
        {
            for state in states {
                if let Ok(worker) = scope.spawn(move || server
                    .pool
                    .work(rt, state, &server.table))
                {
                    let _ = threads.push(worker);
                }
            }
            let accepted = if threads.len() == count {
                answer_all(rt, server, listening)
            } else {
                0
            };
            server.close(rt);
            for worker in threads {
                let _ = done.push(worker.join(rt));
            }
            (done, accepted)
        },
    ))
}

/// Accepts connections, and returns how many were accepted when all of them have ended.
fn answer_all<
    'a,
    P: WorkerPool + Sync,
    J: HistoryIdentity + Send + Sync,
    R: Threads + Wait + Clock + Log + Sync,
>(rt: &'a R, server: &'a Server<P, J>, listening: Listening<'a>) -> u64
    ensures { result ≤ listening.entry.connections }
{
    let Listening {
        listener,
        connections,
    } = listening;
    thread::scope(
        thread::scope_env(),
        rt,
        move |scope| -> u64
            ensures { result ≤ connections }
        {
            let mut accepted = 0;
            for number in 0..connections {
                let Ok((stream, from)) = listener.accept() else {
                    info!(rt; "connection {number}: not accepted");
                    thread::sleep(rt, Duration::from_millis(PAUSE_MILLIS));
                    continue;
                };
                accepted += 1;
                let Some(permit) = server.limit.permit() else {
                    info!(rt; "connection {number}: closed, since {MAX_OPEN_CONNECTIONS} others are open");
                    continue;
                };
                info!(rt; "connection {number}: from {from}");
                let served = scope.spawn(move || {
                    server.serve_connection(rt, number, &stream);
                    drop(permit);
                });
                if served.is_err() {
                    info!(rt; "connection {number}: closed, since it has no thread");
                }
            }
            accepted
        },
    )
}
