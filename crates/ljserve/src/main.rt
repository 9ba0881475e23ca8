//! The program: it takes commands from standard input or TCP, and simulates Lennard-Jones atoms.
#![tactic(auto)]

ghost use Rattle.std.specs.Prelude.{◌≡◌, ◌≢◌, ◌⊎◌, IfErr};
ghost use Rattle.std.specs.Process.{exit_status};
ghost use Rattle.clap.specs.Values.{kind_of};
ghost use Rattle.clap.specs.declared.error.kind.ErrorKind.TheVariants.{OutOfMemory, InvalidValue};
ghost use Rattle.ljserve.specs.Exits.{exit_of, usage_status, IsOfFile, IsOfServer};

mod arguments;
mod option_limits;

use arguments::{Job, Service, no_text, parse_arguments};
use clap::Error;
use clap::error::ErrorKind;
use lj_program::{ProgramFault, read_users, replay, run, serve_on};
use lj_quota::Quota;
use lj_wire::{Asked, CountedWriting, Sink};
use log::sink::Discard;
use log::{LevelFilter, Log, Logged};
use std::alloc::{AllocError, Global};
use std::fs::File;
use std::net::{Net, TcpListener, TcpStream};
use std::os::fd::{AsRawFd, RawFd};
use std::process::ExitCode;
use std::rt::{Clock, Files};
use std::sync::Wait;
use std::thread::Threads;
use std::{env, fs, io};

/// The file descriptor of standard error.
const LAST_STREAM: RawFd = 2;

fn main(rt: HostRuntime) -> ExitCode {
    let words: Vec<String> = match words_of(&rt) {
        Ok(words) => words,
        Err(error) => return usage(&rt, &error),
    };
    match parse_arguments(rt.alloc(), words.as_slice()) {
        Ok(Job::Run(quota)) => ended(&rt, run_input(&rt, quota)),
        Ok(Job::Replay(file)) => ended(&rt, replay_file(&rt, file)),
        Ok(Job::Serve(service)) => {
            let _taken = take_closed_streams(&rt);
            let quiet = Logged::new(rt, LevelFilter::Off, Discard);
            ended(&rt, serve_users(&quiet, service))
        }
        Err(error) => usage(&rt, &error),
    }
}

/// Answers the commands of standard input on standard output.
fn run_input(rt: &HostRuntime, quota: Quota) -> Result<(), ProgramFault<'static>> {
    run(rt.alloc(), quota, rt.reader(), io::writer(rt))
}

/// Replays the schedule in the file of this name on standard output.
fn replay_file<'a>(rt: &HostRuntime, file: &'a str) -> Result<(), ProgramFault<'a>> {
    let bytes = read_file(rt, file)?;
    let mut counted_writer = CountedWriting::new(Asked::writer(io::writer(rt)));
    replay(rt.alloc(), bytes.as_slice(), &mut counted_writer)?;
    counted_writer.flush()?;
    Ok(())
}

/// Serves the users of a file, and prints how many connections and tiles there were.
fn serve_users<'a, R>(rt: &R, service: Service<'a>) -> Result<(), ProgramFault<'a>>
where
    R: Files
        + Alloc<A = Global>
        + Print
        + Net<Listener = TcpListener, Stream = TcpStream>
        + Threads
        + Wait
        + Clock
        + Log
        + Sync,
    ensures { IfErr result IsOfServer }
{
    let Service {
        address,
        users,
        workers,
        connections,
        kept,
    } = service;
    let bytes = read_file(rt, users)?;
    let users = match read_users(rt.alloc(), bytes.as_slice()) {
        Ok(users) => users,
        Err(fault) => return Err(ProgramFault::of_users(fault)),
    };
    let Ok(listener) = TcpListener::bind(rt, address) else {
        return Err(ProgramFault::Listen);
    };
    let tiles = serve_on(
        rt,
        rt.alloc(),
        &listener,
        users,
        workers as usize,
        connections,
        kept,
    )?;
    match println!(rt; "served {connections} connections, {tiles} tiles") {
        Ok(()) => Ok(()),
        Err(_) => Err(ProgramFault::Write),
    }
}

/// Opens each closed standard stream for reading from `/dev/null`. So no file and no socket of a server gets the number of one,
/// and a closed output cannot be written to.
fn take_closed_streams(rt: &HostRuntime) -> [Option<File>; 3] {
    [take_closed(rt), take_closed(rt), take_closed(rt)]
}

/// Opens the first closed standard stream. None where all are open.
fn take_closed(rt: &HostRuntime) -> Option<File> {
    let file = File::open(rt, "/dev/null").ok()?;
    if file.as_raw_fd() > LAST_STREAM {
        return None;
    }
    Some(file)
}

/// Returns the bytes of a file.
fn read_file<'a, R: Files + Alloc<A = Global>>(
    rt: &R,
    file: &'a str,
) -> Result<Vec<u8>, ProgramFault<'a>>
    ensures { IfErr result IsOfFile }
{
    match fs::read(rt, file) {
        Ok(bytes) => Ok(bytes),
        Err(error) if error.kind() == io::ErrorKind::OutOfMemory => Err(ProgramFault::Memory),
        Err(_) => Err(ProgramFault::Unreadable(file)),
    }
}

/// Returns the words of the command line. Fails if there is no memory, or if a word is not text.
fn words_of(rt: &HostRuntime) -> Result<Vec<String>, Error>
    ensures { IfErr result (λ error. (kind_of error ≡ OutOfMemory) ⊎ (kind_of error ≡ InvalidValue)) }
{
    match env::args(rt) {
        Ok(words) => Ok(words.collect(rt.alloc())?),
        Err(error) if error.kind() == io::ErrorKind::OutOfMemory => Err(Error::from(AllocError)),
        Err(_) => Err(no_text(rt.alloc())?),
    }
}

/// Prints the answer to a command line without a job, and returns the exit status: 1 if that cannot be printed.
fn usage(rt: &(impl Print + Eprint), error: &Error) -> ExitCode
    ensures printed { exit_status result ≢ 1 → exit_status result ≡ usage_status (kind_of error.now) }
    ensures memory { kind_of error.now ≡ OutOfMemory → exit_status result ≡ 3 }
{
    if error.kind() == ErrorKind::OutOfMemory {
        return ended(rt, Err(ProgramFault::Memory));
    }
    match error.print(rt) {
        Ok(()) => ExitCode::from(if error.use_stderr() { 2 } else { 0 }),
        Err(_) => ended(rt, Err(ProgramFault::Write)),
    }
}

/// Prints the fault of the program, if there is one, and returns the exit status.
fn ended(rt: &impl Eprint, outcome: Result<(), ProgramFault<'_>>) -> ExitCode
    ensures { exit_status result ≡ exit_of outcome.entry }
{
    match outcome {
        Ok(()) => ExitCode::SUCCESS,
        Err(fault) => {
            let _ = eprintln!(rt; "ljserve: {fault}");
            ExitCode::from(fault.status())
        }
    }
}
