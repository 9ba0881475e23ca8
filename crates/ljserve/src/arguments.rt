//! Parsing the command line.
ghost use Rattle.std.specs.Prelude.{◌≡◌, ◌↔◌, codes, IfOk};
ghost use Rattle.lj_program.specs.declared.serve.worker_pool.Kept.TheVariants.{Queue};
ghost use Rattle.clap.specs.Values.{kind_of};
ghost use Rattle.clap.specs.declared.error.kind.ErrorKind.TheVariants.{InvalidValue};

use crate::option_limits::{MAX_ACCEPTED, MAX_WORKERS};
use clap::error::ErrorKind;
use clap::{Arg, ArgMatches, Command, Error, value_parser};
use lj_program::{Kept, MAX_QUOTA_ATOMS, MAX_QUOTA_BRANCHES, MAX_QUOTA_SESSIONS};
use lj_quota::Quota;
use std::alloc::{AllocError, Global};

/// The words that say where open tasks are kept.
const LOCK: &str = "lock";

const QUEUE: &str = "queue";

const POOLS: [&str; 2] = [LOCK, QUEUE];

/// What the program is to do.
#[derive(Drop)]
pub enum Job<'a> {
    /// Answers one user of this quota.
    Run(Quota),
    /// Replays the schedule in the file of this name.
    Replay(&'a str),
    /// Serves many users.
    Serve(Service<'a>),
}

/// What a server is to serve.
#[derive(Clone, Copy)]
pub struct Service<'a> {
    /// The address to listen on.
    pub address: &'a str,
    /// The name of the file of its users.
    pub users: &'a str,
    /// The number of threads that compute, 1 to 16.
    pub workers: u64,
    /// The number of connections that are accepted, 1 to 1,000,000.
    pub connections: u64,
    /// Where the open tasks are kept.
    pub kept: Kept,
}

/// Parses the words of the command line. The first word is the program's name.
///
/// # Errors
/// A usage fault, a request for help or for the version, or out of memory.
pub fn parse_arguments<'a>(alloc: Global, words: &'a [String]) -> Result<Job<'a>, Error> {
    let matches = program(alloc)?.try_get_matches_from(words)?;
    if let Some(matches) = matches.subcommand_matches("replay") {
        return match matches.get_str("file") {
            Some(file) => Ok(Job::Replay(file)),
            None => Err(no_file(alloc)?),
        };
    }
    if let Some(matches) = matches.subcommand_matches("serve") {
        return match service_of(matches) {
            Some(service) => Ok(Job::Serve(service)),
            None => Err(no_file(alloc)?),
        };
    }
    Ok(Job::Run(match matches.subcommand_matches("run") {
        Some(matches) => quota(matches),
        None => Quota::USUAL,
    }))
}

/// Makes the fault of words that name no file.
fn no_file(alloc: Global) -> Result<Error, AllocError> {
    program(alloc)?.error(ErrorKind::MissingRequiredArgument, "no file is named")
}

/// Makes the fault of words that are not text.
pub fn no_text(alloc: Global) -> Result<Error, AllocError>
    ensures { IfOk result (λ error. kind_of error ≡ InvalidValue) }
{
    program(alloc)?.error(
        ErrorKind::InvalidValue,
        "invalid UTF-8 was detected in one or more arguments",
    )
}

fn program<'a>(alloc: Global) -> Result<Command<'a>, AllocError> {
    Command::new(alloc, "ljserve")
        .version("2.0.0")
        .about(
            "Runs simulations of Lennard-Jones atoms that go back exactly. With no word: the same as run",
        )
        .disable_help_subcommand(true)
        .subcommand(run_command(alloc)?)?
        .subcommand(replay_command(alloc)?)?
        .subcommand(serve_command(alloc)?)
}

fn run_command<'a>(alloc: Global) -> Result<Command<'a>, AllocError> {
    Command::new(alloc, "run")
        .about("Answers the commands of standard input on standard output, as those of one user")
        .arg(limit(alloc, "sessions", "8", MAX_QUOTA_SESSIONS as i64).help(
            "How many sessions the user may have, 0 to 64",
        ))?
        .arg(limit(alloc, "atoms", "16384", MAX_QUOTA_ATOMS as i64).help(
            "How many atoms in all sessions together, 0 to 65536",
        ))?
        .arg(limit(alloc, "branches", "16", MAX_QUOTA_BRANCHES as i64).help(
            "How many saved simulations in all sessions together, 0 to 256",
        ))
}

fn replay_command<'a>(alloc: Global) -> Result<Command<'a>, AllocError> {
    Command::new(alloc, "replay")
        .about("Runs the events of a schedule, and prints what each user is replied")
        .arg(
            Arg::new(alloc, "file")
                .value_name("FILE")
                .required(true)
                .help("The schedule: users, and then an event in each line"),
        )
}

fn serve_command<'a>(alloc: Global) -> Result<Command<'a>, AllocError> {
    Command::new(alloc, "serve")
        .about("Serves many users over TCP, one connection of a user after the other")
        .arg(required(alloc, "listen", "ADDR").help("The address to listen on, as 127.0.0.1:4000"))?
        .arg(required(alloc, "users", "FILE").help(
            "The users: name, token, sessions, atoms and branches of each in a line",
        ))?
        .arg(
            required(alloc, "workers", "N")
                .value_parser(value_parser!(u64).range(1..=MAX_WORKERS as i64))
                .help("How many threads compute, 1 to 16"),
        )?
        .arg(
            required(alloc, "connections", "N")
                .value_parser(value_parser!(u64).range(1..=MAX_ACCEPTED as i64))
                .help("How many connections are accepted before the server ends, 1 to 1000000"),
        )?
        .arg(
            Arg::new(alloc, "pool")
                .long("pool")
                .value_name("KIND")
                .value_parser(POOLS.as_slice())
                .default_value(LOCK)
                .help("Where open tasks are kept, in a book behind a lock or in a queue"),
        )
}

/// Makes an option that is required.
fn required<'a>(alloc: Global, name: &'a str, value: &'a str) -> Arg<'a> {
    Arg::new(alloc, name)
        .long(name)
        .value_name(value)
        .required(true)
}

/// Makes an option whose value is a whole number from 0 to `most`.
fn limit<'a>(alloc: Global, name: &'a str, usual: &'a str, most: i64) -> Arg<'a> {
    Arg::new(alloc, name)
        .long(name)
        .value_name("N")
        .value_parser(value_parser!(u64).range(0..=most))
        .default_value(usual)
}

fn service_of<'a>(matches: &ArgMatches<'a>) -> Option<Service<'a>> {
    Some(Service {
        address: matches.get_str("listen")?,
        users: matches.get_str("users")?,
        workers: matches.get_one("workers")?,
        connections: matches.get_one("connections")?,
        kept: kept_as(matches.get_str("pool")?),
    })
}

/// Returns where tasks are kept by this word, which is one of `POOLS`.
fn kept_as(word: &str) -> Kept
    ensures { (result ≡ Queue) ↔ (word.now ≡ codes "queue") }
{
    if word == QUEUE {
        Kept::Queue
    } else {
        Kept::Lock
    }
}

fn quota(matches: &ArgMatches<'_>) -> Quota {
    let usual = Quota::USUAL;
    Quota {
        sessions: matches.get_one("sessions").unwrap_or(usual.sessions),
        atoms: matches.get_one("atoms").unwrap_or(usual.atoms),
        branches: matches.get_one("branches").unwrap_or(usual.branches),
    }
}
