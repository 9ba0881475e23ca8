//! Reads of a connection, with a deadline for its first line.

use crate::serve::clock::{end_of, left_until};
use std::cell::Cell;
use std::io;
use std::io::{ErrorKind, Read};
use std::net::TcpStream;
use std::rt::Clock;
use std::time::Duration;

/// Maximum number of seconds that a client may take for its first line.
pub const FIRST_LINE_SECONDS: u64 = 30;

/// The deadline for the first line of a connection; none once the line is there.
#[derive(Drop)]
pub struct Deadline {
    end: Cell<Option<Duration>>,
}

impl Deadline {
    /// Makes a deadline 30 seconds from now.
    pub fn new<R: Clock>(rt: &R) -> Deadline {
        Deadline {
            end: Cell::new(end_of(rt, Duration::from_secs(FIRST_LINE_SECONDS))),
        }
    }

    /// Lifts the deadline once the first line is there: reads of the stream then wait without a limit.
    pub fn lift(&self, stream: &TcpStream) {
        self.end.set(None);
        let _ = stream.set_read_timeout(None);
    }
}

/// A stream that is read until its deadline.
#[derive(Drop)]
pub struct Timed<'s, R> {
    pub rt: &'s R,
    pub stream: &'s TcpStream,
    pub deadline: &'s Deadline,
}

impl<R: Clock> Read for Timed<'_, R> {
    ghost use Rattle.std.specs.Prelude.{None};

    ghost remaining = { λ _. None };

    fn read(&mut self, buf: &mut [u8]) -> io::Result<usize> {
        let end = self.deadline.end.get();
        if end.is_some() {
            let left = left_until(self.rt, end);
            if left.is_zero() {
                return Err(io::Error::from(ErrorKind::TimedOut));
            }
            self.stream.set_read_timeout(Some(left))?;
        }
        let mut stream = self.stream;
        stream.read(buf)
    }
}
