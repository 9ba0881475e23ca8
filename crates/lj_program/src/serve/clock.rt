//! Deadlines.

use std::rt::Clock;
use std::time::Duration;

/// Returns the time at which `patience` will have passed. None where the clock cannot be read.
pub fn end_of<R: Clock>(rt: &R, patience: Duration) -> Option<Duration> {
    Some(rt.monotonic().ok()?.saturating_add(patience))
}

/// Returns how much time is left until then; 0 where the clock cannot be read.
pub fn left_until<R: Clock>(rt: &R, end: Option<Duration>) -> Duration {
    match (end, rt.monotonic()) {
        (Some(end), Ok(now)) => end.saturating_sub(now),
        _ => Duration::from_millis(0),
    }
}
