//! How the threads of a pool lock what they share.
use std::hint;
use std::sync::{Mutex, MutexGuard, Wait};

/// How often a thread looks whether a lock is free before it sleeps.
const TRIES: usize = 32;

/// The pauses of the processor between two looks. Each look takes the cache line of the lock from the thread that holds it, so that
/// looks without a break make each hold longer.
const PAUSES: usize = 16;

/// Locks what no thread holds for long. It looks several times before it sleeps, also where others sleep already: a hold takes
/// less time than to sleep and to be woken, and `Mutex::lock` sleeps at once where another thread does.
pub fn lock_soon<'m, T, R: Wait>(rt: &R, mutex: &'m Mutex<T>) -> MutexGuard<'m, T> {
    for _ in 0..TRIES {
        if let Some(guard) = mutex.try_lock() {
            return guard;
        }
        pause();
    }
    mutex.lock(rt)
}

/// Waits for less than a microsecond.
fn pause() {
    for _ in 0..PAUSES {
        hint::spin_loop();
    }
}
