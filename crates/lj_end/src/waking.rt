//! Whom a pool wakes: ends that wait for results, and workers that wait for tasks.
ghost use Rattle.std.specs.Prelude.{◌≡◌, ◌+◌, ◌-◌, ◌<◌, ◌^◌, ◌↔◌, min, replicate, IsTrue};
ghost use Rattle.lj_end.specs.Waking.{wait_queue_of, due_at, due_of, with_given, with_waiting, woken_for};

use std::marker::Model;
use std::mem;
use std::sync::Condvar;

/// The number of queues in which ends wait for results. Users whose numbers are equal modulo this share one.
pub const WAIT_QUEUES: usize = 64;

/// The least number of results given to a user after which a waiting end is woken; fewer where fewer are owed to it.
pub const RESULTS_AT_ONCE: usize = 16;

/// The number of tasks posted before waiting workers are woken for them; sooner if an end finds no result.
pub const TASKS_AT_ONCE: usize = 16;

/// How often a worker looks for a task, and lets other threads run in between, before it waits for one.
pub const LOOKS: usize = 8;

/// Returns the wait queue of a user, 0 to 63.
pub fn wait_queue_of(user: u8) -> usize
    ensures value { result ≡ wait_queue_of user }
    ensures within { result < WAIT_QUEUES }
{
    usize::from(user) % WAIT_QUEUES
}

/// For each wait queue, after how many further results its ends are woken; 0 where none waits in it.
#[derive(Drop)]
pub struct WaitQueues {
    due: [usize; WAIT_QUEUES],
}

impl Model for WaitQueues {
    ghost use Rattle.std.specs.Prelude.{ℕ, List};

    ghost Value = { List ℕ };

    ghost view = { λ wait_queues. wait_queues.due };
}

impl WaitQueues {
    /// Makes wait queues in which no end waits.
    pub fn new() -> WaitQueues
        ensures { result ≡ replicate WAIT_QUEUES 0 }
    {
        WaitQueues {
            due: [0; WAIT_QUEUES],
        }
    }

    /// Notes that an end, to which `owed` results are owed, waits in the user's queue. It is woken once half of them were
    /// given, but not before 16 or all of them; where another end waits there too, at the next result.
    pub fn note_waiting(&mut self, user: u8, owed: usize)
        ensures { self.new ≡ with_waiting self.old user owed }
    {
        let due = &mut self.due[wait_queue_of(user)];
        *due = if *due == 0 {
            owed.min((owed / 2).max(RESULTS_AT_ONCE)).max(1)
        } else {
            1
        };
    }

    /// Counts a result given to the user. Returns whether the ends that wait for it are to be woken now.
    pub fn note_given(&mut self, user: u8) -> bool
        ensures wakes { IsTrue result ↔ (due_at self.old user ≡ 1) }
        ensures due { self.new ≡ with_given self.old user }
    {
        let due = &mut self.due[wait_queue_of(user)];
        let wakes = *due == 1;
        *due = due.saturating_sub(1);
        wakes
    }
}

/// The number of tasks posted since workers were last woken for some.
#[derive(Drop)]
pub struct UnsignalledPosts {
    tasks: usize,
}

impl Model for UnsignalledPosts {
    ghost use Rattle.std.specs.Prelude.{ℕ};

    ghost Value = { ℕ };

    ghost view = { λ unsignalled. unsignalled.tasks };
}

impl UnsignalledPosts {
    /// Makes a count of 0.
    pub fn new() -> UnsignalledPosts
        ensures { result ≡ 0 }
    {
        UnsignalledPosts { tasks: 0 }
    }

    /// Counts one more post, up to `usize::MAX`.
    pub fn note_posted(&mut self)
        ensures { self.new ≡ min (self.old + 1) (2 ^ 64 - 1) }
    {
        self.tasks = self.tasks.saturating_add(1);
    }

    /// Takes the number of posts that no worker was woken for, if it has reached `least`; else 0.
    pub fn take_due(&mut self, least: usize) -> usize
        ensures value { result ≡ due_of self.old least }
        ensures left { self.old ≡ self.new + result }
    {
        if self.tasks < least {
            return 0;
        }
        mem::take(&mut self.tasks)
    }
}

/// The number of workers that wait for a task and were not woken since they began to. It may count a worker that has begun to look
/// again by itself. It leaves out none that sleeps and is not being woken.
#[derive(Drop)]
pub struct IdleWorkers {
    workers: usize,
}

impl Model for IdleWorkers {
    ghost use Rattle.std.specs.Prelude.{ℕ};

    ghost Value = { ℕ };

    ghost view = { λ idle. idle.workers };
}

impl IdleWorkers {
    /// Makes a count of 0.
    pub fn new() -> IdleWorkers
        ensures { result ≡ 0 }
    {
        IdleWorkers { workers: 0 }
    }

    /// Counts one more worker, up to `usize::MAX`. It begins to wait.
    pub fn note_waiting(&mut self)
        ensures { self.new ≡ min (self.old + 1) (2 ^ 64 - 1) }
    {
        self.workers = self.workers.saturating_add(1);
    }

    /// Takes off the workers that are to be woken for this many tasks: one for one task, all for more. Returns how many they are.
    pub fn take_woken(&mut self, tasks: usize) -> usize
        ensures value { result ≡ woken_for tasks self.old }
        ensures left { self.old ≡ self.new + result }
    {
        let woken = if tasks < 2 {
            self.workers.min(tasks)
        } else {
            self.workers
        };
        self.workers -= woken;
        woken
    }

    /// Returns whether there is one.
    pub fn has_some(&self) -> bool
        ensures { IsTrue result ↔ (0 < self.now) }
    {
        self.workers > 0
    }
}

/// Wakes this many of the threads that wait: none, one, or, from two on, all.
pub fn wake(waiting: &Condvar, threads: usize) {
    match threads {
        0 => {}
        1 => waiting.notify_one(),
        _ => waiting.notify_all(),
    }
}
