//! What a worker holds, and how a worker handles each event.
ghost use Rattle.std.specs.Prelude.{◌≡◌, Some, false};
ghost use Rattle.lj_book.specs.Book.{Book, IsOpenAt};
ghost use Rattle.lj_world.specs.declared.event.WorkerEvent.TheVariants.{Take, Compute, Give, HandBack};
ghost use Rattle.lj_world.specs.Workers.{worker_view};
ghost use Rattle.lj_world.specs.Steps.{WorkerStep};
ghost use Rattle.lj_world.specs.Picked.{ChangesPicked, WorkerFollowsPick};

use crate::event::WorkerEvent;
use crate::holding::Holding;
use lj_book::{Book, Key};
use lj_table::Table;
use lj_task::Task;
use lj_tile::compute;
use std::marker::Model;

/// What a worker holds: a task or its result, with the key of the task.
#[derive(Drop)]
pub(crate) struct Worker {
    key: Key,
    holding: Holding,
}

impl Model for Worker {
    ghost use Rattle.lj_world.specs.Holdings.{task_in_hand, is_computed};
    ghost use Rattle.lj_world.specs.Machine.{Worker};

    ghost Value = { Worker };

    ghost view = { λ w. record { key = w.key; work = task_in_hand w.holding; computed = is_computed w.holding } };
}

/// Handles an event, or changes nothing if the event is not possible now.
pub(crate) fn handle(
    worker: &mut Option<Worker>,
    event: WorkerEvent,
    book: &mut Book,
    table: &Table,
)
    ensures step { WorkerStep event (worker_view worker.old book.old) (worker_view worker.new book.new) }
    ensures picked { WorkerFollowsPick event book.old book.new }
{
    match event {
        WorkerEvent::Take { pick } => take(worker, book, pick),
        WorkerEvent::Compute => {
            if let Some(worker) = worker {
                worker.compute(table);
            }
        }
        WorkerEvent::Give => {
            if let Some(worker) = worker {
                worker.give(book);
            }
        }
        WorkerEvent::HandBack => {
            if let Some(worker) = worker {
                worker.hand_back(book);
            }
        }
    }
}

/// Takes a task, in place of what the worker held.
fn take(worker: &mut Option<Worker>, book: &mut Book, pick: usize)
    ensures step { WorkerStep (Take pick) (worker_view worker.old book.old) (worker_view worker.new book.new) }
    ensures picked { ChangesPicked (IsOpenAt book.old) pick book.old book.new }
{
    if let Some((key, task)) = book.take(pick) {
        *worker = Some(Worker::new(key, task));
    }
}

impl Worker {
    /// Holds a task that is not computed yet.
    fn new(key: Key, task: Task) -> Worker
        ensures { result ≡ record { key = key; work = task; computed = false } }
    {
        Worker {
            key,
            holding: Holding::Task(task),
        }
    }

    /// Computes the task, unless it is computed already.
    fn compute(&mut self, table: &Table)
        ensures { (book : Book)
            → WorkerStep Compute (worker_view (Some self.old) book) (worker_view (Some self.new) book) }
    {
        if let Holding::Task(task) = &self.holding {
            self.holding = Holding::Done(compute(task.copy(), table));
        }
    }

    /// Gives a copy of the result to the book, which refuses it unless the task is out under its key.
    fn give(&self, book: &mut Book)
        ensures { WorkerStep Give (worker_view (Some self.now) book.old)
            (worker_view (Some self.now) book.new) }
    {
        if let Holding::Done(done) = &self.holding {
            let _refused = book.give(self.key, done.copy());
        }
    }

    /// Hands the task back to the book, which refuses it unless the task is out under its key.
    fn hand_back(&self, book: &mut Book)
        ensures { WorkerStep HandBack (worker_view (Some self.now) book.old)
            (worker_view (Some self.now) book.new) }
    {
        let task = match &self.holding {
            Holding::Task(task) => task,
            Holding::Done(done) => done.task(),
        };
        let _refused = book.hand_back(self.key, task);
    }
}
