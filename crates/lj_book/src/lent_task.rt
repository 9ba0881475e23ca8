//! Tasks that are out of a book in their boxes.
ghost use Rattle.std.specs.Prelude.{◌≡◌, ℕ, Bool, is_some, true, false};
ghost use Rattle.lj_book.specs.Book.{user_of_task};
ghost use Rattle.lj_book.specs.Boxes.{slip_for};

use crate::book_entry::Keeps;
use crate::task_box::{DoneBox, TaskBox};
use lj_task::{DoneRef, Kernel, Task};
use std::marker::Model;

/// An open task in its box, with the number of its post. The user is stored beside the box, so that a take under a lock does not
/// read the box, whose cache lines another processor has written.
#[derive(Drop)]
pub(crate) struct Numbered {
    pub(crate) number: u64,
    user: u8,
    pub(crate) task: TaskBox,
    ghost whose: { user ≡ user_of_task task },
}

impl Model for Numbered {
    ghost use Rattle.lj_book.specs.Boxes.{Numbered};

    ghost Value = { Numbered };

    ghost view = { λ n. record { number = n.number; work = n.task } };
}

impl Numbered {
    /// Returns a task in its box as posted under this number.
    pub(crate) fn new(number: u64, task: TaskBox) -> Numbered
        ensures { result ≡ record { number = number; work = task } }
    {
        let user = task.task().name().label.user;
        Numbered { number, user, task }
    }

    /// Returns what the book stores for the task while its box is out.
    pub(crate) fn slip(&self) -> Slip
        ensures { result ≡ slip_for self.now }
    {
        Slip {
            number: self.number,
            user: self.user,
        }
    }
}

impl Keeps for Numbered {
    ghost whose = { λ n. user_of_task n.work };

    ghost boxed = { λ n. true };

    fn user(&self) -> u8 {
        self.user
    }

    fn into_box(self) -> Option<TaskBox> {
        Some(self.task.released())
    }
}

/// What the book stores for a task while its box is out: the number of its post, and its user.
#[derive(Drop)]
pub(crate) struct Slip {
    pub(crate) number: u64,
    pub(crate) user: u8,
}

impl Model for Slip {
    ghost use Rattle.lj_book.specs.Boxes.{Slip};

    ghost Value = { Slip };

    ghost view = { λ s. record { number = s.number; user = s.user } };
}

impl Keeps for Slip {
    ghost whose = { λ s. s.user };

    ghost boxed = { λ s. false };

    fn user(&self) -> u8 {
        self.user
    }

    fn into_box(self) -> Option<TaskBox> {
        None
    }
}

/// What is out of a book in its box, with its key and the number of its post. Only a book makes one, and nothing changes its
/// task.
#[derive(Drop)]
pub struct Lent<B> {
    pub(crate) key: usize,
    pub(crate) number: u64,
    pub(crate) boxed: B,
}

/// A task that is out, in its box.
pub type LentTask = Lent<TaskBox>;

/// The result of a task that is out, in its box.
pub type LentDone = Lent<DoneBox>;

impl<B> Model for Lent<B> {
    ghost use Rattle.lj_book.specs.Boxes.{Lent};

    ghost Value = { Lent B };

    ghost view = { λ l. record { key = l.key; number = l.number; work = l.boxed } };
}

impl Lent<TaskBox> {
    /// Returns its key.
    pub fn key(&self) -> usize
        ensures { result ≡ self.now.key }
    {
        self.key
    }

    /// Returns the task.
    pub fn task(&self) -> &Task
        ensures { result.now ≡ self.now.work }
    {
        self.boxed.task()
    }

    /// Computes the task, in its box.
    ///
    /// Promise: the task's result is returned under the key and number of the task.
    pub fn compute<K: Kernel>(self, kernel: &K) -> LentDone
        ensures { result ≡ self }
    {
        Lent {
            key: self.key,
            number: self.number,
            boxed: self.boxed.compute(kernel),
        }
    }
}

impl Lent<DoneBox> {
    /// Returns the result.
    pub fn done(&self) -> DoneRef<'_>
        ensures { result ≡ self.now.work }
    {
        self.boxed.done()
    }
}
