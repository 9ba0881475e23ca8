//! Tasks that are posted together.
ghost use Rattle.std.specs.Prelude.{◌≡◌, ◌++◌, ◌∷◌, [], ◌<◌, ◌≤◌, length, slice_index_or};
ghost use Rattle.lj_task.specs.Blank.{blank_task};

use crate::pool::MAX_POSTS;
use arrayvec::ArrayVec;
use lj_task::TaskRef;
use std::marker::Model;

/// At most `MAX_POSTS` tasks by reference, to be posted together and in order.
#[derive(Drop)]
pub struct TaskList<'a> {
    places: ArrayVec<Option<TaskRef<'a>>, MAX_POSTS>,
}

impl<'a> Model for TaskList<'a> {
    ghost use Rattle.std.specs.Prelude.{List, map};
    ghost use Rattle.lj_task.specs.Task.{Task};
    ghost use Rattle.lj_end.specs.TaskLists.{AreThere, task_in};

    ghost Value = { List Task };

    ghost view = { λ list. map task_in list.places.items };

    ghost invariant = { λ list. AreThere list.places.items };
}

impl<'a> TaskList<'a> {
    /// Makes a list without tasks.
    pub fn new() -> TaskList<'a>
        ensures { result ≡ [] }
    {
        TaskList {
            places: ArrayVec::new(),
        }
    }

    /// Adds a task behind the others.
    pub fn push(&mut self, task: TaskRef<'a>)
        requires { length self.old < MAX_POSTS }
        ensures { self.new ≡ self.old ++ task.entry ∷ [] }
    {
        self.places.push(Some(task));
    }

    /// Returns the number of tasks.
    pub fn len(&self) -> usize
        ensures value { result ≡ length self.now }
        ensures most { result ≤ MAX_POSTS }
    {
        self.places.len()
    }

    /// Returns the task at this position.
    pub fn at(&self, here: usize) -> &TaskRef<'a>
        requires { here < length self.now }
        ensures { result.now ≡ slice_index_or self.now here blank_task }
    {
        match &self.places[here] {
            Some(task) => task,
            None => unreachable!(),
        }
    }
}
