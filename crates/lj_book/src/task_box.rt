//! Boxes: each holds a task and its sums, so that only the box moves.
ghost use Rattle.std.specs.Prelude.{◌≡◌, ◌+◌, ◌≤◌, ◌<◌, ℕ, Bool, is_some, vec_len, IfOk};
ghost use Rattle.std.specs.Vec.{vec_capacity};

use lj_task::{Done, DoneRef, Kernel, SharedFrame, Sums, Task, TaskRef};
use std::alloc::{AllocError, Global};
use std::marker::Model;

/// A task and its sums. A worker reads the task and writes the sums; the connection that wrote the task reads it again
/// in place.
#[derive(Drop)]
struct BoxContents {
    task: Task,
    sums: Sums,
}

/// A task in a box, with memory for its sums.
#[derive(Drop)]
pub struct TaskBox {
    contents: Box<BoxContents>,
}

impl Model for TaskBox {
    ghost use Rattle.lj_task.specs.Task.{Task};

    ghost Value = { Task };

    ghost view = { λ b. b.contents.value.task };
}

impl TaskBox {
    /// Makes a box of a task of one atom, to be overwritten.
    ///
    /// # Errors
    /// Out of memory.
    pub fn new(alloc: Global) -> Result<TaskBox, AllocError> {
        let contents = BoxContents {
            task: Task::blank(),
            sums: Sums::blank(),
        };
        Ok(TaskBox {
            contents: Box::new(alloc, contents)?,
        })
    }

    /// Returns the task.
    pub fn task(&self) -> &Task
        ensures { result.now ≡ self.now }
    {
        &self.contents.task
    }

    /// Makes its task equal to one that is given by reference.
    pub fn remake(&mut self, task: &TaskRef<'_>)
        ensures { self.new ≡ task.now }
    {
        self.contents.task.remake(task);
    }

    /// Returns the box, for another task. The one in it shares no frame any more.
    pub fn released(self) -> TaskBox {
        let mut contents = self.contents;
        drop(contents.as_mut().task.release());
        TaskBox { contents }
    }

    /// Computes the task, in its box.
    pub fn compute<K: Kernel>(self, kernel: &K) -> DoneBox
        ensures { result ≡ self }
    {
        let mut contents = self.contents;
        let BoxContents { task, sums } = contents.as_mut();
        kernel.compute_sums(task, sums);
        DoneBox { contents }
    }

    /// Copies a result to this box.
    pub(crate) fn filled(self, done: &Done) -> DoneBox
        ensures { result ≡ done.now }
    {
        let mut contents = self.contents;
        let BoxContents { task, sums } = contents.as_mut();
        done.by_ref().copy_to(task, sums);
        DoneBox { contents }
    }
}

/// The result of a task, in the box of the task.
#[derive(Drop)]
pub struct DoneBox {
    contents: Box<BoxContents>,
}

impl Model for DoneBox {
    ghost use Rattle.lj_task.specs.Task.{Task};

    ghost Value = { Task };

    ghost view = { λ b. b.contents.value.task };

    ghost use Rattle.lj_task.specs.Results.{AreSums};

    ghost invariant = { λ b. AreSums b.contents.value.task b.contents.value.sums };
}

impl DoneBox {
    /// Makes a box of the result of a task of one atom, to be overwritten.
    ///
    /// # Errors
    /// Out of memory.
    pub fn new(alloc: Global) -> Result<DoneBox, AllocError> {
        Ok(TaskBox::new(alloc)?.filled(&Done::blank()))
    }

    /// Returns the result.
    pub fn done(&self) -> DoneRef<'_>
        ensures { result ≡ self.now }
    {
        DoneRef::new(&self.contents.task, &self.contents.sums)
    }

    /// Returns the box, for another task. The one in it shares no frame any more.
    pub fn into_task(self) -> TaskBox {
        self.into_parts().0
    }

    /// Returns the box, for another task, and the frame that the one in it shared, if it shared one. To drop the frame waits
    /// for all that was written before, so it is dropped later, when no cache line of the box is on its way any more.
    pub fn into_parts(self) -> (TaskBox, Option<SharedFrame>) {
        let mut contents = self.contents;
        let frame = contents.as_mut().task.release();
        (TaskBox { contents }, frame)
    }
}

/// Makes `count` boxes.
pub(crate) fn boxes(alloc: Global, count: usize) -> Result<Vec<TaskBox>, AllocError>
    ensures count { IfOk result (λ made. vec_len made ≡ count) }
    ensures places { IfOk result (λ made. count ≤ vec_capacity made) }
{
    let mut made = Vec::with_capacity(alloc, count)?;
    for _ in 0..count {
        made.push_reserved(TaskBox::new(alloc)?);
    }
    Ok(made)
}

/// Takes a spare box.
pub(crate) fn spare_box(spare: &mut Vec<TaskBox>) -> TaskBox
    requires { 0 < vec_len spare.old }
    ensures len { vec_len spare.new + 1 ≡ vec_len spare.old }
    ensures capacity { vec_capacity spare.new ≡ vec_capacity spare.old }
{
    spare.pop().unwrap()
}
