//! What computes tasks.
ghost use Rattle.std.specs.Prelude.{◌≡◌};
ghost use Rattle.lj_task.specs.Results.{AreSums};

use crate::results::{Done, Sums};
use crate::tasks::{Task, TaskRef};

/// A kernel: it computes the sums of a task. Only a kernel makes the result of a given task, so a crate that needs results and
/// not how they come about takes any kernel.
///
/// Promise: a kernel computes the given task's sums and result.
pub trait Kernel {
    /// Computes the sums of a task, and overwrites older ones.
    ///
    /// ```rust
    /// // `task` as in the example of `Task`, `kernel` by the table of the force
    /// kernel.compute_sums(&task, &mut sums);
    /// assert_eq!(DoneRef::new(&task, &sums).to_done().sum_at(0), [589, 0, 0]);
    /// ```
    fn compute_sums(&self, task: &Task, sums: &mut Sums)
        ensures { AreSums task.now sums.new };

    /// Computes a task.
    ///
    /// ```rust
    /// // `task` as in the example of `Task`, `kernel` by the table of the force
    /// assert_eq!(kernel.compute(task).sum_at(1), [4_294_966_707, 0, 0]);
    /// ```
    fn compute(&self, task: Task) -> Done
        ensures { result ≡ task }
    {
        let mut sums = Sums::blank();
        self.compute_sums(&task, &mut sums);
        Done { task, sums }
    }

    /// Computes a task, and overwrites an older result.
    ///
    /// ```rust
    /// // `task` as in the example of `Task`, `kernel` by the table of the force
    /// let mut done = Done::blank();
    /// kernel.compute_into(&task.by_ref(), &mut done);
    /// assert_eq!(done.sum_at(0), [589, 0, 0]);
    /// ```
    fn compute_into(&self, task: &TaskRef<'_>, out: &mut Done)
        ensures { out.new ≡ task.now }
    {
        let Done { task: copy, sums } = out;
        copy.remake(task);
        self.compute_sums(copy, sums);
    }
}
