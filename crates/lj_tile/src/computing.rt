//! The kernel that computes tasks by a table.
ghost use Rattle.std.specs.Prelude.{◌≡◌};
ghost use Rattle.lj_task.specs.Results.{AreSums};

use crate::sums::{energy_sum, sum_forces};
use lj_table::Table;
use lj_task::{Done, Kernel, Kind, Sums, Task, TaskRef};

/// The kernel that takes pushes and energies from a table.
///
/// ```rust
/// // `task` as in the example of `Task`
/// let done = TableKernel::new(&Table::new()).compute(task);
/// assert_eq!(done.sum_at(0), [589, 0, 0]);
/// ```
#[derive(Drop)]
pub struct TableKernel<'a> {
    table: &'a Table,
}

impl<'a> TableKernel<'a> {
    /// Returns the kernel of a table.
    ///
    /// ```rust
    /// // `task` as in the example of `Task`
    /// assert_eq!(TableKernel::new(&Table::new()).compute(task).sum_at(1), [4_294_966_707, 0, 0]);
    /// ```
    #[inline]
    pub fn new(table: &'a Table) -> TableKernel<'a> {
        TableKernel { table }
    }
}

impl<'a> Kernel for TableKernel<'a> {
    fn compute_sums(&self, task: &Task, sums: &mut Sums) {
        let by_ref = task.by_ref();
        match task.name().kind {
            Kind::Force => sum_forces(&by_ref, self.table, &mut sums.pushes),
            Kind::Energy => sums.energy = energy_sum(&by_ref, self.table),
        }
    }
}

/// Computes a task.
///
/// ```rust
/// // `task` as in the example of `Task`
/// let done = compute(task, &Table::new());
/// assert_eq!((done.sum_at(0), done.sum_at(1)), ([589, 0, 0], [4_294_966_707, 0, 0]));
/// ```
///
/// Promise: the given task's result is computed.
pub fn compute(task: Task, table: &Table) -> Done
    ensures { result ≡ task }
{
    TableKernel::new(table).compute(task)
}

/// Computes a task, and overwrites an older result.
///
/// ```rust
/// // `task` as in the example of `Task`
/// let mut done = Done::blank();
/// compute_into(&task.by_ref(), &Table::new(), &mut done);
/// assert_eq!(done.sum_at(0), [589, 0, 0]);
/// ```
///
/// Promise: the given task's result is computed.
pub fn compute_into(task: &TaskRef<'_>, table: &Table, out: &mut Done)
    ensures { out.new ≡ task.now }
{
    TableKernel::new(table).compute_into(task, out);
}

/// Computes the sums of a task, and overwrites older ones.
///
/// ```rust
/// // `task` as in the example of `Task`, but of kind Energy
/// let mut sums = Sums::blank();
/// compute_sums(&task, &Table::new(), &mut sums);
/// assert_eq!(DoneRef::new(&task, &sums).energy_sum(), -5_349_132);
/// ```
///
/// Promise: the sums are the given task's sums.
pub fn compute_sums(task: &Task, table: &Table, sums: &mut Sums)
    ensures { AreSums task.now sums.new }
{
    TableKernel::new(table).compute_sums(task, sums);
}
