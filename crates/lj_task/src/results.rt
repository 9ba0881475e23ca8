//! Results of tasks.
ghost use Rattle.std.specs.Prelude.{◌≡◌, ◌<◌, length, map, pos, ◌∷◌, []};
ghost use Rattle.std.specs.List.{range_with_len};
ghost use Rattle.lj_task.specs.declared.task_name.Kind.TheVariants.{Force, Energy};
ghost use Rattle.lj_task.specs.Blank.{blank_task};
ghost use Rattle.lj_task.specs.Task.{task_force, task_second, task_energy};
ghost use Rattle.lj_task.specs.Results.{AreSums};

use crate::force_sums::ForceSums;
use crate::pushes::Push;
use crate::tasks::Task;
use std::marker::Model;

/// The sums of a task, of pushes or of an energy. The field of the other kind is unspecified.
#[derive(Debug, Drop)]
pub struct Sums {
    pub pushes: ForceSums,
    /// The sum of the energies of all pairs, in units of 2^-24 ε.
    pub energy: i64,
}

impl Sums {
    /// Makes sums that are to be overwritten.
    ///
    /// ```rust
    /// // `task` as in the example of `Task`
    /// let mut sums = Sums::blank();
    /// compute_sums(&task, &Table::new(), &mut sums);
    /// assert_eq!(DoneRef::new(&task, &sums).sums()[0].x, 589);
    /// ```
    pub fn blank() -> Sums
        ensures { result.energy ≡ pos 0 }
    {
        Sums {
            pushes: ForceSums::none(),
            energy: 0,
        }
    }

    /// Makes these sums equal to the others.
    fn copy_from(&mut self, other: &Sums)
        ensures { self.new ≡ other.now }
    {
        self.pushes = other.pushes;
        self.energy = other.energy;
    }
}

/// The result of a task: the task with its sums. Only a `Kernel` makes the result of a given task.
#[derive(Debug, Drop)]
pub struct Done {
    pub(crate) task: Task,
    pub(crate) sums: Sums,
}

impl Model for Done {
    ghost use Rattle.lj_task.specs.Task.{Task};

    ghost Value = { Task };

    ghost view = { λ d. d.task };

    ghost use Rattle.lj_task.specs.Results.{AreSums};

    ghost invariant = { λ d. AreSums d.task d.sums };
}

impl Done {
    /// Returns the task of this result.
    ///
    /// ```rust
    /// // `task` as in the example of `Task`
    /// let done = compute(task.copy(), &Table::new());
    /// assert!(done.task().is(&task));
    /// ```
    pub fn task(&self) -> &Task
        ensures { result.now ≡ self.now }
    {
        &self.task
    }

    /// Returns the result by reference.
    ///
    /// ```rust
    /// // `done`: the result of the task in the example of `Task`
    /// assert_eq!(done.by_ref().sums()[0], Push { x: 589, y: 0, z: 0 });
    /// ```
    #[inline]
    pub fn by_ref(&self) -> DoneRef<'_>
        ensures { result ≡ self.now }
    {
        DoneRef {
            task: &self.task,
            sums: &self.sums,
        }
    }

    /// Returns the sum of the pushes on place `t` of the first block, along each axis, in ring units modulo 2^32.
    ///
    /// ```rust
    /// // `task` as in the example of `Task`
    /// assert_eq!(compute(task, &Table::new()).sum_at(0), [589, 0, 0]);
    /// ```
    pub fn sum_at(&self, t: usize) -> [u32; 3]
        requires force { self.now.name.kind ≡ Force }
        requires within { t < length self.now.a.places }
        ensures { let sum = task_force self.now t in result ≡ sum.x ∷ sum.y ∷ sum.z ∷ [] }
    {
        let sum = self.sums.pushes.first_at(t);
        [sum.x, sum.y, sum.z]
    }

    /// Returns the sum of the pushes on place `s` of the second block, along each axis, in ring units modulo 2^32. In a
    /// task of one block twice `sum_at` has the whole sum.
    ///
    /// ```rust
    /// // `task` with the two atoms of the example of `Task`, the first as block 1 and the second as block 3
    /// assert_eq!(compute(task, &Table::new()).second_at(0), [4_294_966_707, 0, 0]);
    /// ```
    pub fn second_at(&self, s: usize) -> [u32; 3]
        requires force { self.now.name.kind ≡ Force }
        requires apart { self.now.name.bi < self.now.name.bj }
        requires within { s < length self.now.b.places }
        ensures { let sum = task_second self.now s in result ≡ sum.x ∷ sum.y ∷ sum.z ∷ [] }
    {
        let other = self.sums.pushes.second_at(s);
        [other.x, other.y, other.z]
    }

    /// Returns the sum of the energies of the task's pairs, in units of 2^-24 ε.
    ///
    /// ```rust
    /// // `task` as in the example of `Task`, but of kind Energy
    /// assert_eq!(compute(task, &Table::new()).energy_sum(), -5_349_132);
    /// ```
    pub fn energy_sum(&self) -> i64
        requires { self.now.name.kind ≡ Energy }
        ensures { result ≡ task_energy self.now }
    {
        self.sums.energy
    }

    /// Makes the result of a task of one atom, to be overwritten.
    ///
    /// ```rust
    /// // one atom makes no pair
    /// assert_eq!(Done::blank().energy_sum(), 0);
    /// ```
    pub fn blank() -> Done
        ensures { result ≡ blank_task }
    {
        Done {
            task: Task::blank(),
            sums: Sums::blank(),
        }
    }

    /// Returns an equal result.
    ///
    /// ```rust
    /// // `done`: the result of the task in the example of `Task`
    /// assert_eq!(done.copy().sum_at(1), [4_294_966_707, 0, 0]);
    /// ```
    pub fn copy(&self) -> Done
        ensures { result ≡ self.now }
    {
        self.by_ref().to_done()
    }

    /// Makes this result equal to the other.
    ///
    /// ```rust
    /// // `done`: the result of the task in the example of `Task`
    /// let mut other = Done::blank();
    /// other.copy_from(&done.by_ref());
    /// assert_eq!(other.sum_at(0), [589, 0, 0]);
    /// ```
    pub fn copy_from(&mut self, other: &DoneRef<'_>)
        ensures { self.new ≡ other.now }
    {
        self.task.copy_from(other.task);
        self.sums.copy_from(other.sums);
    }
}

/// The result of a task by reference: a task and its sums, which may lie apart. `DoneRef::new` requires that the sums
/// are those of the task.
#[derive(Debug, Drop)]
pub struct DoneRef<'a> {
    task: &'a Task,
    sums: &'a Sums,
}

impl<'a> Model for DoneRef<'a> {
    ghost use Rattle.lj_task.specs.Task.{Task};

    ghost Value = { Task };

    ghost view = { λ d. d.task.now };

    ghost use Rattle.lj_task.specs.Results.{AreSums};

    ghost invariant = { λ d. AreSums d.task.now d.sums.now };
}

impl<'a> DoneRef<'a> {
    /// Makes the result of a task and its sums.
    ///
    /// ```rust
    /// // `sums`: what `compute_sums` wrote for the task in the example of `Task`
    /// let done = DoneRef::new(&task, &sums);
    /// assert_eq!(done.sums()[1], Push { x: 4_294_966_707, y: 0, z: 0 });
    /// ```
    #[inline]
    pub fn new(task: &'a Task, sums: &'a Sums) -> DoneRef<'a>
        requires { AreSums task.now sums.now }
        ensures { result ≡ task.now }
    {
        DoneRef { task, sums }
    }

    /// Returns the task of this result.
    #[inline]
    pub fn task(&self) -> &'a Task
        ensures { result.now ≡ self.now }
    {
        self.task
    }

    /// Returns the sums of the pushes on the places of the first block, in order.
    ///
    /// ```rust
    /// // `done`: the result of the task in the example of `Task`
    /// let sums = done.by_ref().sums();
    /// assert_eq!((sums[0].x, sums[1].x), (589, 4_294_966_707));
    /// ```
    #[inline]
    pub fn sums(&self) -> &'a [Push]
        requires { self.now.name.kind ≡ Force }
        ensures { result.now ≡ map (task_force self.now) (range_with_len 0 (length self.now.a.places)) }
    {
        self.sums
            .pushes
            .first_sums(self.task.first().places().len())
    }

    /// Returns the sums of the pushes on the places of the second block, in order. In a task of one block twice `sums`
    /// has the whole sums.
    ///
    /// ```rust
    /// // `done`: the result of a task with the two atoms of the example of `Task` as blocks 1 and 3
    /// let sums = done.by_ref().second_sums();
    /// assert_eq!((sums.len(), sums[0].x), (1, 4_294_966_707));
    /// ```
    #[inline]
    pub fn second_sums(&self) -> &'a [Push]
        requires force { self.now.name.kind ≡ Force }
        requires apart { self.now.name.bi < self.now.name.bj }
        ensures { result.now ≡ map (task_second self.now) (range_with_len 0 (length self.now.b.places)) }
    {
        self.sums
            .pushes
            .second_sums(self.task.second().places().len())
    }

    /// Returns the sum of the energies of the task's pairs, in units of 2^-24 ε.
    #[inline]
    pub fn energy_sum(&self) -> i64
        requires { self.now.name.kind ≡ Energy }
        ensures { result ≡ task_energy self.now }
    {
        self.sums.energy
    }

    /// Copies the task and its sums.
    ///
    /// ```rust
    /// // `done`: the result of the task in the example of `Task`
    /// let (mut task, mut sums) = (Task::blank(), Sums::blank());
    /// done.by_ref().copy_to(&mut task, &mut sums);
    /// assert_eq!(DoneRef::new(&task, &sums).sums()[0].x, 589);
    /// ```
    pub fn copy_to(&self, task: &mut Task, sums: &mut Sums)
        ensures task { task.new ≡ self.now }
        ensures sums { AreSums self.now sums.new }
    {
        task.copy_from(self.task);
        sums.copy_from(self.sums);
    }

    /// Returns an equal result.
    ///
    /// ```rust
    /// // `done`: the result of the task in the example of `Task`
    /// assert_eq!(done.by_ref().to_done().sum_at(0), [589, 0, 0]);
    /// ```
    pub fn to_done(&self) -> Done
        ensures { result ≡ self.now }
    {
        let mut copy = Done::blank();
        copy.copy_from(self);
        copy
    }
}
