//! Tasks.
ghost use Rattle.std.specs.Prelude.{◌≡◌, ◌≤◌, ◌<◌, ◌↔◌, length, IsTrue, IfSome};
ghost use Rattle.lj_task.specs.declared.task_name.Kind.TheVariants.{Energy};
ghost use Rattle.lj_task.specs.Task.{IsTask};
ghost use Rattle.lj_task.specs.Blank.{blank_task};
ghost use Rattle.lj_task.specs.Frames.{AreBlocksOf, IsIn};

use crate::blocks::{BLOCK, Block, BlockRef, MAX_BLOCKS};
use crate::shared_frames::{SharedBlocks, SharedFrame};
use crate::task_name::{TaskName, TaskNameRef};
use lj_ring::{Mix, Place, Scale};
use std::fmt;
use std::marker::Model;

/// A task: one tile of a step, with all data to compute it. A force task gives the sums of the atoms of both its
/// blocks; place t of block n is atom `BLOCK * n + t`.
///
/// ```rust
/// // `name` as in the example of `TaskName`; two atoms 1.5 sigma apart in a box of 256 sigma
/// let mix = Mix::one(Scale::new(parse_nano(b"256")?, parse_nano(b"1")?, 131_072)?);
/// let places = [Place { x: 0, y: 0, z: 0 }, Place { x: 25_165_824, y: 0, z: 0 }];
/// let task = Task::new(name, mix, Block::new(&places, 0), Block::new(&places, 0));
/// ```
#[derive(Drop)]
pub struct Task {
    /// Its blocks, if they lie in a frame that it shares. Then `first` and `second` are unspecified.
    shared: Option<SharedBlocks>,
    name: TaskName,
    mix: Mix,
    first: Block,
    second: Block,
}

impl Model for Task {
    ghost use Rattle.lj_task.specs.Task.{Task};
    ghost use Rattle.lj_task.specs.Frames.{task_of_parts, IsKeptTask};

    ghost Value = { Task };

    ghost view = { λ t. task_of_parts t.name t.mix t.shared t.first t.second };

    ghost invariant = { λ t. IsKeptTask t.name t.mix t.shared t.first t.second };
}

impl Task {
    /// Makes the task of this name over two blocks, which are the same if the name has one index twice.
    ///
    /// ```rust
    /// // `name`, `mix` and `places` as in the example of `Task`
    /// let task = Task::new(name, mix, Block::new(&places, 0), Block::new(&places, 0));
    /// assert_eq!(compute(task, &Table::new()).sum_at(0), [589, 0, 0]);
    /// ```
    pub fn new(name: TaskName, mix: Mix, a: Block, b: Block) -> Task
        requires some_first { 1 ≤ length a.places }
        requires some_second { 1 ≤ length b.places }
        requires first_index { name.bi < MAX_BLOCKS }
        requires second_index { name.bj < MAX_BLOCKS }
        requires diagonal { name.bi ≡ name.bj → a ≡ b }
        requires in_order { name.bi ≤ name.bj }
        ensures { result ≡ record { name = name; mix = mix; a = a; b = b } }
    {
        Task {
            shared: None,
            name,
            mix,
            first: a,
            second: b,
        }
    }

    /// Makes the energy task of one atom in the greatest box, to be overwritten.
    ///
    /// ```rust
    /// // one atom makes no pair
    /// assert_eq!(compute(Task::blank(), &Table::new()).energy_sum(), 0);
    /// ```
    pub fn blank() -> Task
        ensures { result ≡ blank_task }
    {
        let place = [Place { x: 0, y: 0, z: 0 }];
        let block = Block::new(&place, 0);
        Task::new(
            TaskName::blank(),
            Mix::one(Scale::least()),
            block.copy(),
            block,
        )
    }

    /// Returns copies of both blocks.
    fn blocks(&self) -> (Block, Block)
        ensures { result ≡ (self.now.a, self.now.b) }
    {
        (self.first().to_block(), self.second().to_block())
    }

    /// Returns the name of the task.
    ///
    /// ```rust
    /// // `task` as in the example of `Task`
    /// assert_eq!(task.name().kind, Kind::Force);
    /// ```
    pub fn name(&self) -> &TaskName
        ensures value { result.now ≡ self.now.name }
        ensures sound { IsTask self.now }
    {
        &self.name
    }

    /// Returns the first block, by reference to its places.
    #[inline]
    pub(crate) fn first(&self) -> BlockRef<'_>
        ensures value { result ≡ self.now.a }
        ensures sound { IsTask self.now }
    {
        match &self.shared {
            Some(shared) => BlockRef::new(
                shared.frame.block(usize::from(self.name.bi)),
                shared.first_species,
            ),
            None => self.first.by_ref(),
        }
    }

    /// Returns the second block, by reference to its places.
    #[inline]
    pub(crate) fn second(&self) -> BlockRef<'_>
        ensures value { result ≡ self.now.b }
        ensures sound { IsTask self.now }
    {
        match &self.shared {
            Some(shared) => BlockRef::new(
                shared.frame.block(usize::from(self.name.bj)),
                shared.second_species,
            ),
            None => self.second.by_ref(),
        }
    }

    /// Returns an equal task, which shares its frame if there is one.
    ///
    /// ```rust
    /// // `task` as in the example of `Task`
    /// assert!(task.copy().is(&task));
    /// ```
    pub fn copy(&self) -> Task
        ensures { result ≡ self.now }
    {
        self.by_ref().to_task()
    }

    /// Makes this task equal to the other.
    ///
    /// ```rust
    /// // `task` as in the example of `Task`
    /// let mut other = Task::blank();
    /// other.copy_from(&task);
    /// assert!(other.is(&task));
    /// ```
    pub fn copy_from(&mut self, other: &Task)
        ensures { self.new ≡ other.now }
    {
        self.remake(&other.by_ref());
    }

    /// Takes the frame that the task shares, if it shares one. Its step, its blocks and their numbers are unspecified afterwards.
    ///
    /// ```rust
    /// // `task` as in the example of `Task`
    /// let mut taken = task.copy();
    /// assert!(taken.take_frame().is_none());
    /// assert_eq!(taken.name().kind, task.name().kind);
    /// ```
    pub fn take_frame(&mut self) -> Option<SharedFrame>
        ensures label { self.new.name.label ≡ self.old.name.label }
        ensures kind { self.new.name.kind ≡ self.old.name.kind }
        ensures mix { self.new.mix ≡ self.old.mix }
    {
        self.name.rename();
        self.shared.take().map(|shared| shared.frame)
    }

    /// Makes the task ready to be overwritten by another thread than read it: takes its frame as `take_frame` does or, if it shared
    /// none, writes to each cache line of its blocks, so that the processor has these lines for itself by then.
    ///
    /// ```rust
    /// // `task` as in the example of `Task`
    /// let mut released = task.copy();
    /// assert!(released.release().is_none());
    /// assert_eq!(released.name().kind, task.name().kind);
    /// ```
    pub fn release(&mut self) -> Option<SharedFrame>
        ensures label { self.new.name.label ≡ self.old.name.label }
        ensures kind { self.new.name.kind ≡ self.old.name.kind }
        ensures mix { self.new.mix ≡ self.old.mix }
    {
        self.name.rename();
        let shared = self.shared.take();
        if shared.is_none() {
            self.first.touch();
            self.second.touch();
        }
        shared.map(|shared| shared.frame)
    }

    /// Makes this task equal to one that is given by reference.
    ///
    /// ```rust
    /// // `task` as in the example of `Task`
    /// let mut other = Task::blank();
    /// other.remake(&task.by_ref());
    /// assert!(other.is(&task));
    /// ```
    pub fn remake(&mut self, task: &TaskRef<'_>)
        ensures { self.new ≡ task.now }
    {
        self.name.remake(&task.name);
        if !self.mix.is(task.mix) {
            self.mix = *task.mix;
        }
        self.shared = task.shared_blocks();
        if self.shared.is_none() {
            self.first.remake(&task.first);
            self.second.remake(&task.second);
        }
    }

    /// Returns the task by reference.
    ///
    /// ```rust
    /// // `task` as in the example of `Task`
    /// assert!(task.is_of(&task.by_ref()));
    /// ```
    #[inline]
    pub fn by_ref(&self) -> TaskRef<'_>
        ensures { result ≡ self.now }
    {
        TaskRef {
            name: self.name.by_ref(),
            mix: &self.mix,
            first: self.first(),
            second: self.second(),
            frame: self.shared.as_ref().map(|shared| &shared.frame),
        }
    }

    /// Returns whether the other task is equal: its name, its mixture and its two blocks.
    ///
    /// ```rust
    /// // `task` as in the example of `Task`
    /// assert!(task.is(&task.copy()));
    /// assert!(!task.is(&Task::blank()));
    /// ```
    pub fn is(&self, other: &Task) -> bool
        ensures { IsTrue result ↔ (self.now ≡ other.now) }
    {
        self.is_of(&other.by_ref())
    }

    /// Returns whether this is the task that is given by reference. It copies no places.
    ///
    /// ```rust
    /// // `task` as in the example of `Task`
    /// assert!(task.is_of(&task.by_ref()));
    /// assert!(!Task::blank().is_of(&task.by_ref()));
    /// ```
    // Inlined, so that lengths and species are compared in registers. Read back from the stack, 16 bytes at once, they wait for
    // all stores before them.
    #[inline(always)]
    pub fn is_of(&self, task: &TaskRef<'_>) -> bool
        ensures { IsTrue result ↔ (self.now ≡ task.now) }
    {
        let (first, second) = (self.first(), self.second());
        let fits = first.fits(&task.first) & second.fits(&task.second);
        fits && self.name.is_of(&task.name)
            && self.mix.is(task.mix)
            && first.has_places(task.first.places)
            && second.has_places(task.second.places)
    }
}

impl fmt::Debug for Task {
    fn fmt<W: fmt::Write>(&self, f: &mut fmt::Formatter<W>) -> fmt::Result {
        let (first, second) = self.blocks();
        f.debug_struct("Task")
            .field("name", &self.name)
            .field("mix", &self.mix)
            .field("first", &first)
            .field("second", &second)
            .finish()
    }
}

impl PartialEq for Task {
    ghost use Rattle.lj_task.specs.SameTasks.{is_same_task, same_task_partial_equiv};

    ghost eq = { is_same_task };

    ghost laws = { same_task_partial_equiv };

    fn eq(&self, other: &Task) -> bool {
        self.name == other.name && self.mix == other.mix && self.blocks() == other.blocks()
    }
}

impl Eq for Task {
    ghost use Rattle.lj_task.specs.SameTasks.{same_task_equiv};

    ghost laws = { same_task_equiv };
}

/// A task by reference: to its label, its mixture and the places of its blocks, which may lie in a frame. So a task is
/// written from its frame to where it is needed, and nowhere else. If it shares the frame, no place is copied.
#[derive(Drop)]
pub struct TaskRef<'a> {
    name: TaskNameRef<'a>,
    mix: &'a Mix,
    first: BlockRef<'a>,
    second: BlockRef<'a>,
    frame: Option<&'a SharedFrame>,
}

impl<'a> Model for TaskRef<'a> {
    ghost use Rattle.std.specs.Prelude.{option_copied};
    ghost use Rattle.lj_task.specs.Task.{Task};
    ghost use Rattle.lj_task.specs.Frames.{IsByRef};

    ghost Value = { Task };

    ghost view = { λ t. record { name = t.name; mix = t.mix.now; a = t.first; b = t.second } };

    ghost invariant = { λ t. IsByRef (option_copied t.frame) (record { name = t.name; mix = t.mix.now; a = t.first; b = t.second }) };
}

impl<'a> TaskRef<'a> {
    /// Returns the task of this name over two blocks, which are the same if the name has one index twice.
    ///
    /// ```rust
    /// // `task`, `mix` and `places` as in the example of `Task`
    /// let (first, second) = (BlockRef::new(&places, 0), BlockRef::new(&places, 0));
    /// let other = TaskRef::new(task.name().by_ref(), &mix, first, second);
    /// assert!(task.is_of(&other));
    /// ```
    #[inline]
    pub fn new(name: TaskNameRef<'a>, mix: &'a Mix, a: BlockRef<'a>, b: BlockRef<'a>) -> TaskRef<'a>
        requires some_first { 1 ≤ length a.places }
        requires some_second { 1 ≤ length b.places }
        requires most_first { length a.places ≤ BLOCK }
        requires most_second { length b.places ≤ BLOCK }
        requires first_index { name.bi < MAX_BLOCKS }
        requires second_index { name.bj < MAX_BLOCKS }
        requires diagonal { name.bi ≡ name.bj → a ≡ b }
        requires in_order { name.bi ≤ name.bj }
        ensures { result ≡ record { name = name.entry; mix = mix.now; a = a.entry; b = b.entry } }
    {
        TaskRef {
            name,
            mix,
            first: a,
            second: b,
            frame: None,
        }
    }

    /// Returns the task as one that shares the frame in which its blocks lie: its copies share the frame too, and copy no places.
    ///
    /// ```rust
    /// // `task`, `places`, `mix` and `name` as in the example of `Task`
    /// let mut frame = SharedFrame::new(alloc, 2)?;
    /// assert!(frame.overwrite(&places));
    /// let (first, second) = (BlockRef::new(frame.places(), 0), BlockRef::new(frame.places(), 0));
    /// let shared = TaskRef::new(name.by_ref(), &mix, first, second).sharing(&frame);
    /// assert!(task.is_of(&shared));
    /// assert!(shared.to_task().is(&task));
    /// ```
    #[inline]
    pub fn sharing(self, frame: &'a SharedFrame) -> TaskRef<'a>
        requires { IsIn frame.now self }
        ensures { result ≡ self.entry }
    {
        let TaskRef {
            name,
            mix,
            first,
            second,
            ..
        } = self;
        TaskRef {
            name,
            mix,
            first,
            second,
            frame: Some(frame),
        }
    }

    /// Returns its blocks as those of one more task that shares their frame, if they lie in one.
    #[inline]
    fn shared_blocks(&self) -> Option<SharedBlocks>
        ensures { IfSome result (λ shared. AreBlocksOf shared self.now) }
    {
        let frame = self.frame?.share()?;
        Some(SharedBlocks {
            frame,
            first_species: self.first.species_bits,
            second_species: self.second.species_bits,
        })
    }

    /// Returns whether both blocks are the same.
    ///
    /// ```rust
    /// // `task` as in the example of `Task`
    /// assert!(task.by_ref().has_one_block());
    /// ```
    #[inline]
    pub fn has_one_block(&self) -> bool
        ensures value { IsTrue result ↔ (self.now.name.bi ≡ self.now.name.bj) }
        ensures sound { IsTask self.now }
    {
        self.name.bi == self.name.bj
    }

    /// Returns the mixture of its simulation.
    ///
    /// ```rust
    /// // `task` and `mix` as in the example of `Task`
    /// assert!(task.by_ref().mix().is(&mix));
    /// ```
    #[inline]
    pub fn mix(&self) -> &'a Mix
        ensures { result.now ≡ self.now.mix }
    {
        self.mix
    }

    /// Returns the first block, by reference to its places.
    ///
    /// ```rust
    /// // `task` as in the example of `Task`
    /// assert_eq!(task.by_ref().first().places()[1].x, 25_165_824);
    /// ```
    #[inline]
    pub fn first(&self) -> &BlockRef<'a>
        ensures value { result.now ≡ self.now.a }
        ensures sound { IsTask self.now }
    {
        &self.first
    }

    /// Returns the second block, by reference to its places.
    ///
    /// ```rust
    /// // `task` with the two atoms of the example of `Task`, the first as block 1 and the second as block 3
    /// assert_eq!(task.by_ref().second().places()[0].x, 25_165_824);
    /// ```
    #[inline]
    pub fn second(&self) -> &BlockRef<'a>
        ensures value { result.now ≡ self.now.b }
        ensures sound { IsTask self.now }
    {
        &self.second
    }

    /// Returns a copy of the task.
    ///
    /// ```rust
    /// // `task` as in the example of `Task`
    /// assert!(task.by_ref().to_task().is(&task));
    /// ```
    pub fn to_task(&self) -> Task
        ensures { result ≡ self.now }
    {
        let mut task = Task::blank();
        task.remake(self);
        task
    }
}
