//! Names of tasks.
ghost use Rattle.std.specs.Prelude.{◌≡◌, ◌↔◌, IsTrue, pos};
ghost use Rattle.lj_task.specs.Blank.{blank_task};

use lj_base::{Label, Name};
use std::marker::Model;

/// The kind of sum that a task computes: of pushes or of energies.
#[derive(Clone, Copy, PartialEq, Eq, Debug)]
pub enum Kind {
    Force,
    Energy,
}

/// The name of a task: the step that it is part of, and its two blocks of atoms.
///
/// ```rust
/// // the force task of block 0 with itself, in step 0 of session `a` of user 0
/// let label = Label { user: 0, session: Name::parse(b"a").unwrap() };
/// let name = TaskName { label, step: 0, kind: Kind::Force, bi: 0, bj: 0 };
/// ```
#[derive(PartialEq, Eq, Debug, Drop)]
pub struct TaskName {
    pub label: Label,
    pub step: i64,
    pub kind: Kind,
    pub bi: u8,
    pub bj: u8,
}

impl TaskName {
    /// Returns the name of an energy task of block 0 with itself.
    pub(crate) fn blank() -> TaskName
        ensures { result ≡ blank_task.name }
    {
        TaskName {
            label: Label {
                user: 0,
                session: Name::blank(),
            },
            step: 0,
            kind: Kind::Energy,
            bi: 0,
            bj: 0,
        }
    }

    /// Returns an equal name.
    ///
    /// ```rust
    /// // `name` as in the example of `TaskName`
    /// assert!(name.copy().is(&name));
    /// ```
    pub fn copy(&self) -> TaskName
        ensures { result ≡ self.now }
    {
        TaskName {
            label: self.label.copy(),
            step: self.step,
            kind: self.kind,
            bi: self.bi,
            bj: self.bj,
        }
    }

    /// Returns the name by reference.
    ///
    /// ```rust
    /// // `task`, `mix` and `places` as in the example of `Task`
    /// assert!(task.is_of(&TaskRef::new(task.name().by_ref(), &mix, BlockRef::new(&places, 0), BlockRef::new(&places, 0))));
    /// ```
    #[inline]
    pub fn by_ref(&self) -> TaskNameRef<'_>
        ensures { result ≡ self.now }
    {
        TaskNameRef::new(&self.label, self.step, self.kind, self.bi, self.bj)
    }

    /// Makes this the name that is given by reference.
    pub(crate) fn remake(&mut self, name: &TaskNameRef<'_>)
        ensures { self.new ≡ name.now }
    {
        self.label.copy_from(name.label);
        self.step = name.step;
        self.kind = name.kind;
        self.bi = name.bi;
        self.bj = name.bj;
    }

    /// Makes this the name of another task: of step 0, over the blocks 0 and 1.
    pub(crate) fn rename(&mut self)
        ensures { self.new ≡ record self.old { step = pos 0; bi = 0; bj = 1 } }
    {
        self.step = 0;
        self.bi = 0;
        self.bj = 1;
    }

    /// Returns whether the other name is equal. It compares first the blocks, in which the tasks of a step differ.
    ///
    /// ```rust
    /// // `name` as in the example of `TaskName`; `later` is equal but for its step, 7
    /// assert!(name.is(&name.copy()));
    /// assert!(!name.is(&later));
    /// ```
    pub fn is(&self, other: &TaskName) -> bool
        ensures { IsTrue result ↔ (self.now ≡ other.now) }
    {
        self.is_of(&other.by_ref())
    }

    /// Returns whether this is the name that is given by reference.
    pub(crate) fn is_of(&self, name: &TaskNameRef<'_>) -> bool
        ensures { IsTrue result ↔ (self.now ≡ name.now) }
    {
        self.bj == name.bj
            && self.bi == name.bi
            && self.step == name.step
            && self.kind == name.kind
            && self.label == *name.label
    }
}

/// The name of a task with its label by reference, so that no label is copied where a task is written or compared.
#[derive(Drop)]
pub struct TaskNameRef<'a> {
    label: &'a Label,
    step: i64,
    kind: Kind,
    pub(crate) bi: u8,
    pub(crate) bj: u8,
}

impl<'a> Model for TaskNameRef<'a> {
    ghost use Rattle.lj_task.specs.declared.task_name.TaskName.{TaskName};

    ghost Value = { TaskName };

    ghost view = { λ n. record { label = n.label.now; step = n.step; kind = n.kind; bi = n.bi; bj = n.bj } };
}

impl<'a> TaskNameRef<'a> {
    /// Returns the name of a task of this session, step and kind over two blocks.
    ///
    /// ```rust
    /// // `task`, `mix` and `places` as in the example of `Task`, `label` as in that of `TaskName`
    /// let name = TaskNameRef::new(&label, 0, Kind::Force, 0, 0);
    /// assert!(task.is_of(&TaskRef::new(name, &mix, BlockRef::new(&places, 0), BlockRef::new(&places, 0))));
    /// ```
    #[inline]
    pub fn new(label: &'a Label, step: i64, kind: Kind, bi: u8, bj: u8) -> TaskNameRef<'a>
        ensures { result ≡ record { label = label.now; step = step; kind = kind; bi = bi; bj = bj } }
    {
        TaskNameRef {
            label,
            step,
            kind,
            bi,
            bj,
        }
    }
}
