//! Passes of the queue of open tasks, with counts of pushes and pops.
ghost use Rattle.std.specs.Prelude.{◌≡◌, ◌-◌, ◌^◌, ℕ, length, OnErr, OnOk, IfErr, IfNone, IfSome};
ghost use Rattle.atomic_table.specs.Seated.{TableId};
ghost use Rattle.lj_queue.specs.NoRoom.{IsCause};
ghost use Rattle.lj_queue.specs.PoolPass.{IsCounted, with_push, with_pop, pass_of};

use crate::kept_boxes::KeptBoxes;
use crate::no_room::FullCause;
use crate::open_task::OpenTask;
use crate::result_list::ResultList;
use crate::rule::{OpenTasks, Popped, Pushed, TaskPass};
use lj_book::DoneBox;
use std::alloc::{AllocError, Global};
use std::marker::{Brand, Model, PhantomData};
use std::sync::Wait;
use std::sync::ledger::Ledger;

/// The pool of a pass: the name of its queue, and the number of its passes.
pub trait PoolIdentity: Ledger {
    ghost table: { TableId };

    ghost passes: { ℕ };
}

impl PoolIdentity for Brand {
    ghost use Rattle.std.specs.Prelude.{[]};
    ghost use Rattle.lj_queue.specs.PoolPass.{no_table};

    ghost table = { no_table };

    ghost passes = { 0 };
}

/// That the queue handed a task back. Only `CountedPass::push` makes one, at a push that the queue refused.
#[derive(Clone, Copy)]
pub(crate) struct RefusedPush {
    /// The number of tasks that the pass had pushed before.
    pushed: u64,
}

/// A task that was not pushed, and why.
#[derive(Drop)]
pub(crate) struct NotPushed {
    pub(crate) ticket: OpenTask,
    pub(crate) cause: FullCause,
}

impl From<NotPushed> for OpenTask {
    ghost from_gives = { λ refused ticket. ticket ≡ refused.ticket };

    fn from(refused: NotPushed) -> OpenTask {
        refused.ticket
    }
}

/// A pass of the queue that counts what it pushes and pops, up to 2^64 - 1 tasks each.
#[derive(Drop)]
pub(crate) struct CountedPass<L: PoolIdentity> {
    pass: TaskPass,
    number: usize,
    pushed: u64,
    popped: u64,
    of: PhantomData<L>,
}

impl<L: PoolIdentity> Model for CountedPass<L> {
    ghost use Rattle.lj_queue.specs.PoolPass.{IsCounted, PoolPass, pass_of};

    ghost Value = { PoolPass };

    ghost view = { λ p. pass_of p.number p.pass };

    ghost invariant = { λ p. IsCounted L.table p.pass p.pushed p.popped };
}

impl<L: PoolIdentity> CountedPass<L> {
    /// Wraps a pass that has pushed and popped nothing.
    pub(crate) fn new(pass: TaskPass, number: usize) -> CountedPass<L>
        requires { IsCounted L.table pass 0 0 }
        ensures { result ≡ pass_of number pass }
    {
        CountedPass {
            pass,
            number,
            pushed: 0,
            popped: 0,
            of: PhantomData,
        }
    }

    /// Pushes a task.
    ///
    /// # Errors
    /// The task, where there is no room, or 2^64 - 1 were pushed.
    pub(crate) fn push<R: Wait>(
        &mut self,
        rt: &R,
        queue: &OpenTasks,
        ticket: OpenTask,
    ) -> Result<(), NotPushed>
        requires { queue.now.table.shared.table_id ≡ L.table }
        ensures pushed { OnOk result (self.new ≡ with_push self.old ticket) }
        ensures unchanged { OnErr result (self.new ≡ self.old) }
        ensures handed_back { IfErr result (λ refused. refused.ticket ≡ ticket) }
        ensures cause { IfErr result (λ refused. IsCause refused.cause 1 (length self.old.pushed)) }
    {
        if self.pushed == u64::MAX {
            return Err(NotPushed {
                ticket,
                cause: FullCause::PassSpent,
            });
        }
        let Err(ticket) = queue.push_as::<Pushed, R>(rt, &mut self.pass, ticket) else {
            self.pushed += 1;
            return Ok(());
        };
        let refused = RefusedPush {
            pushed: self.pushed,
        };
        Err(NotPushed {
            ticket,
            cause: FullCause::QueueFull(refused),
        })
    }

    /// Pops a task. None where there is none, or 2^64 - 1 were popped.
    pub(crate) fn pop<R: Wait>(&mut self, rt: &R, queue: &OpenTasks) -> Option<OpenTask>
        requires { queue.now.table.shared.table_id ≡ L.table }
        ensures popped { IfSome result (λ ticket. self.new ≡ with_pop self.old ticket) }
        ensures unchanged { IfNone result (self.new ≡ self.old) }
    {
        if self.popped == u64::MAX {
            return None;
        }
        let ticket = queue.pop_as::<Popped, R>(rt, &mut self.pass)?;
        self.popped += 1;
        Some(ticket)
    }
}

/// The boxes of one thread: that of the result it shows, those of the results in hand, and spare ones for the tasks that it posts
/// next, last in, first out.
#[derive(Drop)]
pub(crate) struct PassBoxes {
    pub(crate) last: DoneBox,
    pub(crate) hand: ResultList,
    pub(crate) spare: KeptBoxes,
}

impl PassBoxes {
    /// Makes slots without results.
    ///
    /// # Errors
    /// Out of memory.
    pub(crate) fn new(alloc: Global) -> Result<PassBoxes, AllocError> {
        Ok(PassBoxes {
            last: DoneBox::new(alloc)?,
            hand: ResultList::new(alloc, 0)?,
            spare: KeptBoxes::new(),
        })
    }
}

/// The permit by which one thread at a time pushes and pops. It counts up to 2^64 - 1 tasks each, and has slots for results.
#[derive(Drop)]
pub struct PoolPass<L: PoolIdentity> {
    counted: CountedPass<L>,
    boxes: PassBoxes,
}

impl<L: PoolIdentity> Model for PoolPass<L> {
    ghost use Rattle.lj_queue.specs.PoolPass.{PoolPass};

    ghost Value = { PoolPass };

    ghost view = { λ p. p.counted };
}

impl<L: PoolIdentity> PoolPass<L> {
    /// Makes a pass from its counts and its slots.
    pub(crate) fn new(counted: CountedPass<L>, boxes: PassBoxes) -> PoolPass<L>
        ensures { result ≡ counted }
    {
        PoolPass { counted, boxes }
    }

    /// Returns its number among the passes of its pool, from 0.
    pub fn number(&self) -> usize
        ensures { result ≡ self.now.number }
    {
        self.counted.number
    }

    /// Returns the number of tasks that it has pushed.
    pub fn pushed(&self) -> u64
        ensures { result ≡ length self.now.pushed }
    {
        self.counted.pushed
    }

    /// Returns the number of tasks that it has popped.
    pub fn popped(&self) -> u64
        ensures { result ≡ length self.now.popped }
    {
        self.counted.popped
    }

    /// Returns its counts and its slots.
    pub(crate) fn into_parts(self) -> (CountedPass<L>, PassBoxes)
        ensures { result.0 ≡ self }
    {
        (self.counted, self.boxes)
    }

    /// Returns the pass of the queue.
    pub(crate) fn into_pass(self) -> TaskPass
        ensures pass { pass_of self.number result ≡ self }
        ensures counted { IsCounted L.table result (length self.pushed) (length self.popped) }
    {
        self.counted.pass
    }
}
