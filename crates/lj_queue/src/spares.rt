//! Spare boxes: those without an open task and without an awaited result.
ghost use Rattle.std.specs.Prelude.{◌≡◌};
ghost use Rattle.lj_queue.specs.ResultList.{empty_list};

use crate::kept_boxes::MAX_SPARE_BOXES;
use crate::queue_pool::{CONNECTIONS, MAX_OPEN_TASKS};
use crate::result_list::{MAX_RESULTS, ResultList};
use crossbeam_queue::ArrayQueue;
use lj_book::TaskBox;
use std::alloc::{AllocError, Global};
use std::sync::Wait;

/// Maximum number of boxes with an open task or an awaited result, if each end is withdrawn before it is finished. An end has no
/// more results in its list and in hand than it may be owed.
const FULL_BOXES: usize = MAX_OPEN_TASKS + CONNECTIONS * MAX_RESULTS;

/// Maximum number of boxes that the passes of connections keep for tasks to come.
const KEPT_BOXES: usize = CONNECTIONS * MAX_SPARE_BOXES;

/// The number of boxes added last that are taken before all others.
const WARM_BOXES: usize = 64;

/// The spare boxes of a pool. All of its boxes were made with it.
#[derive(Drop)]
pub(crate) struct Spares {
    others: ArrayQueue<TaskBox>,
    /// Those that were added last, which the processors' caches may still hold.
    warm: ArrayQueue<TaskBox>,
}

impl Spares {
    /// Makes the boxes of a pool of this many passes: those for open tasks and results, those that passes keep, and one for the
    /// task that each pass computes. Another, for the result it shows, is made with each pass. So no post is refused for want of
    /// a box.
    ///
    /// # Errors
    /// Out of memory.
    pub(crate) fn new(alloc: Global, passes: usize) -> Result<Spares, AllocError> {
        let Some(count) = passes.checked_add(FULL_BOXES + KEPT_BOXES) else {
            return Err(AllocError);
        };
        let mut others = ArrayQueue::new(alloc, count)?;
        for _ in 0..count {
            let _spare = others.push_mut(TaskBox::new(alloc)?);
        }
        Ok(Spares {
            others,
            warm: ArrayQueue::new(alloc, WARM_BOXES)?,
        })
    }

    /// Takes a spare box, one of those added last if there is one.
    pub(crate) fn take<R: Wait>(&self, rt: &R) -> Option<TaskBox> {
        match self.warm.pop(rt) {
            Some(spare) => Some(spare),
            None => self.others.pop(rt),
        }
    }

    /// Adds a box to the spare ones. There is room for it: no more boxes were made.
    pub(crate) fn put_by<R: Wait>(&self, rt: &R, spare: TaskBox) {
        if let Err(spare) = self.warm.push(rt, spare) {
            let _spare = self.others.push(rt, spare);
        }
    }

    /// Adds the box of each result of a list to the spare ones. The list is this user's from now on.
    pub(crate) fn clear<R: Wait>(&self, rt: &R, list: &mut ResultList, user: u8)
        ensures { list.new ≡ empty_list user }
    {
        while let Some(dropped) = list.take_first() {
            self.put_by(rt, dropped.into_task());
        }
        list.turn_to(user);
    }
}
