//! The boxes of an end of a pool behind a lock.
ghost use Rattle.std.specs.Prelude.{◌≡◌, ◌≢◌, ◌+◌, ◌<◌, ◌≤◌, ◌↔◌, ◌∷◌, [], ◌++◌, ℕ, Some, cond, count_by, is_some, length, nat_lt, slice_index_or, true, false, unwrap_or, IsTrue, IfNone, IfSome, OnSome};
ghost use Rattle.std.specs.List.{All};
ghost use Rattle.lj_book.specs.Book.{user_of_task};
ghost use Rattle.lj_task.specs.Blank.{blank_task};
ghost use Rattle.lj_lock.specs.EndBoxes.{HandsOut, IsFirstOf, end_box_count, no_boxes};
ghost use Rattle.lj_lock.specs.Copies.{AreCopies};

use arrayvec::ArrayVec;
use lj_book::{DoneBox, TaskBox};
use lj_end::{MAX_POSTS, TaskList};
use lj_task::{Done, DoneRef, SharedFrame, TaskRef};
use std::marker::Model;
use std::mem;

/// Maximum number of results that one end of a pool has fetched and not handed out yet.
pub const MAX_IN_HAND: usize = 16;

/// Maximum number of boxes ready at one end of a pool: results not handed out yet, and spare boxes.
pub const MAX_SPARE: usize = MAX_IN_HAND + 1;

/// Maximum number of boxes at one end of a pool: ready boxes plus the last result handed out.
pub const MAX_END_BOXES: usize = MAX_SPARE + 1;

/// Copies of tasks that are to be posted, in their boxes. The place of a box that was posted is empty.
pub(crate) type TaskCopies = ArrayVec<Option<TaskBox>, MAX_POSTS>;

/// The result that an end handed out last, those in hand, and spare boxes for tasks. It takes no memory, and is let go once no box
/// is in it.
pub(crate) struct EndBoxes {
    last: Option<DoneBox>,
    hand: ArrayVec<Option<DoneBox>, MAX_IN_HAND>,
    spare: ArrayVec<Option<TaskBox>, MAX_SPARE>,
    /// Whether the last fetch took all results that the pool had, so that the next poll need not ask it.
    took_all: bool,
    /// The frame that the task handed out before the last one shared, dropped with the next.
    older_frame: Option<SharedFrame>,
}

impl Model for EndBoxes {
    ghost use Rattle.std.specs.Prelude.{length, map};
    ghost use Rattle.lj_lock.specs.EndBoxes.{ArePlaced, EndBoxes, result_in};

    ghost Value = { EndBoxes };

    ghost view = { λ b. record {
      last = b.last;
      hand = map result_in b.hand.items;
      spare = length b.spare.items;
      took_all = b.took_all;
    } };

    ghost invariant = { λ b. ArePlaced b.hand.items b.spare.items };
}

impl EndBoxes {
    /// Makes it without boxes.
    pub(crate) fn new() -> EndBoxes
        ensures { result ≡ no_boxes }
    {
        EndBoxes {
            last: None,
            hand: ArrayVec::new(),
            spare: ArrayVec::new(),
            took_all: false,
            older_frame: None,
        }
    }

    /// Returns the result handed out last; a blank one where there is none.
    pub(crate) fn last_or<'a>(&'a self, blank: &'a Done) -> DoneRef<'a>
        ensures { result ≡ unwrap_or self.now.last blank.now }
    {
        match &self.last {
            Some(last) => last.done(),
            None => blank.by_ref(),
        }
    }

    /// Returns the number of results in hand, at most 16.
    pub(crate) fn in_hand(&self) -> usize
        ensures value { result ≡ length self.now.hand }
        ensures most { result ≤ MAX_IN_HAND }
    {
        self.hand.len()
    }

    /// Notes a fetch: it took all results that the pool had if there is room for more. Returns whether it did.
    pub(crate) fn note_fetch(&mut self) -> bool
        ensures noted { self.new ≡ record self.old { took_all = nat_lt (length self.old.hand) MAX_IN_HAND } }
        ensures value { result ≡ self.new.took_all }
    {
        self.took_all = !self.hand.is_full();
        self.took_all
    }

    /// Notes a post: the next poll asks the pool, and wakes workers for the task.
    pub(crate) fn note_post(&mut self)
        ensures { self.new ≡ record self.old { took_all = false } }
    {
        self.took_all = false;
    }

    /// Returns whether the last fetch took all results that the pool had, once after each fetch, and not after a post.
    pub(crate) fn forget_fetch(&mut self) -> bool
        ensures value { result ≡ self.old.took_all }
        ensures forgotten { self.new ≡ record self.old { took_all = false } }
    {
        mem::take(&mut self.took_all)
    }

    /// Returns whether a box is spare.
    pub(crate) fn has_spare(&self) -> bool
        ensures { IsTrue result ↔ (0 < self.now.spare) }
    {
        !self.spare.is_empty()
    }

    /// Takes a spare box, if there is one.
    pub(crate) fn pop_spare(&mut self) -> Option<TaskBox>
        ensures some { OnSome result (self.old ≡ record self.new { spare = self.new.spare + 1 }) }
        ensures place { OnSome result (length self.new.hand + self.new.spare < MAX_SPARE) }
        ensures few { length self.old.hand ≤ MAX_IN_HAND }
        ensures none { IfNone result (self.old.spare ≡ 0) }
        ensures unchanged { IfNone result (self.new ≡ self.old) }
    {
        self.spare.pop().flatten()
    }

    /// Takes a spare box, if there is one, and copies a task into it.
    pub(crate) fn copy_of(&mut self, task: &TaskRef<'_>) -> Option<TaskBox>
        ensures copy { IfSome result (λ boxed. boxed ≡ task.now) }
        ensures some { OnSome result (self.old ≡ record self.new { spare = self.new.spare + 1 }) }
        ensures place { OnSome result (length self.new.hand + self.new.spare < MAX_SPARE) }
        ensures none { IfNone result (self.old.spare ≡ 0) }
        ensures unchanged { IfNone result (self.new ≡ self.old) }
    {
        let mut boxed = self.pop_spare()?;
        boxed.remake(task);
        Some(boxed)
    }

    /// Takes spare boxes, as far as there are some, and copies tasks into them.
    #[tactic(auto, using(crate::proofs::CopyLemmas::are_copies))]
    pub(crate) fn copies_of(&mut self, tasks: &TaskList<'_>) -> TaskCopies
        ensures copies { AreCopies result.items tasks.now }
        ensures boxes { (k : ℕ) → k < length result.items → is_some (slice_index_or result.items k None) ≡ true }
        ensures most { length result.items ≤ length tasks.now }
        ensures taken { self.old ≡ record self.new { spare = self.new.spare + length result.items } }
        ensures places { length self.new.hand + self.new.spare + length result.items ≤ MAX_SPARE }
    {
        self.are_placed();
        let mut copies = ArrayVec::new();
        for here in 0..tasks.len() {
            let Some(copy) = self.copy_of(tasks.at(here)) else {
                return copies;
            };
            copies.push(Some(copy));
        }
        copies
    }

    /// Keeps the boxes of the copies that were not posted.
    pub(crate) fn take_back(&mut self, copies: TaskCopies)
        requires { length self.old.hand + self.old.spare + length copies.items ≤ MAX_SPARE }
        ensures { self.new ≡ record self.old { spare = self.old.spare + count_by is_some copies.items } }
    {
        let mut left = copies;
        while let Some(place) = left.pop() {
            if let Some(handed_back) = place {
                self.push_spare(handed_back);
            }
        }
    }

    /// Keeps a box whose task was not posted.
    pub(crate) fn push_spare(&mut self, spare: TaskBox)
        requires { length self.old.hand + self.old.spare < MAX_SPARE }
        ensures { self.new ≡ record self.old { spare = self.old.spare + 1 } }
    {
        self.spare.push(Some(spare.released()));
    }

    /// Takes a result in hand, behind the others.
    pub(crate) fn push(&mut self, done: DoneBox)
        requires room { length self.old.hand < MAX_IN_HAND }
        requires place { length self.old.hand + self.old.spare < MAX_SPARE }
        ensures { self.new ≡ record self.old { hand = self.old.hand ++ done ∷ [] } }
    {
        self.hand.push(Some(done));
    }

    /// Hands out a result. The box of the one before it becomes spare.
    pub(crate) fn show(&mut self, done: DoneBox)
        requires { length self.old.hand + self.old.spare < MAX_SPARE }
        ensures { self.new
            ≡ record self.old { last = Some done; spare = self.old.spare + cond (is_some self.old.last) 1 0 } }
    {
        self.older_frame = None;
        if let Some(older) = self.last.replace(done) {
            let (spare, frame) = older.into_parts();
            self.older_frame = frame;
            self.spare.push(Some(spare));
        }
    }

    /// Hands out the first result of a user in hand. Returns false where there is none.
    pub(crate) fn hand_out(&mut self, user: u8) -> bool
        ensures some { result ≡ true → HandsOut user self.old self.new }
        ensures none { result ≡ false → All (λ done. user_of_task done ≢ user) self.old.hand }
        ensures unchanged { result ≡ false → self.new ≡ self.old }
    {
        let Some(here) = self.find(user) else {
            return false;
        };
        let done = self.hand.remove(here).unwrap();
        self.show(done);
        true
    }

    /// Gives up a box, if there is one.
    pub(crate) fn give_up(&mut self) -> Option<TaskBox>
        ensures some { OnSome result (end_box_count self.old ≡ end_box_count self.new + 1) }
        ensures none { IfNone result (end_box_count self.old ≡ 0) }
        ensures none_left { IfNone result (end_box_count self.new ≡ 0) }
    {
        if let Some(spare) = self.pop_spare() {
            return Some(spare);
        }
        if let Some(done) = self.hand.pop().flatten() {
            return Some(done.into_task());
        }
        let last = self.last.take()?;
        Some(last.into_task())
    }

    /// Lets go of it, with no box in it.
    pub(crate) fn let_go(self)
        requires { end_box_count self ≡ 0 }
    {
        let EndBoxes {
            last: _last,
            hand: _hand,
            spare: _spare,
            took_all: _took_all,
            older_frame: _older_frame,
        } = self;
    }

    /// Shows that there is a place for each box.
    fn are_placed(&self)
        ensures { length self.now.hand + self.now.spare ≤ MAX_SPARE }
    {
        let _hand = self.hand.len();
    }

    /// Returns the index of the first result of a user in hand.
    fn find(&self, user: u8) -> Option<usize>
        ensures some { IfSome result (IsFirstOf self.now.hand user) }
        ensures none { IfNone result (All (λ done. user_of_task done ≢ user) self.now.hand) }
    {
        for here in 0..self.in_hand() {
            if self.is_of(here, user) {
                return Some(here);
            }
        }
        None
    }

    /// Returns whether the result at this index is of this user.
    fn is_of(&self, here: usize, user: u8) -> bool
        requires { here < length self.now.hand }
        ensures { IsTrue result ↔ (user_of_task (slice_index_or self.now.hand here blank_task) ≡ user) }
    {
        match &self.hand[here] {
            Some(done) => done.done().task().name().label.user == user,
            None => false,
        }
    }
}
