//! The tasks that an end of a pool has in flight, and the results that it has counted.
ghost use Rattle.std.specs.Prelude.{◌≡◌, ◌<◌, ◌≤◌, ◌+◌, ◌-◌, ◌↔◌, ℕ, Some, cond, length, nat_lt, option_copied, take, slice_get, slice_index_or, true, false, IfErr, IfSome, IfNone, IsTrue, OnErr, OnOk};
ghost use Rattle.std.specs.Fn.{FnReturnsAt};
ghost use Rattle.std.specs.List.{remove};
ghost use Rattle.lj_end.specs.declared.pool.NotPosted.TheVariants.{Full};
ghost use Rattle.lj_end.specs.Seen.{ArePosted, IsHandedOut, IsPosted, SameOwed, StaysClosed, nothing_seen, one_more};
ghost use Rattle.lj_end.specs.RefusedPosts.{IsPoolClosed};
ghost use Rattle.lj_end.specs.Accounts.{occurrences};
ghost use Rattle.lj_end.specs.Accounts.{AnswersOf, IsFirst, IsKnownByName, IsNowhere};
ghost use Rattle.lj_step.specs.OpenSteps.{tile_number_of};
ghost use Rattle.lj_task.specs.Blank.{blank_task};

use crate::pool::{MAX_OWED, NotPosted};
use crate::task_list::TaskList;
use arrayvec::ArrayVec;
use lj_task::{BLOCK, Task, TaskRef};
use std::array;
use std::marker::Model;

/// Copies of the tasks that are owed to an end, its counts of results, and the token of its pool's close, once it has one. It
/// allocates no memory.
#[derive(Drop)]
pub struct Account<C> {
    tasks: [Option<Task>; MAX_OWED],
    places: ArrayVec<u8, MAX_OWED>,
    /// The tile numbers of the tasks that are owed, in their order, so that a search reads the names of few tasks.
    tiles: ArrayVec<u16, MAX_OWED>,
    owed: usize,
    expected: u64,
    strays: u64,
    closed: Option<C>,
}

impl<C> Model for Account<C> {
    ghost use Rattle.std.specs.Prelude.{◌≡◌, is_some, map, take};
    ghost use Rattle.lj_end.specs.Seen.{Seen};
    ghost use Rattle.lj_end.specs.Accounts.{IsKeptAccount, tasks_owed};
    ghost use Rattle.lj_step.specs.OpenSteps.{tile_number_of};

    ghost Value = { Seen };

    ghost view = { λ a. record {
      owed = tasks_owed a.tasks (take a.owed a.places.items);
      expected = a.expected;
      strays = a.strays;
      closed = is_some a.closed;
    } };

    ghost invariant = { λ a. IsKeptAccount a.tasks a.places.items a.owed
        × (a.tiles.items ≡ map tile_number_of (tasks_owed a.tasks (take a.owed a.places.items))) };
}

impl<C: Drop> Account<C> {
    /// Returns an account to which nothing is owed and in which nothing is counted.
    pub fn new() -> Account<C>
        ensures { result ≡ nothing_seen }
    {
        Account {
            tasks: array::from_fn(|_| None),
            places: all_places(),
            tiles: ArrayVec::new(),
            owed: 0,
            expected: 0,
            strays: 0,
            closed: None,
        }
    }

    /// Records that a task was posted.
    fn post(&mut self, task: &TaskRef<'_>)
        requires { length self.old.owed < MAX_OWED }
        ensures posted { IsPosted task.now self.old self.new }
        ensures closed { self.new.closed ≡ self.old.closed }
    {
        let place = usize::from(self.places[self.owed]);
        let tile = keep(&mut self.tasks[place], task);
        self.tiles.push(tile);
        self.owed += 1;
    }

    /// Records that a task was posted, or why it was not.
    pub fn note_post(&mut self, task: &TaskRef<'_>, posted: Result<(), NotPosted<C>>)
        requires { length self.old.owed < MAX_OWED }
        ensures posted { OnOk posted (IsPosted task.now self.old self.new) }
        ensures unchanged { OnErr posted (SameOwed self.old self.new) }
        ensures full { IfErr posted (λ why. why ≡ Full → self.new ≡ self.old) }
        ensures closed { IfErr posted (λ why. IsPoolClosed why → self.new.closed ≡ true) }
        ensures stays_closed { StaysClosed self.old self.new }
    {
        match posted {
            Ok(()) => self.post(task),
            Err(NotPosted::Full) => {}
            Err(NotPosted::Closed(closed)) => self.close(closed),
        }
    }

    /// Records that the first `posted` of these tasks were posted.
    pub fn note_posts(&mut self, tasks: &TaskList<'_>, posted: usize)
        requires most { posted ≤ length tasks.now }
        requires room { length self.old.owed + length tasks.now ≤ MAX_OWED }
        ensures posted { ArePosted (take posted tasks.now) self.old self.new }
        ensures closed { self.new.closed ≡ self.old.closed }
    {
        for here in 0..posted {
            self.post(tasks.at(here));
        }
    }

    /// Counts a result of this task. A task that was owed is owed no more. With `by_name` it is found by its name alone.
    pub fn count(&mut self, task: &Task, by_name: bool)
        requires { by_name ≡ true → IsKnownByName self.old.owed task.now }
        ensures handed_out { IsHandedOut task.now self.old self.new }
        ensures closed { self.new.closed ≡ self.old.closed }
    {
        if by_name {
            self.count_by_name(task);
        } else {
            self.count_by_task(task);
        }
    }

    /// Counts a result of this task, which is compared with those that are owed.
    fn count_by_task(&mut self, task: &Task)
        ensures handed_out { IsHandedOut task.now self.old self.new }
        ensures closed { self.new.closed ≡ self.old.closed }
    {
        match self.find(tile_number_of(task), |owed| owed.is(task)) {
            Some(here) => self.count_owed(here),
            None => self.count_stray(),
        }
    }

    /// Counts a result of this task, which is found by its name alone.
    fn count_by_name(&mut self, task: &Task)
        requires { IsKnownByName self.old.owed task.now }
        ensures handed_out { IsHandedOut task.now self.old self.new }
        ensures closed { self.new.closed ≡ self.old.closed }
    {
        match self.find(tile_number_of(task), |owed| owed.name().is(task.name())) {
            Some(here) => self.count_owed(here),
            None => self.count_stray(),
        }
    }

    /// Counts a result of the task at this position, which is owed no more.
    fn count_owed(&mut self, here: usize)
        requires { here < length self.old.owed }
        ensures owed { self.new.owed ≡ remove self.old.owed here }
        ensures expected { self.new.expected ≡ one_more self.old.expected }
        ensures strays { self.new.strays ≡ self.old.strays }
        ensures closed { self.new.closed ≡ self.old.closed }
    {
        self.take_off(here);
        self.take_last_frame();
        self.expected = self.expected.saturating_add(1);
    }

    /// Counts a stray.
    fn count_stray(&mut self)
        ensures owed { self.new.owed ≡ self.old.owed }
        ensures expected { self.new.expected ≡ self.old.expected }
        ensures strays { self.new.strays ≡ one_more self.old.strays }
        ensures closed { self.new.closed ≡ self.old.closed }
    {
        self.strays = self.strays.saturating_add(1);
    }

    /// Records that the pool is closed.
    pub fn close(&mut self, closed: C)
        ensures same { SameOwed self.old self.new }
        ensures closed { self.new.closed ≡ true }
    {
        self.closed = Some(closed);
    }

    /// Returns the number of tasks that are owed.
    pub fn owed(&self) -> usize
        ensures value { result ≡ length self.now.owed }
        ensures most { result ≤ MAX_OWED }
    {
        self.owed
    }

    /// Returns how many more tasks can be owed.
    pub fn room(&self) -> usize
        ensures { length self.now.owed + result ≡ MAX_OWED }
    {
        MAX_OWED - self.owed
    }

    /// Returns whether the pool was seen closed.
    pub fn is_closed(&self) -> bool
        ensures { result ≡ self.now.closed }
    {
        self.closed.is_some()
    }

    /// Finds the first task of this tile number for which `is_wanted` is true.
    fn find<F: Fn(&Task) -> bool>(&self, tile: u16, is_wanted: F) -> Option<usize>
        requires { F.IsAlwaysCallable is_wanted }
        ensures some { IfSome result (IsFirst (AnswersOf tile (FnReturnsAt F.Fn is_wanted)) self.now.owed) }
        ensures none { IfNone result (IsNowhere (AnswersOf tile (FnReturnsAt F.Fn is_wanted)) self.now.owed) }
    {
        for here in 0..self.owed() {
            if self.tile_at(here) != tile {
                continue;
            }
            if let Some(owed) = self.at(here) {
                if is_wanted(owed) {
                    return Some(here);
                }
            }
        }
        None
    }

    /// Returns the tile number of the task at this position.
    fn tile_at(&self, here: usize) -> u16
        requires { here < length self.now.owed }
        ensures { result ≡ tile_number_of (slice_index_or self.now.owed here blank_task) }
    {
        self.tiles[here]
    }

    /// Returns the task at this position.
    fn at(&self, here: usize) -> Option<&Task>
        requires { here < length self.now.owed }
        ensures { option_copied result ≡ slice_get self.now.owed here }
    {
        let place = usize::from(self.places[here]);
        self.tasks[place].as_ref()
    }

    /// Removes the task at this position.
    fn take_off(&mut self, here: usize)
        requires { here < length self.old.owed }
        ensures owed { self.new.owed ≡ remove self.old.owed here }
        ensures room { length self.new.owed < MAX_OWED }
        ensures expected { self.new.expected ≡ self.old.expected }
        ensures strays { self.new.strays ≡ self.old.strays }
        ensures closed { self.new.closed ≡ self.old.closed }
    {
        let place = self.places.remove(here);
        self.places.push(place);
        self.tiles.remove(here);
        self.owed -= 1;
    }

    /// Takes the frame that the task in the last place shares. It is owed no more.
    fn take_last_frame(&mut self)
        requires { length self.old.owed < MAX_OWED }
        ensures { self.new ≡ self.old }
    {
        let place = usize::from(self.places[MAX_OWED - 1]);
        take_frame(&mut self.tasks[place]);
    }
}

/// Takes the frame that a task shares, which is owed no more.
fn take_frame(kept: &mut Option<Task>) {
    if let Some(older) = kept {
        drop(older.take_frame());
    }
}

/// Stores a copy of the task, in place of an older one if there is one. Returns its tile number.
fn keep(kept: &mut Option<Task>, task: &TaskRef<'_>) -> u16
    ensures kept { kept.new ≡ Some task.now }
    ensures tile { result ≡ tile_number_of task.now }
{
    match kept {
        Some(older) => {
            older.remake(task);
            tile_number_of(older)
        }
        None => {
            let copy = task.to_task();
            let tile = tile_number_of(&copy);
            *kept = Some(copy);
            tile
        }
    }
}

/// Returns the tile number of the task.
fn tile_number_of(task: &Task) -> u16
    ensures { result ≡ tile_number_of task.now }
{
    let name = task.name();
    BLOCK as u16 * u16::from(name.bi) + u16::from(name.bj)
}

/// Returns all places, each once.
fn all_places() -> ArrayVec<u8, MAX_OWED>
    ensures once { (place : ℕ) → occurrences place result.items ≡ cond (nat_lt place MAX_OWED) 1 0 }
    ensures all { length result.items ≡ MAX_OWED }
{
    let mut places = ArrayVec::new();
    for place in 0..MAX_OWED as u8 {
        places.push(place);
    }
    places
}
