//! A pool without threads: the caller who posts a task computes it.
ghost use Rattle.std.specs.Prelude.{◌≡◌, ◌≤◌, ◌↔◌, Some, None, true, false};
ghost use Rattle.std.specs.Prelude.{IsOk, IsSome, IfErr, OnOk, OnErr};
ghost use Rattle.lj_end.specs.Seen.{one_more};
ghost use Rattle.lj_end.specs.InlinePool.{empty_pool, seen_of};
ghost use Rattle.lj_end.specs.declared.pool.NotPosted.TheVariants.{Full};

use crate::pool::{NotPosted, PoolEnd};
use lj_table::Table;
use lj_task::{Done, DoneRef, TaskRef};
use lj_tile::compute_into;
use std::convert::Infallible;
use std::marker::Model;

/// A pool that computes each task as it is posted, in its one slot. It allocates no memory.
///
/// Promise: an `InlinePool` satisfies all clauses of `PoolEnd`, and is never closed.
#[derive(Drop)]
pub struct InlinePool {
    table: Table,
    slot: Done,
    /// Whether the result in the slot is still owed.
    is_owed: bool,
    /// Whether it was taken, and is not counted yet.
    is_taken: bool,
    expected: u64,
}

impl Model for InlinePool {
    ghost use Rattle.std.specs.Prelude.{◌≡◌, Some, None, true, if◌then◌else◌};
    ghost use Rattle.lj_end.specs.InlinePool.{InlinePool};

    ghost Value = { InlinePool };

    ghost view = { λ pool. record {
      owed = if pool.is_owed then Some pool.slot else None;
      taken = pool.is_taken;
      expected = pool.expected;
      last = pool.slot;
    } };

    ghost invariant = { λ pool. pool.is_taken ≡ true → pool.is_owed ≡ true };
}

impl InlinePool {
    /// Returns a pool that owes no result.
    pub fn new(table: Table) -> InlinePool
        ensures { result ≡ empty_pool }
    {
        InlinePool {
            table,
            slot: Done::blank(),
            is_owed: false,
            is_taken: false,
            expected: 0,
        }
    }
}

impl PoolEnd for InlinePool {
    type Closed = Infallible;

    ghost seen = { seen_of };

    ghost last = { λ pool. pool.last };

    ghost uncounted = { λ pool. pool.taken };

    ghost for_others = { λ _ _. 0 };

    ghost most = { 1 };

    ghost takes_all = { true };

    fn post_from(&mut self, task: &TaskRef<'_>, _wait: bool) -> Result<(), NotPosted<Infallible>>
        ensures free { IsOk result ↔ (self.old.owed ≡ None) }
        ensures posted { OnOk result (self.new ≡ record self.old { owed = Some task.now; last = task.now }) }
        ensures full { IfErr result (λ why. why ≡ Full) }
        ensures unchanged { OnErr result (self.new ≡ self.old) }
        ensures shown { self.old.taken ≡ true → self.new.last ≡ self.old.last }
    {
        if self.is_owed {
            return Err(NotPosted::Full);
        }
        compute_into(task, &self.table, &mut self.slot);
        self.is_owed = true;
        Ok(())
    }

    fn fetch_uncounted(&mut self, _user: u8) -> Result<(), Infallible>
        requires { IsSome self.old.owed }
        ensures some { IsOk result }
        ensures owed { self.old.owed ≡ Some self.new.last }
        ensures taken { self.new ≡ record self.old { taken = true } }
    {
        self.is_taken = true;
        Ok(())
    }

    fn poll_uncounted(&mut self, _user: u8) -> bool
        ensures some { result ≡ true ↔ IsSome self.old.owed }
        ensures owed { result ≡ true → self.old.owed ≡ Some self.new.last }
        ensures taken { self.new ≡ record self.old { taken = result } }
        ensures none_taken { result ≡ false → self.old.taken ≡ false }
    {
        self.is_taken = self.is_owed;
        self.is_taken
    }

    fn count(&mut self, _by_name: bool)
        requires { self.old.taken ≡ true }
        ensures owed { self.old.owed ≡ Some self.old.last }
        ensures taken_off { self.new ≡ record self.old { owed = None; taken = false; expected = one_more self.old.expected } }
    {
        self.is_owed = false;
        self.is_taken = false;
        self.expected = self.expected.saturating_add(1);
    }

    fn fetched(&self) -> DoneRef<'_> {
        self.slot.by_ref()
    }

    fn owed(&self) -> usize {
        usize::from(self.is_owed)
    }

    fn room(&self) -> usize
        ensures none { result ≡ 0 ↔ IsSome self.now.owed }
        ensures most { result ≤ 1 }
    {
        usize::from(!self.is_owed)
    }

    fn is_closed(&self) -> bool
        ensures { result ≡ false }
    {
        false
    }
}
