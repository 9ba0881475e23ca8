//! Entries, and how one of them changes.
ghost use Rattle.std.specs.Prelude.{◌≡◌, ℕ, Bool, is_some, true, Some};
ghost use Rattle.slab.specs.Slab.{get, ContainsKey, Updates, slab_len};
ghost use Rattle.lj_book.specs.Book.{key_state_of, user_of_task, whose_by};
ghost use Rattle.lj_book.specs.Boxes.{has_box_by};

use crate::key_states::KeyState;
use crate::task_box::{DoneBox, TaskBox};
use slab::Slab;
use std::mem;

/// Maximum number of entries of a book (posted tasks that were neither fetched nor withdrawn).
pub const MAX_ENTRIES: usize = 1024;

/// An entry: open, out with what is stored meanwhile, or done with its result.
#[derive(Drop)]
pub enum BookEntry<P, K> {
    /// The task is not taken.
    Open(P),
    /// The task is taken, and its result is not given.
    Out(K),
    /// The result is given.
    Done(DoneBox),
}

impl<P, K> BookEntry<P, K> {
    /// Returns the state of a key with this entry.
    pub(crate) fn key_state(&self) -> KeyState
        ensures { result ≡ key_state_of (Some self.now) }
    {
        match self {
            BookEntry::Open(_) => KeyState::ToTake,
            BookEntry::Out(_) => KeyState::Taken,
            BookEntry::Done(done) => KeyState::ToFetch(done.done().task().name().label.user),
        }
    }
}

/// Replaces the entry under a key, and returns the old one.
pub(crate) fn put_for<P, K>(
    entries: &mut Slab<BookEntry<P, K>>,
    key: usize,
    entry: BookEntry<P, K>,
) -> BookEntry<P, K>
    requires { ContainsKey entries.old key }
    ensures was { get entries.old key ≡ Some result }
    ensures updates { Updates entries.old entries.new key (Some entry) }
    ensures len { slab_len entries.new ≡ slab_len entries.old }
    ensures capacity { entries.new.capacity ≡ entries.old.capacity }
{
    let there = entries.get_mut(key).unwrap();
    mem::replace(there, entry)
}

/// What a book stores for a task without its result.
pub(crate) trait Keeps: Drop {
    /// The user of the task.
    ghost whose: { Self → ℕ };

    /// It holds a box.
    ghost boxed: { Self → Bool };

    /// Returns the user of the task.
    fn user(&self) -> u8
        ensures { result ≡ whose self.now };

    /// Returns the box that it holds.
    fn into_box(self) -> Option<TaskBox>
        ensures { is_some result ≡ boxed self };
}

impl Keeps for TaskBox {
    ghost whose = { user_of_task };

    ghost boxed = { λ task. true };

    fn user(&self) -> u8 {
        self.task().name().label.user
    }

    fn into_box(self) -> Option<TaskBox> {
        Some(self.released())
    }
}

impl<P: Keeps, K: Keeps> BookEntry<P, K> {
    /// Returns the user of the entry.
    pub(crate) fn user(&self) -> u8
        ensures { result ≡ whose_by P.whose K.whose self.now }
    {
        match self {
            BookEntry::Open(opened) => opened.user(),
            BookEntry::Out(kept) => kept.user(),
            BookEntry::Done(done) => done.done().task().name().label.user,
        }
    }

    /// Returns the box that the entry holds.
    pub(crate) fn into_box(self) -> Option<TaskBox>
        ensures { is_some result ≡ has_box_by P.boxed K.boxed (Some self) }
    {
        match self {
            BookEntry::Open(opened) => opened.into_box(),
            BookEntry::Out(kept) => kept.into_box(),
            BookEntry::Done(done) => Some(done.into_task()),
        }
    }
}
