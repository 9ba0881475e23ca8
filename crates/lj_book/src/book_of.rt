//! A book over any type of open entries, and any type of what it stores while an entry is out.
ghost use Rattle.std.specs.Prelude.{◌≡◌, true, false, ◌≤◌, ◌<◌, ◌+◌, ◌-◌, ◌^◌, ◌↔◌, ℕ, List, [], Some, None, length, vec_len, IfOk, IfSome, IfNone, IsSome, IsTrue};
ghost use Rattle.std.specs.Option.{option_copied};
ghost use Rattle.std.specs.Vec.{vec_capacity};
ghost use Rattle.lj_book.specs.declared.key_states.KeyState.TheVariants.{Taken};
ghost use Rattle.lj_book.specs.Picks.{IsPick};
ghost use Rattle.lj_book.specs.Book.{entry_at, entry_count, key_state_of, kept_at, HasRoom, IsOpenAt, IsDoneAt, Posts, SameCounts, LetsOut, Reopens, Finishes, Fetches, Puts, Removes, RemovesAt, is_of_by, is_waiting, waiting_count};
ghost use Rattle.lj_book.specs.Boxes.{box_count_by};

use crate::book_entry::{BookEntry, Keeps, MAX_ENTRIES, put_for};
use crate::counts::Counts;
use crate::key_states::{KeyState, KeyStates};
use crate::task_box::{DoneBox, TaskBox};
use slab::Slab;
use std::alloc::{AllocError, Global};
use std::marker::Model;

/// Entries, a state for each key, and counts. Only `new` takes memory.
#[derive(Drop)]
pub(crate) struct BookOf<P, K> {
    entries: Slab<BookEntry<P, K>>,
    key_states: KeyStates,
    posted: u64,
    given: u64,
    fetched: u64,
    withdrawn: u64,
}

impl<P, K> Model for BookOf<P, K> {
    ghost use Rattle.lj_book.specs.Book.{BookOf, IsBook};

    ghost Value = { BookOf P K };

    ghost view = { λ b. record {
      slots = b.entries.slots;
      posted = b.posted;
      given = b.given;
      fetched = b.fetched;
      withdrawn = b.withdrawn;
    } };

    ghost invariant = { λ b. IsBook b.entries b.key_states b.posted b.given b.fetched b.withdrawn };
}

impl<P: Drop, K: Drop> BookOf<P, K> {
    /// Makes a book without entries, and reserves memory for `MAX_ENTRIES`.
    pub(crate) fn new(alloc: Global) -> Result<BookOf<P, K>, AllocError>
        ensures { IfOk result (λ book.
            book ≡ record { slots = []; posted = 0; given = 0; fetched = 0; withdrawn = 0 }) }
    {
        let entries = Slab::with_capacity(alloc, MAX_ENTRIES)?;
        let key_states = KeyStates::new(alloc, entries.capacity())?;
        Ok(BookOf {
            entries,
            key_states,
            posted: 0,
            given: 0,
            fetched: 0,
            withdrawn: 0,
        })
    }

    /// Returns whether there is room for one more entry, and one more post can be counted.
    pub(crate) fn has_room(&self) -> bool
        ensures { IsTrue result ↔ HasRoom self.now }
    {
        self.entries.len() < MAX_ENTRIES && self.posted < u64::MAX
    }

    /// Returns the number of entries.
    pub(crate) fn len(&self) -> usize
        ensures { result ≡ entry_count self.now }
    {
        self.entries.len()
    }

    /// Returns the number of posts.
    pub(crate) fn posted(&self) -> u64
        ensures { result ≡ self.now.posted }
    {
        self.posted
    }

    /// Adds an open entry, and counts it as posted.
    pub(crate) fn post(&mut self, opened: P)
        requires { HasRoom self.old }
        ensures { (key : ℕ) × Posts self.old self.new opened key }
    {
        let key = self.entries.insert_reserved(BookEntry::Open(opened));
        self.key_states.set(key, KeyState::ToTake);
        self.posted += 1;
    }

    /// Returns the least key from `pick` on whose entry is open, else the least.
    pub(crate) fn find_open(&self, pick: usize) -> Option<usize>
        ensures some { IfSome result (λ key. IsPick (IsOpenAt self.now) pick key) }
        ensures none { IfNone result ((k : ℕ) → ¬ IsOpenAt self.now k) }
    {
        self.key_states.find(KeyState::ToTake, pick)
    }

    /// Returns the open entry under a key.
    pub(crate) fn open_at(&self, key: usize) -> &P
        requires { IsOpenAt self.now key }
        ensures { entry_at self.now key ≡ Some (BookEntry.Open result.now) }
    {
        match self.entries.get(key) {
            Some(BookEntry::Open(opened)) => opened,
            _ => unreachable!(),
        }
    }

    /// Returns what is stored under a key while its entry is out.
    pub(crate) fn kept_at(&self, key: usize) -> Option<&K>
        ensures { option_copied result ≡ kept_at (entry_at self.now key) }
    {
        match self.entries.get(key) {
            Some(BookEntry::Out(kept)) => Some(kept),
            _ => None,
        }
    }

    /// Lets the open entry under a key out, and stores `kept` in its place.
    pub(crate) fn let_out(&mut self, key: usize, kept: K) -> P
        requires { IsOpenAt self.old key }
        ensures { LetsOut self.old self.new key result kept }
    {
        match self.replace(key, BookEntry::Out(kept)) {
            BookEntry::Open(opened) => opened,
            _ => unreachable!(),
        }
    }

    /// Opens an entry again that is out, and returns what was stored in its place.
    pub(crate) fn reopen(&mut self, key: usize, opened: P) -> K
        requires { key_state_of (entry_at self.old key) ≡ Taken }
        ensures { Reopens self.old self.new key result opened }
    {
        self.replace_kept(key, BookEntry::Open(opened))
    }

    /// Stores the result of an entry that is out, and returns what was stored in its place.
    pub(crate) fn finish(&mut self, key: usize, done: DoneBox) -> K
        requires { key_state_of (entry_at self.old key) ≡ Taken }
        ensures { Finishes self.old self.new key result done }
    {
        let kept = self.replace_kept(key, BookEntry::Done(done));
        self.given += 1;
        kept
    }

    /// Replaces an entry that is out, and returns what was stored in its place.
    fn replace_kept(&mut self, key: usize, entry: BookEntry<P, K>) -> K
        requires { key_state_of (entry_at self.old key) ≡ Taken }
        ensures was { entry_at self.old key ≡ Some (BookEntry.Out result) }
        ensures puts { Puts self.old self.new key (Some entry) }
        ensures counts { SameCounts self.old self.new }
        ensures waiting { self.old.given + waiting_count self.old.slots ≤ self.old.posted }
    {
        match self.replace(key, entry) {
            BookEntry::Out(kept) => kept,
            _ => unreachable!(),
        }
    }

    /// Replaces the entry of a task without its result, and returns the old one.
    fn replace(&mut self, key: usize, entry: BookEntry<P, K>) -> BookEntry<P, K>
        requires { is_waiting (entry_at self.old key) ≡ true }
        ensures was { entry_at self.old key ≡ Some result }
        ensures puts { Puts self.old self.new key (Some entry) }
        ensures counts { SameCounts self.old self.new }
        ensures waiting { self.old.given + waiting_count self.old.slots ≤ self.old.posted }
    {
        let key_state = entry.key_state();
        let was = put_for(&mut self.entries, key, entry);
        self.key_states.set(key, key_state);
        was
    }

    /// Fetches the user's result of the least key from `pick` on, else of the least key, and removes its entry.
    pub(crate) fn fetch(&mut self, user: u8, pick: usize) -> Option<DoneBox>
        ensures some { IfSome result (λ done. (key : ℕ) × Fetches self.old self.new done key
            × IsPick (IsDoneAt user self.old) pick key) }
        ensures none { IfNone result ((k : ℕ) → ¬ IsDoneAt user self.old k) }
        ensures unchanged { IfNone result (self.new ≡ self.old) }
    {
        let key = self.key_states.find(KeyState::ToFetch(user), pick)?;
        let was = self.entries.remove(key);
        self.key_states.set(key, KeyState::Vacant);
        self.fetched += 1;
        match was {
            BookEntry::Done(done) => Some(done),
            _ => unreachable!(),
        }
    }

    /// Returns the counts.
    pub(crate) fn counts(&self) -> Counts
        ensures posted { result.posted ≡ self.now.posted }
        ensures given { result.given ≡ self.now.given }
        ensures fetched { result.fetched ≡ self.now.fetched }
        ensures withdrawn { result.withdrawn ≡ self.now.withdrawn }
        ensures entries { result.entries ≡ entry_count self.now }
        ensures balance { result.posted ≡ result.fetched + result.withdrawn + result.entries }
        ensures given_posted { result.given ≤ result.posted }
    {
        Counts {
            posted: self.posted,
            given: self.given,
            fetched: self.fetched,
            withdrawn: self.withdrawn,
            entries: self.entries.len() as u64,
        }
    }
}

impl<P: Keeps, K: Keeps> BookOf<P, K> {
    /// Removes every entry of the user, also those that are out, and puts the boxes in them among the spare ones.
    pub(crate) fn withdraw(&mut self, user: u8, spare: &mut Vec<TaskBox>)
        requires { vec_len spare.old + entry_count self.old ≤ vec_capacity spare.old }
        ensures removes { Removes (is_of_by P.whose K.whose user) self.old self.new }
        ensures boxes { vec_len spare.new + box_count_by P.boxed K.boxed self.new.slots
            ≡ vec_len spare.old + box_count_by P.boxed K.boxed self.old.slots }
        ensures stock { vec_len spare.new + entry_count self.new ≤ vec_len spare.old + entry_count self.old }
        ensures grows { vec_len spare.old ≤ vec_len spare.new }
        ensures places { vec_capacity spare.new ≡ vec_capacity spare.old }
    {
        for key in 0..self.entries.capacity() {
            self.withdraw_at(key, user, spare);
        }
    }

    /// Removes the entry under the key if it is the user's.
    fn withdraw_at(&mut self, key: usize, user: u8, spare: &mut Vec<TaskBox>)
        requires { vec_len spare.old + entry_count self.old ≤ vec_capacity spare.old }
        ensures removes { RemovesAt (is_of_by P.whose K.whose user) key self.old self.new }
        ensures boxes { vec_len spare.new + box_count_by P.boxed K.boxed self.new.slots
            ≡ vec_len spare.old + box_count_by P.boxed K.boxed self.old.slots }
        ensures stock { vec_len spare.new + entry_count self.new ≤ vec_len spare.old + entry_count self.old }
        ensures grows { vec_len spare.old ≤ vec_len spare.new }
        ensures places { vec_capacity spare.new ≡ vec_capacity spare.old }
    {
        if self.is_of(key, user) {
            let was = self.remove(key);
            if let Some(left) = was.into_box() {
                spare.push_reserved(left);
            }
        }
    }

    /// Returns whether the key has an entry of the user.
    fn is_of(&self, key: usize, user: u8) -> bool
        ensures { result ≡ is_of_by P.whose K.whose user (entry_at self.now key) }
    {
        match self.entries.get(key) {
            Some(entry) => entry.user() == user,
            None => false,
        }
    }

    /// Removes the entry under the key, and counts it as withdrawn.
    fn remove(&mut self, key: usize) -> BookEntry<P, K>
        requires { IsSome (entry_at self.old key) }
        ensures was { entry_at self.old key ≡ Some result }
        ensures puts { Puts self.old self.new key None }
        ensures counted { self.new.withdrawn + entry_count self.new ≡ self.old.withdrawn + entry_count self.old }
        ensures posted { self.new.posted ≡ self.old.posted }
        ensures given { self.new.given ≡ self.old.given }
        ensures fetched { self.new.fetched ≡ self.old.fetched }
    {
        let removed = self.entries.remove(key);
        self.key_states.set(key, KeyState::Vacant);
        self.withdrawn += 1;
        removed
    }
}
