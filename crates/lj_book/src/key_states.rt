//! A state for each key, and the search for a state.
ghost use Rattle.std.specs.Prelude.{◌≡◌, ◌≢◌, ◌≤◌, ◌<◌, ◌+◌, ◌*◌, ◌/◌, ℕ, max, length, replicate, slice_set, slice_index_or, IfOk, IfSome, IfNone};
ghost use Rattle.lj_book.specs.declared.key_states.KeyState.TheVariants.{Vacant};
ghost use Rattle.lj_book.specs.Picks.{IsPick};
ghost use Rattle.lj_book.specs.KeyStates.{HasKeyState, IsLeast, HasNone, state_number, ChangesBit, HasNoBit, IsLowestBit};

use std::alloc::{AllocError, Global};
use std::marker::Model;

/// The number of keys in a group, one for each bit of a mask.
const GROUP: usize = 64;

/// The number of different states.
const KINDS: usize = 259;

/// The state of a key.
#[derive(Clone, Copy, PartialEq, Eq, Debug)]
pub enum KeyState {
    Vacant,
    /// A task that is open.
    ToTake,
    /// A task that is out.
    Taken,
    /// A result for this user.
    ToFetch(u8),
}

impl KeyState {
    /// Returns a number that is different for each state.
    fn kind(self) -> usize
        ensures value { result ≡ state_number self }
        ensures within { result < KINDS }
    {
        match self {
            KeyState::Vacant => 0,
            KeyState::ToTake => 1,
            KeyState::Taken => 2,
            KeyState::ToFetch(user) => 3 + usize::from(user),
        }
    }
}

/// The states of the keys from 0 on. For each group of keys and each kind of state but vacant it has a mask of the keys that are in
/// such a state, so that neither a search nor a change looks at the other keys.
#[derive(Drop)]
pub(crate) struct KeyStates {
    key_states: Vec<KeyState>,
    masks: Vec<[u64; KINDS]>,
}

impl Model for KeyStates {
    ghost use Rattle.std.specs.Prelude.{List};
    ghost use Rattle.lj_book.specs.declared.key_states.KeyState.{KeyState};

    ghost Value = { List KeyState };

    ghost view = { λ m. m.key_states.items };

    ghost use Rattle.lj_book.specs.KeyStates.{IsIndexed};

    ghost invariant = { λ m. IsIndexed m.key_states.items m.masks.items };
}

impl KeyStates {
    /// Makes the states of `keys` keys, all vacant.
    pub(crate) fn new(alloc: Global, keys: usize) -> Result<KeyStates, AllocError>
        ensures { IfOk result (λ m. m ≡ replicate keys KeyState.Vacant) }
    {
        let key_states = vec![in alloc; KeyState::Vacant; keys]?;
        let masks = vec![in alloc; no_bits(); keys / GROUP + 1]?;
        Ok(KeyStates { key_states, masks })
    }

    /// Sets the state of a key.
    pub(crate) fn set(&mut self, key: usize, key_state: KeyState)
        requires { key < length self.old }
        ensures { self.new ≡ slice_set self.old key key_state }
    {
        let was = self.key_states[key];
        self.key_states[key] = key_state;
        let masks = &mut self.masks[key / GROUP];
        clear_bit(masks, was.kind(), key % GROUP);
        set_bit(masks, key_state.kind(), key % GROUP);
    }

    /// Returns the least key from `pick` on that has the state, else the least that has it.
    pub(crate) fn find(&self, key_state: KeyState, pick: usize) -> Option<usize>
        requires { key_state ≢ Vacant }
        ensures some { IfSome result (λ key. IsPick (HasKeyState self.now key_state) pick key) }
        ensures none { IfNone result (HasNone self.now key_state 0 (length self.now)) }
    {
        match self.least_from(key_state, pick) {
            Some(key) => Some(key),
            None => self.least_from(key_state, 0),
        }
    }

    /// Returns the least key from `from` on that has the state.
    fn least_from(&self, key_state: KeyState, from: usize) -> Option<usize>
        requires { key_state ≢ Vacant }
        ensures some { IfSome result (IsLeast self.now key_state from (length self.now)) }
        ensures none { IfNone result (HasNone self.now key_state from (length self.now)) }
    {
        for group in from / GROUP..self.masks.len() {
            if let Some(key) = self.least_in(key_state, from, group) {
                return Some(key);
            }
        }
        None
    }

    /// Returns the least key of a group that has the state, of those from `from` on.
    fn least_in(&self, key_state: KeyState, from: usize, group: usize) -> Option<usize>
        requires searched { key_state ≢ Vacant }
        requires group { group < length self.now / GROUP + 1 }
        requires near { from < GROUP * group + GROUP }
        ensures some { IfSome result
            (λ key. IsLeast self.now key_state (max from (GROUP * group)) (length self.now) key) }
        ensures none { IfNone result (HasNone self.now key_state (max from (GROUP * group)) (GROUP * group + GROUP)) }
    {
        let masks = &self.masks[group];
        let first = GROUP * group;
        let at = lowest_bit(masks[key_state.kind()], from.max(first) % GROUP)?;
        Some(first + at)
    }
}

/// Returns the place of the lowest bit of a mask, of those from `from` on.
fn lowest_bit(mask: u64, from: usize) -> Option<usize>
    requires { from < GROUP }
    ensures some { IfSome result (IsLowestBit mask from) }
    ensures none { IfNone result (HasNoBit mask from GROUP) }
{
    let rest = mask >> from;
    if rest == 0 {
        return None;
    }
    Some(from + rest.trailing_zeros() as usize)
}

/// Returns masks without a bit.
fn no_bits() -> [u64; KINDS]
    ensures { result ≡ replicate KINDS 0 }
{
    [0; KINDS]
}

/// Clears the bit of a key in the mask of a kind.
fn clear_bit(masks: &mut [u64; KINDS], kind: usize, at: usize)
    requires kind { kind < KINDS }
    requires within { at < GROUP }
    ensures { ChangesBit 0 kind at masks.old masks.new }
{
    masks[kind] = masks[kind] & !(1 << at);
}

/// Sets the bit of a key in the mask of a kind.
fn set_bit(masks: &mut [u64; KINDS], kind: usize, at: usize)
    requires kind { kind < KINDS }
    requires within { at < GROUP }
    ensures { ChangesBit 1 kind at masks.old masks.new }
{
    masks[kind] = masks[kind] | 1 << at;
}
