//! The history of each user: the states that came home, in order. It exists in proofs alone; what is kept of it is a word that
//! never changes.
ghost use Rattle.std.specs.Prelude.{◌≡◌, ◌∷◌, ◌++◌, ◌⊎◌, [], ℕ, List, length, map, slice_get, slice_set, Some, None, IfOk, IfSome, IfNone, IsSomeAnd};
ghost use Rattle.std.specs.List.{All};
ghost use Rattle.std.specs.Option.{option_map};
ghost use mathlib.Core.List.{IsPrefix};
ghost use Rattle.lj_session.specs.UserState.{UserState};
ghost use Rattle.lj_access.specs.declared.user.User.{User};
ghost use Rattle.lj_program.specs.Histories.{AreNamed, HasNoted};

use lj_session::UserState;
use logbook::{Gain, Offer, Plain, Play, Rule, Seen, Start, Word};
use std::alloc::{AllocError, Global};
use std::marker::{Brand, Model, PhantomData};

/// The rule of a history: it only grows.
struct HistoryRule;

impl Rule<UserState, u64> for HistoryRule {
    ghost use Rattle.std.specs.Prelude.{[]};
    ghost use base.Fml.{ftrue};
    ghost use Rattle.lj_program.specs.Histories.{IsHistory};

    ghost holds = { λ cells states. IsHistory cells states };

    ghost first = { [] };

    ghost hinted = { λ n states. Unit {0} };

    ghost shows = { λ states. [] };

    ghost keeps = { λ names states. ftrue };

    ghost moves = { λ state before after answer. Unit {0} };
}

/// Nothing is gained where a state is noted.
struct NoGain;

impl Gain<UserState, u64> for NoGain {
    ghost use base.Fml.{ftrue};

    ghost after = { λ names about answer. ftrue };
}

/// The step that notes a state.
struct NoteStep;

impl Play<UserState, u64> for NoteStep {
    ghost use Rattle.lj_program.specs.Histories.{NotesState};

    ghost then = { NotesState };
}

impl Plain<UserState, UserState, u64> for NoteStep {
    ghost use Rattle.std.specs.Prelude.{None};

    ghost ask = { λ state. state };

    ghost state = { λ state. None };
}

/// Which histories are those of a server, and the users with which it begins.
pub trait HistoryIdentity {
    ghost use Rattle.std.specs.Prelude.{List, ℕ};
    ghost use Rattle.logbook.specs.Pages.{Book};
    ghost use Rattle.lj_access.specs.declared.user.User.{User};

    // the history of each user, by the user's number
    ghost books: { ℕ → Book };

    ghost users: { List User };
}

impl HistoryIdentity for Brand {
    ghost use Rattle.std.specs.Prelude.{[]};
    ghost use Rattle.lj_program.specs.Histories.{no_book};

    ghost books = { λ user. no_book };

    ghost users = { [] };
}

/// The history of one user.
#[derive(Drop)]
struct OneHistory {
    word: Word<UserState, u64, HistoryRule>,
    seen: Seen<UserState, u64, HistoryRule>,
}

impl Model for OneHistory {
    ghost use Rattle.std.specs.Prelude.{◌≡◌, []};
    ghost use Rattle.lj_program.specs.Histories as known;

    ghost Value = { known.OneHistory };

    ghost view = { λ history. record { book = history.seen.book; states = history.seen.log } };

    ghost invariant = { λ history. (history.word ≡ known.first_word history.seen.book) × (history.seen.names ≡ []) };
}

impl OneHistory {
    // Begins a history.
    fn new() -> OneHistory
        ensures { result.states ≡ [] }
    {
        let (seen, mut first, _second) = Seen::open(Start::alone(), 0, 0);
        OneHistory {
            word: Word::tracked(0, &mut first),
            seen,
        }
    }

    // Notes a state, as the last one.
    fn note(&mut self, next: NextState)
        ensures book { self.new.book ≡ self.old.book }
        ensures noted { HasNoted self.old.states next self.new.states }
    {
        let NextState { mut offer } = next;
        let _ = self
            .word
            .load::<NoteStep, NoGain>(&mut self.seen, &mut offer);
    }

    // Returns what was seen of it, as that of a user.
    fn seen_of<J: HistoryIdentity>(&self, user: u8) -> SeenHistory<J>
        requires { self.now.book ≡ J.books user }
        ensures user { result.user ≡ user }
        ensures states { result.states ≡ self.now.states }
    {
        SeenHistory {
            user,
            seen: self.seen.again(),
            of: PhantomData,
        }
    }
}

/// A state that comes home and is to be noted.
#[derive(Drop)]
pub struct NextState {
    offer: Offer<UserState, u64, HistoryRule, NoGain>,
}

impl Model for NextState {
    ghost use Rattle.std.specs.Prelude.{◌≡◌, [], None};
    ghost use Rattle.lj_session.specs.UserState.{UserState};

    ghost Value = { UserState };

    ghost view = { λ next. next.offer.ask };

    ghost invariant = { λ next. (next.offer.names ≡ []) × (next.offer.state ≡ None) };
}

impl NextState {
    /// Remembers a state, which then goes home.
    pub fn of(state: &UserState) -> NextState
        ensures { result ≡ state.now }
    {
        let (seen, _first, _second) = Seen::open(Start::alone(), 0, 0);
        NextState {
            offer: seen.plain::<NoGain, UserState, NoteStep>(state),
        }
    }
}

/// Histories without states, which are no server's yet.
#[derive(Drop)]
pub struct NewHistories {
    all: Vec<OneHistory>,
}

impl Model for NewHistories {
    ghost use Rattle.std.specs.Prelude.{◌≡◌, [], List};
    ghost use Rattle.std.specs.List.{All};
    ghost use Rattle.lj_program.specs.Histories as known;

    ghost Value = { List known.OneHistory };

    ghost view = { λ new. new.all.items };

    ghost invariant = { λ new. All (λ history. history.states ≡ []) new.all.items };
}

impl NewHistories {
    /// Begins a history for each of this many users.
    ///
    /// # Errors
    /// Out of memory.
    pub fn new(alloc: Global, users: usize) -> Result<NewHistories, AllocError>
        ensures { IfOk result (λ new. length new ≡ users) }
    {
        let mut all = Vec::with_capacity(alloc, users)?;
        for _ in 0..users {
            all.push(OneHistory::new())?;
        }
        Ok(NewHistories { all })
    }

    /// Makes them the histories of a server.
    pub fn named<J: HistoryIdentity>(self) -> StateHistories<J>
        requires { AreNamed J.books self }
        ensures count { length result ≡ length self }
        ensures empty { All (λ states. states ≡ []) result }
    {
        StateHistories {
            all: self.all,
            of: PhantomData,
        }
    }
}

/// The history of each user of a server, by number. Each state that comes home is noted there.
#[derive(Drop)]
pub struct StateHistories<J: HistoryIdentity> {
    all: Vec<OneHistory>,
    of: PhantomData<J>,
}

impl<J: HistoryIdentity> Model for StateHistories<J> {
    ghost use Rattle.std.specs.Prelude.{List, map};
    ghost use Rattle.lj_session.specs.UserState.{UserState};
    ghost use Rattle.lj_program.specs.Histories.{AreNamed};

    ghost Value = { List (List UserState) };

    ghost view = { λ histories. map (λ history. history.states) histories.all.items };

    ghost invariant = { λ histories. AreNamed J.books histories.all.items };
}

impl<J: HistoryIdentity> StateHistories<J> {
    /// Notes a state as the last one of the history of a user, and returns what was seen of it then. None where there is no
    /// such user.
    pub fn note(&mut self, user: u8, next: NextState) -> Option<SeenHistory<J>>
        ensures user { IfSome result (λ seen. seen.user ≡ user) }
        ensures noted { IfSome result (λ seen. IsSomeAnd (slice_get self.old user) (λ before. HasNoted before next seen.states)) }
        ensures others { IfSome result (λ seen. self.new ≡ slice_set self.old user seen.states) }
        ensures none { IfNone result (slice_get self.old user ≡ None) }
        ensures unchanged { IfNone result (self.new ≡ self.old) }
    {
        let history = self.all.get_mut(usize::from(user))?;
        history.note(next);
        Some(history.seen_of(user))
    }

    /// Returns what was seen of the history of a user. None where there is no such user.
    pub fn seen(&self, user: u8) -> Option<SeenHistory<J>>
        ensures user { IfSome result (λ seen. seen.user ≡ user) }
        ensures states { option_map (λ seen. seen.states) result ≡ slice_get self.now user }
    {
        Some(self.all.get(usize::from(user))?.seen_of(user))
    }
}

/// A beginning of the history of a user, which was seen.
#[derive(Drop)]
pub struct SeenHistory<J: HistoryIdentity> {
    user: u8,
    seen: Seen<UserState, u64, HistoryRule>,
    of: PhantomData<J>,
}

impl<J: HistoryIdentity> Model for SeenHistory<J> {
    ghost use Rattle.std.specs.Prelude.{◌≡◌};
    ghost use Rattle.lj_program.specs.Histories as known;

    ghost Value = { known.UserHistory };

    ghost view = { λ seen. record { user = seen.user; states = seen.seen.log } };

    ghost invariant = { λ seen. seen.seen.book ≡ J.books seen.user };
}

impl<J: HistoryIdentity> SeenHistory<J> {
    /// Compares two beginnings of histories, and changes nothing.
    ///
    /// Promise: if two prefixes of a user's history are seen, one is a prefix of the other.
    pub fn compare_with(&self, other: &SeenHistory<J>)
        ensures { self.now.user ≡ other.now.user
            → IsPrefix self.now.states other.now.states ⊎ IsPrefix other.now.states self.now.states }
    {
        if self.user == other.user {
            let mut both = self.seen.again();
            both.learn(&other.seen);
        }
    }
}
