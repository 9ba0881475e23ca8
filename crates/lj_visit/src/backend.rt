//! The backend of a visit: it lets the user in, and makes the user's end of a pool.
ghost use Rattle.std.specs.Prelude.{◌≡◌, ◌∷◌, [], ℕ, List, Option, IfOk, IfErr};
ghost use Rattle.lj_session.specs.UserState.{Reached};
ghost use Rattle.lj_end.specs.Seen.{nothing_seen};
ghost use Rattle.lj_visit.specs.Events.{Event, Happens};
ghost use Rattle.lj_visit.specs.Events.Event.{granted, ungranted, entered, shut_out, opened, withdrawn, left, closed};

use crate::lent::{LentState, LentTicket};
use crate::shut::{NoTicket, Shut};
use lj_base::{Name, Token};
use lj_end::PoolEnd;

/// An end of a pool for the user of this number.
#[derive(Drop)]
pub struct UserEnd<P> {
    pub pool: P,
    pub user: u8,
}

/// The backend of a connection, as it is lent to one visit.
pub trait Backend {
    /// The end of a pool.
    type End: PoolEnd;

    // The events so far, in order, where they are known.
    ghost events: { Self → Option (List Event) };

    /// Grants a ticket to the user with this name and this token.
    ///
    /// # Errors
    /// No user has both, all tickets of this user are granted, or as many of its connections wait as may.
    fn hello(&mut self, name: &Name, token: &Token) -> Result<LentTicket, NoTicket>
        ensures granted { IfOk result (λ ticket. Happens (events self.old) (events self.new)
            (granted name.now token.now ticket.ticket ∷ [])) }
        ensures refused { IfErr result (λ why. Happens (events self.old) (events self.new)
            (ungranted name.now token.now why ∷ [])) };

    /// Waits until the ticket enters, and lends it the state of its user. `held` tells whether bytes of the client were read
    /// that are not yet answered.
    ///
    /// # Errors
    /// No ticket enters any more, or the client has gone while the ticket waited. The ticket is given up then.
    fn enter(&mut self, ticket: LentTicket, held: bool) -> Result<LentState, Shut>
        ensures ticket { IfOk result (λ lent. lent.ticket ≡ ticket.ticket) }
        ensures reached { IfOk result (λ lent. Reached lent.state) }
        ensures entered { IfOk result (λ lent. Happens (events self.old) (events self.new)
            (entered ticket.ticket held lent.state ∷ [])) }
        ensures shut { IfErr result (λ why. Happens (events self.old) (events self.new)
            (shut_out ticket.ticket held why ∷ [])) };

    /// Makes an end of the pool for the user of this number. Nothing is owed to it.
    fn open(&mut self, user: u8) -> UserEnd<Self::End>
        ensures user { result.user ≡ user }
        ensures seen { ⟦<<Self as Backend>::End as PoolEnd>⟧.seen result.pool ≡ nothing_seen }
        ensures own { ⟦<<Self as Backend>::End as PoolEnd>⟧.for_others result.pool user ≡ 0 }
        ensures opened { Happens (events self.old) (events self.new) (opened user ∷ []) };

    /// Takes an end back, and drops what the pool has of its user.
    fn finish(&mut self, end: UserEnd<Self::End>)
        ensures { Happens (events self.old) (events self.new) (withdrawn end.user
            (⟦<<Self as Backend>::End as PoolEnd>⟧.seen end.pool)
            (⟦<<Self as Backend>::End as PoolEnd>⟧.for_others end.pool end.user) ∷ []) };

    /// Takes a state home from the ticket that it was lent to. The user's next ticket may then enter.
    fn leave(&mut self, lent: LentState)
        ensures { Happens (events self.old) (events self.new) (left lent.ticket lent.state ∷ []) };

    /// Closes the backend: from now on no ticket enters, and no task is computed.
    fn close(&mut self)
        ensures { Happens (events self.old) (events self.new) (closed ∷ []) };
}
