//! Why no ticket was granted, and why one did not enter.
ghost use Rattle.std.specs.Prelude.{◌≡◌, ◌↔◌, true, IsSome};

use crate::lent::{Lender, LentTicket};
use lj_access::Denied;
use thiserror::Error;

/// Why no ticket was granted.
#[derive(Clone, Copy, PartialEq, Eq, Debug, Error)]
pub enum NoTicket {
    /// No user has this name and this token, or all tickets of this user are granted.
    #[error("denied")]
    Denied,
    /// As many connections of this user wait as may.
    #[error("too many connections of this user wait")]
    Crowded,
}

impl From<Denied> for NoTicket {
    ghost use Rattle.std.specs.Prelude.{◌≡◌};
    ghost use Rattle.lj_visit.specs.declared.shut.NoTicket.TheVariants.{Denied as denied};

    ghost from_gives = { λ _ why. why ≡ denied };

    fn from(_denied: Denied) -> NoTicket {
        NoTicket::Denied
    }
}

/// That no ticket enters any more. Only a closed lender makes one.
#[derive(Clone, Copy, PartialEq, Eq, Debug)]
pub struct SeenClosed(());

impl SeenClosed {
    /// Looks at a lender. None where it is not closed.
    pub fn look<D: Lender>(lender: &D) -> Option<SeenClosed>
        ensures { IsSome result ↔ (D.closed lender.now ≡ true) }
    {
        if lender.is_closed() {
            return Some(SeenClosed(()));
        }
        None
    }

    /// Loses a ticket that can't enter any more.
    pub fn lose(self, ticket: LentTicket) {
        ticket.lose();
    }
}

/// Why a ticket did not enter.
#[derive(Clone, Copy, PartialEq, Eq, Debug)]
pub enum Shut {
    /// No ticket enters any more.
    Closed(SeenClosed),
    /// Its client was gone.
    Gone,
}
