//! Why a task was not posted to a pool with a queue.
ghost use Rattle.std.specs.Prelude.{◌≡◌};
ghost use Rattle.lj_queue.specs.NoRoom.{reason_of};

use crate::mailboxes::QueueClosed;
use crate::pass::RefusedPush;
use lj_end::NotPosted;

/// Why there was no room for a task.
#[derive(Clone, Copy)]
pub(crate) enum FullCause {
    /// No box was spare.
    NoBox,
    /// The pass had pushed 2^64 - 1 tasks.
    PassSpent,
    /// The queue was full at a push.
    QueueFull(RefusedPush),
}

/// Why a task was not posted.
#[derive(Clone, Copy)]
pub(crate) enum PostFault {
    /// There was no room for it.
    NoRoom(FullCause),
    /// The pool is closed.
    Closed(QueueClosed),
}

impl From<PostFault> for NotPosted<QueueClosed> {
    ghost from_gives = { λ fault reason. reason ≡ reason_of fault };

    fn from(fault: PostFault) -> NotPosted<QueueClosed> {
        match fault {
            PostFault::NoRoom(_) => NotPosted::Full,
            PostFault::Closed(closed) => NotPosted::Closed(closed),
        }
    }
}
