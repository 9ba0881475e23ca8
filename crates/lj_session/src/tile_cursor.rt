//! A cursor at the next task.
ghost use Rattle.std.specs.Prelude.{◌≡◌};

use lj_base::Label;

/// A cursor at the next task of a user: the session that it is of. `Owner::next_tile` makes it.
#[derive(PartialEq, Eq, Debug, Drop)]
pub struct TileCursor {
    pub(crate) session: usize,
    /// How many tiles of the session were posted, or skipped because they were in.
    pub(crate) passed: usize,
    /// The label of the session, which is part of the name of each of its tasks.
    pub(crate) label: Label,
}

impl TileCursor {
    /// Returns how many tiles of the session were passed when it was made: its tasks past them are still to be posted.
    pub fn passed(&self) -> usize
        ensures { result ≡ self.now.passed }
    {
        self.passed
    }
}
