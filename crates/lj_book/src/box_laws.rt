//! Laws of the book of boxes, over all of its runs. The functions do nothing: what counts is what they ensure.
ghost use Rattle.std.specs.Prelude.{◌≡◌, ℕ};
ghost use Rattle.lj_book.specs.Book.{user_of_task};
ghost use Rattle.lj_book.specs.Boxes.{AreOlder, BoxBook, GivesBox, IsOut, LentTask, WithdrawsBox};
ghost use Rattle.lj_book.specs.Refused.{HasLeft, Runs};

/// Promise: once a task's result is accepted, or a worker's task is withdrawn, later results with the task's key and number are
/// refused.
pub fn boxes_that_left_are_refused()
    ensures withdrawn { (old new : BoxBook) (lent : LentTask) → AreOlder old.inner → IsOut old lent
        → WithdrawsBox (user_of_task lent.work) old new → HasLeft new lent }
    ensures given { (old new : BoxBook) (lent : LentTask) → AreOlder old.inner → GivesBox old new lent → HasLeft new lent }
    ensures stays { (calls : ℕ) (old new : BoxBook) (lent : LentTask) → Runs calls old new → HasLeft old lent
        → HasLeft new lent }
    ensures refused { (book : BoxBook) (lent : LentTask) → HasLeft book lent → ¬ IsOut book lent }
{}
