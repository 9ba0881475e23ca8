//! The rule of the queue: what its passes pushed is what they popped together with what it holds.

use crate::open_task::OpenTask;
use crossbeam_queue::protocol::{Join, Lesson, Outcome, Protocol, Split};
use crossbeam_queue::{Pass, RuledArrayQueue};
use std::collections::LinkedList;

/// The history of a pass: what it pushed and popped, and its parts of the right to know the whole. No value of it is made.
pub struct PassHistory {
    pub parts: u64,
    pub pushed: LinkedList<OpenTask>,
    pub popped: LinkedList<OpenTask>,
}

/// The rule that no task is added and none is lost.
pub struct Fair;

impl Protocol<OpenTask, PassHistory> for Fair {
    ghost use Rattle.std.specs.Prelude.{[]};
    ghost use Rattle.lj_queue.specs.Balance.{Balanced, all_parts, history_of};

    ghost holds = { Balanced };

    ghost first = { history_of all_parts [] [] };
}

/// The cut of a pass in two, and the join of two.
pub struct Cut;

impl Split<PassHistory> for Cut {
    ghost use Rattle.std.specs.Prelude.{◌-◌, []};
    ghost use Rattle.lj_queue.specs.Balance.{history_of};

    ghost left = { λ v. history_of (v.parts - 1) v.pushed v.popped };

    ghost right = { λ v. history_of 1 [] [] };
}

impl Join<PassHistory> for Cut {
    ghost use Rattle.std.specs.Prelude.{[]};
    ghost use Rattle.lj_queue.specs.Balance.{history_of, joined_history};

    ghost both = { joined_history };

    ghost spent = { history_of 0 [] [] };
}

/// The push of a task.
pub struct Pushed;

impl Outcome<OpenTask, PassHistory> for Pushed {
    ghost use Rattle.std.specs.Prelude.{◌≡◌};
    ghost use Rattle.lj_queue.specs.Balance.{with_pushed};

    ghost then = { λ v x w. w ≡ with_pushed v x };
}

impl Lesson<OpenTask, PassHistory> for Pushed {
    ghost use Rattle.std.specs.Prelude.{⊤};

    ghost fact = { λ v items. ⊤ };
}

/// The pop of a task.
pub struct Popped;

impl Outcome<OpenTask, PassHistory> for Popped {
    ghost use Rattle.std.specs.Prelude.{◌≡◌};
    ghost use Rattle.lj_queue.specs.Balance.{with_popped};

    ghost then = { λ v x w. w ≡ with_popped v x };
}

impl Lesson<OpenTask, PassHistory> for Popped {
    ghost use Rattle.std.specs.Prelude.{⊤};

    ghost fact = { λ v items. ⊤ };
}

/// What the pass with all parts knows of the tasks in the queue.
pub struct Total;

impl Lesson<OpenTask, PassHistory> for Total {
    ghost use Rattle.lj_queue.specs.Balance.{LeavesTasks};

    ghost fact = { λ v items. LeavesTasks v.pushed v.popped items };
}

/// The open tasks, in the order of their posts.
pub type OpenTasks = RuledArrayQueue<OpenTask, PassHistory, Fair>;

/// A pass of the queue of open tasks.
pub type TaskPass = Pass<OpenTask, PassHistory>;
