//! A gate that each worker passes between taking a task and computing it.
ghost use Rattle.std.specs.Prelude.{◌≡◌, true, ⊤};
ghost use Rattle.lj_task.specs.declared.task_name.TaskName.{TaskName};

use lj_task::TaskName;

/// A gate that a worker passes between taking a task and computing it. No lock is held then.
pub trait Gate {
    // The tasks that it may send back.
    ghost sends_back: { Self → TaskName → Type 0 } = { λ _ _. ⊤ };

    /// Runs before the task of this name is computed.
    fn between(&self, name: &TaskName);

    /// Returns whether a task that was taken is handed back, so that it is open again. It is called before `between`, which is
    /// then not called.
    fn back(&self, _name: &TaskName) -> bool
        ensures { result ≡ true → sends_back self.now _name.now }
    {
        false
    }
}

/// A gate that sends no task back.
impl Gate for () {
    ghost sends_back = { λ _ _. ⊥ };

    fn between(&self, _name: &TaskName) {}
}
