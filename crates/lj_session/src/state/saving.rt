//! BRANCH, RESTORE and FORGET.
ghost use Rattle.std.specs.Prelude.{◌≡◌, OnErr};
ghost use Rattle.lj_session.specs.declared.command.Command.TheVariants as commands;
ghost use Rattle.lj_session.specs.UserState.{Performs, pending_in};

use crate::refusal::Refusal;
use crate::reply::Reply;
use crate::state::UserState;
use lj_base::Name;
use lj_quota::may_branch;

impl UserState {
    /// Saves the simulation of a session under a new name.
    pub(crate) fn branch(&mut self, name: Name, branch: Name) -> Result<Reply, Refusal>
        requires { pending_in self.old name ≡ 0 }
        ensures performs { Performs self.old (commands.Branch name branch) result self.new }
        ensures quota { self.new.quota ≡ self.old.quota }
        ensures unchanged { OnErr result (self.new ≡ self.old) }
    {
        let Some(session) = self.sessions.get_mut(&name) else {
            return Err(Refusal::NoSession);
        };
        if session.branches.count_of(&branch).is_some() {
            return Err(Refusal::BranchExists);
        }
        may_branch(&self.quota, &self.used)?;
        session.branches.save(branch.copy(), &session.sim)?;
        let step = session.sim.step();
        self.used.branches += 1;
        Ok(Reply::Branched { name, branch, step })
    }

    /// Restores the simulation saved in a session under a name.
    pub(crate) fn restore(&mut self, name: Name, branch: Name) -> Result<Reply, Refusal>
        requires { pending_in self.old name ≡ 0 }
        ensures performs { Performs self.old (commands.Restore name branch) result self.new }
        ensures quota { self.new.quota ≡ self.old.quota }
        ensures unchanged { OnErr result (self.new ≡ self.old) }
    {
        let Some(session) = self.sessions.get_mut(&name) else {
            return Err(Refusal::NoSession);
        };
        session.branches.restore_into(&branch, &mut session.sim)?;
        let step = session.sim.step();
        Ok(Reply::Restored { name, branch, step })
    }

    /// Removes the simulation saved in a session under a name.
    pub(crate) fn forget(&mut self, name: Name, branch: Name) -> Result<Reply, Refusal>
        ensures performs { Performs self.old (commands.Forget name branch) result self.new }
        ensures quota { self.new.quota ≡ self.old.quota }
        ensures unchanged { OnErr result (self.new ≡ self.old) }
    {
        let Some(session) = self.sessions.get_mut(&name) else {
            return Err(Refusal::NoSession);
        };
        session.branches.forget(&branch)?;
        self.used.branches -= 1;
        Ok(Reply::Forgotten { name, branch })
    }
}
