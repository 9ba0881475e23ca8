//! REVERSE and TUG.
ghost use Rattle.std.specs.Prelude.{◌≡◌, OnErr};
ghost use Rattle.lj_session.specs.declared.command.Command.TheVariants as commands;
ghost use Rattle.lj_session.specs.UserState.{Performs, pending_in};

use crate::refusal::Refusal;
use crate::reply::Reply;
use crate::state::UserState;
use lj_base::Name;
use lj_step::Displacement;

impl UserState {
    /// Reverses the motion of a session.
    pub(crate) fn reverse(&mut self, name: Name) -> Result<Reply, Refusal>
        requires { pending_in self.old name ≡ 0 }
        ensures performs { Performs self.old (commands.Reverse name) result self.new }
        ensures quota { self.new.quota ≡ self.old.quota }
        ensures unchanged { OnErr result (self.new ≡ self.old) }
    {
        let Some(session) = self.sessions.get_mut(&name) else {
            return Err(Refusal::NoSession);
        };
        session.sim.reverse();
        let step = session.sim.step();
        Ok(Reply::Reversed { name, step })
    }

    /// Adds a displacement per step to an atom of a session.
    pub(crate) fn tug(&mut self, name: Name, atom: u64, by: Displacement) -> Result<Reply, Refusal>
        requires { pending_in self.old name ≡ 0 }
        ensures performs { Performs self.old (commands.Tug name atom by.x by.y by.z) result self.new }
        ensures quota { self.new.quota ≡ self.old.quota }
        ensures unchanged { OnErr result (self.new ≡ self.old) }
    {
        let Some(session) = self.sessions.get_mut(&name) else {
            return Err(Refusal::NoSession);
        };
        if atom >= session.sim.count() as u64 {
            return Err(Refusal::NoAtom);
        }
        session.sim.tug(atom as usize, by);
        let step = session.sim.step();
        Ok(Reply::Tugged { name, atom, step })
    }
}
