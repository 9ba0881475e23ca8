//! SHOW, DUMP and LIST of a session.
ghost use Rattle.std.specs.Prelude.{◌≡◌, Bool, position};
ghost use Rattle.std.specs.Str.{bytes_eq};
ghost use Rattle.lj_session.specs.declared.command.Command.TheVariants as commands;
ghost use Rattle.lj_session.specs.UserState.{Reads, loaded_names, pending_in};

use crate::refusal::Refusal;
use crate::reply::Reply;
use crate::state::UserState;
use lj_base::Name;

impl UserState {
    /// Shows the place of an atom of a session. The index is that of the session.
    pub(crate) fn show(&self, name: Name, index: Option<usize>, atom: u64) -> Result<Reply, Refusal>
        requires index { index ≡ position (bytes_eq name) (loaded_names self.now) }
        requires pending { pending_in self.now name ≡ 0 }
        ensures { Reads self.now (commands.Show name atom) result }
    {
        let Some(session) = self.found(&name, index) else {
            return Err(Refusal::NoSession);
        };
        let sim = &session.sim;
        if atom >= sim.count() as u64 {
            return Err(Refusal::NoAtom);
        }
        Ok(Reply::Shown {
            name,
            step: sim.step(),
            atom,
            place: sim.place(atom as usize),
        })
    }

    /// Writes out the frame of a session. The index is that of the session.
    pub(crate) fn dump(&self, name: Name, index: Option<usize>) -> Result<Reply, Refusal>
        requires { index ≡ position (bytes_eq name) (loaded_names self.now) }
        ensures { Reads self.now (commands.Dump name) result }
    {
        let Some(_session) = self.found(&name, index) else {
            return Err(Refusal::NoSession);
        };
        Ok(Reply::Dumped { name })
    }

    /// Lists the saved simulations of a session.
    pub(crate) fn list_branches(&self, name: Name) -> Result<Reply, Refusal>
        ensures { Reads self.now (commands.ListBranches name) result }
    {
        if !self.has(&name) {
            return Err(Refusal::NoSession);
        }
        Ok(Reply::ListedBranches { name })
    }
}
