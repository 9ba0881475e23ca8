//! LOAD and LOADMIX, and DROP.
ghost use Rattle.std.specs.Prelude.{◌≡◌, OnErr};
ghost use Rattle.lj_session.specs.declared.command.Command.TheVariants as commands;
ghost use Rattle.lj_session.specs.Loads.{admission};
ghost use Rattle.lj_session.specs.UserState.{Performs, user_of, pending_in};

use crate::body::LoadBody;
use crate::command::Load;
use crate::live_session::LiveSession;
use crate::parsed_load::ParsedLoad;
use crate::refusal::Refusal;
use crate::reply::Reply;
use crate::state::UserState;
use lj_base::Name;
use lj_quota::{may_load, may_session};
use lj_ring::Mix;

impl UserState {
    /// Loads a session from a body.
    pub(crate) fn load(&mut self, load: Load) -> Result<Reply, Refusal>
        ensures performs { Performs self.old (commands.Load load) result self.new }
        ensures quota { self.new.quota ≡ self.old.quota }
        ensures unchanged { OnErr result (self.new ≡ self.old) }
    {
        let mix = self.admit(&load)?;
        let Load {
            name,
            interactions,
            mode,
            body,
            ..
        } = load;
        let LoadBody::Read(body) = body else {
            return Err(Refusal::Memory);
        };
        let alloc = *self.sessions.allocator();
        let symbols = interactions.symbols();
        let parsed = ParsedLoad::read(alloc, mode, symbols, &body)?;
        let atoms = parsed.count();
        may_load(&self.quota, &self.used, atoms as u64)?;
        let session = parsed.session(alloc, mix, symbols)?;
        self.sessions.insert(name.copy(), session)?;
        self.used.sessions += 1;
        self.used.atoms += atoms as u64;
        Ok(interactions.loaded(name, atoms))
    }

    /// Removes a session. The others keep their order.
    pub(crate) fn unload(&mut self, name: Name) -> Result<Reply, Refusal>
        requires { pending_in self.old name ≡ 0 }
        ensures performs { Performs self.old (commands.Unload name) result self.new }
        ensures quota { self.new.quota ≡ self.old.quota }
        ensures unchanged { OnErr result (self.new ≡ self.old) }
    {
        let Some(session) = self.sessions.shift_remove(&name) else {
            return Err(Refusal::NoSession);
        };
        self.used.sessions -= 1;
        self.used.atoms -= session.sim.count() as u64;
        self.used.branches -= session.branches.len() as u64;
        Ok(Reply::Unloaded { name })
    }

    /// Returns the mixture of a load, or its first refusal before the body.
    fn admit(&self, load: &Load) -> Result<Mix, Refusal>
        ensures { result ≡ admission (user_of self.now) load.now }
    {
        if self.has(&load.name) {
            return Err(Refusal::Exists);
        }
        may_session(&self.quota, &self.used)?;
        load.interactions.mix(load.edge)
    }
}
