//! Sessions that begin (TLCP 2.1, create_session). After `NoMemory` the hub is as before.
ghost use Rattle.std.specs.Prelude.{◌≡◌, ◌<◌, length, map, Some, None, Option, ℕ, OnOk, OnErr};
ghost use Rattle.std.specs.Option.{ForSome};
ghost use Rattle.ls_value.specs.declared.limits.TheConstants.{GREATEST_NUMBER};
ghost use Rattle.ls_world.specs.World.{World};
ghost use Rattle.ls_record.specs.Records.{change};
ghost use Rattle.ls_world.specs.Acting.{is_set_of, create_code};
ghost use Rattle.ls_world.specs.Steps.{creates, created, refuses_stream};
ghost use Rattle.ls_record.specs.declared.TheConstants.{MOST_SESSIONS};
ghost use Rattle.ls_hub.specs.Hub.{StandsHub, StandsAsBefore, Prints, seen};

use crate::hub::{Connection, Hub};
use ls_acts::session_refused;
use ls_record::MOST_SESSIONS;
use ls_request::Create;
use ls_session::Session;
use ls_value::{GREATEST_NUMBER, NoMemory, Text, same_bytes};

impl Hub {
    /// A create_session: a new session, which is the connection's, or CONERR on the connection. A bandwidth is above 0.
    pub(crate) fn open(
        &mut self,
        connection: usize,
        create: &Create,
        text: &mut Vec<u8>,
    ) -> Result<(), NoMemory>
        requires { ForSome create.now.bandwidth (λ limit. 0 < limit) }
        ensures ok { OnOk result ((w : World) → StandsHub self.old w
            → Prints (creates w connection create.now) text.old.items text.new.items self.new) }
        ensures err { OnErr result (StandsAsBefore self.old self.new) }
    {
        match self.create_code(create) {
            Some(code) => self.refuse_stream(connection, code, text),
            None => self.begin(connection, create),
        }
    }

    /// What a create_session is refused for: another adapter set, too many sessions, or that no number is left for one.
    fn create_code(&self, create: &Create) -> Option<u16>
        ensures code { (w : World) → StandsHub self.now w → result ≡ create_code w create.now }
        ensures room { result ≡ None → (length self.now.living.items < MOST_SESSIONS)
            × (length self.now.sessions.items < GREATEST_NUMBER) }
    {
        if !self.has_set(&create.set) {
            Some(2)
        } else if self.living.len() >= MOST_SESSIONS {
            Some(8)
        } else if self.sessions.len() as u64 >= GREATEST_NUMBER {
            Some(74)
        } else {
            None
        }
    }

    /// Whether the adapter set is the one that is named, where one is.
    fn has_set(&self, name: &Option<Text>) -> bool
        ensures { (w : World) → self.now.config.set ≡ w.set → result ≡ is_set_of w name.now }
    {
        match name {
            None => true,
            Some(name) => same_bytes(name.as_bytes(), self.config.set.as_bytes()),
        }
    }

    /// A new session, which is the connection's.
    fn begin(&mut self, connection: usize, create: &Create) -> Result<(), NoMemory>
        requires living { length self.old.living.items < MOST_SESSIONS }
        requires number { length self.old.sessions.items < GREATEST_NUMBER }
        requires bandwidth { ForSome create.now.bandwidth (λ limit. 0 < limit) }
        ensures ok { OnOk result ((w : World) → StandsHub self.old w
            → StandsHub self.new (created w connection create.now)) }
        ensures err { OnErr result (StandsAsBefore self.old self.new) }
    {
        let place = self.sessions.len();
        self.living.reserve(1)?;
        let session = Session::new(self.alloc, place as u64 + 1, create, self.tick)?;
        self.sessions.push(session)?;
        self.living.push_reserved(place);
        give_session(&mut self.connections, connection, place, 1);
        Ok(())
    }

    /// CONERR on a connection: a request for a session or a stream is refused for the cause of a code.
    pub(crate) fn refuse_stream(
        &self,
        connection: usize,
        code: u16,
        text: &mut Vec<u8>,
    ) -> Result<(), NoMemory>
        ensures { OnOk result ((w : World) → StandsHub self.now w
            → Prints (refuses_stream w connection code) text.old.items text.new.items self.now) }
    {
        let line = session_refused(self.alloc, code)?;
        self.line(connection, line, text)
    }
}

/// Gives a connection the session of a place, and the stream of an epoch.
pub(crate) fn give_session(
    connections: &mut Vec<Connection>,
    connection: usize,
    place: usize,
    epoch: u64,
)
    ensures { map seen connections.new.items
        ≡ change connection (λ c. record c { session = Some place; epoch = epoch }) (map seen connections.old.items) }
{
    if let Some(connection) = connections.get_mut(connection) {
        connection.session = Some(place);
        connection.epoch = epoch;
    }
}
