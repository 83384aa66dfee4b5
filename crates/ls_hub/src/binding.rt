//! Streams that begin anew or are lost (TLCP 2.1, bind_session, force_rebind). After `NoMemory` the hub is as before.
ghost use Rattle.std.specs.Prelude.{◌≡◌, ◌<◌, ◌+◌, ◌++◌, length, OnOk, OnErr};
ghost use Rattle.ls_world.specs.World.{World};
ghost use Rattle.ls_record.specs.Records.{Session as ASession};
ghost use Rattle.ls_world.specs.Steps.{binds, loses};
ghost use Rattle.ls_hub.specs.Hub.{StandsHub, StandsAsBefore, Prints};
ghost use Rattle.ls_hub.specs.Requests.{IsLiving, binds_living, out_of_loss};

use crate::creating::give_session;
use crate::hub::Hub;
use crate::printing::append_out;
use ls_acts::UNKNOWN_SESSION;
use ls_request::Bind;
use ls_session::Lost;
use ls_step::{LONGEST_NOTE, Out};
use ls_subs::Refusal;
use ls_value::NoMemory;

impl Hub {
    /// A bind_session: a new stream of the session that it names, which is the connection's, or CONERR on the
    /// connection.
    pub(crate) fn bind(
        &mut self,
        connection: usize,
        bind: &Bind,
        text: &mut Vec<u8>,
    ) -> Result<(), NoMemory>
        ensures ok { OnOk result ((w : World) → StandsHub self.old w
            → Prints (binds w connection bind.now) text.old.items text.new.items self.new) }
        ensures err { OnErr result (StandsAsBefore self.old self.new) }
    {
        match self.living(self.named(connection, Some(bind.session))) {
            None => self.refuse_stream(connection, UNKNOWN_SESSION, text),
            Some(place) => self.bind_living(connection, place, bind, text),
        }
    }

    /// A new stream of the session of a place, which the bind names and which hasn't ended, or CONERR on the
    /// connection.
    fn bind_living(
        &mut self,
        connection: usize,
        place: usize,
        bind: &Bind,
        text: &mut Vec<u8>,
    ) -> Result<(), NoMemory>
        requires { place < length self.old.sessions.items }
        ensures ok { OnOk result ((w : World) (s : ASession) → StandsHub self.old w → IsLiving w place s
            → bind.now.session ≡ place + 1
            → Prints (binds_living w connection bind.now place s) text.old.items text.new.items self.new) }
        ensures err { OnErr result (StandsAsBefore self.old self.new) }
    {
        let now = self.tick;
        match self.sessions[place].bind(bind, now) {
            Err(Refusal::Code(code)) => self.refuse_stream(connection, code, text),
            Err(Refusal::NoMemory) => Err(NoMemory),
            Ok(epoch) => {
                give_session(&mut self.connections, connection, place, epoch);
                Ok(())
            }
        }
    }

    /// The stream of a connection is lost, and a note, for which room is taken first, says what comes of it.
    pub(crate) fn lose(&mut self, connection: u32, text: &mut Vec<u8>) -> Result<(), NoMemory>
        ensures ok { OnOk result ((w : World) → StandsHub self.old w
            → Prints (loses w connection) text.old.items text.new.items self.new) }
        ensures err { OnErr result (StandsAsBefore self.old self.new) }
    {
        let Some(place) = self.session_place(connection as usize) else {
            return append_out(text, Out::NoSession);
        };
        text.reserve(LONGEST_NOTE)?;
        let epoch = self.epoch_of(connection as usize);
        let now = self.tick;
        let lost = self.sessions[place].lose(epoch, now);
        append_out(text, out_of_loss(lost))
    }
}

/// What the loss of a stream prints.
fn out_of_loss(lost: Lost) -> Out
    ensures { result ≡ out_of_loss lost }
{
    match lost {
        Lost::Unbound => Out::Lost,
        Lost::Superseded { epoch } => Out::Superseded { epoch },
        Lost::NotBound => Out::Unbound,
    }
}
