//! Control requests: a subscription is added, ended or gets another frequency, and a session gets another bandwidth or
//! is ended (TLCP 2.1, control). After `NoMemory` the hub is as before.
ghost use Rattle.std.specs.Prelude.{◌≡◌, ◌<◌, ◌⊎◌, ◌++◌, length, map, None, IfOk, IfSome, OnOk, OnErr};
ghost use Rattle.ls_line.specs.Lines.{text_of_line};
ghost use Rattle.ls_request.specs.Ranges.{OpFits};
ghost use Rattle.ls_request.specs.declared.request.Request.TheVariants as request;
ghost use Rattle.ls_step.specs.Notes.{text_of_out};
ghost use Rattle.ls_step.specs.declared.out.Out.TheVariants as out;
ghost use Rattle.ls_world.specs.World.{World};
ghost use Rattle.ls_record.specs.Records.{Session as ASession, ended, timed_out};
ghost use Rattle.ls_record.specs.Acting.{destroyed};
ghost use Rattle.ls_world.specs.Steps.{acts, operates, session_named};
ghost use Rattle.ls_hub.specs.Hub.{StandsHub, StandsAsBefore, Prints, name_at, seen};
ghost use Rattle.ls_acts.specs.Answers.{answer_line};
ghost use Rattle.ls_hub.specs.Requests.{living_place, place_of_number, IsLiving, DidOperate};
ghost use Rattle.ls_hub.specs.Requests.{operation, operation_code, is_end};

use crate::hub::Hub;
use crate::ticking::leave_out;
use ls_acts::{UNKNOWN_SESSION, act, answer, end};
use ls_request::{Control, Op};
use ls_value::{NoMemory, Text};

impl Hub {
    /// A control request on the session that it names, or else on the connection's: REQERR where that isn't there or
    /// has ended.
    pub(crate) fn control(
        &mut self,
        connection: usize,
        control: &Control,
        text: &mut Vec<u8>,
    ) -> Result<(), NoMemory>
        requires { OpFits control.now.op }
        ensures ok { OnOk result ((w : World) → StandsHub self.old w
            → Prints (acts w connection (request.Control control.now)) text.old.items text.new.items self.new) }
        ensures err { OnErr result (StandsAsBefore self.old self.new) }
    {
        match self.living(self.named(connection, control.session)) {
            None => self.answer(connection, &control.req, Some(UNKNOWN_SESSION), text),
            Some(place) => self.operate(connection, &control.req, place, &control.op, text),
        }
    }

    /// The place of the session of a number from 1, or else of the connection's.
    pub(crate) fn named(&self, connection: usize, session: Option<u64>) -> Option<usize>
        ensures { (w : World) → map seen self.now.connections.items ≡ w.connections
            → result ≡ session_named w connection session }
    {
        match session {
            None => self.session_of(connection),
            Some(number) => place_of(number),
        }
    }

    /// The session of a place, if there is one that hasn't ended.
    pub(crate) fn living(&self, place: Option<usize>) -> Option<usize>
        ensures within { IfSome result (λ n. n < length self.now.sessions.items) }
        ensures living { (w : World) → StandsHub self.now w → result ≡ living_place w.sessions place }
    {
        let place = place?;
        let session = self.sessions.get(place)?;
        if session.is_alive() {
            Some(place)
        } else {
            None
        }
    }

    /// An operation on the session of a place, which hasn't ended, and its answer: REQOK is appended before anything is
    /// done, and gives way to REQERR where the operation is refused.
    fn operate(
        &mut self,
        connection: usize,
        req: &Text,
        place: usize,
        op: &Op,
        text: &mut Vec<u8>,
    ) -> Result<(), NoMemory>
        requires place { place < length self.old.sessions.items }
        requires fits { OpFits op.now }
        ensures ok { OnOk result ((w : World) (s : ASession) → StandsHub self.old w → IsLiving w place s
            → Prints (operates w connection req.now op.now place s) text.old.items text.new.items self.new) }
        ensures err { OnErr result ((w : World) (s : ASession) → StandsHub self.old w → IsLiving w place s
            → StandsHub self.new w) }
    {
        let begin = text.len();
        self.answer(connection, req, None, text)?;
        match self.change(place, op)? {
            None => Ok(()),
            Some(code) => {
                text.truncate(begin);
                self.answer(connection, req, Some(code), text)
            }
        }
    }

    /// An operation on the session of a place, which hasn't ended, or the code that it is refused for.
    fn change(&mut self, place: usize, op: &Op) -> Result<Option<u16>, NoMemory>
        requires place { place < length self.old.sessions.items }
        requires fits { OpFits op.now }
        ensures connections { self.new.connections ≡ self.old.connections }
        ensures did { IfOk result (λ code. (w : World) (s : ASession) → StandsHub self.old w → IsLiving w place s
            → DidOperate w place (operation_code w s op.now) (operation w op.now) code self.new) }
        ensures err { OnErr result (StandsAsBefore self.old self.new) }
    {
        let code = act(
            self.alloc,
            &mut self.cells,
            &mut self.sessions[place],
            op,
            &self.config,
            self.tick,
        )?;
        if is_end(op) {
            leave_out(&mut self.living, place);
            Ok(code)
        } else {
            Ok(code)
        }
    }

    /// The session of a place, which hasn't ended, ends for the cause of a code, by a request or by time: its slots
    /// leave. No memory is taken.
    pub(crate) fn end(&mut self, place: usize, code: u16)
        requires place { place < length self.old.sessions.items }
        requires cause { (code ≡ destroyed) ⊎ (code ≡ timed_out) }
        ensures connections { self.new.connections ≡ self.old.connections }
        ensures did { (w : World) (s : ASession) → StandsHub self.old w → IsLiving w place s
            → DidOperate w place None (ended code) None self.new }
    {
        end(&mut self.cells, &mut self.sessions[place], code);
        leave_out(&mut self.living, place);
    }

    /// The answer to a control request on a connection.
    fn answer(
        &self,
        connection: usize,
        req: &Text,
        code: Option<u16>,
        text: &mut Vec<u8>,
    ) -> Result<(), NoMemory>
        ensures { OnOk result (text.new.items ≡ text.old.items ++ text_of_out
            (out.Line (name_at self.now.connections.items connection) (text_of_line (answer_line req.now code)))) }
    {
        let line = answer(self.alloc, req, code)?;
        self.line(connection, line, text)
    }
}

/// The place, from 0, of the session of a number; 0 is no session's.
fn place_of(number: u64) -> Option<usize>
    ensures { result ≡ place_of_number number }
{
    let place = number.checked_sub(1)?;
    Some(place as usize)
}

/// Whether an operation ends its session.
fn is_end(op: &Op) -> bool
    ensures { result ≡ is_end op.now }
{
    match op {
        Op::Destroy => true,
        Op::Add(_) => false,
        Op::Delete { .. } => false,
        Op::Reconf { .. } => false,
        Op::Constrain { .. } => false,
        Op::ForceRebind => false,
    }
}
