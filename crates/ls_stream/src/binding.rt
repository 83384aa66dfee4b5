//! New streams, and streams that are lost (TLCP 2.1, bind_session and force_rebind).
ghost use Rattle.std.specs.Prelude.{◌≡◌, ◌+◌, ℕ, true, None, length, IfOk, OnErr};
ghost use Rattle.ls_request.specs.Ranges.{BindFits};
ghost use Rattle.ls_keep.specs.Keeping.{Numbered, resumed};
ghost use Rattle.ls_keep.specs.Kept.{StandsKeep, last_of};
ghost use Rattle.ls_record.specs.Acting.{bind_code, may_resume};
ghost use Rattle.ls_record.specs.Records.{Session, rebound, forced, unbound_at, is_alive};
ghost use Rattle.ls_stream.specs.Standing.{StandsLines, MayBind, MayResume, ResumesAt};

use crate::lines::Lines;
use crate::opening::rebound_lines;
use crate::stream::Stream;
use ls_keep::Keep;
use ls_request::Bind;
use ls_value::{GREATEST_NUMBER, NoMemory};
use std::collections::VecDeque;

impl Lines {
    /// Why a new stream of a session that hasn't ended is refused: 4 where the line after the count that the client tells
    /// isn't kept, or the count is beyond the last line; 74 where no epoch is left.
    pub fn code_of_bind(&self, bind: &Bind) -> Option<u16>
        ensures code { (s : Session) → StandsLines self.now s → is_alive s.life ≡ true
            → result ≡ bind_code s bind.now }
        ensures may { result ≡ None → MayBind self.now bind.now }
    {
        if self.may_resume(bind.recover) {
            if self.stream.epoch < GREATEST_NUMBER {
                None
            } else {
                Some(74)
            }
        } else {
            Some(4)
        }
    }

    /// Whether the next line behind a count is kept, or is yet to be numbered; without a count it is.
    fn may_resume(&self, recover: Option<u64>) -> bool
        ensures stands { (s : Session) → StandsLines self.now s → is_alive s.life ≡ true
            → result ≡ may_resume s recover }
        ensures may { result ≡ true → MayResume self.now.keep recover }
    {
        match recover {
            None => true,
            Some(count) => self.keep.given_up() <= count && count <= self.keep.last(),
        }
    }

    /// A new stream of a session that hasn't ended: the next numbered line that is given is the one after the count that
    /// the client tells, and else the one after the line given last. Its own first lines alone are owed to it, with the
    /// session's bandwidth in thousandths of a kbit per second. Its epoch is answered.
    pub fn bind(&mut self, bind: &Bind, limit: Option<u64>) -> Result<u64, NoMemory>
        requires may { MayBind self.old bind.now }
        ensures ok { IfOk result (λ epoch. (s : Session) → StandsLines self.old s → is_alive s.life ≡ true
            → limit ≡ s.rate.limit
            → (epoch ≡ length s.streams + 1) × StandsLines self.new (rebound bind.now.session bind.now s)) }
        ensures err { OnErr result (self.new ≡ self.old) }
    {
        let owed = rebound_lines(self.alloc, bind, limit)?;
        resume(&mut self.keep, bind.recover);
        self.owed = VecDeque::from_vec(owed);
        self.stream = Stream::new(self.stream.epoch + 1, bind.length);
        self.unbound = None;
        Ok(self.stream.epoch)
    }

    /// From a tick on, in ms, no stream is bound. No memory is taken.
    pub fn unbind(&mut self, now: u64)
        ensures { (s : Session) → StandsLines self.old s → StandsLines self.new (unbound_at now s) }
    {
        self.unbound = Some(now);
    }

    /// The newest stream is forced to be over: LOOP is the next line on it behind those that are owed. No memory is
    /// taken.
    pub fn force(&mut self)
        ensures { (s : Session) → StandsLines self.old s → StandsLines self.new (forced s) }
    {
        self.stream.forced = true;
    }
}

/// The next line to be given is the one behind a count, where there is one.
fn resume(keep: &mut Keep, recover: Option<u64>)
    requires { MayResume keep.old recover }
    ensures { ResumesAt recover keep.old keep.new }
{
    if let Some(count) = recover {
        let _resumed = keep.resume(count);
    }
}
