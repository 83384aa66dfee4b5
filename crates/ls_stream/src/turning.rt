//! Which line is given next on a stream (TLCP 2.1, streams).
ghost use Rattle.std.specs.Prelude.{◌≡◌, ◌<◌, length};
ghost use Rattle.ls_keep.specs.Kept.{last_of};
ghost use Rattle.ls_record.specs.Turning.{gives_unbound};
ghost use Rattle.ls_record.specs.Records.{Session, Alive};
ghost use Rattle.ls_stream.specs.Giving.{given_first, bound_first, owed_first};
ghost use Rattle.ls_stream.specs.Standing.{StandsLines, GivesFirst, GivesNumbered, AnswersGives, after_line};
ghost use Rattle.ls_stream.specs.declared.lines.Life.TheVariants as life;
ghost use Rattle.ls_stream.specs.declared.lines.Current.TheVariants as current;

use crate::lines::{Current, Life, Lines, StreamTurn};
use ls_value::Bytes;
use std::mem::swap;

impl Lines {
    /// What is given at a tick, in ms, on the stream of an epoch: END where the session has ended and its client wasn't
    /// told; else the first line that is owed; else LOOP, where the stream is over, which leaves the session without
    /// one; else the next numbered line. Nothing is given on an older stream, or where none is bound. No memory is
    /// taken.
    pub fn turn(&mut self, now: u64, epoch: u64) -> StreamTurn
        ensures { (s : Session) → StandsLines self.old s → GivesFirst (given_first now epoch s) s result self.new }
    {
        if epoch < self.stream.epoch {
            return StreamTurn::Superseded {
                epoch: self.stream.epoch,
            };
        }
        match self.unbound {
            Some(_) => self.turn_unbound(),
            None => self.turn_bound(now),
        }
    }

    /// What is said where no stream is bound.
    fn turn_unbound(&self) -> StreamTurn
        ensures { (s : Session) → StandsLines self.now s → AnswersGives (gives_unbound s.life) result self.now }
    {
        match self.life {
            Life::Alive => StreamTurn::Unbound,
            Life::Ending(code) => StreamTurn::Ended { code },
            Life::Ended(code) => StreamTurn::Ended { code },
        }
    }

    /// What is given on the stream that is bound.
    fn turn_bound(&mut self, now: u64) -> StreamTurn
        ensures { (s : Session) → StandsLines self.old s → GivesFirst (bound_first now s s.life) s result self.new }
    {
        match self.life {
            Life::Alive => self.turn_alive(now),
            Life::Ending(code) => {
                self.give_end(code);
                StreamTurn::Line
            }
            Life::Ended(code) => StreamTurn::Ended { code },
        }
    }

    /// What is given on the stream of a session that hasn't ended.
    fn turn_alive(&mut self, now: u64) -> StreamTurn
        ensures { (s : Session) → StandsLines self.old s → s.life ≡ Alive
            → GivesFirst (owed_first now s s.owed) s result self.new }
    {
        if let Some(text) = self.owed.pop_front() {
            self.give(text);
            return StreamTurn::Line;
        }
        if self.stream.is_over() {
            self.unbound = Some(now);
            self.current = Current::Loop;
            return StreamTurn::Line;
        }
        if self.keep.sent() < self.keep.last() {
            self.give_numbered();
            return StreamTurn::Line;
        }
        StreamTurn::Nothing
    }

    /// A line that isn't numbered is given.
    fn give(&mut self, text: Bytes)
        ensures { self.new ≡ record self.old {
          stream = after_line (length text) self.old.stream;
          given = text;
          current = current.Owed;
        } }
    {
        self.stream.count(text.len());
        self.given = text;
        self.current = Current::Owed;
    }

    /// The next numbered line is given.
    fn give_numbered(&mut self)
        requires { self.old.keep.sent < last_of self.old.keep }
        ensures { GivesNumbered self.old self.new }
    {
        self.keep.mark();
        self.stream.count(self.keep.given().len());
        self.current = Current::Numbered;
    }

    /// END is given for the cause of a code.
    fn give_end(&mut self, code: u16)
        ensures { self.new ≡ record self.old {
          stream = after_line (length self.old.end) self.old.stream;
          given = self.old.end;
          end = self.old.given;
          current = current.Owed;
          life = life.Ended code;
        } }
    {
        self.stream.count(self.end.len());
        swap(&mut self.given, &mut self.end);
        self.current = Current::Owed;
        self.life = Life::Ended(code);
    }
}
