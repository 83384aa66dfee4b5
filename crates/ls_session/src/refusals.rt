//! Why requests on a session are refused (this project's profile).
ghost use Rattle.std.specs.Prelude.{◌≡◌, ◌≤◌, ◌+◌, ◌||◌, ◌∷◌, [], not, false, None, nat_le, nat_lt};
ghost use Rattle.ls_value.specs.declared.limits.TheConstants.{GREATEST_NUMBER};
ghost use Rattle.ls_record.specs.declared.TheConstants.{MOST_SUBSCRIPTIONS};
ghost use Rattle.ls_record.specs.Cases.{first_code};
ghost use Rattle.ls_record.specs.Records.{is_used};
ghost use Rattle.ls_record.specs.Acting.{subscriptions, are_too_many, are_spent, bind_code};
ghost use Rattle.ls_subs.specs.Kept.{has_sub};
ghost use Rattle.ls_session.specs.Record.{Record, unless_ended, binding_code, changing_code, constraining_code};
ghost use Rattle.ls_session.specs.Record.{numbering_code};
ghost use Rattle.ls_session.specs.Session.{StandsSession};
ghost use Rattle.ls_stream.specs.Standing.{MayBind, last_line};

use crate::session::Session;
use ls_record::{MOST_SUBSCRIPTIONS, MOST_UNSENT};
use ls_request::Bind;
use ls_value::GREATEST_NUMBER;

impl Session {
    /// Why a subscription of this number can't begin: one is live, or too many lines wait.
    pub(crate) fn code_of_number(&self, sub: u32) -> Option<u16>
        ensures code { (r : Record) → StandsSession self.now r
            → result ≡ first_code ((72, is_used sub r.session.board.round) ∷ (70, are_too_many r.session 2) ∷ []) }
        ensures new { result ≡ None → has_sub self.now.subs sub ≡ false }
    {
        first_code(&[(72, self.subs.has(sub)), (70, self.has_waiting(2))])
    }

    /// Why there is no room for one, whose slots are so many: the session has no more subscriptions, or the server not
    /// so many free slots; or no numbers are left for its lines.
    pub(crate) fn code_of_room(&self, slots: usize, free: u32) -> Option<u16>
        ensures code { (r : Record) → StandsSession self.now r
            → result ≡ first_code (
            (71, nat_le MOST_SUBSCRIPTIONS (subscriptions r.session.board.round) || nat_lt free slots)
            ∷ (74, are_spent r.session 2) ∷ []) }
        ensures left { result ≡ None → last_line self.now.lines + 2 ≤ GREATEST_NUMBER }
    {
        first_code(&[(71, self.is_full(slots, free)), (74, self.has_spent(2))])
    }

    /// Why a subscription can't end, or have another frequency: the session has ended, there is no such subscription,
    /// or there is no room or no number for its line.
    pub fn code_of_change(&self, sub: u32) -> Option<u16>
        ensures code { (r : Record) → StandsSession self.now r → result ≡ changing_code r.session sub }
        ensures left { result ≡ None → last_line self.now.lines + 1 ≤ GREATEST_NUMBER }
    {
        if self.is_alive() {
            first_code(&[
                (19, !self.subs.has(sub)),
                (70, self.has_waiting(1)),
                (74, self.has_spent(1)),
            ])
        } else {
            Some(20)
        }
    }

    /// Why a session can't have another bandwidth: it has ended, or too many lines are owed to its stream.
    pub(crate) fn code_of_constrain(&self) -> Option<u16>
        ensures { (r : Record) → StandsSession self.now r → result ≡ constraining_code r.session }
    {
        if self.is_alive() {
            first_code(&[(70, self.lines.owed() >= MOST_UNSENT)])
        } else {
            Some(20)
        }
    }

    /// Why a session can't have a new stream: the bind names another session, it has ended, the client can't go on
    /// after its count, or no epoch is left.
    pub fn code_of_bind(&self, bind: &Bind) -> Option<u16>
        ensures code { (r : Record) → StandsSession self.now r → result ≡ binding_code r.number r.session bind.now }
        ensures may { result ≡ None → MayBind self.now.lines bind.now }
        ensures named { result ≡ None → bind.now.session ≡ self.now.number }
    {
        if self.number == bind.session {
            self.code_of_stream(bind)
        } else {
            Some(20)
        }
    }

    /// Why a session can't have a new stream, where the bind names it.
    fn code_of_stream(&self, bind: &Bind) -> Option<u16>
        ensures code { (r : Record) → StandsSession self.now r
            → result ≡ unless_ended r.session (bind_code r.session bind.now) }
        ensures may { result ≡ None → MayBind self.now.lines bind.now }
    {
        if self.is_alive() {
            self.lines.code_of_bind(bind)
        } else {
            Some(20)
        }
    }

    /// Why one line more can't be numbered: the session has ended, or there is no room or no number for it.
    pub(crate) fn code_of_line(&self) -> Option<u16>
        ensures code { (r : Record) → StandsSession self.now r → result ≡ numbering_code r.session }
        ensures left { result ≡ None → last_line self.now.lines + 1 ≤ GREATEST_NUMBER }
    {
        if self.is_alive() {
            first_code(&[(70, self.has_waiting(1)), (74, self.has_spent(1))])
        } else {
            Some(20)
        }
    }

    /// Whether the session has as many subscriptions as it may have, or the server has not so many free slots.
    fn is_full(&self, slots: usize, free: u32) -> bool
        ensures { (r : Record) → StandsSession self.now r
            → result ≡ (nat_le MOST_SUBSCRIPTIONS (subscriptions r.session.board.round) || nat_lt free slots) }
    {
        if self.subs.len() >= MOST_SUBSCRIPTIONS {
            return true;
        }
        (free as usize) < slots
    }

    /// Whether, with so many lines more, too many would wait to be given.
    fn has_waiting(&self, more: u64) -> bool
        requires { more ≤ 2 }
        ensures { (r : Record) → StandsSession self.now r → result ≡ are_too_many r.session more }
    {
        self.lines.unsent().saturating_add(more) > MOST_UNSENT as u64
    }

    /// Whether there are no numbers for so many lines.
    fn has_spent(&self, more: u64) -> bool
        requires { more ≤ 2 }
        ensures own { result ≡ nat_lt GREATEST_NUMBER (last_line self.now.lines + more) }
        ensures spent { (r : Record) → StandsSession self.now r → result ≡ are_spent r.session more }
    {
        self.lines.last().saturating_add(more) > GREATEST_NUMBER
    }
}

/// The code of the first row whose condition holds.
fn first_code(rows: &[(u16, bool)]) -> Option<u16>
    ensures { result ≡ first_code rows.now }
{
    for row in rows {
        if row.1 {
            return Some(row.0);
        }
    }
    None
}
