//! The client.
ghost use Rattle.std.specs.Prelude.{◌≡◌, List, [], ◌∷◌, Option, None, Some, IfOk, OnOk, OnErr, IfErr, IfSome};
ghost use Rattle.std.specs.Prelude.{IsErrOf, is_some};
ghost use Rattle.ls_line.specs.declared.line.Line.{Line as AnyLine};
ghost use Rattle.ls_mirror.specs.Client.{begun_as, Begun};
ghost use Rattle.ls_mirror.specs.Refusing.{AnswersBad};
ghost use Rattle.ls_mirror.specs.Tables.{heard_value};
ghost use Rattle.ls_mirror.specs.Standing.{StandsClient, IsTableOf, has_item, unless_known, unknown_of};
ghost use Rattle.ls_mirror.specs.Standing.{AnswersUnknown, IsBadHeard, IsBadLine, BeginsOrEnds, IsHeardOf};

use crate::command::{KeyPlaces, places_of_subcmd};
use crate::refused::MirrorRefused;
use crate::subscription::{Subscription, hear_at};
use crate::table::{Heard, Table};
use ls_line::Line;
use ls_value::NoMemory;
use std::alloc::Global;
use std::collections::BTreeMap;

/// What a client knows by the lines that it was fed: the tables of its live subscriptions (TLCP 2.1, notifications).
#[derive(Drop)]
pub struct Client {
    alloc: Global,
    subscriptions: BTreeMap<u32, Subscription>,
    blank: Table,
}

impl Client {
    /// A client that was fed no lines.
    pub fn new(alloc: Global) -> Result<Client, NoMemory>
        ensures { IfOk result (λ client. StandsClient client []) }
    {
        Ok(Client {
            alloc,
            subscriptions: BTreeMap::new(alloc),
            blank: Table::new(alloc),
        })
    }

    /// The table of an item of a live subscription: `None` exactly where no live subscription has it. No memory is
    /// taken.
    pub fn table(&self, sub: u32, item: u32) -> Option<&Table>
        ensures table { IfSome result (λ t. (lines : List AnyLine) → StandsClient self.now lines
            → IsTableOf sub item lines t.now) }
        ensures some { (lines : List AnyLine) → StandsClient self.now lines
            → is_some result ≡ has_item (begun_as sub lines) item }
    {
        let Some(subscription) = self.subscriptions.get(&sub) else {
            return None;
        };
        if item == 0 || subscription.items < item {
            return None;
        }
        match subscription.tables.get(&item) {
            Some(table) => Some(table),
            None => Some(&self.blank),
        }
    }

    /// Takes a line. After a refusal the client is as before.
    ///
    /// SUBOK and SUBCMD begin a subscription, anew where its number is live, and UNSUB ends it. U, OV, CS and EOS add
    /// to the table of their item. CONF, and lines that are no numbered lines or answer a message, add nothing.
    ///
    /// `Unknown` comes exactly where an UNSUB or CONF names no live subscription, or an EOS, CS, OV or U no live one
    /// that has the item; `BadFields` where the coded fields of a U line say no row after the item's last row, or in
    /// mode COMMAND the row has no key or no command word.
    pub fn feed(&mut self, line: &Line) -> Result<(), MirrorRefused>
        ensures ok { OnOk result ((lines : List AnyLine) → StandsClient self.old lines
            → StandsClient self.new (line.now ∷ lines)) }
        ensures err { OnErr result ((lines : List AnyLine) → StandsClient self.old lines
            → StandsClient self.new lines) }
        ensures unknown { (lines : List AnyLine) → StandsClient self.old lines
            → AnswersUnknown (unknown_of lines line.now) result }
        ensures bad { (lines : List AnyLine) → StandsClient self.old lines → IsErrOf result MirrorRefused.BadFields
            → IsBadLine lines line.now }
        ensures only_bad { (lines : List AnyLine) → StandsClient self.old lines → IsBadLine lines line.now
            → AnswersBad result }
    {
        match line {
            Line::SubOk { sub, items, fields } => self.begin(*sub, *items, *fields, None),
            Line::SubCmd {
                sub,
                items,
                fields,
                key,
                command,
            } => {
                let places = places_of_subcmd(*key, *command);
                self.begin(*sub, *items, *fields, Some(places))
            }
            Line::Unsub { sub } => self.end(*sub),
            Line::Conf { sub, .. } => self.find(*sub),
            Line::Eos { sub, item } => self.hear(*sub, *item, Heard::Ended),
            Line::Cs { sub, item } => self.hear(*sub, *item, Heard::Emptied),
            Line::Ov { sub, item, lost } => self.hear(*sub, *item, Heard::Missed(*lost)),
            Line::U { sub, item, fields } => {
                self.hear(*sub, *item, Heard::Coded(fields.as_slice()))
            }
            _ => Ok(()),
        }
    }

    /// A subscription begins anew.
    fn begin(
        &mut self,
        sub: u32,
        items: u32,
        fields: u32,
        places: Option<KeyPlaces>,
    ) -> Result<(), MirrorRefused>
        ensures ok { OnOk result ((l : AnyLine) (lines : List AnyLine)
            → BeginsOrEnds l sub (Some (record { items = items; fields = fields; keyed = places }))
            → StandsClient self.old lines → StandsClient self.new (l ∷ lines)) }
        ensures err { OnErr result ((lines : List AnyLine) → StandsClient self.old lines
            → StandsClient self.new lines) }
        ensures refused { IfErr result (λ e. e ≡ MirrorRefused.NoMemory) }
    {
        let tables = BTreeMap::new(self.alloc);
        let subscription = Subscription {
            items,
            fields,
            places,
            tables,
        };
        self.subscriptions.insert(sub, subscription)?;
        Ok(())
    }

    /// A subscription ends.
    fn end(&mut self, sub: u32) -> Result<(), MirrorRefused>
        ensures ok { OnOk result ((l : AnyLine) (lines : List AnyLine) → BeginsOrEnds l sub None
            → StandsClient self.old lines → StandsClient self.new (l ∷ lines)) }
        ensures err { OnErr result ((lines : List AnyLine) → StandsClient self.old lines
            → StandsClient self.new lines) }
        ensures unknown { (lines : List AnyLine) → StandsClient self.old lines
            → AnswersUnknown (unless_known (is_some (begun_as sub lines)) sub 0) result }
        ensures refused { IfErr result (λ e. e ≡ MirrorRefused.Unknown sub 0) }
    {
        if self.subscriptions.remove(&sub).is_none() {
            return Err(MirrorRefused::Unknown { sub, item: 0 });
        }
        Ok(())
    }

    /// Whether a subscription is live.
    fn find(&self, sub: u32) -> Result<(), MirrorRefused>
        ensures unknown { (lines : List AnyLine) → StandsClient self.now lines
            → AnswersUnknown (unless_known (is_some (begun_as sub lines)) sub 0) result }
        ensures refused { IfErr result (λ e. e ≡ MirrorRefused.Unknown sub 0) }
    {
        if self.subscriptions.contains_key(&sub) {
            Ok(())
        } else {
            Err(MirrorRefused::Unknown { sub, item: 0 })
        }
    }

    /// Takes what a line says of an item.
    fn hear(&mut self, sub: u32, item: u32, heard: Heard) -> Result<(), MirrorRefused>
        ensures ok { OnOk result ((l : AnyLine) (lines : List AnyLine) → IsHeardOf l sub item (heard_value heard.entry)
            → StandsClient self.old lines → StandsClient self.new (l ∷ lines)) }
        ensures err { OnErr result ((lines : List AnyLine) → StandsClient self.old lines
            → StandsClient self.new lines) }
        ensures unknown { (lines : List AnyLine) → StandsClient self.old lines
            → AnswersUnknown (unless_known (has_item (begun_as sub lines) item) sub item) result }
        ensures bad { (lines : List AnyLine) → StandsClient self.old lines → IsErrOf result MirrorRefused.BadFields
            → IsBadHeard sub item lines (heard_value heard.entry) }
        ensures only_bad { (lines : List AnyLine) → StandsClient self.old lines
            → IsBadHeard sub item lines (heard_value heard.entry) → AnswersBad result }
    {
        hear_at(&mut self.subscriptions, self.alloc, sub, item, heard)
    }
}
