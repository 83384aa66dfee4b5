//! A live subscription and the tables of its items.
ghost use Rattle.std.specs.Prelude.{◌≡◌, ℕ, OnOk, OnErr, IfErr, IsErrOf};
ghost use Rattle.std.specs.Option.{option_map};
ghost use Rattle.ls_mirror.specs.Refusing.{IsBad, RefusedBy, AnswersBad};
ghost use Rattle.ls_mirror.specs.Tables.{heard_value};
ghost use Rattle.ls_mirror.specs.Standing.{IsSubscriptionAfter, IsSame, AreSame, AreSubscriptionsAfter, IsBadAt};
ghost use Rattle.ls_mirror.specs.Standing.{AnswersUnknown, unless_known, has_item, begun_of, table_at};
ghost use Rattle.ls_mirror.specs.Standing.{subscription_at};

use crate::command::KeyPlaces;
use crate::refused::MirrorRefused;
use crate::table::{Heard, Table};
use std::alloc::Global;
use std::collections::BTreeMap;

/// A live subscription.
#[derive(Drop)]
pub(crate) struct Subscription {
    /// How many items it has.
    pub(crate) items: u32,
    /// How many fields each row has.
    pub(crate) fields: u32,
    /// In mode COMMAND the places of the key and the command.
    pub(crate) places: Option<KeyPlaces>,
    /// The tables by item. An item of which nothing came may have none.
    pub(crate) tables: BTreeMap<u32, Table>,
}

impl Subscription {
    /// Takes what a line says of an item. After a refusal the tables are as before.
    pub(crate) fn hear(
        &mut self,
        alloc: Global,
        item: u32,
        heard: Heard,
    ) -> Result<(), MirrorRefused>
        ensures ok { OnOk result (IsSubscriptionAfter item (heard_value heard.entry) self.old self.new) }
        ensures err { OnErr result (IsSame self.old self.new) }
        ensures refused { IfErr result (λ e. RefusedBy e (IsBad self.old.fields self.old.places
            (table_at self.old.tables item).last (heard_value heard.entry))) }
        ensures only_bad { IsBad self.old.fields self.old.places
            (table_at self.old.tables item).last (heard_value heard.entry) → AnswersBad result }
    {
        let table = self.tables.entry(item)?.or_insert(Table::new(alloc));
        table.hear(self.fields, self.places, heard)
    }
}

/// Takes what a line says of an item of a live subscription. After a refusal each subscription is as before.
pub(crate) fn hear_at(
    subscriptions: &mut BTreeMap<u32, Subscription>,
    alloc: Global,
    sub: u32,
    item: u32,
    heard: Heard,
) -> Result<(), MirrorRefused>
    ensures ok { OnOk result
        (AreSubscriptionsAfter sub item (heard_value heard.entry) subscriptions.old subscriptions.new) }
    ensures err { OnErr result ((q : ℕ) →
        AreSame (subscription_at subscriptions.old q) (subscription_at subscriptions.new q)) }
    ensures unknown { AnswersUnknown
        (unless_known (has_item (option_map begun_of (subscription_at subscriptions.old sub)) item) sub item) result }
    ensures bad { IsErrOf result MirrorRefused.BadFields
        → IsBadAt (subscription_at subscriptions.old sub) item (heard_value heard.entry) }
    ensures only_bad { IsBadAt (subscription_at subscriptions.old sub) item (heard_value heard.entry)
        → AnswersBad result }
{
    let Some(subscription) = subscriptions.get_mut(&sub) else {
        return Err(MirrorRefused::Unknown { sub, item });
    };
    if item == 0 || subscription.items < item {
        return Err(MirrorRefused::Unknown { sub, item });
    }
    subscription.hear(alloc, item, heard)
}
