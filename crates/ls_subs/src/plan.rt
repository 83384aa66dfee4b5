//! What a new subscription asks of the items of its group, and what is kept of it once it is live (TLCP 2.1, control
//! with LS_op add).
ghost use Rattle.std.specs.Prelude.{◌≡◌, IfOk, OnOk, OnErr};
ghost use Rattle.ls_subs.specs.Kept.{heard};
ghost use Rattle.ls_subs.specs.Subscription.{what_comes, line_if, Appends};

use crate::cut_line::CutLine;
use crate::followed::Followed;
use ls_budget::Frequency;
use ls_event::{Mode, Snap, Taken};
use ls_value::{Bytes, NoMemory};

/// Why a request on a session is refused.
#[derive(Clone, Copy, Debug, PartialEq, Eq)]
pub enum Refusal {
    /// For the cause of this code (this project's profile).
    Code(u16),
    /// Memory was refused.
    NoMemory,
}

impl From<NoMemory> for Refusal {
    ghost use Rattle.std.specs.Prelude.{◌≡◌};
    ghost use Rattle.ls_subs.specs.declared.plan.Refusal.TheVariants as refused;

    ghost from_gives = { λ _ e. e ≡ refused.NoMemory };

    fn from(_: NoMemory) -> Refusal {
        Refusal::NoMemory
    }
}

/// An item of a subscription: what is asked of it, and what its client has of it. Once the subscription is live it has
/// a slot on the item.
#[derive(Drop)]
pub struct PlanItem {
    /// The item's number, from 0.
    pub item: u32,
    /// How the slot tells of the item.
    pub mode: Mode,
    /// The size of its buffer, 1 to [`MOST_BUFFER_SIZE`](ls_event::MOST_BUFFER_SIZE).
    pub n: u32,
    /// The snapshot that is asked for; none in mode RAW.
    pub snapshot: Snap,
    /// The slot's number on the item, from 1; 0 before it joined.
    pub(crate) slot: u32,
    /// How often the slot may give an update, and when it did last.
    pub(crate) frequency: Frequency,
    /// What the client has of the item.
    pub(crate) followed: Followed,
}

impl PlanItem {
    /// Appends the line that a cut makes at a tick, and answers which one. Then the client has it, and an update is the
    /// item's last one. After `NoMemory` the item is as before, and a part of the line may be there.
    pub(crate) fn accept(
        &mut self,
        taken: Taken,
        now: u64,
        text: &mut Vec<u8>,
    ) -> Result<CutLine, NoMemory>
        ensures line { IfOk result (λ told. Appends
            (record { told = told; before = text.old.items; after = text.new.items })
            (line_if self.old.followed (what_comes self.old.followed taken))) }
        ensures ok { OnOk result (self.new ≡ heard now taken self.old) }
        ensures err { OnErr result (self.new ≡ self.old) }
    {
        let told = self.followed.accept(taken, text)?;
        match told {
            CutLine::Update => self.frequency.spend(now),
            CutLine::Nothing | CutLine::Other => {}
        }
        Ok(told)
    }
}

/// A new subscription that nothing stands against: its items join, and then it begins with two lines. All the memory
/// that it needs is taken.
#[derive(Drop)]
pub struct AddPlan {
    /// The subscription's number.
    pub sub: u32,
    /// Its items, by their places.
    pub items: Vec<PlanItem>,
    /// The line SUBOK or SUBCMD.
    pub begins: Bytes,
    /// The line CONF.
    pub configures: Bytes,
}
