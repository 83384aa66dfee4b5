//! Publishes and enqueues. Room for a note is taken first, so that nothing is done where memory is refused.
ghost use Rattle.std.specs.Prelude.{◌≡◌, ◌≤◌, ◌<◌, ◌+◌, ◌++◌, IfOk, OnOk, OnErr, Err, option_map};
ghost use Rattle.std.specs.Vec.{vec_len, vec_capacity};
ghost use Rattle.ls_event.specs.declared.limits.TheConstants.{MOST_ADAPTERS};
ghost use Rattle.ls_step.specs.declared.limits.TheConstants.{LONGEST_NOTE};
ghost use Rattle.ls_world.specs.World.{World};
ghost use Rattle.ls_world.specs.Steps.{enqueue_once as one_enqueue, repeated, publishes};
ghost use Rattle.ls_world.specs.Script.{text_of_outs};
ghost use Rattle.ls_subs.specs.Standing.{ref_of};
ghost use Rattle.ls_hub.specs.Hub.{StandsHub, StandsAsBefore, Prints, DidOnce, slot_in, outs_published};
ghost use Rattle.ls_hub.specs.Hub.{out_enqueued, has_moved};
ghost use Rattle.ls_hub.specs.Quiet.{DidFewer};

use crate::hub::Hub;
use crate::printing::append_out;
use ls_cell::Enqueued;
use ls_event::{Event, PublishRefused};
use ls_step::{LONGEST_NOTE, Out};
use ls_subs::SlotRef;
use ls_value::NoMemory;

impl Hub {
    /// A publish on the item of a place. An update of another number of fields than the item's is none.
    pub(crate) fn publish(
        &mut self,
        item: u32,
        adapter: u8,
        seq: u64,
        event: Event,
        text: &mut Vec<u8>,
    ) -> Result<(), NoMemory>
        requires { adapter ≤ MOST_ADAPTERS }
        ensures ok { OnOk result ((w : World) → StandsHub self.old w
            → Prints (publishes w item (record { adapter = adapter; seq = seq; event = event })) text.old.items
            text.new.items self.new) }
        ensures err { OnErr result (StandsAsBefore self.old self.new) }
    {
        if !self.cells.takes(item, &event) {
            return Ok(());
        }
        text.reserve(LONGEST_NOTE)?;
        let answer = self.cells.publish(item, adapter, seq, event);
        append_published(text, answer)?;
        Ok(())
    }

    /// Enqueues into the slot of a rank in a subscription of a connection's session: at most so many, up to the first
    /// that doesn't move. After `NoMemory` some of them were made, fewer than so many.
    pub(crate) fn enqueue(
        &mut self,
        connection: u32,
        sub: u64,
        rank: u64,
        times: u32,
        text: &mut Vec<u8>,
    ) -> Result<(), NoMemory>
        ensures ok { OnOk result ((w : World) → StandsHub self.old w
            → Prints (repeated (one_enqueue connection sub rank) times w) text.old.items text.new.items self.new) }
        ensures err { OnErr result ((w : World) → StandsHub self.old w
            → DidFewer (one_enqueue connection sub rank) w times self.new) }
    {
        for _ in 0..times {
            let more = self.enqueue_once(connection as usize, sub, rank, text)?;
            if !more {
                return Ok(());
            }
        }
        Ok(())
    }

    /// An enqueue; whether another one follows.
    fn enqueue_once(
        &mut self,
        connection: usize,
        sub: u64,
        rank: u64,
        text: &mut Vec<u8>,
    ) -> Result<bool, NoMemory>
        ensures ok { IfOk result (λ more. (w : World) → StandsHub self.old w
            → DidOnce (one_enqueue connection sub rank w) more text.old.items text.new.items self.new) }
        ensures err { OnErr result (StandsAsBefore self.old self.new) }
    {
        text.reserve(LONGEST_NOTE)?;
        let Some(slot) = self.slot_of(connection, sub, rank) else {
            append_out(text, Out::NoSlot)?;
            return Ok(false);
        };
        let answer = self.cells.enqueue(slot.item, slot.slot)?;
        append_out(text, out_enqueued(answer))?;
        Ok(has_moved(answer))
    }

    /// The slot of a rank in a subscription of a connection's session, if there is one.
    fn slot_of(&self, connection: usize, sub: u64, rank: u64) -> Option<SlotRef>
        ensures { (w : World) → StandsHub self.now w → result ≡ option_map ref_of (slot_in w connection sub rank) }
    {
        let Some(place) = self.session_of(connection) else {
            return None;
        };
        match self.sessions.get(place) {
            None => None,
            Some(session) => session.find(sub, rank),
        }
    }
}

/// What an enqueue prints.
fn out_enqueued(answer: Option<Enqueued>) -> Out
    ensures { result ≡ out_enqueued answer }
{
    match answer {
        Some(Enqueued::Moved { no }) => Out::Moved { no },
        Some(Enqueued::UpToDate) => Out::UpToDate,
        None => Out::NoSlot,
    }
}

/// Whether the slot took an event.
fn has_moved(answer: Option<Enqueued>) -> bool
    ensures { result ≡ has_moved answer }
{
    matches!(answer, Some(Enqueued::Moved { no: _ }))
}

/// Appends what a publish prints; want of memory is handed on. Where there is room for a note, nothing else wants it.
fn append_published(text: &mut Vec<u8>, answer: Result<u64, PublishRefused>) -> Result<(), NoMemory>
    ensures some { OnOk result (answer ≡ Err PublishRefused.NoMemory → ⊥) }
    ensures text { OnOk result (text.new.items ≡ text.old.items ++ text_of_outs (outs_published answer)) }
    ensures room { OnErr result ((answer ≡ Err PublishRefused.NoMemory → ⊥)
        → vec_capacity text.old < vec_len text.old + LONGEST_NOTE) }
{
    let out = match answer {
        Ok(no) => Out::Published { no },
        Err(PublishRefused::Repeated { last }) => Out::Repeated { last },
        Err(PublishRefused::NoKey) => Out::NoKey,
        Err(PublishRefused::BadCommand) => Out::BadCommand,
        Err(PublishRefused::TooLong { bytes }) => Out::TooLong { bytes },
        Err(PublishRefused::TooManyKeys) => Out::TooManyKeys,
        Err(PublishRefused::Backlog { slot }) => Out::Backlog { slot },
        Err(PublishRefused::Spent) => Out::Spent,
        Err(PublishRefused::NoMemory) => return Err(NoMemory),
    };
    append_out(text, out)?;
    Ok(())
}
