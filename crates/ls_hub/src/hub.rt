//! The hub, and its steps.
ghost use Rattle.std.specs.Prelude.{◌≡◌, ◌<◌, ◌++◌, ℕ, [], ◌∷◌, length, IfOk, IfSome, OnOk, OnErr, true};
ghost use Rattle.ls_step.specs.Ranges.{Fits};
ghost use Rattle.ls_config.specs.Items.{may_follow};
ghost use Rattle.ls_event.specs.Shapes.{IsShape, shape_of};
ghost use Rattle.ls_world.specs.World.{World, empty};
ghost use Rattle.ls_record.specs.Records.{definitions};
ghost use Rattle.ls_world.specs.Steps.{does, connects, session_of};
ghost use Rattle.ls_world.specs.Script.{known_of};
ghost use Rattle.ls_world.specs.Ranges.{StepInRange};
ghost use Rattle.ls_hub.specs.Hub.{StandsHub, StandsAsBefore, Prints, HasAdapter, session_at, place_in, epoch_at};
ghost use Rattle.ls_hub.specs.Hub.{name_at, link_at};
ghost use Rattle.ls_hub.specs.Quiet.{FailedIn};

use ls_cells::AllItems;
use ls_config::{Config, Items};
use ls_event::{Event, ItemDef};
use ls_request::LinkKind;
use ls_session::Session;
use ls_step::Step;
use ls_value::{NoMemory, Text};
use std::alloc::Global;

/// A connection: its name, what it goes over, and the place of its session, from 0, if it ever had one, with the epoch
/// of the stream that the session had on it last; before the first one that is 0.
#[derive(Drop)]
pub struct Connection {
    pub name: Text,
    pub link: LinkKind,
    pub session: Option<usize>,
    pub epoch: u64,
}

/// The adapter set's name and the items' definitions, the last tick in ms, the items, the connections and the sessions,
/// each in the order in which they came, and the places of the sessions that haven't ended, in their order. It keeps
/// the allocator that its constructor took.
#[derive(Drop)]
pub struct Hub {
    pub(crate) alloc: Global,
    pub(crate) config: Config,
    pub(crate) tick: u64,
    pub(crate) cells: AllItems,
    pub(crate) connections: Vec<Connection>,
    pub(crate) sessions: Vec<Session>,
    pub(crate) living: Vec<usize>,
}

impl Hub {
    /// Before any step: the adapter set is `DEFAULT`, and the tick is 0.
    pub fn new(alloc: Global) -> Result<Hub, NoMemory>
        ensures { IfOk result (λ h. StandsHub h empty) }
    {
        let set = String::from_str(alloc, "DEFAULT")?;
        Ok(Hub {
            alloc,
            config: Config {
                set: Text::from_string(set),
                items: Items::new(alloc),
            },
            tick: 0,
            cells: AllItems::new(alloc),
            connections: Vec::new(alloc),
            sessions: Vec::new(alloc),
            living: Vec::new(alloc),
        })
    }

    /// Does a step of the script's line of this number, at most so often, and appends what it prints. After `NoMemory`
    /// nothing was done, but of enqueues some were made, and of a take some turns were taken, and in the one behind
    /// these no line was numbered or given, while slots may have moved past cuts that make none. Of the text nothing is
    /// known then.
    pub fn step(
        &mut self,
        line: u64,
        step: Step,
        times: u32,
        text: &mut Vec<u8>,
    ) -> Result<(), NoMemory>
        requires range { StepInRange step }
        requires adapter { HasAdapter step }
        requires times { 0 < times }
        ensures ok { OnOk result ((w : World) → StandsHub self.old w → line ≡ w.line → Fits (known_of w) step
            → Prints (does w step times) text.old.items text.new.items self.new) }
        ensures err { OnErr result ((w : World) → StandsHub self.old w → FailedIn w step times self.new) }
    {
        match step {
            Step::Set { name } => {
                self.config.set = name;
                Ok(())
            }
            Step::Item { name, kind, fields } => self.declare(ItemDef { name, kind, fields }),
            Step::Tick { ms } => {
                self.tick_to(ms);
                Ok(())
            }
            Step::Conn { name, link } => self.connect(name, link),
            Step::Open { name } => self.connect_and_open(name, text),
            Step::Add { connection, words } => self.add(line, connection, words, text),
            Step::Request {
                connection,
                name,
                parameters,
            } => self.request_form(connection, &name, parameters, text),
            Step::Publish {
                adapter,
                seq,
                item,
                cells,
            } => self.publish(item, adapter, seq, Event::Update(cells), text),
            Step::Clear { adapter, seq, item } => self.publish(
                item,
                adapter,
                seq,
                Event::Clear,
                text,
            ),
            Step::Enqueue {
                connection,
                sub,
                rank,
            } => self.enqueue(connection, sub, rank, times, text),
            Step::Take { connection } => self.take(connection, times, text),
            Step::Lose { connection } => self.lose(connection, text),
        }
    }

    /// A new item, whose name no other has; fewer than may be are declared. After `NoMemory` the hub is as before.
    fn declare(&mut self, definition: ItemDef) -> Result<(), NoMemory>
        requires { IsShape (shape_of definition) }
        ensures ok { OnOk result ((w : World) → StandsHub self.old w
            → may_follow (definitions w.items) definition.name ≡ true
            → StandsHub self.new
            (record w { items = w.items ++ record { definition = definition; history = [] } ∷ [] })) }
        ensures err { OnErr result (StandsAsBefore self.old self.new) }
    {
        self.cells.declare(&definition)?;
        match self.config.items.add(definition) {
            Ok(_) => Ok(()),
            Err(cause) => {
                self.cells.take_back();
                Err(cause)
            }
        }
    }

    /// A new connection, which has no session. After `NoMemory` the hub is as before.
    pub(crate) fn connect(&mut self, name: Text, link: LinkKind) -> Result<(), NoMemory>
        ensures ok { OnOk result ((w : World) → StandsHub self.old w → StandsHub self.new (connects w name link)) }
        ensures err { OnErr result (StandsAsBefore self.old self.new) }
    {
        self.connections.push(Connection {
            name,
            link,
            session: None,
            epoch: 0,
        })?;
        Ok(())
    }

    /// The place of a connection's session, if it ever had one.
    pub(crate) fn session_of(&self, connection: usize) -> Option<usize>
        ensures { result ≡ session_at self.now.connections.items connection }
    {
        let connection = self.connections.get(connection)?;
        connection.session
    }

    /// The place of a connection's session, if it is there.
    pub(crate) fn session_place(&self, connection: usize) -> Option<usize>
        ensures within { IfSome result (λ n. n < length self.now.sessions.items) }
        ensures place { (w : World) → StandsHub self.now w → result ≡ place_in w.sessions (session_of w connection) }
    {
        let place = self.session_of(connection)?;
        if place < self.sessions.len() {
            Some(place)
        } else {
            None
        }
    }

    /// The epoch of the last stream on a connection; it is 0 where there was none.
    pub(crate) fn epoch_of(&self, connection: usize) -> u64
        ensures { result ≡ epoch_at self.now.connections.items connection }
    {
        match self.connections.get(connection) {
            None => 0,
            Some(connection) => connection.epoch,
        }
    }

    /// The name of a connection; it is empty where there is none.
    pub(crate) fn name_of(&self, connection: usize) -> &[u8]
        ensures { result.now ≡ name_at self.now.connections.items connection }
    {
        match self.connections.get(connection) {
            None => &[],
            Some(connection) => connection.name.as_bytes(),
        }
    }

    /// What a connection goes over.
    pub(crate) fn link_of(&self, connection: usize) -> LinkKind
        ensures { result ≡ link_at self.now.connections.items connection }
    {
        match self.connections.get(connection) {
            None => LinkKind::Ws,
            Some(connection) => connection.link,
        }
    }
}
