//! A script's lines: what each asks for, by the names that the lines before it declared (this project's profile).
ghost use Rattle.std.specs.Prelude.{◌≡◌, ◌<◌, ◌≤◌, [], ◌∷◌, ◌++◌, Option, Some, None, Ok, Err, IfOk, IfSome, OnOk};
ghost use Rattle.std.specs.Prelude.{OnErr, IsErrOf, length, map, true, false, option_map, if◌then◌else◌};
ghost use Rattle.ls_event.specs.EventText.{event_of};
ghost use Rattle.ls_words.specs.Words.{divided, pieces_behind, split_once};
ghost use Rattle.ls_step.specs.Grammar.{Known, nothing, item_of, connection_of, fields_of, add_said, set_line};
ghost use Rattle.ls_step.specs.Grammar.{item_line, tick_line, conn_line, is_new, open_line, add_line, request_line};
ghost use Rattle.ls_step.specs.Grammar.{update_in, publish_line, clear_line, enqueue_line, take_line, lose_line};
ghost use Rattle.ls_step.specs.Grammar.{two_words, three_words, four_words, five_words, six_words, more_words};
ghost use Rattle.ls_step.specs.Grammar.{words_of, request_on, line_of, is_skipped, known_after};
ghost use Rattle.ls_step.specs.Ranges.{Fits, RepeatFits};

use crate::extras::read_extras;
use crate::words::{adapter_of, behind, link_of, number_from, once, so_often, times_of};
use ls_config::{Declared, Items, is_skipped, item_said};
use ls_event::{Event, EventRefused, ItemDef, Kind, read_event};
use ls_request::mode_of;
use ls_step::{AddWords, MOST_CONNECTIONS, Repeat, Step};
use ls_value::{Bytes, Cells, Names, NoMemory, Text, same_bytes};
use ls_words::{divided, first_piece, name_of, split_once};
use std::alloc::Global;
use std::marker::Model;

/// Why there is no step of a line.
#[derive(Clone, Copy, Debug, PartialEq, Eq)]
pub enum ScriptRefused {
    /// The line is outside the grammar.
    BadLine,
    /// Memory was refused.
    NoMemory,
}

impl From<NoMemory> for ScriptRefused {
    ghost use Rattle.std.specs.Prelude.{◌≡◌};
    ghost use Rattle.ls_script.specs.declared.script.ScriptRefused.TheVariants as refused;

    ghost from_gives = { λ _ e. e ≡ refused.NoMemory };

    fn from(_: NoMemory) -> ScriptRefused {
        ScriptRefused::NoMemory
    }
}

/// What the lines so far declared, and the last tick.
#[derive(Drop)]
pub struct Script {
    /// What memory is taken from.
    alloc: Global,
    /// The items, in the order of their numbers.
    items: Items,
    /// The connections' names, in the order of their numbers.
    connections: Declared,
    /// The last tick in milliseconds.
    tick: u64,
}

impl Model for Script {
    ghost use Rattle.std.specs.Prelude.{◌≤◌, length};
    ghost use Rattle.ls_step.specs.declared.limits.TheConstants.{MOST_CONNECTIONS as AS_MANY};
    ghost use Rattle.ls_step.specs.Grammar.{Known};

    ghost Value = { Known };

    ghost view = { λ s. record { items = s.items; connections = s.connections; tick = s.tick } };

    ghost invariant = { λ s. length s.connections ≤ AS_MANY };
}

impl Script {
    /// The script of no lines: nothing is declared, and the clock stands at 0.
    pub fn new(alloc: Global) -> Result<Script, NoMemory>
        ensures { IfOk result (λ script. script ≡ nothing) }
    {
        Ok(Script {
            alloc,
            items: Items::new(alloc),
            connections: Declared::new(alloc),
            tick: 0,
        })
    }

    /// What a line without its line end asks for: `None` exactly for an empty line and for a comment, which begins with
    /// `#`. A step's names are declared, those that it declares are new, and its numbers keep their ranges. `BadLine`
    /// exactly where a line is outside the grammar. After an error, and after `None`, nothing more is declared than
    /// before.
    pub fn read(&mut self, line: &[u8]) -> Result<Option<Repeat>, ScriptRefused>
        ensures skips { is_skipped line.now ≡ true → result ≡ Ok None }
        ensures skipped { result ≡ Ok None → is_skipped line.now ≡ true }
        ensures read { IfOk result (λ r. IfSome r (λ asked. (is_skipped line.now ≡ false)
            × (line_of self.old line.now ≡ Some asked))) }
        ensures fits { IfOk result (λ r. IfSome r (RepeatFits self.old)) }
        ensures after { IfOk result (λ r. IfSome r (λ asked. self.new ≡ known_after self.old asked.step)) }
        ensures stays { result ≡ Ok None → self.new ≡ self.old }
        ensures bad { IsErrOf result ScriptRefused.BadLine
            → (is_skipped line.now ≡ false) × (line_of self.old line.now ≡ None) }
        ensures err { OnErr result (self.new ≡ self.old) }
    {
        if is_skipped(line) {
            return Ok(None);
        }
        match self.line(line)? {
            Some(asked) => {
                self.declare(&asked.step)?;
                Ok(Some(asked))
            }
            None => Err(ScriptRefused::BadLine),
        }
    }

    /// Declares what a step declares.
    fn declare(&mut self, step: &Step) -> Result<(), NoMemory>
        requires { Fits self.old step.now }
        ensures ok { OnOk result (self.new ≡ known_after self.old step.now) }
        ensures err { OnErr result (self.new ≡ self.old) }
    {
        match step {
            Step::Item { name, kind, fields } => self.declare_item(name, *kind, fields),
            Step::Conn { name, link: _ } => self.declare_connection(name),
            Step::Open { name } => self.declare_connection(name),
            Step::Tick { ms } => {
                self.tick = *ms;
                Ok(())
            }
            _ => Ok(()),
        }
    }

    /// Declares an item.
    fn declare_item(&mut self, name: &Text, kind: Kind, fields: &Names) -> Result<(), NoMemory>
        requires { Fits self.old (Step.Item name.now kind fields.now) }
        ensures ok { OnOk result (self.new ≡ known_after self.old (Step.Item name.now kind fields.now)) }
        ensures err { OnErr result (self.new ≡ self.old) }
    {
        let item = ItemDef {
            name: name.copy(self.alloc)?,
            kind,
            fields: fields.copy(self.alloc)?,
        };
        self.items.add(item)?;
        Ok(())
    }

    /// Declares a connection.
    fn declare_connection(&mut self, name: &Text) -> Result<(), NoMemory>
        requires { Fits self.old (Step.Open name.now) }
        ensures ok { OnOk result (self.new ≡ known_after self.old (Step.Open name.now)) }
        ensures err { OnErr result (self.new ≡ self.old) }
    {
        self.connections.add(name.as_bytes())
    }

    /// What a line asks for that is neither empty nor a comment.
    fn line(&self, line: &[u8]) -> Result<Option<Repeat>, NoMemory>
        ensures { IfOk result (λ asked. asked ≡ line_of self.now line.now) }
    {
        match behind(b"req ", line) {
            Some(rest) => Ok(once(self.request(rest)?)),
            None => self.words(line),
        }
    }

    /// What a line asks for by its words. They are taken from its front one by one: no list of them is made.
    fn words(&self, line: &[u8]) -> Result<Option<Repeat>, NoMemory>
        ensures { IfOk result (λ asked. asked ≡ words_of self.now (divided 32 line.now)) }
    {
        match first_piece(b' ', line) {
            (_, None) => Ok(None),
            (word, Some(rest)) => self.behind_one(word, rest),
        }
    }

    /// What a line asks for, by its first word and the rest.
    fn behind_one(&self, word: &[u8], rest: &[u8]) -> Result<Option<Repeat>, NoMemory>
        ensures { IfOk result (λ asked. asked ≡ words_of self.now (word.now ∷ divided 32 rest.now)) }
    {
        match first_piece(b' ', rest) {
            (a, None) => Ok(once(self.two_words(word, a)?)),
            (a, Some(rest)) => self.behind_two(word, a, rest),
        }
    }

    /// What a line asks for, by its first two words and the rest.
    fn behind_two(&self, word: &[u8], a: &[u8], rest: &[u8]) -> Result<Option<Repeat>, NoMemory>
        ensures { IfOk result (λ asked. asked ≡ words_of self.now (word.now ∷ a.now ∷ divided 32 rest.now)) }
    {
        match first_piece(b' ', rest) {
            (b, None) => self.three_words(word, a, b),
            (b, Some(rest)) => self.behind_three(word, a, b, rest),
        }
    }

    /// What a line asks for, by its first three words and the rest.
    fn behind_three(
        &self,
        word: &[u8],
        a: &[u8],
        b: &[u8],
        rest: &[u8],
    ) -> Result<Option<Repeat>, NoMemory>
        ensures { IfOk result (λ asked. asked
            ≡ words_of self.now (word.now ∷ a.now ∷ b.now ∷ divided 32 rest.now)) }
    {
        match first_piece(b' ', rest) {
            (c, None) => Ok(once(self.four_words(word, a, b, c)?)),
            (c, Some(rest)) => self.behind_four(word, a, b, c, rest),
        }
    }

    /// What a line asks for, by its first four words and the rest.
    fn behind_four(
        &self,
        word: &[u8],
        a: &[u8],
        b: &[u8],
        c: &[u8],
        rest: &[u8],
    ) -> Result<Option<Repeat>, NoMemory>
        ensures { IfOk result (λ asked. asked
            ≡ words_of self.now (word.now ∷ a.now ∷ b.now ∷ c.now ∷ divided 32 rest.now)) }
    {
        match first_piece(b' ', rest) {
            (d, None) => self.five_words(word, a, b, c, d),
            (d, Some(rest)) => {
                let (e, rest) = first_piece(b' ', rest);
                let texts = AddTexts {
                    sub: b,
                    items: c,
                    fields: d,
                    mode: e,
                };
                Ok(once(self.six_words(word, a, &texts, rest)?))
            }
        }
    }

    /// A line of two words.
    fn two_words(&self, word: &[u8], a: &[u8]) -> Result<Option<Step>, NoMemory>
        ensures { IfOk result (λ step. step ≡ two_words self.now word.now a.now) }
    {
        if same_bytes(word, b"set") {
            self.set_line(a)
        } else if same_bytes(word, b"tick") {
            Ok(self.tick_line(a))
        } else if same_bytes(word, b"open") {
            self.open_line(a)
        } else if same_bytes(word, b"take") {
            Ok(self.take_line(a))
        } else if same_bytes(word, b"lose") {
            Ok(self.lose_line(a))
        } else {
            Ok(None)
        }
    }

    /// A line of three words.
    fn three_words(&self, word: &[u8], a: &[u8], b: &[u8]) -> Result<Option<Repeat>, NoMemory>
        ensures { IfOk result (λ asked. asked ≡ three_words self.now word.now a.now b.now) }
    {
        if same_bytes(word, b"conn") {
            Ok(once(self.conn_line(a, b)?))
        } else if same_bytes(word, b"take") {
            Ok(so_often(self.take_line(a), times_of(b)))
        } else {
            Ok(None)
        }
    }

    /// A line of four words.
    fn four_words(
        &self,
        word: &[u8],
        a: &[u8],
        b: &[u8],
        c: &[u8],
    ) -> Result<Option<Step>, NoMemory>
        ensures { IfOk result (λ step. step ≡ four_words self.now word.now a.now b.now c.now) }
    {
        if same_bytes(word, b"item") {
            self.item_line(a, b, c)
        } else if same_bytes(word, b"clear") {
            Ok(self.clear_line(a, b, c))
        } else if same_bytes(word, b"enq") {
            Ok(self.enqueue_line(a, b, c))
        } else {
            Ok(None)
        }
    }

    /// A line of five words.
    fn five_words(
        &self,
        word: &[u8],
        a: &[u8],
        b: &[u8],
        c: &[u8],
        d: &[u8],
    ) -> Result<Option<Repeat>, NoMemory>
        ensures { IfOk result (λ asked. asked ≡ five_words self.now word.now a.now b.now c.now d.now) }
    {
        if same_bytes(word, b"pub") {
            Ok(once(self.publish_line(a, b, c, d)?))
        } else if same_bytes(word, b"enq") {
            Ok(so_often(self.enqueue_line(a, b, c), times_of(d)))
        } else {
            Ok(None)
        }
    }

    /// A line of six words, and what stands behind them.
    fn six_words(
        &self,
        word: &[u8],
        connection: &[u8],
        texts: &AddTexts<'_>,
        rest: Option<&[u8]>,
    ) -> Result<Option<Step>, NoMemory>
        ensures { IfOk result (λ step. step
            ≡ six_words self.now word.now connection.now texts.now.sub.now texts.now.items.now texts.now.fields.now
            texts.now.mode.now (pieces_behind 32 rest.entry)) }
    {
        if same_bytes(word, b"add") {
            self.add_behind(connection, texts, rest)
        } else {
            Ok(None)
        }
    }

    /// The step of an `add` line, of which this stands behind the mode: `None` as for [`Script::add_line`].
    fn add_behind(
        &self,
        connection: &[u8],
        texts: &AddTexts<'_>,
        rest: Option<&[u8]>,
    ) -> Result<Option<Step>, NoMemory>
        ensures { IfOk result (λ step. step
            ≡ add_line self.now connection.now texts.now.sub.now texts.now.items.now texts.now.fields.now
            texts.now.mode.now (pieces_behind 32 rest.entry)) }
    {
        let words = pieces(self.alloc, rest)?;
        self.add_line(connection, texts, &words)
    }

    /// What stands behind `req`: a connection, a name, and the rest of the line, which may be absent.
    fn request(&self, rest: &[u8]) -> Result<Option<Step>, NoMemory>
        ensures { IfOk result (λ step. step ≡ request_on self.now (split_once 32 rest.now)) }
    {
        let Some((connection, behind)) = split_once(b' ', rest) else {
            return Ok(None);
        };
        match split_once(b' ', behind) {
            Some((name, parameters)) => self.request_line(connection, name, parameters),
            None => self.request_line(connection, behind, b""),
        }
    }

    /// The step of a `req` line: `None` exactly where its connection isn't declared, or the request's name is no name.
    fn request_line(
        &self,
        connection: &[u8],
        name: &[u8],
        parameters: &[u8],
    ) -> Result<Option<Step>, NoMemory>
        ensures { IfOk result (λ step. step ≡ request_line self.now connection.now name.now parameters.now) }
    {
        let Some(connection) = self.connection(connection) else {
            return Ok(None);
        };
        let Some(name) = name_of(self.alloc, name)? else {
            return Ok(None);
        };
        let parameters = Bytes::of(self.alloc, parameters)?;
        Ok(Some(Step::Request {
            connection,
            name,
            parameters,
        }))
    }

    /// The step of a `set` line: `None` exactly where the adapter set's name is no name.
    fn set_line(&self, name: &[u8]) -> Result<Option<Step>, NoMemory>
        ensures { IfOk result (λ step. step ≡ set_line name.now) }
    {
        match name_of(self.alloc, name)? {
            Some(name) => Ok(Some(Step::Set { name })),
            None => Ok(None),
        }
    }

    /// The step of an `item` line: `None` exactly where its words say no item, an item has its name, or no more items
    /// may be declared.
    fn item_line(&self, name: &[u8], word: &[u8], fields: &[u8]) -> Result<Option<Step>, NoMemory>
        ensures { IfOk result (λ step. step ≡ item_line self.now name.now word.now fields.now) }
    {
        let Some(item) = item_said(self.alloc, name, word, fields)? else {
            return Ok(None);
        };
        if !self.items.may_follow(item.name.as_bytes()) {
            return Ok(None);
        }
        let ItemDef { name, kind, fields } = item;
        Ok(Some(Step::Item { name, kind, fields }))
    }

    /// The step of a `tick` line: `None` exactly where its number is no number of a line, or is below the last tick.
    fn tick_line(&self, text: &[u8]) -> Option<Step>
        ensures { result ≡ tick_line self.now text.now }
    {
        let ms = number_from(self.tick, text)?;
        Some(Step::Tick { ms })
    }

    /// The step of a `conn` line: `None` exactly where its word is no kind of connections, or its name can't be that of
    /// a new one.
    fn conn_line(&self, name: &[u8], word: &[u8]) -> Result<Option<Step>, NoMemory>
        ensures { IfOk result (λ step. step ≡ conn_line self.now name.now word.now) }
    {
        let Some(link) = link_of(word) else {
            return Ok(None);
        };
        let Some(name) = self.new_connection(name)? else {
            return Ok(None);
        };
        Ok(Some(Step::Conn { name, link }))
    }

    /// The name of a new connection that a text is: `None` exactly where it is no name, a connection has it, or no more
    /// connections may be declared.
    fn new_connection(&self, text: &[u8]) -> Result<Option<Text>, NoMemory>
        ensures { IfOk result (λ name. name ≡ (if is_new self.now.connections text.now then Some text.now else None)) }
    {
        if self.connections.len() >= MOST_CONNECTIONS || self.connections.find(text).is_some() {
            return Ok(None);
        }
        let name = name_of(self.alloc, text)?;
        Ok(name)
    }

    /// The step of an `open` line: `None` exactly where its name can't be that of a new connection.
    fn open_line(&self, name: &[u8]) -> Result<Option<Step>, NoMemory>
        ensures { IfOk result (λ step. step ≡ open_line self.now name.now) }
    {
        match self.new_connection(name)? {
            Some(name) => Ok(Some(Step::Open { name })),
            None => Ok(None),
        }
    }

    /// The step of an `add` line: `None` exactly where its connection isn't declared, or [`add_words`] makes nothing of
    /// its other words.
    fn add_line(
        &self,
        connection: &[u8],
        texts: &AddTexts<'_>,
        rest: &[&[u8]],
    ) -> Result<Option<Step>, NoMemory>
        ensures { IfOk result (λ step. step
            ≡ add_line self.now connection.now texts.now.sub.now texts.now.items.now texts.now.fields.now
            texts.now.mode.now (map (λ w. w.now) rest.now)) }
    {
        let Some(connection) = self.connection(connection) else {
            return Ok(None);
        };
        let Some(words) = add_words(self.alloc, texts, rest)? else {
            return Ok(None);
        };
        Ok(Some(Step::Add { connection, words }))
    }

    /// The step of a `pub` line: `None` exactly where its adapter or its seq is no number in its range, its item isn't
    /// declared, or its text says no update of the item's fields.
    fn publish_line(
        &self,
        adapter: &[u8],
        seq: &[u8],
        item: &[u8],
        event: &[u8],
    ) -> Result<Option<Step>, NoMemory>
        ensures { IfOk result (λ step. step ≡ publish_line self.now adapter.now seq.now item.now event.now) }
    {
        let Some(adapter) = adapter_of(adapter) else {
            return Ok(None);
        };
        let Some(seq) = number_from(1, seq) else {
            return Ok(None);
        };
        let Some(item) = self.item(item) else {
            return Ok(None);
        };
        let Some(cells) = update_in(
            self.alloc,
            event,
            &self.items.as_slice()[item as usize].fields,
        )?
        else {
            return Ok(None);
        };
        Ok(Some(Step::Publish {
            adapter,
            seq,
            item,
            cells,
        }))
    }

    /// The step of a `clear` line: `None` exactly where its adapter or its seq is no number in its range, or its item
    /// isn't declared.
    fn clear_line(&self, adapter: &[u8], seq: &[u8], item: &[u8]) -> Option<Step>
        ensures { result ≡ clear_line self.now adapter.now seq.now item.now }
    {
        let adapter = adapter_of(adapter)?;
        let seq = number_from(1, seq)?;
        let item = self.item(item)?;
        Some(Step::Clear { adapter, seq, item })
    }

    /// The step of an `enq` line: `None` exactly where its connection isn't declared, or its subscription or its rank
    /// is no number of a line.
    fn enqueue_line(&self, connection: &[u8], sub: &[u8], rank: &[u8]) -> Option<Step>
        ensures { result ≡ enqueue_line self.now connection.now sub.now rank.now }
    {
        let connection = self.connection(connection)?;
        let sub = number_from(0, sub)?;
        let rank = number_from(0, rank)?;
        Some(Step::Enqueue {
            connection,
            sub,
            rank,
        })
    }

    /// The step of a `take` line: `None` exactly where its connection isn't declared.
    fn take_line(&self, connection: &[u8]) -> Option<Step>
        ensures { result ≡ take_line self.now connection.now }
    {
        let connection = self.connection(connection)?;
        Some(Step::Take { connection })
    }

    /// The step of a `lose` line: `None` exactly where its connection isn't declared.
    fn lose_line(&self, connection: &[u8]) -> Option<Step>
        ensures { result ≡ lose_line self.now connection.now }
    {
        let connection = self.connection(connection)?;
        Some(Step::Lose { connection })
    }

    /// The number of the item of a name.
    fn item(&self, name: &[u8]) -> Option<u32>
        ensures first { result ≡ item_of self.now name.now }
        ensures within { IfSome result (λ i. i < length self.now.items) }
    {
        self.items.find(name)
    }

    /// The number of the connection of a name.
    fn connection(&self, name: &[u8]) -> Option<u32>
        ensures { result ≡ connection_of self.now name.now }
    {
        let place = self.connections.find(name)?;
        Some(place as u32)
    }
}

/// The words of what may stand behind others.
fn pieces<'a>(alloc: Global, rest: Option<&'a [u8]>) -> Result<Vec<&'a [u8]>, NoMemory>
    ensures { IfOk result (λ words. map (λ w. w.now) words.items ≡ pieces_behind 32 rest.entry) }
{
    match rest {
        Some(text) => divided(alloc, b' ', text),
        None => Ok(Vec::new(alloc)),
    }
}

/// The words of an `add` line that always stand there.
#[derive(Clone, Copy)]
struct AddTexts<'a> {
    sub: &'a [u8],
    items: &'a [u8],
    fields: &'a [u8],
    mode: &'a [u8],
}

/// The words of an `add` line: `None` exactly where one is empty, the mode is none, or the words behind it are no
/// extras.
fn add_words(
    alloc: Global,
    texts: &AddTexts<'_>,
    rest: &[&[u8]],
) -> Result<Option<AddWords>, NoMemory>
    ensures { IfOk result (λ words. words
        ≡ add_said texts.now.sub.now texts.now.items.now texts.now.fields.now texts.now.mode.now
        (map (λ w. w.now) rest.now)) }
{
    let Some(mode) = mode_of(texts.mode) else {
        return Ok(None);
    };
    if texts.sub.is_empty() || texts.items.is_empty() || texts.fields.is_empty() {
        return Ok(None);
    }
    let Some(extras) = read_extras(alloc, rest)? else {
        return Ok(None);
    };
    let NeededWords { sub, items, fields } = needed_words(alloc, texts)?;
    Ok(Some(AddWords {
        sub,
        items,
        fields,
        mode,
        snapshot: extras.snapshot,
        buffer: extras.buffer,
        frequency: extras.frequency,
    }))
}

/// The words of an `add` line that always stand there, but for the mode, copied.
#[derive(Drop)]
struct NeededWords {
    sub: Bytes,
    items: Bytes,
    fields: Bytes,
}

/// Copies these words.
fn needed_words(alloc: Global, texts: &AddTexts<'_>) -> Result<NeededWords, NoMemory>
    ensures { IfOk result (λ w. (w.sub ≡ texts.now.sub.now) × (w.items ≡ texts.now.items.now)
        × (w.fields ≡ texts.now.fields.now)) }
{
    let sub = Bytes::of(alloc, texts.sub)?;
    let items = Bytes::of(alloc, texts.items)?;
    let fields = Bytes::of(alloc, texts.fields)?;
    Ok(NeededWords { sub, items, fields })
}

/// The cells of an update: `None` exactly where a text says no event, or a Clear.
fn update_in(alloc: Global, text: &[u8], fields: &Names) -> Result<Option<Cells>, NoMemory>
    ensures { IfOk result (λ cells. cells ≡ update_in (event_of fields.now text.now)) }
{
    match read_event(alloc, text, fields) {
        Ok(Event::Update(cells)) => Ok(Some(cells)),
        Ok(Event::Clear) => Ok(None),
        Err(EventRefused::NoMemory) => Err(NoMemory),
        Err(
            EventRefused::BadPair { at: _ }
            | EventRefused::UnknownField { at: _ }
            | EventRefused::TwiceField { at: _ }
            | EventRefused::BadText { at: _ },
        ) => Ok(None),
    }
}
