//! An item with its slots in each mode, by scripts of words. What is published reaches the state of the item, what is
//! joined, enqueued and taken reaches the buffers.
ghost use Rattle.std.specs.Prelude.{◌≡◌};
ghost use Rattle.ls_event.specs.Joining.{is_mode_of};

use crate::made::{cells_text, names, row_text, text};
use ls_cell::{Enqueued, ItemCell, Joined, PublishRefused};
use ls_event::{
    Event, ItemDef, Kind, MOST_ADAPTERS, MOST_BUFFER_SIZE, MOST_FIELDS, MOST_SLOTS, Mode, Snap,
    Taken, read_event,
};
use ls_value::{NoMemory, Row};
use std::alloc::Global;
use std::test::Fail;

/// An item of the fields `key`, `command` and `a`.
fn item_def(alloc: Global, kind: Kind) -> Result<ItemDef, NoMemory> {
    let name = text(alloc, "item")?;
    let fields = names(alloc, "key,command,a")?;
    Ok(ItemDef { name, kind, fields })
}

/// Such an item without events.
fn item(alloc: Global, kind: Kind) -> Result<ItemCell, Fail> {
    let item = item_def(alloc, kind)?;
    let many = item.fields.len();
    let key = item.fields.find(b"key").unwrap_or(0);
    let command = item.fields.find(b"command").unwrap_or(0);
    if many == 0 || many > MOST_FIELDS || key >= many || command >= many || key == command {
        return Err(Fail::new("no such item"));
    }
    Ok(ItemCell::new(alloc, &item)?)
}

/// The event that a text says.
fn event(alloc: Global, text: &str) -> Result<Event, Fail> {
    let named = names(alloc, "key,command,a")?;
    match read_event(alloc, text.as_bytes(), &named) {
        Ok(event) => Ok(event),
        Err(_refused) => Err(Fail::new("no event")),
    }
}

/// Publishes the event that a text says.
fn publish(
    alloc: Global,
    cell: &mut ItemCell,
    adapter: u8,
    seq: u64,
    text: &str,
) -> Result<Result<u64, PublishRefused>, Fail> {
    let event = event(alloc, text)?;
    if let Event::Update(cells) = &event {
        if cells.len() != cell.fields() {
            return Err(Fail::new("the item has other fields"));
        }
    }
    if adapter > MOST_ADAPTERS {
        return Err(Fail::new("no such adapter"));
    }
    Ok(cell.publish(adapter, seq, event))
}

/// Whether a slot in a mode can join an item of a kind.
fn is_mode_of(mode: Mode, kind: Kind) -> bool
    ensures { result ≡ is_mode_of mode kind }
{
    match (mode, kind) {
        (Mode::Raw, _) => true,
        (Mode::Merge, Kind::Merge) => true,
        (Mode::Distinct, Kind::Distinct) => true,
        (Mode::Command, Kind::Command) => true,
        _ => false,
    }
}

/// Joins a slot.
fn join(cell: &mut ItemCell, mode: Mode, n: u32, snapshot: Snap) -> Result<Joined, Fail> {
    let many = cell.slots() as usize;
    if !is_mode_of(mode, cell.kind())
        || n == 0
        || n as usize > MOST_BUFFER_SIZE
        || many >= MOST_SLOTS
    {
        return Err(Fail::new("no such slot can join"));
    }
    Ok(cell.join(mode, n, snapshot)?)
}

/// Enqueues, and answers the number of the event.
fn enqueue(cell: &mut ItemCell, slot: u32) -> Result<Enqueued, Fail> {
    if !cell.has(slot) {
        return Err(Fail::new("no such slot is live"));
    }
    Ok(cell.enqueue(slot)?)
}

/// Enqueues all, and answers how many are to come.
fn catch_up(cell: &mut ItemCell, slot: u32) -> Result<u64, Fail> {
    if !cell.has(slot) {
        return Err(Fail::new("no such slot is live"));
    }
    cell.catch_up(slot)?;
    Ok(cell.lag(slot))
}

/// Takes the next cut.
fn take(cell: &mut ItemCell, slot: u32) -> Result<Option<Taken>, Fail> {
    if !cell.has(slot) {
        return Err(Fail::new("no such slot is live"));
    }
    let taken = cell.look(slot)?;
    if taken.is_some() {
        cell.pass(slot);
    }
    Ok(taken)
}

/// Drops a slot.
fn leave(alloc: Global, cell: &mut ItemCell, slot: u32) -> Result<String, Fail> {
    if !cell.has(slot) {
        return Err(Fail::new("no such slot is live"));
    }
    cell.leave(slot);
    Ok(String::from_str(alloc, "left")?)
}

/// A key's row, `-` where it is gone.
fn key_text(alloc: Global, row: &Option<Row>) -> Result<String, NoMemory> {
    match row {
        None => Ok(String::from_str(alloc, "-")?),
        Some(row) => row_text(alloc, row),
    }
}

/// The text of a key's cut.
fn key_cut_text(
    alloc: Global,
    key: &str,
    row: &Option<Row>,
    upto: u64,
) -> Result<String, NoMemory> {
    let row = key_text(alloc, row)?;
    Ok(format!(in alloc; "{key}={row}@{upto}")?)
}

/// The text of a row's cut.
fn row_cut_text(alloc: Global, row: &Row, upto: u64) -> Result<String, NoMemory> {
    let row = row_text(alloc, row)?;
    Ok(format!(in alloc; "{row}@{upto}")?)
}

/// The text of a cut, and the number up to which it tells of the item.
fn cut_text(alloc: Global, taken: &Taken) -> Result<String, NoMemory> {
    match taken {
        Taken::Row { row, upto } => row_cut_text(alloc, row, *upto),
        Taken::Lost { count, upto } => Ok(format!(in alloc; "lost{count}@{upto}")?),
        Taken::Change { cells, upto } => {
            let cells = cells_text(alloc, cells)?;
            Ok(format!(in alloc; "{cells}@{upto}")?)
        }
        Taken::Key { key, row, upto } => key_cut_text(alloc, key.as_str(), row, *upto),
        Taken::Cleared { upto } => Ok(format!(in alloc; "cleared@{upto}")?),
        Taken::EndOfSnapshot => Ok(String::from_str(alloc, "end")?),
    }
}

/// The text of the next cut.
fn taken(alloc: Global, cell: &mut ItemCell, slot: u32) -> Result<String, Fail> {
    match take(cell, slot)? {
        None => Ok(String::from_str(alloc, "none")?),
        Some(taken) => Ok(cut_text(alloc, &taken)?),
    }
}

/// The mode of a letter.
fn mode_of(letter: u8) -> Mode {
    match letter {
        b'R' => Mode::Raw,
        b'M' => Mode::Merge,
        b'D' => Mode::Distinct,
        _ => Mode::Command,
    }
}

/// The number of a digit.
fn number_of(digit: u8) -> u32 {
    u32::from(digit.saturating_sub(b'0'))
}

/// The snapshot of a letter: all, none, or so many rows.
fn snap_of(letter: u8) -> Snap {
    match letter {
        b'a' => Snap::All,
        b'-' => Snap::No,
        _ => Snap::Last(number_of(letter)),
    }
}

/// The text of a refusal.
fn refused(alloc: Global, cause: PublishRefused) -> Result<String, NoMemory> {
    let word = match cause {
        PublishRefused::Backlog { slot } => return Ok(format!(in alloc; "backlog{slot}")?),
        PublishRefused::TooLong { bytes } => return Ok(format!(in alloc; "toolong{bytes}")?),
        PublishRefused::TooManyKeys => "toomanykeys",
        PublishRefused::NoKey => "nokey",
        PublishRefused::BadCommand => "badcommand",
        _ => "refused",
    };
    Ok(String::from_str(alloc, word)?)
}

/// What a publish of the next number answers.
fn published(alloc: Global, cell: &mut ItemCell, text: &str) -> Result<String, Fail> {
    let seq = cell.number().saturating_add(1);
    match publish(alloc, cell, 1, seq, text)? {
        Ok(number) => Ok(format!(in alloc; "{number}")?),
        Err(cause) => Ok(refused(alloc, cause)?),
    }
}

/// What an event answers of which the text ends with its own number.
fn numbered(alloc: Global, cell: &mut ItemCell, text: &str) -> Result<String, Fail> {
    let number = cell.number().saturating_add(1);
    let text = format!(in alloc; "{text}{number}")?;
    published(alloc, cell, text.as_str())
}

/// What an event answers of which the text ends with so many letters.
fn lengthened(
    alloc: Global,
    cell: &mut ItemCell,
    text: &str,
    letters: &str,
) -> Result<String, Fail> {
    let letters = letters.parse::<u64>().unwrap_or(0);
    let mut text = String::from_str(alloc, text)?;
    for _ in 0..letters {
        text.push('x')?;
    }
    published(alloc, cell, text.as_str())
}

/// What an event of a key answers: its field `a` says a letter.
fn added(alloc: Global, cell: &mut ItemCell, key: char, letter: char) -> Result<String, Fail> {
    let text = format!(in alloc; "key={key}&command=ADD&a={letter}")?;
    published(alloc, cell, text.as_str())
}

/// What the deletion of a key answers.
fn deleted(alloc: Global, cell: &mut ItemCell, key: char) -> Result<String, Fail> {
    let text = format!(in alloc; "key={key}&command=DELETE")?;
    published(alloc, cell, text.as_str())
}

/// What an event answers. A text that ends with `@` ends with the event's number, one that ends with `~` and a number
/// with so many letters.
fn event_answer(alloc: Global, cell: &mut ItemCell, text: &str) -> Result<String, Fail> {
    if let Some((text, _)) = text.split_once('@') {
        return numbered(alloc, cell, text);
    }
    match text.split_once('~') {
        Some((text, letters)) => lengthened(alloc, cell, text, letters),
        None => published(alloc, cell, text),
    }
}

/// What a join answers.
fn joined(
    alloc: Global,
    cell: &mut ItemCell,
    mode: u8,
    n: u8,
    snapshot: u8,
) -> Result<String, Fail> {
    let answer = join(cell, mode_of(mode), number_of(n), snap_of(snapshot))?;
    let Joined { slot, base } = answer;
    Ok(format!(in alloc; "{slot}@{base}")?)
}

/// What an enqueue answers.
fn enqueued(alloc: Global, cell: &mut ItemCell, slot: u32) -> Result<String, Fail> {
    match enqueue(cell, slot)? {
        Enqueued::Moved { no } => Ok(format!(in alloc; "{no}")?),
        Enqueued::UpToDate => Ok(String::from_str(alloc, "-")?),
    }
}

/// What catching up answers.
fn caught_up(alloc: Global, cell: &mut ItemCell, slot: u32) -> Result<String, Fail> {
    let lag = catch_up(cell, slot)?;
    Ok(format!(in alloc; "{lag}")?)
}

/// Does what a word says, and answers: `j` with a mode, a size and a snapshot joins a slot; `e`, `c`, `t` and `l`
/// with a slot's number enqueue one event, enqueue all, take a cut, and leave; `+` with a key and a letter, and `-`
/// with a key, add and delete the key; another word is an event.
fn step(alloc: Global, cell: &mut ItemCell, word: &str) -> Result<String, Fail> {
    match word.as_bytes() {
        [b'j', mode, n, snapshot] => joined(alloc, cell, *mode, *n, *snapshot),
        [b'e', slot] => enqueued(alloc, cell, number_of(*slot)),
        [b'c', slot] => caught_up(alloc, cell, number_of(*slot)),
        [b't', slot] => taken(alloc, cell, number_of(*slot)),
        [b'l', slot] => leave(alloc, cell, number_of(*slot)),
        [b'+', key, letter] => added(alloc, cell, char::from(*key), char::from(*letter)),
        [b'-', key] => deleted(alloc, cell, char::from(*key)),
        _ => event_answer(alloc, cell, word),
    }
}

/// Does what words say, one after another, and gives the last answer.
fn last(alloc: Global, cell: &mut ItemCell, words: &str) -> Result<String, Fail> {
    let mut answer = String::new(alloc);
    for word in words.split(',') {
        answer = step(alloc, cell, word)?;
    }
    Ok(answer)
}

/// The answer to a word; behind a number and `*` there are words between commas, which are done so often, and the last
/// answer is its answer.
fn answer(alloc: Global, cell: &mut ItemCell, word: &str) -> Result<String, Fail> {
    let Some((times, words)) = word.split_once('*') else {
        return step(alloc, cell, word);
    };
    let mut answer = String::new(alloc);
    for _ in 0..times.parse::<u64>().unwrap_or(0) {
        answer = last(alloc, cell, words)?;
    }
    Ok(answer)
}

/// Whether a new item gives these answers to the words of a script.
fn holds(alloc: Global, kind: Kind, script: &str, answers: &str) -> Result<bool, Fail> {
    let mut cell = item(alloc, kind)?;
    let mut answers = answers.split(' ');
    for word in script.split(' ') {
        let answer = answer(alloc, &mut cell, word)?;
        if answers.next() != Some(answer.as_str()) {
            return Ok(false);
        }
    }
    Ok(answers.next().is_none())
}

#[test]
fn merge_slots_tell_changes(rt: HostRuntime) -> Result<(), Fail> {
    let cases = [
        ("jM1- a=1 e1 e1 t1 t1", "1@0 1 1 - #|#|1@1 none"),
        (
            "jM1- a=1 a=2 key=x c1 t1 ! c1 t1",
            "1@0 1 2 3 0 x|#|2@3 4 0 #|#|#@4",
        ),
        (
            "jM2- a=1 a=2 a=3 c1 t1 t1 t1",
            "1@0 1 2 3 0 #|#|2@2 =|=|3@3 none",
        ),
        (
            "jM2- key=1&command=2 ! c1 t1 t1",
            "1@0 1 2 0 1|2|#@1 #|#|#@2",
        ),
        ("a=1 jM1a t1 t1 jM1- t2", "1 1@1 #|#|1@1 none 2@1 none"),
        (
            "key=1&command=2 jM2a jM1a jM2- a=3 c1 c2 c3 t1 t1 t2 t3",
            "1 1@1 2@1 3@1 2 0 0 0 1|2|#@1 =|=|3@2 1|2|3@2 1|2|3@2",
        ),
        (
            "jM1- jM1- jR1- l2 jR1- l1 l3 jM1- jM1- jM1-",
            "1@0 2@0 3@0 left 2@0 left left 1@0 3@0 4@0",
        ),
        (
            "jM1- jR1- jM9a a=1 a=2 e1 e2 e2 c3 t1 t2 t2 t3 t3",
            "1@0 2@0 3@0 1 2 1 1 2 0 #|#|1@1 #|#|1@1 #|#|2@2 #|#|1@1 =|=|2@2",
        ),
        (
            "jM1- a=1 key=x a=2 key=y c1 t1 command=z key=w ! a=3 c1 t1 t1",
            "1@0 1 2 3 4 0 y|#|2@4 5 6 7 8 0 #|#|3@8 none",
        ),
        (
            "key=1 command=GO key=# a=$ jM1a t1 a=~4094 a=~4095",
            "1 2 3 4 1@4 #|GO|@4 5 toolong4097",
        ),
    ];
    for (script, answers) in cases {
        assert!(rt;
            holds(rt.alloc(), Kind::Merge, script, answers)?,
            "{script}"
        );
    }
    Ok(())
}

/// Whether the next cuts of slots 1 and 2 are the same, to the last one.
fn agree(alloc: Global, cell: &mut ItemCell) -> Result<bool, Fail> {
    for _ in 0..64 {
        let one = taken(alloc, cell, 1)?;
        let other = taken(alloc, cell, 2)?;
        if one.as_str() != other.as_str() {
            return Ok(false);
        }
        if one.as_str() == "none" {
            return Ok(true);
        }
    }
    Ok(false)
}

/// Whether slots 1 and 2 of a new item tell the same: at each `.` slot 1 catches up, and slot 2 enqueues each event.
fn tell_the_same(alloc: Global, script: &str) -> Result<bool, Fail> {
    let mut cell = item(alloc, Kind::Merge)?;
    for word in script.split(' ') {
        if word != "." {
            let _answer = answer(alloc, &mut cell, word)?;
            continue;
        }
        let _caught_up = caught_up(alloc, &mut cell, 1)?;
        let _enqueued = answer(alloc, &mut cell, "64*e2")?;
        if !agree(alloc, &mut cell)? {
            return Ok(false);
        }
    }
    Ok(true)
}

#[test]
fn to_catch_up_is_to_enqueue_each_event(rt: HostRuntime) -> Result<(), Fail> {
    let scripts = [
        "jM1- jM1- a=1 a=2 key=x . a=3 a=4 . key=1 a=5 key=2 command=y . a=6 .",
        "jM1- jM1- a=1 ! . ! a=2 . ! ! . key=1 ! command=2 ! a=3 . a=# key=# .",
        "a=1 key=2 jM1a jM1a a=3 key=4 . a=5 .",
        "a=1 key=2 jM1a jM1a . a=3 key=4 a=5 .",
        "jM1- jM1- a=1 e1 e2 key=2 a=3 a=4 . key=5 e1 a=6 e2 key=7 .",
        "jM1- jM1- 64*a=@ . key=1 63*a=@ . ! 30*a=@,key=@ .",
        "jM1- jM1- a=~300 key=~300 a=~200 command=~400 . key=~20 key=~15 key=~16 .",
        "jM2- jM2- a=1 a=2 key=3 . a=4 ! a=5 .",
        "jM9a jM9a a=1 a=2 key=3 . 20*a=@ .",
        "jR1- jR1- a=1 a=2 key=3 . 20*a=@ .",
    ];
    for script in scripts {
        assert!(rt; tell_the_same(rt.alloc(), script)?, "{script}");
    }
    Ok(())
}

#[test]
fn raw_slots_tell_each_update(rt: HostRuntime) -> Result<(), Fail> {
    let cases = [
        (
            "a=1 jR1a t1 a=2 key=3 c1 t1 t1 t1",
            "1 1@1 none 2 3 0 #|#|2@2 3|#|#@3 none",
        ),
        ("jR1- ! c1 t1 a=2 c1 t1 t1", "1@0 1 0 none 2 0 #|#|2@2 none"),
        (
            "jR1- 256*a=@,c1 t1 255*t1 t1",
            "1@0 0 #|#|1@1 #|#|256@256 none",
        ),
        (
            "jR1- 257*a=@,c1 t1 t1 255*t1 t1",
            "1@0 0 lost1@1 #|#|2@2 #|#|257@257 none",
        ),
        (
            "jR1- 300*a=@,c1 t1 t1 255*t1 t1",
            "1@0 0 lost44@44 #|#|45@45 #|#|300@300 none",
        ),
        (
            "jR1- 700*a=@,c1 t1 t1 255*t1 t1",
            "1@0 0 lost444@444 #|#|445@445 #|#|700@700 none",
        ),
    ];
    for (script, answers) in cases {
        assert!(rt;
            holds(rt.alloc(), Kind::Merge, script, answers)?,
            "{script}"
        );
    }
    Ok(())
}

#[test]
fn distinct_slots_tell_the_last_updates(rt: HostRuntime) -> Result<(), Fail> {
    let cases = [
        (
            "a=1 a=2 a=3 jD92 a=4 c1 t1 t1 t1 t1 t1",
            "1 2 3 1@3 4 0 #|#|2@3 #|#|3@3 end #|#|4@4 none",
        ),
        (
            "jD9- a=1 ! a=2 c1 t1 t1 t1",
            "1@0 1 2 3 0 cleared@2 #|#|2@3 none",
        ),
        (
            "jD2- jR1- a=1 a=2 a=3 c1 c2 t1 t1 t1 t2 t2",
            "1@0 2@0 1 2 3 0 0 #|#|2@2 #|#|3@3 none #|#|1@1 #|#|2@2",
        ),
        ("jDaa a=1 jD1a t2 t2 t2", "1@0 1 2@1 #|#|1@1 end none"),
        ("jD2- a=@ ! a=@ ! c1 t1 t1", "1@0 1 2 3 4 0 cleared@4 none"),
        (
            "5*a=@ jD23 t1 3*a=@,c1 t1 t1 t1 t1 t1 t1",
            "5 1@5 #|#|3@5 0 #|#|4@5 #|#|5@5 end #|#|7@7 #|#|8@8 none",
        ),
        (
            "5*a=@ jD15 t1 ! c1 a=@ c1 t1 t1 t1 t1",
            "5 1@5 #|#|1@5 6 0 7 0 end cleared@6 #|#|7@7 none",
        ),
        (
            "5*a=@ jD12 a=@ c1 t1 t1 t1 t1 ! c1 t1 t1",
            "5 1@5 6 0 #|#|4@5 #|#|5@5 end #|#|6@6 7 0 cleared@7 none",
        ),
        ("33*a=@ jD9a t1", "33 1@33 #|#|2@33"),
        (
            "70*a=@ jD9a t1 31*t1 t1 t1",
            "70 1@70 #|#|39@70 #|#|70@70 end none",
        ),
        ("a=~4096 a=~4096 a=~4097", "1 2 toolong4097"),
    ];
    for (script, answers) in cases {
        assert!(rt;
            holds(rt.alloc(), Kind::Distinct, script, answers)?,
            "{script}"
        );
    }
    Ok(())
}

#[test]
fn command_slots_tell_keys(rt: HostRuntime) -> Result<(), Fail> {
    let cases = [
        (
            "jC1- jR1- +a1 -a c1 t1 t1 e2 t2",
            "1@0 2@0 1 2 0 a=-@2 none 1 a|ADD|1@1",
        ),
        (
            "jC1- +k5 -k c1 t1 +k7 c1 t1 t1",
            "1@0 1 2 0 k=-@2 3 0 k=k|#|7@3 none",
        ),
        (
            "jC1- +a1 +b1 c1 t1 -a +a2 c1 t1 t1 t1",
            "1@0 1 2 0 a=a|#|1@2 3 4 0 b=b|#|1@4 a=a|#|2@4 none",
        ),
        (
            "jC1- +a1 +b1 +a2 c1 t1 t1 t1",
            "1@0 1 2 3 0 a=a|#|2@3 b=b|#|1@3 none",
        ),
        (
            "jC1- +a1 +b1 -a c1 t1 +b2 +a3 c1 t1 t1 t1",
            "1@0 1 2 3 0 a=-@3 4 5 0 b=b|#|2@5 a=a|#|3@5 none",
        ),
        (
            "jC1- +a1 ! +b1 ! +c1 c1 t1 t1 t1",
            "1@0 1 2 3 4 5 0 cleared@4 c=c|#|1@5 none",
        ),
    ];
    for (script, answers) in cases {
        assert!(rt;
            holds(rt.alloc(), Kind::Command, script, answers)?,
            "{script}"
        );
    }
    Ok(())
}

#[test]
fn command_slots_tell_their_snapshot_first(rt: HostRuntime) -> Result<(), Fail> {
    let cases = [
        (
            "+b1 +a2 jC1a t1 t1 t1 t1",
            "1 2 1@2 a=a|#|2@2 b=b|#|1@2 end none",
        ),
        (
            "+a1 +b2 jC1a ! +b9 c1 t1 t1 t1 t1",
            "1 2 1@2 3 4 0 end cleared@3 b=b|#|9@4 none",
        ),
        (
            "+a1 +b2 +c3 jC1a +c9 +d4 c1 t1 t1 t1 t1 t1 t1",
            "1 2 3 1@3 4 5 0 a=a|#|1@5 b=b|#|2@5 c=c|#|9@5 end d=d|#|4@5 none",
        ),
        (
            "+a1 +b2 jC1a t1 ! +a7 c1 t1 t1 t1 t1",
            "1 2 1@2 a=a|#|1@2 3 4 0 end cleared@3 a=a|#|7@4 none",
        ),
        (
            "+a1 key=ab&command=ADD +B1 jC1a 3*t1 t1",
            "1 2 3 1@3 ab=ab|#|#@3 end",
        ),
        (
            "+a1 key=a&command=UPDATE jC1a t1 -a +b1 -b ! jC1a t2",
            "1 2 1@2 a=a|#|1@2 3 4 5 6 2@6 end",
        ),
    ];
    for (script, answers) in cases {
        assert!(rt;
            holds(rt.alloc(), Kind::Command, script, answers)?,
            "{script}"
        );
    }
    Ok(())
}

#[test]
fn keys_and_lags_have_limits(rt: HostRuntime) -> Result<(), Fail> {
    let cases = [
        (
            "1024*command=ADD&key=@ +k1 -k +71 key=k key=k&command=UPDATE jC1- 64*+71 +71 c1 +71",
            "1024 toomanykeys 1025 1026 badcommand toomanykeys 1@1026 1090 backlog1 0 1091",
        ),
        (
            "a=9 key=#&command=ADD command=GO key=k&command=# key=k&command=add",
            "nokey nokey nokey badcommand badcommand",
        ),
    ];
    for (script, answers) in cases {
        assert!(rt;
            holds(rt.alloc(), Kind::Command, script, answers)?,
            "{script}"
        );
    }
    Ok(())
}

/// What a COMMAND item answers to an event of another adapter and number, behind one of adapter 1 and number 5.
fn after_one(
    alloc: Global,
    adapter: u8,
    seq: u64,
    text: &str,
) -> Result<Result<u64, PublishRefused>, Fail> {
    let mut cell = item(alloc, Kind::Command)?;
    let _first = publish(alloc, &mut cell, 1, 5, "key=k&command=ADD")?;
    publish(alloc, &mut cell, adapter, seq, text)
}

#[test]
fn an_adapter_repeats_itself(rt: HostRuntime) -> Result<(), Fail> {
    let repeated = Err(PublishRefused::Repeated { last: 5 });
    let cases = [
        (1, 5, "key=k&command=ADD", repeated),
        (1, 4, "a=1", repeated),
        (2, 1, "command=GO", Err(PublishRefused::NoKey)),
        (1, 6, "key=k&command=DELETE", Ok(2)),
        (64, 1, "key=k&command=DELETE", Ok(2)),
    ];
    for (adapter, seq, text, want) in cases {
        assert!(rt;
            after_one(rt.alloc(), adapter, seq, text)? == want,
            "{adapter} {seq}"
        );
    }
    Ok(())
}
