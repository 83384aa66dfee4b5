//! Lines of scripts, and notes.
use crate::failed::Failed;
use crate::forms::pairs_text;
use crate::words::{cells_text, mode_word, names_text, number, two, word};
use ls_event::Kind;
use ls_request::LinkKind;
use ls_script::{AddWords, Out, Repeat, Script, ScriptRefused, Step, add_params, print};
use ls_value::{Bytes, Cells, Names, Text};
use ls_words::split_once;
use std::alloc::Global;

/// The lines that stand before each script.
#[derive(Drop)]
pub struct Given {
    /// The lines, each with its end.
    lines: Vec<u8>,
}

impl Given {
    /// No lines.
    pub fn new(alloc: Global) -> Given {
        Given {
            lines: Vec::new(alloc),
        }
    }

    /// The step of the last line of a script, which begins with these lines.
    pub fn script(&self, alloc: Global, lines: &[u8]) -> Result<Vec<u8>, Failed> {
        let mut script = Script::new(alloc)?;
        let text = self.text_behind(alloc, &mut script, lines)?;
        Ok(text.into_bytes())
    }

    /// Reads these lines and more, and gives the step of the last one.
    fn text_behind(
        &self,
        alloc: Global,
        script: &mut Script,
        lines: &[u8],
    ) -> Result<String, Failed> {
        read_but_last(script, &self.lines)?;
        let line = read_but_last(script, lines)?;
        line_text(alloc, script, line)
    }

    /// The step of a line, which is kept behind these.
    pub fn given(&mut self, alloc: Global, line: &[u8]) -> Result<Vec<u8>, Failed> {
        let text = self.script(alloc, line)?;
        self.lines.extend_from_slice(line)?;
        self.lines.push(b'\n')?;
        Ok(text)
    }

    /// The parameters of an `add` line, whose number goes before it.
    pub fn params(&self, alloc: Global, input: &[u8]) -> Result<Vec<u8>, Failed> {
        let (n, line) = two(input);
        let n = number(n)?;
        let mut script = Script::new(alloc)?;
        let text = self.params_behind(alloc, &mut script, n, line)?;
        Ok(text.into_bytes())
    }

    /// Reads these lines, and gives the parameters of an `add` line of this number behind them.
    fn params_behind(
        &self,
        alloc: Global,
        script: &mut Script,
        n: u64,
        line: &[u8],
    ) -> Result<String, Failed> {
        read_but_last(script, &self.lines)?;
        match script.read(line) {
            Ok(Some(asked)) => params_text(alloc, n, &asked.step),
            _ => Err(Failed::BadCase),
        }
    }
}

/// Reads all lines but the last one, which is given back.
fn read_but_last<'a>(script: &mut Script, lines: &'a [u8]) -> Result<&'a [u8], Failed> {
    let mut last: Option<&'a [u8]> = None;
    for line in lines.split(|b| *b == b'\n') {
        if let Some(before) = last {
            read_line(script, before)?;
        }
        last = Some(line);
    }
    Ok(last.unwrap_or(b""))
}

/// Reads a line, which may be outside the grammar.
fn read_line(script: &mut Script, line: &[u8]) -> Result<(), Failed> {
    match script.read(line) {
        Ok(_) | Err(ScriptRefused::BadLine) => Ok(()),
        Err(ScriptRefused::NoMemory) => Err(Failed::NoMemory),
    }
}

/// What a line says.
fn line_text(alloc: Global, script: &mut Script, line: &[u8]) -> Result<String, Failed> {
    match script.read(line) {
        Ok(Some(asked)) => asked_text(alloc, &asked),
        Ok(None) => Ok(format!(in alloc; "skipped")?),
        Err(ScriptRefused::BadLine) => Ok(format!(in alloc; "bad")?),
        Err(ScriptRefused::NoMemory) => Err(Failed::NoMemory),
    }
}

/// A step, and how often it is asked for.
fn asked_text(alloc: Global, asked: &Repeat) -> Result<String, Failed> {
    let step = step_text(alloc, &asked.step)?;
    Ok(format!(in alloc; "{step} x{}", asked.times)?)
}

/// The parameters of an `add` line of this number.
fn params_text(alloc: Global, line: u64, step: &Step) -> Result<String, Failed> {
    let Step::Add {
        connection: _,
        words,
    } = step
    else {
        return Err(Failed::BadCase);
    };
    match add_params(alloc, line, words)? {
        Some(params) => pairs_text(alloc, &params),
        None => Ok(format!(in alloc; "none")?),
    }
}

/// A step.
fn step_text(alloc: Global, step: &Step) -> Result<String, Failed> {
    match step {
        Step::Set { name } => Ok(format!(in alloc; "set {}", name.as_str())?),
        Step::Item { name, kind, fields } => item_text(alloc, name, *kind, fields),
        Step::Tick { ms } => Ok(format!(in alloc; "tick {ms}")?),
        Step::Conn {
            name,
            link: LinkKind::Ws,
        } => Ok(format!(in alloc; "conn {} ws", name.as_str())?),
        Step::Conn {
            name,
            link: LinkKind::Http,
        } => Ok(format!(in alloc; "conn {} http", name.as_str())?),
        Step::Open { name } => Ok(format!(in alloc; "open {}", name.as_str())?),
        Step::Add { connection, words } => add_text(alloc, *connection, words),
        Step::Request {
            connection,
            name,
            parameters,
        } => request_text(alloc, *connection, name, parameters),
        Step::Publish {
            adapter,
            seq,
            item,
            cells,
        } => publish_text(alloc, *adapter, *seq, *item, cells),
        Step::Clear { adapter, seq, item } => Ok(format!(in alloc;
            "clear {adapter} {seq} {item}"
        )?),
        Step::Enqueue {
            connection,
            sub,
            rank,
        } => Ok(format!(in alloc; "enq {connection} {sub} {rank}")?),
        Step::Take { connection } => Ok(format!(in alloc; "take {connection}")?),
        Step::Lose { connection } => Ok(format!(in alloc; "lose {connection}")?),
    }
}

/// The step of an `item` line.
fn item_text(alloc: Global, name: &Text, kind: Kind, fields: &Names) -> Result<String, Failed> {
    let fields = names_text(alloc, fields)?;
    let kind = match kind {
        Kind::Merge => "merge",
        Kind::Distinct => "distinct",
        Kind::Command => "command",
    };
    Ok(format!(in alloc; "item {} {kind} {fields}", name.as_str())?)
}

/// The step of a `req` line.
fn request_text(
    alloc: Global,
    connection: u32,
    name: &Text,
    parameters: &Bytes,
) -> Result<String, Failed> {
    let parameters = word(parameters.as_slice())?;
    Ok(format!(in alloc; "req {connection} {} '{parameters}'", name.as_str())?)
}

/// The step of a `pub` line.
fn publish_text(
    alloc: Global,
    adapter: u8,
    seq: u64,
    item: u32,
    cells: &Cells,
) -> Result<String, Failed> {
    let cells = cells_text(alloc, cells)?;
    Ok(format!(in alloc; "pub {adapter} {seq} {item} {cells}")?)
}

/// The step of an `add` line.
fn add_text(alloc: Global, connection: u32, words: &AddWords) -> Result<String, Failed> {
    let (sub, items, fields) = (shown(&words.sub), shown(&words.items), shown(&words.fields));
    let extras = extras_text(alloc, words)?;
    Ok(format!(in alloc;
        "add {connection} '{sub}''{items}''{fields}'{}{extras}",
        mode_word(words.mode)
    )?)
}

/// The words behind an `add` line's mode.
fn extras_text(alloc: Global, words: &AddWords) -> Result<String, Failed> {
    let snapshot = maybe(words.snapshot.as_ref());
    let buffer = maybe(words.buffer.as_ref());
    let frequency = maybe(words.frequency.as_ref());
    Ok(format!(in alloc; "'{snapshot}''{buffer}''{frequency}'")?)
}

/// Bytes as a text, or a question mark where they are none.
fn shown(bytes: &Bytes) -> &str {
    match std::str::from_utf8(bytes.as_slice()) {
        Ok(text) => text,
        Err(_) => "?",
    }
}

/// Bytes as a text, or a dash.
fn maybe(bytes: Option<&Bytes>) -> &str {
    match bytes {
        Some(bytes) => shown(bytes),
        None => "-",
    }
}

/// The text of a note, by its name and its number.
pub fn note(alloc: Global, input: &[u8]) -> Result<String, Failed> {
    let (name, n) = match split_once(b' ', input) {
        Some((name, n)) => (name, number(n)?),
        None => (input, 0),
    };
    let note = note_of(word(name)?, n)?;
    let text = print(alloc, &note)?;
    Ok(String::from_str(alloc, word(text.as_slice())?)?)
}

/// The note of a name and a number.
fn note_of(name: &str, n: u64) -> Result<Out, Failed> {
    match name {
        "published" => Ok(Out::Published { no: n }),
        "repeated" => Ok(Out::Repeated { last: n }),
        "too_long" => Ok(Out::TooLong { bytes: n }),
        "backlog" => Ok(Out::Backlog {
            slot: (n % 65536) as u32,
        }),
        "moved" => Ok(Out::Moved { no: n }),
        "not_due" => Ok(Out::NotDue { at: n }),
        "superseded" => Ok(Out::Superseded { epoch: n }),
        "ended" => Ok(Out::Ended {
            code: (n % 65536) as u16,
        }),
        "no_key" => Ok(Out::NoKey),
        "bad_command" => Ok(Out::BadCommand),
        "too_many_keys" => Ok(Out::TooManyKeys),
        "spent" => Ok(Out::Spent),
        "up_to_date" => Ok(Out::UpToDate),
        "no_slot" => Ok(Out::NoSlot),
        "idle" => Ok(Out::Idle),
        "unbound" => Ok(Out::Unbound),
        "none" => Ok(Out::NoSession),
        "lost" => Ok(Out::Lost),
        _ => Err(Failed::BadCase),
    }
}
