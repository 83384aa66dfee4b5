//! How a config is read (this project's profile).
ghost use Rattle.std.specs.Prelude.{◌≡◌, ◌⊎◌, Ok, Err, Some, None, IfOk, IfErr, OnOk, length, map, true, false};
ghost use Rattle.std.specs.Prelude.{if◌then◌else◌};
ghost use Rattle.ls_words.specs.Words.{divided};
ghost use Rattle.ls_config.specs.Items.{are_items, item_said};
ghost use Rattle.ls_config.specs.Configs.{is_skipped, nothing, with_name, with_set, with_item, with_words};
ghost use Rattle.ls_config.specs.Configs.{with_line, with_lines, config_of, set_of, Answers};

use crate::config::Config;
use crate::fields::item_said;
use crate::items::Items;
use ls_value::{NoMemory, Text, same_bytes};
use ls_words::{divided, first_piece, name_of};
use std::alloc::Global;

/// Why bytes are no config.
#[derive(Clone, Copy, Debug, PartialEq, Eq)]
pub enum ConfigRefused {
    /// This line, counted from 1, is the first outside the format.
    BadConfig { line: u64 },
    /// Memory was refused.
    NoMemory,
}

impl From<NoMemory> for ConfigRefused {
    ghost use Rattle.std.specs.Prelude.{◌≡◌};
    ghost use Rattle.ls_config.specs.declared.reading.ConfigRefused.TheVariants as refused;

    ghost from_gives = { λ _ e. e ≡ refused.NoMemory };

    fn from(_: NoMemory) -> ConfigRefused {
        ConfigRefused::NoMemory
    }
}

/// What the lines so far said.
#[derive(Drop)]
struct Draft {
    /// The set's name, where a line named it.
    set: Option<Text>,
    /// Whether a line was not skipped.
    begun: bool,
    /// The items.
    items: Items,
}

/// The config that bytes say (this project's profile).
///
/// Lines end with LF; the last may end with the input. Empty lines and lines that begin with `#` are skipped. The first
/// other line may be `set <name>`; the set's name is `DEFAULT` without it. Every other line is `<name> <kind> <f,f,f>`:
/// an item as `item_said` reads it, with another name than those before it, and at most `MOST_ITEMS` of them.
/// `BadConfig` tells the first line outside this.
pub fn read(alloc: Global, bytes: &[u8]) -> Result<Config, ConfigRefused>
    ensures answer { Answers (config_of bytes.now) result }

    // At most `MOST_ITEMS` items with distinct names, each with distinct fields, in COMMAND with `key` and `command`.
    ensures items { IfOk result (λ c. are_items c.items ≡ true) }
{
    let Draft { set, items, .. } = read_lines(alloc, bytes)?;
    let set = set_or_default(alloc, set)?;
    Ok(Config { set, items })
}

/// The set's name.
fn set_or_default(alloc: Global, set: Option<Text>) -> Result<Text, NoMemory>
    ensures { IfOk result (λ name. name ≡ set_of set) }
{
    match set {
        Some(name) => Ok(name),
        None => default_set(alloc),
    }
}

/// What the lines of a config say.
fn read_lines(alloc: Global, bytes: &[u8]) -> Result<Draft, ConfigRefused>
    ensures { Answers (with_lines 0 (Some nothing) (divided 10 bytes.now)) result }
{
    let mut draft = Draft {
        set: None,
        begun: false,
        items: Items::new(alloc),
    };
    let mut rest = Some(bytes);
    let mut line: u64 = 0;
    while let Some(unread) = rest {
        let (text, behind) = first_piece(b'\n', unread);
        line += 1;
        if !add_line(alloc, &mut draft, text)? {
            return Err(ConfigRefused::BadConfig { line });
        }
        rest = behind;
    }
    Ok(draft)
}

/// Reads a line. `false` exactly where it is outside the format.
fn add_line(alloc: Global, draft: &mut Draft, line: &[u8]) -> Result<bool, NoMemory>
    ensures { IfOk result (λ fits. with_line draft.old line.now ≡ (if fits then Some draft.new else None)) }
{
    if is_skipped(line) {
        return Ok(true);
    }
    let words = divided(alloc, b' ', line)?;
    add_words(alloc, draft, &words)
}

/// Whether a line is skipped: it is empty, or a comment, which begins with `#` (this project's profile).
pub fn is_skipped(line: &[u8]) -> bool
    ensures { result ≡ is_skipped line.now }
{
    match line {
        [] => true,
        [first, ..] => *first == b'#',
    }
}

/// Reads the words of a line.
fn add_words(alloc: Global, draft: &mut Draft, words: &[&[u8]]) -> Result<bool, NoMemory>
    ensures { IfOk result (λ fits. with_words draft.old (map (λ w. w.now) words.now)
        ≡ (if fits then Some draft.new else None)) }
{
    match words {
        [word, name] => add_set(alloc, draft, word, name),
        [name, word, fields] => add_item(alloc, draft, name, word, fields),
        _ => Ok(false),
    }
}

/// Reads the set's name, which only the first line that isn't skipped says.
fn add_set(alloc: Global, draft: &mut Draft, word: &[u8], name: &[u8]) -> Result<bool, NoMemory>
    ensures { IfOk result (λ fits. with_set draft.old word.now name.now ≡ (if fits then Some draft.new else None)) }
{
    if same_bytes(word, b"set") && !draft.begun {
        name_set(alloc, draft, name)
    } else {
        Ok(false)
    }
}

/// Names the set.
fn name_set(alloc: Global, draft: &mut Draft, name: &[u8]) -> Result<bool, NoMemory>
    ensures { IfOk result (λ fits. with_name draft.old name.now ≡ (if fits then Some draft.new else None)) }
{
    match name_of(alloc, name)? {
        Some(name) => {
            draft.set = Some(name);
            draft.begun = true;
            Ok(true)
        }
        None => Ok(false),
    }
}

/// Reads an item.
fn add_item(
    alloc: Global,
    draft: &mut Draft,
    name: &[u8],
    word: &[u8],
    fields: &[u8],
) -> Result<bool, NoMemory>
    ensures { IfOk result (λ fits. with_item draft.old (item_said name.now word.now fields.now)
        ≡ (if fits then Some draft.new else None)) }
{
    let Some(item) = item_said(alloc, name, word, fields)? else {
        return Ok(false);
    };
    if draft.items.add(item)? {
        draft.begun = true;
        Ok(true)
    } else {
        Ok(false)
    }
}

/// The name of a set without a `set` line.
fn default_set(alloc: Global) -> Result<Text, NoMemory>
    ensures { IfOk result (λ name. name ≡ set_of None) }
{
    match name_of(alloc, b"DEFAULT")? {
        Some(name) => Ok(name),
        None => unreachable!(),
    }
}
