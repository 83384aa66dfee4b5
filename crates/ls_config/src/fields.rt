//! An item's line: its name, its kind and its fields (this project's profile).
ghost use Rattle.std.specs.Prelude.{◌≡◌, ◌++◌, [], ◌∷◌, IfOk, map, true};
ghost use Rattle.ls_words.specs.Words.{is_name};
ghost use Rattle.ls_config.specs.Items.{kind_said, has_needed, item_said, names_said, fields_said};

use ls_event::{ItemDef, Kind, MOST_FIELDS};
use ls_value::{Names, NoMemory, Text, same_bytes};
use ls_words::{divided, name_of};
use std::alloc::Global;

/// The names that these texts are: `None` exactly where one of them is none.
fn names_said(alloc: Global, texts: &[&[u8]]) -> Result<Option<Names>, NoMemory>
    ensures { IfOk result (λ names. names ≡ names_said (map (λ n. n.now) texts.now)) }
{
    let mut names = Vec::new(alloc);
    for text in texts {
        if !add_name(alloc, &mut names, text)? {
            return Ok(None);
        }
    }
    Ok(Some(Names::of(names)))
}

/// Adds a name behind others, if it is one.
fn add_name(alloc: Global, names: &mut Vec<Text>, text: &[u8]) -> Result<bool, NoMemory>
    ensures is { IfOk result (λ is. is ≡ is_name text.now) }
    ensures new { IfOk result (λ is. is ≡ true → names.new.items ≡ names.old.items ++ text.now ∷ []) }
{
    match name_of(alloc, text)? {
        Some(name) => {
            names.push(name)?;
            Ok(true)
        }
        None => Ok(false),
    }
}

/// The fields that a text names, divided by commas: `None` exactly where they aren't distinct names, at least one
/// and at most `MOST_FIELDS`.
fn fields_said(alloc: Global, text: &[u8]) -> Result<Option<Names>, NoMemory>
    ensures { IfOk result (λ fields. fields ≡ fields_said text.now) }
{
    let texts = divided(alloc, b',', text)?;
    if texts.is_empty() || texts.len() > MOST_FIELDS {
        return Ok(None);
    }
    let Some(names) = names_said(alloc, &texts)? else {
        return Ok(None);
    };
    if names.are_distinct() {
        Ok(Some(names))
    } else {
        Ok(None)
    }
}

/// The kind that a word says.
fn kind_said(word: &[u8]) -> Option<Kind>
    ensures { result ≡ kind_said word.now }
{
    if same_bytes(word, b"MERGE") {
        Some(Kind::Merge)
    } else if same_bytes(word, b"DISTINCT") {
        Some(Kind::Distinct)
    } else if same_bytes(word, b"COMMAND") {
        Some(Kind::Command)
    } else {
        None
    }
}

/// Whether an item of a kind has the fields that it needs.
fn has_needed(kind: Kind, fields: &Names) -> bool
    ensures { result ≡ has_needed kind fields.now }
{
    match kind {
        Kind::Merge | Kind::Distinct => true,
        Kind::Command => fields.find(b"key").is_some() && fields.find(b"command").is_some(),
    }
}

/// The item that three words say: its name, its kind `MERGE`, `DISTINCT` or `COMMAND`, and its fields, divided by
/// commas.
/// `None` exactly where the first is no name, the second no kind, the fields aren't distinct names, at least one and at
/// most `MOST_FIELDS`, or a COMMAND item lacks the field `key` or `command`.
pub fn item_said(
    alloc: Global,
    name: &[u8],
    word: &[u8],
    fields: &[u8],
) -> Result<Option<ItemDef>, NoMemory>
    ensures { IfOk result (λ item. item ≡ item_said name.now word.now fields.now) }
{
    let Some(kind) = kind_said(word) else {
        return Ok(None);
    };
    let Some(name) = name_of(alloc, name)? else {
        return Ok(None);
    };
    let Some(fields) = fields_said(alloc, fields)? else {
        return Ok(None);
    };
    if has_needed(kind, &fields) {
        Ok(Some(ItemDef { name, kind, fields }))
    } else {
        Ok(None)
    }
}
