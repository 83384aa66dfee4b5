//! Items files.
use crate::failed::Failed;
use ls_config::{Config, ConfigRefused, ItemDef, Kind, read};
use std::alloc::Global;

/// What an items file says, or the number of its items alone.
pub fn config(alloc: Global, input: &[u8], counts: bool) -> Result<String, Failed> {
    match read(alloc, input) {
        Ok(config) if counts => Ok(format!(in alloc; "{}", config.items.len())?),
        Ok(config) => config_text(alloc, &config),
        Err(ConfigRefused::BadConfig { line }) => Ok(format!(in alloc; "line {line}")?),
        Err(ConfigRefused::NoMemory) => Err(Failed::NoMemory),
    }
}

/// The set's name, and each item.
fn config_text(alloc: Global, config: &Config) -> Result<String, Failed> {
    let mut text = String::from_str(alloc, config.set.as_str())?;
    for item in config.items.as_slice() {
        append_item(&mut text, item)?;
    }
    Ok(text)
}

/// Appends an item: its name, the first letter of its kind, and its fields.
fn append_item(out: &mut String, item: &ItemDef) -> Result<(), Failed> {
    let kind = match item.kind {
        Kind::Merge => 'M',
        Kind::Distinct => 'D',
        Kind::Command => 'C',
    };
    write!(out, " {}:{kind}", item.name.as_str())?;
    for field in item.fields.as_slice() {
        write!(out, ".{}", field.as_str())?;
    }
    Ok(())
}
