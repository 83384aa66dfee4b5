//! Each call once with ample memory; `ls_tables` has the tables of lines and notes.
use ls_form::Params;
use ls_script::*;
use ls_value::{Bytes, NoMemory, Text, same_bytes};
use std::alloc::Global;

/// Whether a script reads a turn on its only connection, so many times.
fn takes(script: &mut Script, line: &[u8], times: u32) -> bool {
    match script.read(line) {
        Ok(Some(asked)) => {
            asked.times == times && matches!(asked.step, Step::Take { connection: 0 })
        }
        _ => false,
    }
}

/// Whether a script skips a comment, refuses a name that isn't declared, and reads it behind its declaration.
fn reads(alloc: Global) -> Result<bool, NoMemory> {
    let mut script = Script::new(alloc)?;
    let skipped = matches!(script.read(b"# a quote"), Ok(None));
    let refused = matches!(script.read(b"take c"), Err(ScriptRefused::BadLine));
    let opened = script.read(b"open c").is_ok();
    Ok(skipped && refused && opened && takes(&mut script, b"take c 9", 9))
}

#[test]
fn a_script_is_read(rt: HostRuntime) -> Result<(), NoMemory> {
    assert!(rt; reads(rt.alloc())?);
    Ok(())
}

/// A text's bytes.
fn bytes(alloc: Global, text: &[u8]) -> Result<Bytes, NoMemory> {
    Bytes::of(alloc, text)
}

/// The words of an `add` line.
fn add_words(alloc: Global) -> Result<AddWords, NoMemory> {
    Ok(AddWords {
        sub: bytes(alloc, b"1")?,
        items: bytes(alloc, b"q,d")?,
        fields: bytes(alloc, b"x")?,
        mode: ls_event::Mode::Merge,
        snapshot: None,
        buffer: Some(bytes(alloc, b"2")?),
        frequency: None,
    })
}

/// Whether a name has this text.
fn says(params: &Params, name: &[u8], text: &[u8]) -> bool {
    match params.find(name) {
        Some(found) => same_bytes(found.as_bytes(), text),
        None => false,
    }
}

/// Whether the parameters of an `add` line are those that it stands for.
fn hands_on(alloc: Global) -> Result<bool, NoMemory> {
    let words = add_words(alloc)?;
    match add_params(alloc, 2, &words)? {
        Some(params) => Ok(
            params.len() == 7
                && says(&params, b"LS_reqId", b"2")
                && says(&params, b"LS_mode", b"MERGE")
                && says(&params, b"LS_group", b"q d")
                && says(&params, b"LS_requested_buffer_size", b"2"),
        ),
        None => Ok(false),
    }
}

#[test]
fn words_are_handed_on(rt: HostRuntime) -> Result<(), NoMemory> {
    assert!(rt; hands_on(rt.alloc())?);
    Ok(())
}

/// The line of a connection.
fn line_of(alloc: Global, name: &str, line: &[u8]) -> Result<Out, NoMemory> {
    let connection = Text::from_string(String::from_str(alloc, name)?);
    let text = Bytes::of(alloc, line)?;
    Ok(Out::Line { connection, text })
}

/// Whether a line of a connection is printed.
fn prints(alloc: Global) -> Result<bool, NoMemory> {
    let out = line_of(alloc, "c", b"U,1,1,3.04|20:00:33")?;
    let text = print(alloc, &out)?;
    Ok(same_bytes(text.as_slice(), b"c:U,1,1,3.04|20:00:33\n"))
}

#[test]
fn lines_of_connections_are_printed(rt: HostRuntime) -> Result<(), NoMemory> {
    assert!(rt; prints(rt.alloc())?);
    Ok(())
}
