//! The lines of a script by the calls of a hub, each made again where it is refused memory.
use crate::failed::Failed;
use ls_hub::Hub;
use ls_script::{Repeat, Script};
use std::alloc::Global;

/// A hub, two readers of its script, the number of lines that came, and what they printed. The readers know the same
/// names between two lines: the second one reads a line anew where the first one's step was refused.
#[derive(Drop)]
struct Stepping {
    hub: Hub,
    script: Script,
    spare: Script,
    line: u64,
    text: Vec<u8>,
}

/// Reads a line and does its step. Answers whether memory sufficed for the step.
fn is_done(
    hub: &mut Hub,
    script: &mut Script,
    number: u64,
    line: &[u8],
    text: &mut Vec<u8>,
) -> Result<bool, Failed> {
    match script.read(line)? {
        None => Ok(true),
        Some(Repeat { step, times }) => Ok(hub.step(number, step, times, text).is_ok()),
    }
}

impl Stepping {
    /// Does a line; where its step is refused memory, once more.
    fn line(&mut self, line: &[u8]) -> Result<(), Failed> {
        self.line = self.line.saturating_add(1);
        let len = self.text.len();
        if is_done(
            &mut self.hub,
            &mut self.script,
            self.line,
            line,
            &mut self.text,
        )? {
            self.spare.read(line)?;
            return Ok(());
        }
        self.text.truncate(len);
        if is_done(
            &mut self.hub,
            &mut self.spare,
            self.line,
            line,
            &mut self.text,
        )? {
            return Ok(());
        }
        Err(Failed::NoMemory)
    }
}

/// What the lines of a script print, where each step that is refused memory is done again.
pub(crate) fn printed(alloc: Global, script: &[u8]) -> Result<Vec<u8>, Failed> {
    let mut stepping = Stepping {
        hub: Hub::new(alloc)?,
        script: Script::new(alloc)?,
        spare: Script::new(alloc)?,
        line: 0,
        text: Vec::new(alloc),
    };
    for line in script.split(|byte| *byte == b'\n') {
        stepping.line(line)?;
    }
    Ok(stepping.text)
}
