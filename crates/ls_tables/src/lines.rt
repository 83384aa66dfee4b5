//! Lines of the protocol.
use crate::failed::Failed;
use ls_line::{Line, LineRefused, counts, read, text};
use std::alloc::Global;

/// What a line of the protocol is.
pub fn line(alloc: Global, input: &[u8]) -> Result<Vec<u8>, Failed> {
    let text = match read(alloc, input) {
        Ok(line) => return line_text(alloc, &line),
        Err(LineRefused::BadTag) => format!(in alloc; "tag")?,
        Err(LineRefused::BadCount) => format!(in alloc; "count")?,
        Err(LineRefused::BadNumber { at }) => format!(in alloc; "number {at}")?,
        Err(LineRefused::BadText { at }) => format!(in alloc; "text {at}")?,
        Err(LineRefused::NoMemory) => return Err(Failed::NoMemory),
    };
    Ok(text.into_bytes())
}

/// Whether a line counts as data, and its text.
fn line_text(alloc: Global, line: &Line) -> Result<Vec<u8>, Failed> {
    let word = if counts(line) { "data " } else { "other " };
    let mut out = Vec::new(alloc);
    out.extend_from_slice(word.as_bytes())?;
    out.extend_from_slice(text(alloc, line)?.as_slice())?;
    Ok(out)
}
