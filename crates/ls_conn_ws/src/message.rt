//! The lines of a message.
ghost use Rattle.std.specs.Prelude.{◌≡◌, ◌∷◌};
ghost use Rattle.ls_conn_ws.specs.Messages.{lines_after, lines_of, without_cr};

use ls_words::first_piece;

/// A line without the CR of its CR LF.
fn without_cr(line: &[u8]) -> &[u8]
    ensures { result.now ≡ without_cr line.now }
{
    match line.last() {
        Some(13) => &line[..line.len() - 1],
        _ => line,
    }
}

/// The first line of a text, without the CR LF or LF that ends it, and what is after that, where the text goes on.
pub(crate) fn first_line(text: &[u8]) -> (&[u8], Option<&[u8]>)
    ensures { lines_of text.now ≡ result.0.now ∷ lines_after result.1 }
{
    let (line, rest) = first_piece(b'\n', text);
    match rest {
        Some(rest) => (without_cr(line), Some(rest)),
        None => (line, None),
    }
}
