//! The lines that a body holds.
ghost use Rattle.std.specs.Prelude.{◌≡◌, ◌++◌, ◌∷◌, []};
ghost use Rattle.ls_conn_http.specs.Bodies.{lines_after, lines_in, without_end};

use ls_words::first_piece;

/// A text that LF follows, without the CR of that CR LF.
fn before_lf(text: &[u8]) -> &[u8]
    ensures { result.now ≡ without_end (text.now ++ 10 ∷ []) }
{
    match text.strip_suffix(b"\r") {
        Some(line) => line,
        None => text,
    }
}

/// A text without the CR LF or LF at its end. A CR alone is no line end.
pub(crate) fn without_end(text: &[u8]) -> &[u8]
    ensures { result.now ≡ without_end text.now }
{
    match text.strip_suffix(b"\n") {
        Some(line) => before_lf(line),
        None => text,
    }
}

/// The first line of a body, without the CR LF or LF that ends it, and what is after that, where the body goes on.
pub(crate) fn first_line(body: &[u8]) -> (&[u8], Option<&[u8]>)
    ensures { lines_in body.now ≡ result.0.now ∷ lines_after result.1 }
{
    let (line, rest) = first_piece(b'\n', body);
    match rest {
        Some(rest) => (before_lf(line), Some(rest)),
        None => (line, None),
    }
}
