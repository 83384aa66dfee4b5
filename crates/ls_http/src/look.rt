//! A head by its places in the bytes that came.
ghost use Rattle.std.specs.Prelude.{◌≡◌, ◌≤◌, ℕ, List, length};
ghost use Rattle.httparse.specs.Grammar.{RequestHead};
ghost use Rattle.ls_http.specs.Reading.{front, IsHeadAt, IsWhole, Says};

use crate::head::LONGEST_HEAD;
use httparse::Status;
use httparse::spans::{HeaderSpan, RequestSpans, parse_request};

/// What the bytes hold.
#[derive(Debug, Drop)]
pub enum Found {
    /// A head, whose parts stand at these places.
    Whole {
        /// The places.
        spans: RequestSpans,
    },
    /// No head yet.
    Waiting,
    /// No head, and none can come.
    Bad,
}

/// The bytes in which a head is looked for.
pub fn front(bytes: &[u8]) -> &[u8]
    ensures { result.now ≡ front bytes.now }
{
    &bytes[..bytes.len().min(LONGEST_HEAD)]
}

/// Looks for a head, and writes the places of its fields.
pub fn look(bytes: &[u8], headers: &mut [HeaderSpan]) -> Found
    requires { length headers.old ≡ 64 }
    ensures kept { length headers.new ≡ 64 }
    ensures says { Says bytes.now headers.new result }
    ensures found { (h : RequestHead) (rest : List ℕ) → IsHeadAt bytes.now h rest → IsWhole bytes.now headers.new result h }
{
    match parse_request(front(bytes), headers) {
        Ok(Status::Complete(spans)) => Found::Whole { spans },
        Ok(Status::Partial) => {
            if bytes.len() < LONGEST_HEAD {
                Found::Waiting
            } else {
                Found::Bad
            }
        }
        Err(_) => Found::Bad,
    }
}
