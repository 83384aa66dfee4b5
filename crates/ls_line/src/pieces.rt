//! The pieces of a line, divided by commas.
ghost use Rattle.std.specs.Prelude.{◌≡◌, ◌≤◌, ◌+◌, take, drop, length};
ghost use Rattle.ls_line.specs.Pieces.{first_piece, behind, commas};

/// The place of the first comma, or the length where there is none.
fn comma(bytes: &[u8]) -> usize
    ensures within { result ≤ length bytes.now }
    ensures first { take result bytes.now ≡ first_piece bytes.now }
    ensures rest { drop (result + 1) bytes.now ≡ behind bytes.now }
{
    for i in 0..bytes.len() {
        if bytes[i] == b',' {
            return i;
        }
    }
    bytes.len()
}

/// The bytes before the first comma; all where there is none.
pub(crate) fn first_piece(bytes: &[u8]) -> &[u8]
    ensures { result.now ≡ first_piece bytes.now }
{
    &bytes[..comma(bytes)]
}

/// The bytes behind the first comma; none where there is none.
pub(crate) fn behind(bytes: &[u8]) -> &[u8]
    ensures { result.now ≡ behind bytes.now }
{
    let place = comma(bytes);
    if place < bytes.len() {
        &bytes[place + 1..]
    } else {
        &[]
    }
}

/// How many commas there are.
pub(crate) fn commas(bytes: &[u8]) -> usize
    ensures { result ≡ commas bytes.now }
{
    let mut count: usize = 0;
    for byte in bytes {
        if *byte == b',' {
            count += 1;
        }
    }
    count
}
