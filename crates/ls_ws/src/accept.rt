//! The accept value of a handshake.
ghost use Rattle.std.specs.Prelude.{◌≡◌, IfOk};
ghost use Rattle.ls_ws.specs.Accept.{accept_of};

use base64::engine::general_purpose::STANDARD;
use ls_value::{Bytes, NoMemory};
use sha1::Sha1;
use std::alloc::Global;

/// The value of `Sec-WebSocket-Accept` for the key of a client's handshake (RFC 6455, section 4.2.2): the base64 of the
/// SHA-1 of the key, as it stands in its header, and the text of the RFC. It is 28 bytes of ASCII. The key can be any
/// bytes: whether it is one that a handshake may have is not asked.
///
/// # Errors
///
/// [`NoMemory`] where memory was refused.
pub fn accept_text(alloc: Global, key: &[u8]) -> Result<Bytes, NoMemory>
    ensures { IfOk result (λ value. value ≡ accept_of key.now) }
{
    let mut hasher = Sha1::new();
    hasher.update(key);
    hasher.update(b"258EAFA5-E914-47DA-95CA-C5AB0DC85B11");
    let value = STANDARD.encode(alloc, &hasher.finalize())?;
    Bytes::of(alloc, value.as_bytes())
}
