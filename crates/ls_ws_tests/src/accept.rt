//! The accept value of a handshake: the example of RFC 6455, section 1.3.
use ls_value::same_bytes;
use ls_ws::accept_text;
use std::test::Fail;

#[test]
fn a_key_has_its_accept_value(rt: HostRuntime) -> Result<(), Fail> {
    let value = accept_text(rt.alloc(), b"dGhlIHNhbXBsZSBub25jZQ==")?;
    assert!(rt; same_bytes(value.as_slice(), b"s3pPLMBiTxaQ9kYGzzhZRbK+xOo="));
    Ok(())
}
