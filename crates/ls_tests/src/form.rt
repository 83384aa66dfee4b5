//! Each call once with ample memory; `ls_tables` has the tables of form texts and decimals.
use ls_form::*;
use ls_value::same_bytes;
use std::alloc::Global;

/// Whether a name has this text.
fn says(params: &Params, name: &[u8], text: &[u8]) -> bool {
    match params.find(name) {
        Some(found) => same_bytes(found.as_bytes(), text),
        None => false,
    }
}

/// Whether the pairs of a form text are read and found.
fn finds(alloc: Global) -> bool {
    match pairs(alloc, b"LS_op=add&x&%61b=%2B") {
        Ok(params) => {
            params.len() == 3
                && says(&params, b"LS_op", b"add")
                && says(&params, b"x", b"")
                && says(&params, b"ab", b"+")
                && params.find(b"ls_op").is_none()
        }
        Err(_) => false,
    }
}

#[test]
fn pairs_are_read_and_found(rt: HostRuntime) {
    assert!(rt; finds(rt.alloc()));
}

/// Whether thousandths have this decimal.
fn prints(alloc: Global, n: u64, decimal: &[u8]) -> bool {
    match print_milli(alloc, n) {
        Ok(text) => same_bytes(text.as_slice(), decimal),
        Err(_) => false,
    }
}

#[test]
fn decimals_are_printed(rt: HostRuntime) {
    assert!(rt; prints(rt.alloc(), 1250, b"1.25"));
}
