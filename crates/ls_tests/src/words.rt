//! Numbers, words and names at the edges of what they may be.
use ls_words::{divided, first_piece, is_name, number_in, split_once};
use std::test::Fail;

#[test]
fn numbers_are_read(rt: HostRuntime) -> Result<(), Fail> {
    let cases: [(&[u8], u64, u64, Option<u64>); 16] = [
        (b"0", 0, 9, Some(0)),
        (b"7", 0, 9, Some(7)),
        (b"9", 0, 9, Some(9)),
        (b"10", 0, 9, None),
        (b"5", 5, 5, Some(5)),
        (b"4", 5, 9, None),
        (b"5", 9, 5, None),
        (b"", 0, 9, None),
        (b"00", 0, 9, None),
        (b"07", 0, 9, None),
        (b"+7", 0, 9, None),
        (b"-7", 0, 9, None),
        (b"7 ", 0, 9, None),
        (b"7a", 0, 99, None),
        (b"/", 0, 99, None),
        (b":", 0, 99, None),
    ];
    for (text, low, high, number) in cases {
        assert!(rt; number_in(text, low, high) == number);
    }
    Ok(())
}

#[test]
fn great_numbers_are_read(rt: HostRuntime) -> Result<(), Fail> {
    let cases: [(&[u8], u64, u64, Option<u64>); 10] = [
        (b"999999999", 1, 999999999, Some(999999999)),
        (b"1000000000", 1, 999999999, None),
        (
            b"999999999999999999",
            0,
            999999999999999999,
            Some(999999999999999999),
        ),
        (b"1000000000000000000", 0, 999999999999999999, None),
        (
            b"1152921504606846976",
            0,
            1152921504606846976,
            Some(1152921504606846976),
        ),
        (b"1152921504606846977", 0, 1152921504606846976, None),
        (b"18446744073709551615", 0, u64::MAX, Some(u64::MAX)),
        (b"18446744073709551616", 0, u64::MAX, None),
        (b"184467440737095516150", 0, u64::MAX, None),
        (
            b"99999999999999999999999999999999999999999x",
            0,
            u64::MAX,
            None,
        ),
    ];
    for (text, low, high, number) in cases {
        assert!(rt; number_in(text, low, high) == number);
    }
    Ok(())
}

#[test]
fn texts_are_divided(rt: HostRuntime) -> Result<(), Fail> {
    let alloc = rt.alloc();
    let cases: [(&[u8], &[&[u8]]); 8] = [
        (b"", &[b""]),
        (b"a", &[b"a"]),
        (b"pub 1 7 item a=1", &[b"pub", b"1", b"7", b"item", b"a=1"]),
        (b"a  b", &[b"a", b"", b"b"]),
        (b" a", &[b"", b"a"]),
        (b"a ", &[b"a", b""]),
        (b" ", &[b"", b""]),
        (b"a\tb", &[b"a\tb"]),
    ];
    for (text, words) in cases {
        let found = divided(alloc, b' ', text)?;
        assert!(rt; found.as_slice() == words);
    }
    Ok(())
}

#[test]
fn names_are_told(rt: HostRuntime) -> Result<(), Fail> {
    let alloc = rt.alloc();
    let cases: [(&[u8], bool); 16] = [
        (b"a", true),
        (b"Zz", true),
        (b"09", true),
        (b"a_b.c-d", true),
        (b"-", true),
        (b"", false),
        (b"a b", false),
        (b"a,b", false),
        (b"a/b", false),
        (b"a:b", false),
        (b"@", false),
        (b"[", false),
        (b"`", false),
        (b"{", false),
        (b"caf\xC3\xA9", false),
        (b"a\n", false),
    ];
    for (text, is) in cases {
        assert!(rt; is_name(text) == is);
    }
    let longest = vec![in alloc; b'a'; 64]?;
    assert!(rt; is_name(&longest));
    let longer = vec![in alloc; b'a'; 65]?;
    assert!(rt; !is_name(&longer));
    Ok(())
}

#[test]
fn texts_are_split(rt: HostRuntime) -> Result<(), Fail> {
    let cases: [(&[u8], Option<(&[u8], &[u8])>); 6] = [
        (b"", None),
        (b"a", None),
        (b"a=b", Some((b"a", b"b"))),
        (b"a=b=c", Some((b"a", b"b=c"))),
        (b"=", Some((b"", b""))),
        (b"==", Some((b"", b"="))),
    ];
    for (text, halves) in cases {
        assert!(rt; split_once(b'=', text) == halves);
        let (first, behind) = first_piece(b'=', text);
        let want: (&[u8], Option<&[u8]>) = match halves {
            Some((front, back)) => (front, Some(back)),
            None => (text, None),
        };
        assert!(rt; first == want.0 && behind == want.1);
    }
    Ok(())
}
