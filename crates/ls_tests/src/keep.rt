//! The numbered lines that are kept, at the edges of what may be kept. What a call requires is tested before it.
use ls_keep::{Keep, ResumeRefused};
use ls_value::{Bytes, GREATEST_NUMBER, NoMemory};
use std::alloc::Global;
use std::test::Fail;

/// Numbers a line where there is room, and answers its number, 0 where there is none.
fn push(keep: &mut Keep, text: Bytes) -> u64 {
    if keep.spare() == 0 {
        return 0;
    }
    if keep.last() >= GREATEST_NUMBER {
        return 0;
    }
    keep.push(text)
}

/// The same with a text whose memory may be that of the next blank one.
fn push_text(keep: &mut Keep, text: Vec<u8>) -> u64 {
    if keep.spare() == 0 {
        return 0;
    }
    if keep.last() >= GREATEST_NUMBER {
        return 0;
    }
    keep.push_text(text)
}

/// Gives the next line, and answers whether there was one.
fn mark(keep: &mut Keep) -> bool {
    if keep.sent() >= keep.last() {
        return false;
    }
    keep.mark();
    true
}

/// The one byte of the text of a line of this number.
fn byte_of(number: u64) -> u8 {
    (number % 251) as u8
}

/// Whether a text is that of a line of this number.
fn is_line(text: &[u8], number: u64) -> bool {
    match text {
        [byte] => *byte == byte_of(number),
        _ => false,
    }
}

/// Numbers a line of one byte, and answers whether it has the number behind the last one.
fn push_line(alloc: Global, keep: &mut Keep) -> Result<bool, NoMemory> {
    let next = keep.last().saturating_add(1);
    let text = Bytes::of(alloc, &[byte_of(next)])?;
    keep.reserve(1)?;
    Ok(push(keep, text) == next)
}

/// Numbers so many lines of one byte each, and answers whether all of them are.
fn push_lines(alloc: Global, keep: &mut Keep, lines: u64) -> Result<bool, NoMemory> {
    for _ in 0..lines {
        if !push_line(alloc, keep)? {
            return Ok(false);
        }
    }
    Ok(true)
}

/// Numbers a line of one byte in the memory of one before, and answers whether it has the number behind the last one.
fn push_blank(keep: &mut Keep) -> Result<bool, NoMemory> {
    let next = keep.last().saturating_add(1);
    keep.reserve(1)?;
    let mut text = keep.blank(1)?;
    text.push(byte_of(next))?;
    Ok(push_text(keep, text) == next)
}

/// Numbers so many pairs of lines of one byte each, the first in the memory of one before, and answers whether all of
/// them are.
fn push_pairs(alloc: Global, keep: &mut Keep, pairs: u64) -> Result<bool, NoMemory> {
    for _ in 0..pairs {
        let is_first = push_blank(keep)?;
        if !is_first || !push_line(alloc, keep)? {
            return Ok(false);
        }
    }
    Ok(true)
}

/// Gives the line of a number, and answers whether it is the next one, and told.
fn gives(keep: &mut Keep, number: u64) -> bool {
    mark(keep) && keep.sent() == number && is_line(keep.given(), number)
}

/// Whether a line is kept, with its own text.
fn has(keep: &Keep, number: u64) -> bool {
    match keep.get(number) {
        Some(text) => is_line(text, number),
        None => false,
    }
}

/// Whether of 600 lines each has its own text, wherever that lies.
fn have_own_texts(alloc: Global) -> Result<bool, NoMemory> {
    let mut keep = Keep::new(alloc)?;
    let is_numbered = push_pairs(alloc, &mut keep, 300)?;
    let is_first_told = has(&keep, 1) && has(&keep, 2) && has(&keep, 255);
    let is_last_told = has(&keep, 256) && has(&keep, 599) && has(&keep, 600);
    Ok(is_numbered && is_first_told && is_last_told && gives(&mut keep, 1))
}

#[test]
fn lines_have_their_own_texts(rt: HostRuntime) -> Result<(), Fail> {
    assert!(rt; have_own_texts(rt.alloc())?);
    Ok(())
}

/// Lines from 1 to a number, each given as it was numbered.
fn given_lines(alloc: Global, lines: u64) -> Result<Keep, Fail> {
    let mut keep = Keep::new(alloc)?;
    for number in 0..lines {
        let is_numbered = push_line(alloc, &mut keep)?;
        if !is_numbered || !gives(&mut keep, number + 1) {
            return Err(Fail::new("a line isn't given"));
        }
    }
    Ok(keep)
}

/// Whether nothing is kept at first, and `reserve` takes room.
fn begins(alloc: Global) -> Result<bool, NoMemory> {
    let mut keep = Keep::new(alloc)?;
    let none = keep.spare() == 0 && keep.last() == 0 && keep.sent() == 0 && keep.given_up() == 0;
    keep.reserve(3)?;
    Ok(none && keep.spare() >= 3 && keep.get(0).is_none() && keep.get(1).is_none())
}

/// Whether of three lines, two of which were given, the second is given again as a client has but the first; and no
/// line is given behind the last.
fn goes_back(alloc: Global) -> Result<bool, NoMemory> {
    let mut keep = Keep::new(alloc)?;
    let given = push_lines(alloc, &mut keep, 3)? && gives(&mut keep, 1) && gives(&mut keep, 2);
    let back = keep.resume(1).is_ok() && gives(&mut keep, 2) && gives(&mut keep, 3);
    let forth = keep.resume(0).is_ok() && keep.resume(3).is_ok() && !mark(&mut keep);
    Ok(given && back && forth && keep.given_up() == 0)
}

#[test]
fn lines_are_given_again(rt: HostRuntime) -> Result<(), Fail> {
    assert!(rt; begins(rt.alloc())? && goes_back(rt.alloc())?);
    Ok(())
}

/// Whether of 1,030 lines exactly the last 1,024 are kept.
fn are_last_kept(keep: &Keep) -> bool {
    keep.given_up() == 6
        && keep.last() == 1030
        && keep.get(6).is_none()
        && has(keep, 7)
        && has(keep, 1030)
        && keep.get(1031).is_none()
}

/// Whether a client of 1,030 lines that lacks a line that was given up, or has more lines, is refused.
fn refuses(keep: &mut Keep) -> bool {
    let early = keep.resume(5) == Err(ResumeRefused::GivenUp { first: 6 });
    let late = keep.resume(1031) == Err(ResumeRefused::Beyond { last: 1030 });
    early && late && keep.sent() == 1030
}

/// Whether a client goes on that has all 1,030 lines, or those that were given up.
fn resumes(keep: &mut Keep) -> bool {
    let all = keep.resume(1030).is_ok() && keep.sent() == 1030;
    all && keep.resume(6).is_ok() && gives(keep, 7) && keep.given_up() == 6
}

#[test]
fn the_last_lines_are_kept(rt: HostRuntime) -> Result<(), Fail> {
    let mut keep = given_lines(rt.alloc(), 1030)?;
    assert!(rt; are_last_kept(&keep));
    assert!(rt; refuses(&mut keep));
    assert!(rt; resumes(&mut keep));
    Ok(())
}

/// Numbers a line of so many bytes and gives it, and answers whether it was the next one.
fn gives_bytes(alloc: Global, keep: &mut Keep, bytes: usize) -> Result<bool, NoMemory> {
    let text = Bytes::from_vec(vec![in alloc; b'a'; bytes]?);
    keep.reserve(1)?;
    Ok(push(keep, text) > 0 && mark(keep) && keep.given().len() == bytes)
}

/// Whether two lines of so many bytes, each given as it was numbered, leave this given-up number.
fn leaves(alloc: Global, first: usize, second: usize, number: u64) -> Result<bool, NoMemory> {
    let mut keep = Keep::new(alloc)?;
    let one = gives_bytes(alloc, &mut keep, first)?;
    let both = gives_bytes(alloc, &mut keep, second)?;
    Ok(one && both && keep.given_up() == number)
}

#[test]
fn the_last_bytes_are_kept(rt: HostRuntime) -> Result<(), Fail> {
    for (first, second, number) in [
        (1, 262_142, 0),
        (1, 262_143, 0),
        (1, 262_144, 1),
        (1, 262_145, 2),
        (262_144, 0, 0),
        (262_145, 0, 1),
    ] {
        assert!(rt; leaves(rt.alloc(), first, second, number)?);
    }
    Ok(())
}

/// Whether of 2,000 lines none is given up before it was given, and then each but the last 1,024.
fn unsent_are_kept(alloc: Global) -> Result<bool, NoMemory> {
    let mut keep = Keep::new(alloc)?;
    if !push_lines(alloc, &mut keep, 2000)? || keep.given_up() > 0 {
        return Ok(false);
    }
    for number in 1..2001 {
        let given_up = if number < 976 { number } else { 976 };
        if !gives(&mut keep, number) || keep.given_up() != given_up {
            return Ok(false);
        }
    }
    Ok(true)
}

#[test]
fn a_line_is_given_up_only_as_it_is_given(rt: HostRuntime) -> Result<(), Fail> {
    assert!(rt; unsent_are_kept(rt.alloc())?);
    Ok(())
}
