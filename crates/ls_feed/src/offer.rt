//! What a line of a feed offers.
ghost use Rattle.std.specs.Prelude.{◌≡◌, ◌<◌, ◌≤◌, length, IfOk, IfSome, option_map, slice_get, Some, ◌&&◌};
ghost use Rattle.std.specs.Borrow.{Bor};
ghost use Rattle.ls_event.specs.History.{HasFields};
ghost use Rattle.ls_feed.specs.Lines.{hello_of};
ghost use Rattle.ls_feed.specs.Offers.{words_of, is_word, event_bad, offer_of, fields_of, said, AnswersOffer, FitsItem};

use crate::reply::Bad;
use ls_config::Items;
use ls_event::{Event, EventRefused, MOST_ADAPTERS, read_event};
use ls_value::{Names, same_bytes};
use ls_words::{first_piece, number_in, split_once};
use std::alloc::Global;

/// An event that is offered to an item.
#[derive(Drop)]
pub struct Offer {
    /// The item's number, from 0.
    pub item: u32,

    /// The adapter's seq, from 1.
    pub seq: u64,

    /// The event.
    pub event: Event,
}

/// The adapter that a first line names: `None` exactly where it isn't `feed`, a space, and a number from 1 to 64.
pub(crate) fn hello_of(line: &[u8]) -> Option<u8>
    ensures adapter { result ≡ hello_of line.now }
    ensures within { IfSome result (λ a. (1 ≤ a) × (a ≤ 64)) }
{
    let Some((word, number)) = split_once(b' ', line) else {
        return None;
    };
    if !same_bytes(word, b"feed") {
        return None;
    }
    let Some(adapter) = number_in(number, 1, u64::from(MOST_ADAPTERS)) else {
        return None;
    };
    Some(adapter as u8)
}

/// The three words of a line, divided by single spaces: `None` exactly where they aren't three, or one of them is
/// empty.
fn words_of(line: &[u8]) -> Option<(&[u8], &[u8], &[u8])>
    ensures { option_map said result ≡ words_of line.now }
{
    let (name, rest) = first_piece(b' ', line);
    let Some(rest) = rest else {
        return None;
    };
    let (seq, rest) = first_piece(b' ', rest);
    let Some(rest) = rest else {
        return None;
    };
    let (event, rest) = first_piece(b' ', rest);
    if rest.is_some() {
        return None;
    }
    if are_words(name, seq, event) {
        Some((name, seq, event))
    } else {
        None
    }
}

/// Whether none of these is empty.
fn are_words(name: &[u8], seq: &[u8], event: &[u8]) -> bool
    ensures { result ≡ (is_word name.now && is_word seq.now && is_word event.now) }
{
    !name.is_empty() && !seq.is_empty() && !event.is_empty()
}

/// The reply's cause where an event's text is refused.
fn event_bad(cause: EventRefused) -> Bad
    ensures { result ≡ event_bad cause }
{
    match cause {
        EventRefused::BadPair { at: _ }
        | EventRefused::TwiceField { at: _ }
        | EventRefused::BadText { at: _ } => Bad::Malformed,
        EventRefused::UnknownField { at: _ } => Bad::UnknownField,
        EventRefused::NoMemory => Bad::NoMemory,
    }
}

/// The fields of an item, by its number from 0.
fn fields_of(items: &Items, item: u32) -> &Names
    requires { item < length items.now }
    ensures { result.now ≡ fields_of (slice_get items.now item) }
{
    &items.as_slice()[item as usize].fields
}

/// What a line offers: an event with the adapter's seq, on an item by its name (this project's profile). Or the first
/// cause that stands against it: its words and the seq come first, then the item's name, and then the event. Want of
/// memory is answered `Bad::NoMemory`.
pub fn read_offer(alloc: Global, items: &Items, line: &[u8]) -> Result<Offer, Bad>
    ensures answers { AnswersOffer (offer_of items.now line.now) result }
    ensures fits { IfOk result (λ o. FitsItem items.now o) }
{
    let Some((name, seq, text)) = words_of(line) else {
        return Err(Bad::Malformed);
    };
    let Some(seq) = number_in(seq, 1, u64::MAX) else {
        return Err(Bad::Malformed);
    };
    let Some(item) = items.find(name) else {
        return Err(Bad::UnknownItem);
    };
    match read_event(alloc, text, fields_of(items, item)) {
        Ok(event) => Ok(Offer { item, seq, event }),
        Err(cause) => Err(event_bad(cause)),
    }
}
