//! Replies to the lines of a feed.
ghost use Rattle.std.specs.Prelude.{◌≡◌, ◌++◌, OnOk};
ghost use Rattle.ls_live.specs.Live.{Pass, IsCause};
ghost use Rattle.ls_feed.specs.Replies.{code_of, text_of, cause_of, TrueOf};
ghost use Rattle.ls_feed.specs.declared.offer.Offer.{Offer};

use ls_event::PublishRefused;
use ls_value::NoMemory;
use ls_words::append_decimal;

/// Why a line is answered `bad`, in the order of the numbers of these replies, from 1.
#[derive(Clone, Copy, Debug, PartialEq, Eq)]
pub enum Bad {
    /// It isn't three words, the second isn't a number from 1, or the third isn't an event's text.
    Malformed,
    /// No item has this name.
    UnknownItem,
    /// The event names no field of the item.
    UnknownField,
    /// An update of a COMMAND item whose key is no text.
    NoKey,
    /// An update of a COMMAND item whose command is none.
    BadCommand,
    /// The event adds a key to as many as a COMMAND item may have.
    TooManyKeys,
    /// The event, or the row that it makes, weighs too much.
    TooLong,
    /// The item has as many events as it may.
    Spent,
    /// Memory was wanting.
    NoMemory,
}

/// The reply to a line.
#[derive(Clone, Copy, Debug, PartialEq, Eq)]
pub enum FeedReply {
    /// Its event was published, with this number: `ok`.
    Published { no: u64 },
    /// Its seq isn't above the adapter's last one on the item, which is this one: `repeated`.
    Repeated { last: u64 },
    /// It was refused: `bad`.
    Bad(Bad),
}

impl Bad {
    /// Its number.
    pub fn code(self) -> u64
        ensures { result ≡ code_of self }
    {
        match self {
            Bad::Malformed => 1,
            Bad::UnknownItem => 2,
            Bad::UnknownField => 3,
            Bad::NoKey => 4,
            Bad::BadCommand => 5,
            Bad::TooManyKeys => 6,
            Bad::TooLong => 7,
            Bad::Spent => 8,
            Bad::NoMemory => 9,
        }
    }
}

/// The reply to an offer that is refused. An offer is never refused for a slot that lags.
pub(crate) fn reply_to(cause: PublishRefused) -> FeedReply
    ensures { (o : Offer) (p : Pass) → IsCause (cause_of o p) cause → TrueOf o p result }
{
    match cause {
        PublishRefused::Repeated { last } => FeedReply::Repeated { last },
        PublishRefused::NoKey => FeedReply::Bad(Bad::NoKey),
        PublishRefused::BadCommand => FeedReply::Bad(Bad::BadCommand),
        PublishRefused::TooManyKeys => FeedReply::Bad(Bad::TooManyKeys),
        PublishRefused::TooLong { bytes: _ } => FeedReply::Bad(Bad::TooLong),
        PublishRefused::Spent => FeedReply::Bad(Bad::Spent),
        PublishRefused::Backlog { slot: _ } | PublishRefused::NoMemory => FeedReply::Bad(
            Bad::NoMemory,
        ),
    }
}

/// Appends a reply's words and its LF. After `NoMemory` some of it may be there.
pub(crate) fn append_reply(text: &mut Vec<u8>, reply: FeedReply) -> Result<(), NoMemory>
    ensures { OnOk result (text.new.items ≡ text.old.items ++ text_of reply) }
{
    let (word, number): (&[u8], u64) = match reply {
        FeedReply::Published { no } => (b"ok ", no),
        FeedReply::Repeated { last } => (b"repeated ", last),
        FeedReply::Bad(cause) => (b"bad ", cause.code()),
    };
    text.extend_from_slice(word)?;
    append_decimal(text, number)?;
    text.push(b'\n')?;
    Ok(())
}
