//! The table of lines (TLCP 2.1, and this project's profile): what each line has behind its tag.
ghost use Rattle.std.specs.Prelude.{◌≡◌};
ghost use Rattle.ls_line.specs.Lines.{word_text};
ghost use Rattle.ls_line.specs.Forms.{tags_read, tag_text, kinds_of, is_rest, tag_of};

use ls_value::{Text, same_bytes};

/// The table of lines. A row has the variant of `Line` with its fields, the tag, whether PROG counts the line, and
/// the parts: a field and what it is, or a word. The lines of messages are not read, and have no `Tag`.
///
/// `lines!(user { names })` calls the macro `user` with these names and the rows.
macro_rules! lines {
    ($user:ident $names:tt) => {
        $user! { $names
            read {
                ConOk { session, keep_alive } = b"CONOK", false:
                    text(session) word(RequestLimit) count(keep_alive) word(NoControlLink);
                ConErr { code, message } = b"CONERR", false: count(code) message(message);
                ServName {} = b"SERVNAME", false: word(ServerName);
                Cons { bandwidth } = b"CONS", false: text(bandwidth);
                Prog { count } = b"PROG", false: count(count);
                Probe {} = b"PROBE", false:;
                Loop {} = b"LOOP", false: word(NoDelay);
                End { code, message } = b"END", false: count(code) message(message);
                SubOk { sub, items, fields } = b"SUBOK", true: ordinal(sub) ordinal(items) ordinal(fields);
                SubCmd { sub, items, fields, key, command } = b"SUBCMD", true:
                    ordinal(sub) ordinal(items) ordinal(fields) ordinal(key) ordinal(command);
                Conf { sub, frequency, filter } = b"CONF", true: ordinal(sub) text(frequency) text(filter);
                Unsub { sub } = b"UNSUB", true: ordinal(sub);
                Eos { sub, item } = b"EOS", true: ordinal(sub) ordinal(item);
                Cs { sub, item } = b"CS", true: ordinal(sub) ordinal(item);
                Ov { sub, item, lost } = b"OV", true: ordinal(sub) ordinal(item) count(lost);
                U { sub, item, fields } = b"U", true: ordinal(sub) ordinal(item) coded(fields);
                ReqOk { request } = b"REQOK", false: text(request);
                ReqErr { request, code, message } = b"REQERR", false: text(request) count(code) message(message);
                Error { code, message } = b"ERROR", false: count(code) message(message);
                WsOk {} = b"WSOK", false:;
            }
            written {
                MsgDone { sequence, number } = b"MSGDONE", true: text(sequence) count(number);
                MsgFail { sequence, number, code, message } = b"MSGFAIL", true:
                    text(sequence) count(number) count(code) message(message);
            }
        }
    };
}

pub(crate) use lines;

/// The tag of a line that is read.
#[derive(Clone, Copy)]
pub(crate) enum Tag {
    ConOk,
    ConErr,
    ServName,
    Cons,
    Prog,
    Probe,
    Loop,
    End,
    SubOk,
    SubCmd,
    Conf,
    Unsub,
    Eos,
    Cs,
    Ov,
    U,
    ReqOk,
    ReqErr,
    Error,
    WsOk,
}

/// A part that is the same in each line of its tag.
#[derive(Clone, Copy)]
pub(crate) enum Word {
    /// `50000`, the most bytes of a request.
    RequestLimit,
    /// `*`: requests go to the same server.
    NoControlLink,
    /// `tlcpd`.
    ServerName,
    /// `0`: the client may bind again at once.
    NoDelay,
}

/// What a part of a line is.
#[derive(Clone, Copy)]
pub(crate) enum Kind {
    /// This word.
    Fixed(Word),
    /// A number from 1 to `GREATEST_ORDINAL`.
    Ordinal,
    /// A number of at most `GREATEST_NUMBER`.
    Count,
    /// A text without commas.
    Text,
    /// A text that is the rest of the line.
    Message,
    /// Bytes that are the rest of the line.
    Coded,
}

/// What a line lends of a part, to be written.
#[derive(Clone, Copy)]
pub(crate) enum Lent<'a> {
    /// This word.
    Fixed(Word),
    /// A number from 1 to `GREATEST_ORDINAL`.
    Ordinal(u32),
    /// Another number.
    Count(u64),
    /// A text or a message.
    Text(&'a Text),
    /// Bytes that are the rest of the line.
    Coded(&'a [u8]),
}

macro_rules! kind {
    (word($word:ident)) => { Kind::Fixed(Word::$word) };
    (ordinal($field:ident)) => { Kind::Ordinal };
    (count($field:ident)) => { Kind::Count };
    (text($field:ident)) => { Kind::Text };
    (message($field:ident)) => { Kind::Message };
    (coded($field:ident)) => { Kind::Coded };
}

macro_rules! tags {
    ({}
        read { $($variant:ident { $($field:ident),* } = $tag:literal, $counts:literal: $($kind:ident($part:ident))*;)* }
        written { $($written:tt)* }
    ) => { &[$(Tag::$variant),*] };
}

macro_rules! texts {
    ({ $given:ident }
        read { $($variant:ident { $($field:ident),* } = $tag:literal, $counts:literal: $($kind:ident($part:ident))*;)* }
        written { $($written:tt)* }
    ) => { match $given { $(Tag::$variant => $tag),* } };
}

macro_rules! kinds {
    ({ $given:ident }
        read { $($variant:ident { $($field:ident),* } = $tag:literal, $counts:literal: $($kind:ident($part:ident))*;)* }
        written { $($written:tt)* }
    ) => { match $given { $(Tag::$variant => &[$(kind!($kind($part))),*]),* } };
}

/// The tags that are read.
const TAGS: &[Tag] = lines!(tags {});

/// The tags that are read.
fn tags() -> &'static [Tag]
    ensures { result.now ≡ tags_read }
{
    TAGS
}

/// The text of a tag.
pub(crate) fn tag_text(tag: Tag) -> &'static [u8]
    ensures { result.now ≡ tag_text tag }
{
    lines!(texts { tag })
}

/// The bytes of a fixed part.
pub(crate) fn word_text(word: Word) -> &'static [u8]
    ensures { result.now ≡ word_text word }
{
    match word {
        Word::RequestLimit => b"50000",
        Word::NoControlLink => b"*",
        Word::ServerName => b"tlcpd",
        Word::NoDelay => b"0",
    }
}

/// What the parts behind a tag are.
pub(crate) fn kinds_of(tag: Tag) -> &'static [Kind]
    ensures { result.now ≡ kinds_of tag }
{
    lines!(kinds { tag })
}

/// Whether a part is the rest of its line, commas included.
pub(crate) fn is_rest(kind: Kind) -> bool
    ensures { result ≡ is_rest kind }
{
    matches!(kind, Kind::Message | Kind::Coded)
}

/// The tag of a text, where it is one that is read.
pub(crate) fn tag_of(text: &[u8]) -> Option<Tag>
    ensures { result ≡ tag_of text.now }
{
    for tag in tags() {
        if same_bytes(tag_text(*tag), text) {
            return Some(*tag);
        }
    }
    None
}
