//! What a session's history tells of the session, and what makes it lawful.
//!
//! A session in threads has a shared history of what was numbered, given, bound, set, lost and ended, whose entries are
//! [`Told`](ls_register::Told). Read from its beginning it says all of the session's record but its slots
//! (`specs/Heard.antt`). Its slots are those with which its subscriptions began, as the entries of their lines say
//! (`specs/Slots.antt`). What was seen of a session and of the items of its slots is lawful where such a session is
//! lawful on these items (`specs/Seen.antt`).
#![tactic(auto)]

mod law;

pub use law::{lines_are_given_without_a_gap, none_is_left_after_the_end, what_is_kept_is_lawful};
