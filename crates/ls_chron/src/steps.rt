//! The rule of a history, and its steps on the atomic word.
ghost use Rattle.std.specs.Prelude.{[]};
ghost use Rattle.ls_chron.specs.History.{Kept, writer, copied, compares, spent, Appended, Counted, Compared};

use crate::view::View;
use atomic_table::{Join, Play, Split, TableRule};

/// One writer has the whole history, each reader a beginning of it, and the word is its length.
pub struct OneHistory;

impl<E> TableRule<E, View<E>, ()> for OneHistory {
    ghost holds = { λ _ s. Kept s };

    ghost first = { λ _. writer [] };
}

/// The writer's list and the word grow by one.
pub struct Append;

impl<E> Play<E, View<E>> for Append {
    ghost then = { Appended };
}

/// The word is at least the length of the token's list.
pub struct Count;

impl<E> Play<E, View<E>> for Count {
    ghost then = { Counted };
}

/// Of two lists that were put together both are beginnings of the token's.
pub struct Compare;

impl<E> Play<E, View<E>> for Compare {
    ghost then = { Compared };
}

/// One more reader, which has the same list.
pub struct Share;

impl<E> Split<View<E>> for Share {
    ghost left = { λ v. v };

    ghost right = { copied };
}

/// A token takes in a reader, to be compared with it.
pub struct TakeIn;

impl<E> Join<View<E>> for TakeIn {
    ghost both = { compares };

    ghost spent = { spent };
}
