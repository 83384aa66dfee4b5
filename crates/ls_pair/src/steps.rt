//! The rule of a tie, and its steps on the atomic word, which says nothing.
ghost use Rattle.std.specs.Prelude.{[]};
ghost use Rattle.ls_pair.specs.Ties.{Tied, pair, item_of, session_of, paired, spent, Agreed, Passed};

use crate::side::Side;
use atomic_table::{Join, Play, Split, TableRule};

/// There is one pair, or an item's side and a session's, and their lists are equal.
pub struct TwoSides;

impl<E> TableRule<E, Side<E>, ()> for TwoSides {
    ghost holds = { λ _ s. Tied s };

    ghost first = { λ _. pair [] };
}

/// The lists of the two sides that were put together were equal.
pub struct Agree;

impl<E> Play<E, Side<E>> for Agree {
    ghost then = { Agreed };
}

/// The pair's list grows by a cut.
pub struct Pass;

impl<E> Play<E, Side<E>> for Pass {
    ghost then = { Passed };
}

/// The pair is cut into its sides.
pub struct Cut;

impl<E> Split<Side<E>> for Cut {
    ghost left = { item_of };

    ghost right = { session_of };
}

/// A token that knows nothing.
pub struct Nothing;

impl<E> Split<Side<E>> for Nothing {
    ghost left = { λ v. v };

    ghost right = { λ _. spent };
}

/// Two sides are put together.
pub struct Both;

impl<E> Join<Side<E>> for Both {
    ghost both = { paired };

    ghost spent = { spent };
}
