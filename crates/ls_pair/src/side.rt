use std::collections::LinkedList;

/// Which side a token is.
pub enum Role {
    /// Both sides, put together.
    Pair,
    /// The item's side.
    Item,
    /// The session's side.
    Session,
    /// None: the token knows nothing.
    Spent,
}

/// What a side knows, in contracts alone: no value of it is made.
pub struct Side<E> {
    /// Which side it is.
    pub role: Role,
    /// The cuts that were passed.
    pub list: LinkedList<E>,
    /// In a pair, the list that the item's side had.
    pub items: LinkedList<E>,
    /// In a pair, the list that the session's side had.
    pub sessions: LinkedList<E>,
}
