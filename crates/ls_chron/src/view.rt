use std::collections::LinkedList;

/// What a token knows, in contracts alone: no value of it is made.
pub struct View<E> {
    /// Whether it is the writer's.
    pub writes: bool,
    /// A beginning of the history, which for the writer is the whole.
    pub list: LinkedList<E>,
    /// While two tokens are compared, the list that the receiving one had.
    pub mine: LinkedList<E>,
    /// While two tokens are compared, the list that the other one had.
    pub theirs: LinkedList<E>,
}
