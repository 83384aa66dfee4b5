//! A node of linked lists.

/// A node: the nodes behind and before it in its list, the list, and the value. Behind the last node and before the
/// first one stands the list's own node, which has the list's number.
#[derive(Clone, Copy)]
pub struct Node {
    pub after: usize,
    pub before: usize,
    pub list: usize,
    pub value: usize,
}
