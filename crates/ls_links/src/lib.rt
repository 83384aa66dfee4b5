//! Lists of numbers that are linked by index over one vector of nodes.
//!
//! A node is named by its number as long as it is linked, wherever in its list it stands; so it leaves its list, goes
//! to the list's back, or gets another value, in constant time. `reserve` takes room for so many more nodes, and no
//! other call but `new` takes memory.
//!
//! ```text
//! 1 2 3          the values of a list
//! 2 3 1          after the node of 1 went to the back
//! 2 1            after the node of 3 was unlinked
//! ```
#![tactic(auto)]

mod links;
mod node;
mod nodes;

pub use links::Links;
