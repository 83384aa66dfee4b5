//! Changes of linked nodes.
ghost use Rattle.std.specs.Prelude.{◌≡◌, ◌+◌, ◌<◌, ◌≤◌, ◌^◌, length, get_or};
ghost use Rattle.std.specs.Vec.{vec_len, vec_capacity};
ghost use Rattle.ls_links.specs.Nodes.{node_of, after_of, before_of, detached, attached, one_more, one_less, added};
ghost use Rattle.ls_links.specs.Nodes.{MayShift, proper, with_value};

use crate::node::Node;

/// Links the nodes on both sides of a node to each other.
pub fn detach(nodes: &mut [Node], node: usize)
    requires node { node < length nodes.old }
    requires before { before_of nodes.old node < length nodes.old }
    requires after { after_of nodes.old node < length nodes.old }
    ensures { nodes.new ≡ detached node nodes.old }
{
    let before = nodes[node].before;
    let after = nodes[node].after;
    nodes[before].after = after;
    nodes[after].before = before;
}

/// Links a node behind the last one of a list.
pub fn attach(nodes: &mut [Node], list: usize, node: usize)
    requires node { node < length nodes.old }
    requires list { list < length nodes.old }
    requires before { before_of nodes.old list < length nodes.old }
    ensures { nodes.new ≡ attached list node nodes.old }
{
    let before = nodes[list].before;
    nodes[before].after = node;
    let value = nodes[node].value;
    nodes[node] = Node {
        after: list,
        before,
        list,
        value,
    };
    nodes[list].before = node;
}

/// Gives a node a value.
pub fn set_value(nodes: &mut Vec<Node>, node: usize, value: usize)
    requires { node < length nodes.old.items }
    ensures { nodes.new.items ≡ with_value node value nodes.old.items }
{
    nodes[node].value = value;
}

/// Takes a node out of its list, and links it behind the last one of a list.
pub fn shift(nodes: &mut Vec<Node>, lengths: &mut Vec<usize>, list: usize, node: usize)
    requires { MayShift nodes.old.items lengths.old.items list node }
    ensures nodes { nodes.new.items ≡ attached list node (detached node nodes.old.items) }
    ensures lengths { lengths.new.items ≡ one_more list (one_less
        (node_of nodes.old.items node).list lengths.old.items) }
{
    let from = nodes[node].list;
    lengths[from] -= 1;
    lengths[list] += 1;
    detach(nodes, node);
    attach(nodes, list, node);
}

/// Adds so many nodes to the list of free ones.
pub fn add(nodes: &mut Vec<Node>, free: usize, more: usize)
    requires free { free < length nodes.old.items }
    requires room { vec_len nodes.old + more ≤ vec_capacity nodes.old }
    requires last { before_of nodes.old.items free < length nodes.old.items }
    ensures { nodes.new.items ≡ added more free nodes.old.items }
{
    for _ in 0..more {
        let node = nodes.len();
        nodes.push_reserved(Node {
            after: 0,
            before: 0,
            list: 0,
            value: 0,
        });
        attach(nodes, free, node);
    }
}

/// The number of a node, `None` where it is that of a list's own node.
pub fn proper_node(free: usize, node: usize) -> Option<usize>
    ensures { result ≡ proper free node }
{
    if free < node { Some(node) } else { None }
}
