//! Doubly linked lists over one vector of nodes.
ghost use Rattle.std.specs.Prelude.{◌≡◌, ◌+◌, ◌<◌, ℕ, [], IfOk, OnOk, OnErr, length, map, max, replicate};
ghost use Rattle.std.specs.List.{range_with_len};
ghost use Rattle.ls_links.specs.Chains.{IsAt, IsLinked, Apart, node_at, pushed, unlinked, moved_back, value_given};
ghost use Rattle.ls_links.specs.Nodes.{alone};

use crate::node::Node;
use crate::nodes::{add, proper_node, set_value, shift};
use ls_value::NoMemory;
use std::alloc::Global;
use std::marker::Model;

/// Lists of nodes, each with a number as its value. A node is in one list at most, and once.
#[derive(Drop)]
pub struct Links {
    nodes: Vec<Node>,
    lengths: Vec<usize>,
    free: usize,
}

impl Model for Links {
    ghost use Rattle.ls_links.specs.Chains.{Chains};
    ghost use Rattle.ls_links.specs.Nodes.{chains_of, IsSound};

    ghost Value = { Chains };

    ghost view = { λ l. chains_of (record { nodes = l.nodes.items; lengths = l.lengths.items; free = l.free }) };

    ghost invariant = { λ l. IsSound (record { nodes = l.nodes.items; lengths = l.lengths.items; free = l.free }) };
}

impl Links {
    /// So many empty lists, numbered from 0.
    pub fn new(alloc: Global, lists: usize) -> Result<Links, NoMemory>
        ensures { IfOk result (λ l. l ≡ record { lists = replicate lists []; spare = 0 }) }
    {
        let nodes = own_nodes(alloc, lists)?;
        let lengths = no_lengths(alloc, lists)?;
        Ok(Links {
            nodes,
            lengths,
            free: lists,
        })
    }

    /// Takes memory, so that n more nodes may be linked. After `NoMemory` all is as before.
    pub fn reserve(&mut self, n: usize) -> Result<(), NoMemory>
        ensures ok { OnOk result (self.new ≡ record self.old { spare = max self.old.spare n }) }
        ensures err { OnErr result (self.new ≡ self.old) }
    {
        let spare = self.lengths[self.free];
        if n <= spare {
            return Ok(());
        }
        self.nodes.reserve(n - spare)?;
        add(&mut self.nodes, self.free, n - spare);
        self.lengths[self.free] = n;
        Ok(())
    }

    /// How many more nodes may be linked without memory.
    pub fn spare(&self) -> usize
        ensures { result ≡ self.now.spare }
    {
        self.lengths[self.free]
    }

    /// Links a node of a value behind the others of a list, and answers its number, which no node had.
    pub fn push_back(&mut self, list: usize, value: usize) -> usize
        requires list { list < length self.old.lists }
        requires room { 0 < self.old.spare }
        ensures linked { self.new ≡ pushed list (record { node = result; value = value }) self.old }
        ensures fresh { (l place v : ℕ) → IsAt self.old l place result v → ⊥ }
    {
        let node = self.nodes[self.free].after;
        set_value(&mut self.nodes, node, value);
        shift(&mut self.nodes, &mut self.lengths, list, node);
        node
    }

    /// Takes a node out of its list, and answers its value. Its number may be that of a later node.
    pub fn unlink(&mut self, node: usize) -> usize
        requires { IsLinked self.old node }
        ensures unlinked { self.new ≡ unlinked node self.old }
        ensures value { (l place v : ℕ) → IsAt self.old l place node v → result ≡ v }
    {
        let value = self.nodes[node].value;
        shift(&mut self.nodes, &mut self.lengths, self.free, node);
        value
    }

    /// Makes a node the last of its list.
    pub fn move_to_back(&mut self, node: usize)
        requires { IsLinked self.old node }
        ensures { self.new ≡ moved_back node self.old }
    {
        let list = self.nodes[node].list;
        shift(&mut self.nodes, &mut self.lengths, list, node);
    }

    /// Gives a node another value. It stays where it stands.
    pub fn set_value(&mut self, node: usize, value: usize)
        requires { IsLinked self.old node }
        ensures { self.new ≡ value_given node value self.old }
    {
        set_value(&mut self.nodes, node, value);
    }

    /// The first node of a list, `None` where it is empty.
    pub fn first(&self, list: usize) -> Option<usize>
        requires { list < length self.now.lists }
        ensures { result ≡ node_at self.now list 0 }
    {
        proper_node(self.free, self.nodes[list].after)
    }

    /// The node behind this one in its list, `None` at the last.
    pub fn next(&self, node: usize) -> Option<usize>
        requires { IsLinked self.now node }
        ensures { (l place v : ℕ) → IsAt self.now l place node v → result ≡ node_at self.now l (place + 1) }
    {
        proper_node(self.free, self.nodes[node].after)
    }

    /// The value of a node.
    pub fn value(&self, node: usize) -> usize
        requires { IsLinked self.now node }
        ensures { (l place v : ℕ) → IsAt self.now l place node v → result ≡ v }
    {
        self.nodes[node].value
    }

    /// No node is in two lists, or twice in one.
    pub fn are_apart(&self)
        ensures { Apart self.now }
    {
        let _free = self.free;
    }
}

/// The nodes of so many lists themselves, and of the list of free nodes.
fn own_nodes(alloc: Global, lists: usize) -> Result<Vec<Node>, NoMemory>
    ensures { IfOk result (λ nodes. nodes.items ≡ map alone (range_with_len 0 (lists + 1))) }
{
    let mut nodes = Vec::new(alloc);
    for i in 0..lists {
        nodes.push(own_node(i))?;
    }
    nodes.push(own_node(lists))?;
    Ok(nodes)
}

/// The node of a list itself, which is empty.
fn own_node(list: usize) -> Node
    ensures { result ≡ alone list }
{
    Node {
        after: list,
        before: list,
        list,
        value: 0,
    }
}

/// The lengths of so many empty lists, and of the list of free nodes.
fn no_lengths(alloc: Global, lists: usize) -> Result<Vec<usize>, NoMemory>
    ensures { IfOk result (λ lengths. lengths.items ≡ replicate (lists + 1) 0) }
{
    let mut lengths = Vec::new(alloc);
    for _ in 0..lists {
        lengths.push(0)?;
    }
    lengths.push(0)?;
    Ok(lengths)
}
