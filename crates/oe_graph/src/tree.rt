// A process graph as a tree.
use oe_dims::Text;

/// An argument of a node, or a value inside one (openEO API, process graphs).
#[cycle(tree)]
#[derive(Drop)]
pub enum Arg {
    Null,
    Flag(bool),
    /// A whole number that is a literal: within 2^63 − 1 of 0.
    Whole(i64),
    /// A number that is no literal.
    Inexact,
    Str(Text),
    List(Vec<Arg>),
    /// An object that is no reference and no callback, its members in byte order of their names.
    Object(Vec<(Text, Arg)>),
    /// The result of the node of this id in the same graph object.
    FromNode(Text),
    /// The parameter of this name.
    FromParameter(Text),
    Callback(Graph),
}

/// A node: a call of a process. Its arguments stand in byte order of their names.
#[cycle(tree)]
#[derive(Drop)]
pub struct Node {
    pub id: Text,
    pub process_id: Text,
    pub namespace: Option<Text>,
    pub arguments: Vec<(Text, Arg)>,
}

/// A graph, or the graph of a callback: its nodes in byte order of their ids, and the index of the result node.
#[cycle(tree)]
#[derive(Drop)]
pub struct Graph {
    pub nodes: Vec<Node>,
    pub result: u32,
}
