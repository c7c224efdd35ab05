//! A list of nodes.

ghost use Rattle.std.specs.Prelude.{◌≡◌, ◌≢◌, ◌<◌, ◌↔◌, [], ◌∷◌, ◌++◌, length, AllPairs, Contains, IfNone, IfOk, IfSome, OnErr, OnOk, IsErrOf, IsTrue};
ghost use Rattle.tree_definitions.specs.Relation.{IsAt};
ghost use Rattle.tree_definitions.specs.Witness.{NodeRow, FitsNode};
ghost use Rattle.witness_trees.specs.Nodes.{IsNodeList, AreOfRank, AreEarlier};

use crate::symbol_places::SymbolPlaces;
use smallvec::SmallVec;
use std::alloc::{AllocError, Global};
use std::marker::Model;
use ta_model::{Kids, Symbol};

/// Why a node isn't added.
#[derive(Clone, Copy, Debug, PartialEq, Eq)]
pub enum NodeError {
    /// The children are not as many as the symbol's rank.
    BadRank,
    /// Some child is no earlier node.
    BadKid,
    Memory,
}

/// A node: the place of its symbol, and the numbers of its children.
#[derive(Debug, Drop)]
pub(crate) struct Node {
    pub(crate) symbol: u32,
    pub(crate) kids: Kids,
}

impl Model for Node {
    ghost use Rattle.tree_definitions.specs.Witness.{NodeRow};

    ghost Value = { NodeRow };

    ghost view = { λ n. record { symbol = n.symbol; kids = n.kids.items } };
}

/// Distinct symbols, and nodes over them. A node's number is its place, and its children are
/// earlier nodes.
#[derive(Debug, Drop)]
pub struct Nodes {
    symbols: SymbolPlaces,
    nodes: Vec<Node>,
}

impl Model for Nodes {
    ghost use Rattle.witness_trees.specs.Nodes.{NodeList, IsNodeList};

    ghost Value = { NodeList };

    ghost view = { λ n. record { symbols = n.symbols; rows = n.nodes.items } };

    ghost invariant = { λ n. IsNodeList (record { symbols = n.symbols; rows = n.nodes.items }) };
}

/// Whether the children are as many as the symbol's rank.
fn are_of_rank(symbols: &[Symbol], symbol: u32, kids: &[u32]) -> bool
    requires { symbol < length symbols.now }
    ensures { IsTrue result ↔ AreOfRank symbols.now symbol kids.now }
{
    let a = &symbols[symbol as usize];
    kids.len() == a.rank as usize
}

/// Whether each child is below k.
fn are_earlier(k: usize, kids: &[u32]) -> bool
    ensures { IsTrue result ↔ AreEarlier k kids.now }
{
    kids.iter().all(|j| (*j as usize) < k)
}

/// Appends a node.
fn append(nodes: &mut Vec<Node>, symbol: u32, kids: &[u32]) -> Result<(), AllocError>
    ensures ok { OnOk result (nodes.new.items ≡ nodes.old.items ++ record { symbol = symbol; kids = kids.now } ∷ []) }
    ensures err { OnErr result (nodes.new.items ≡ nodes.old.items) }
{
    let kids = SmallVec::from_slice(*nodes.allocator(), kids)?;
    nodes.push(Node { symbol, kids })?;
    Ok(())
}

impl Nodes {
    /// No nodes over these symbols.
    pub fn new(alloc: Global, symbols: &[Symbol]) -> Result<Nodes, AllocError>
        requires distinct { AllPairs ◌≢◌ symbols.now }
        requires few { length symbols.now < 4294967295 }
        ensures { IfOk result (λ n. n ≡ record { symbols = symbols.now; rows = [] }) }
    {
        Ok(Nodes {
            symbols: SymbolPlaces::of(alloc, symbols)?,
            nodes: Vec::new(alloc),
        })
    }

    /// These symbols and nodes.
    pub(crate) fn of_parts(symbols: SymbolPlaces, nodes: Vec<Node>) -> Nodes
        requires { IsNodeList (record { symbols = symbols; rows = nodes.items }) }
        ensures value { result ≡ record { symbols = symbols; rows = nodes.items } }
        ensures list { IsNodeList result }
    {
        Nodes { symbols, nodes }
    }

    /// The allocator of its lists.
    pub fn allocator(&self) -> Global {
        *self.nodes.allocator()
    }

    /// Appends a node, and answers its number.
    pub fn add(&mut self, symbol: u32, kids: &[u32]) -> Result<u32, NodeError>
        requires symbol { symbol < length self.old.symbols }
        requires room { length self.old.rows < 4294967295 }
        ensures number { IfOk result (λ k. k ≡ length self.old.rows) }
        ensures added { OnOk result (self.new ≡ record self.old {
          rows = self.old.rows ++ record { symbol = symbol; kids = kids.now } ∷ [];
        }) }
        ensures fits { OnOk result (FitsNode self.old.symbols (length self.old.rows)
            (record { symbol = symbol; kids = kids.now })) }
        ensures bad_rank { IsErrOf result NodeError.BadRank
            ↔ (¬ AreOfRank self.old.symbols symbol kids.now) }
        ensures bad_kid { IsErrOf result NodeError.BadKid
            ↔ (AreOfRank self.old.symbols symbol kids.now × (¬ AreEarlier (length self.old.rows) kids.now)) }
        ensures err { OnErr result (self.new ≡ self.old) }
    {
        if !are_of_rank(self.symbols.list(), symbol, kids) {
            return Err(NodeError::BadRank);
        }
        let number = self.nodes.len();
        if !are_earlier(number, kids) {
            return Err(NodeError::BadKid);
        }
        match append(&mut self.nodes, symbol, kids) {
            Ok(()) => Ok(number as u32),
            Err(_) => Err(NodeError::Memory),
        }
    }

    /// How many nodes there are.
    pub fn len(&self) -> u32
        ensures { result ≡ length self.now.rows }
    {
        self.nodes.len() as u32
    }

    /// The symbols that nodes may have.
    pub fn symbols(&self) -> &[Symbol]
        ensures value { result.now ≡ self.now.symbols }
        ensures list { IsNodeList self.now }
    {
        self.symbols.list()
    }

    /// The place of a symbol that nodes may have. Takes no memory.
    pub fn find(&self, symbol: &Symbol) -> Option<u32>
        ensures found { IfSome result (λ i. IsAt self.now.symbols i symbol.now) }
        ensures none { IfNone result (Contains self.now.symbols symbol.now → ⊥) }
        ensures list { IsNodeList self.now }
    {
        self.symbols.find(symbol)
    }

    /// The place of node i's symbol.
    pub fn symbol(&self, i: u32) -> u32
        requires { i < length self.now.rows }
        ensures { (node : NodeRow) × IsAt self.now.rows i node × (result ≡ node.symbol) }
    {
        let node = &self.nodes[i as usize];
        node.symbol
    }

    /// The numbers of node i's children.
    pub fn kids(&self, i: u32) -> &[u32]
        requires { i < length self.now.rows }
        ensures { (node : NodeRow) × IsAt self.now.rows i node × (result.now ≡ node.kids) }
    {
        let node = &self.nodes[i as usize];
        node.kids.as_slice()
    }
}
