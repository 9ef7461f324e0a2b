//! The graph of nodes.

ghost use Rattle.std.specs.Prelude.{ℕ, ◌≡◌, ◌<◌, ◌≤◌, ◌++◌, [], All, IfOk, OnErr, length, slice_get, Some, option_map};
ghost use Rattle.std.specs.List.{range_with_len};
ghost use Rattle.gx_lineage.specs.Lineage.{IsBlock, IsSound, KeepsInputs, block_inputs, blocks_at, blocks_of_input, first_nodes, with_node};

use crate::node::Node;
use crate::{BlockId, Input, NodeId, NodeKind, Pattern};
use gx_rows::NoMemory;
use std::alloc::Global;
use std::marker::Model;

/// A graph of nodes, each computed from earlier ones, all cut into the same number of parts.
/// Contracts see it as its number of parts, 1 to 64, and its list of nodes.
#[derive(Drop)]
pub struct Dag {
    parts: u32,
    nodes: Vec<Node>,
    alloc: Global,
}

impl Model for Dag {
    ghost use Rattle.std.specs.Prelude.{◌≤◌};
    ghost use Rattle.gx_lineage.specs.Lineage.{Lineage, IsAcyclic};

    ghost Value = { Lineage };

    ghost view = { λ d. record { parts = d.parts; nodes = d.nodes.items } };

    ghost invariant = { λ d. (1 ≤ d.parts) × (d.parts ≤ 64) × IsAcyclic d.nodes.items };
}

impl Dag {
    /// A graph of no nodes, whose nodes will have `parts` parts each. It takes no memory; later
    /// calls take theirs from `alloc`.
    pub fn new(alloc: Global, parts: u32) -> Dag
        requires nonzero { 1 ≤ parts }
        requires within_limit { parts ≤ 64 }
        ensures { result ≡ record { parts = parts; nodes = [] } }
    {
        Dag {
            parts,
            nodes: Vec::new(alloc),
            alloc,
        }
    }

    /// The number of nodes. The identifiers of the nodes are the numbers below it.
    pub fn len(&self) -> u64
        ensures count { result ≡ length self.now.nodes }
        ensures sound { IsSound self.now }
    {
        self.nodes.len() as u64
    }

    /// The number of parts of each node, 1 to 64.
    pub fn parts(&self) -> u32
        ensures count { result ≡ self.now.parts }
        ensures nonzero { 1 ≤ result }
        ensures within_limit { result ≤ 64 }
    {
        self.parts
    }

    /// What the blocks of a node contain.
    pub fn kind(&self, n: NodeId) -> NodeKind
        requires { n.0 < length self.now.nodes }
        ensures { option_map (λ m. m.kind) (slice_get self.now.nodes n.0) ≡ Some result }
    {
        self.nodes[n.0 as usize].kind
    }

    /// Adds a node that is computed from `inputs`, and returns its identifier.
    ///
    /// # Errors
    ///
    /// `NoMemory` if memory for the node runs out. The graph is then unchanged.
    pub fn add(&mut self, kind: NodeKind, inputs: &[Input]) -> Result<NodeId, NoMemory>
        requires earlier { All (λ x. x.node.0 < length self.old.nodes) inputs.now }
        requires room { length self.old.nodes < 18446744073709551615 }
        ensures next_id { IfOk result (λ n. n.0 ≡ length self.old.nodes) }
        ensures added { IfOk result (λ n. self.new ≡ with_node self.old kind inputs.now) }
        ensures unchanged { OnErr result (self.new ≡ self.old) }
        // At one `n` over several calls: `truncate` to `n` undoes them all.
        ensures nodes_kept { (n : ℕ) → n ≤ length self.old.nodes
            → first_nodes n self.new ≡ first_nodes n self.old }
        ensures inputs_kept { KeepsInputs self.old self.new }
    {
        let id = NodeId(self.nodes.len() as u64);
        let inputs = Vec::from_slice(self.alloc, inputs)?;
        self.nodes.push(Node { kind, inputs })?;
        Ok(id)
    }

    /// Removes the nodes from `len` on. It takes no memory, so that a caller that ran out of memory
    /// can take back the nodes that it added.
    pub fn truncate(&mut self, len: u64)
        requires { len ≤ length self.old.nodes }
        ensures first { self.new ≡ first_nodes len self.old }
        ensures inputs_kept { KeepsInputs self.new self.old }
    {
        self.nodes.truncate(len as usize);
    }

    /// The blocks from which a block is computed, input by input: one block of an input of pattern
    /// `Same`, and all blocks of an input of pattern `All`, from part 0 on.
    ///
    /// # Errors
    ///
    /// `NoMemory` if memory for the list runs out.
    pub fn inputs(&self, b: BlockId) -> Result<Vec<BlockId>, NoMemory>
        requires { IsBlock self.now b }
        ensures { IfOk result (λ bs. bs.items ≡ block_inputs self.now b) }
    {
        let mut blocks = Vec::new(self.alloc);
        for input in &self.nodes[b.node.0 as usize].inputs {
            push_input_blocks(&mut blocks, self.parts, input, b.part)?;
        }
        Ok(blocks)
    }
}

// Adds to `blocks` the blocks of `input` on which part `part` of a node depends.
fn push_input_blocks(
    blocks: &mut Vec<BlockId>,
    parts: u32,
    input: &Input,
    part: u32,
) -> Result<(), NoMemory>
    ensures { IfOk result
        (λ _. blocks.new.items ≡ blocks.old.items ++ blocks_of_input parts part input.now) }
{
    let node = input.node;
    match input.pattern {
        Pattern::Same => blocks.push(BlockId { node, part })?,
        Pattern::All => push_all_blocks(blocks, parts, node)?,
    }
    Ok(())
}

// Adds to `blocks` all blocks of a node.
fn push_all_blocks(blocks: &mut Vec<BlockId>, parts: u32, node: NodeId) -> Result<(), NoMemory>
    ensures { IfOk result
        (λ _. blocks.new.items ≡ blocks.old.items ++ blocks_at node (range_with_len 0 parts)) }
{
    for part in 0..parts {
        blocks.push(BlockId { node, part })?;
    }
    Ok(())
}
