//! Clusters.

ghost use Rattle.std.specs.Prelude.{
  ◌≡◌,
  ◌≤◌,
  ◌+◌,
  ◌-◌,
  ◌∷◌,
  [],
  ◌++◌,
  ℕ,
  List,
  IfOk,
  OnErr,
  None,
  length,
  is_none,
  is_some,
  option_map,
  position,
  replicate,
};
ghost use Rattle.gx_cluster_state.specs.Shapes.{is_held, is_running, released};
ghost use Rattle.gx_cluster.specs.States.{State, held_value, shape, with_release};

use gx_cluster_state::{Held, LogEntry, Workers};
use gx_lineage::{BlockId, NodeId};
use gx_rows::NoMemory;
use std::alloc::Global;
use std::collections::BTreeMap;
use std::marker::Model;
use std::rc::Rc;

/// Workers that hold blocks and run tasks, and the log of their turns. Contracts see a cluster as
/// each held block with its value and its worker, what each worker runs, the log, and the number of
/// entries that the log has room for.
#[derive(Drop)]
pub struct Cluster<T> {
    pub(crate) held: BTreeMap<BlockId, Held<T>>,
    pub(crate) workers: Workers<T>,
    pub(crate) log: Vec<LogEntry>,
    pub(crate) spare: usize,
    pub(crate) alloc: Global,
}

impl<T> Model for Cluster<T> {
    ghost use Rattle.std.specs.Prelude.{◌≤◌, ◌+◌, vec_capacity, vec_len};
    ghost use Rattle.gx_cluster.specs.States.{State};

    ghost Value = { State T };

    ghost view = { λ c. record {
      held = c.held.entries;
      running = c.workers;
      log = c.log.items;
      spare = c.spare;
    } };

    ghost invariant = { λ c. (c.spare ≤ 8) × (vec_len c.log + c.spare ≤ vec_capacity c.log) };
}

impl<T: Drop> Cluster<T> {
    /// A cluster of one worker that holds and runs nothing, with an empty log. It takes no memory.
    pub fn empty(alloc: Global) -> Cluster<T>
        ensures { result ≡ record { held = []; running = None ∷ []; log = []; spare = 0 } }
    {
        Cluster {
            held: BTreeMap::new(alloc),
            workers: Workers::one(alloc),
            log: Vec::new(alloc),
            spare: 0,
            alloc,
        }
    }

    /// Sets the number of workers.
    ///
    /// # Errors
    ///
    /// `NoMemory` if memory for the workers runs out. The cluster is then unchanged.
    pub fn configure(&mut self, workers: u32) -> Result<(), NoMemory>
        requires nonzero { 1 ≤ workers }
        requires within_limit { workers ≤ 64 }
        requires nothing_held { self.old.held ≡ [] }
        requires nothing_running { self.old.running ≡ replicate (length self.old.running) None }
        requires empty_log { self.old.log ≡ [] }
        ensures workers { IfOk result
            (λ _. self.new ≡ record self.old { running = replicate workers None }) }
        ensures unchanged { OnErr result (self.new ≡ self.old) }
    {
        self.workers = Workers::idle(self.alloc, workers)?;
        Ok(())
    }

    /// Drops all held blocks of a node. It takes no memory, and one entry of the room of the log.
    pub fn release(&mut self, node: NodeId)
        requires { 1 ≤ self.old.spare }
        ensures state { self.new ≡ with_release self.old node }
        ensures released { shape self.new ≡ released (shape self.old) node }
    {
        self.held.retain(|b, _| b.node.0 != node.0);
        let Ok(()) = self.log.push(LogEntry::Released { node }) else {
            unreachable!()
        };
        self.spare -= 1;
    }

    /// The value of a block, borrowed, if a worker holds it.
    pub fn take(&self, b: BlockId) -> Option<&Rc<T>>
        ensures { option_map (λ r. r.now.value) result ≡ held_value self.now.held b }
    {
        match self.held.get(&b) {
            Some(held) => Some(held.value.rc()),
            None => None,
        }
    }

    /// The entries of the log, in the order in which they came.
    pub fn log(&self) -> &[LogEntry]
        ensures { result.now ≡ self.now.log }
    {
        self.log.as_slice()
    }

    /// How many more entries the log has room for.
    pub fn spare(&self) -> u64
        ensures { result ≡ self.now.spare }
    {
        self.spare as u64
    }

    // Whether a worker holds the block.
    pub(crate) fn is_held(&self, b: BlockId) -> bool
        ensures { result ≡ is_held (shape self.now) b }
    {
        self.held.contains_key(&b)
    }

    // Whether a worker runs the block.
    pub(crate) fn runs(&self, b: BlockId) -> bool
        ensures { result ≡ is_running (shape self.now) b }
    {
        self.workers.runs(b)
    }

    // The first worker that runs nothing.
    pub(crate) fn first_idle(&self) -> Option<u32>
        ensures { result ≡ position is_none (shape self.now).running }
    {
        self.workers.first_idle()
    }

    // The first worker that runs a block.
    pub(crate) fn first_busy(&self) -> Option<u32>
        ensures first { result ≡ position is_some (shape self.now).running }
        ensures workers { 1 ≤ length (shape self.now).running }
    {
        let _ = self.workers.len();
        self.workers.first_busy()
    }

    // Makes room for more entries of the log.
    pub(crate) fn reserve_spare(&mut self) -> Result<(), NoMemory>
        ensures spare { IfOk result (λ _. self.new ≡ record self.old { spare = 8 }) }
        ensures unchanged { OnErr result (self.new ≡ self.old) }
    {
        self.log.reserve(8)?;
        self.spare = 8;
        Ok(())
    }
}
