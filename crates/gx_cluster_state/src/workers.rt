//! The workers of a cluster.

ghost use Rattle.std.specs.Prelude.{
  ◌≡◌,
  ◌<◌,
  ◌≤◌,
  [],
  ◌∷◌,
  IfOk,
  None,
  Some,
  is_none,
  is_some,
  length,
  map,
  option_copied,
  option_map,
  position,
  replicate,
  set,
  slice_get,
};
ghost use Rattle.std.specs.List.{list_any};
ghost use Rattle.gx_cluster_state.specs.Shapes.{runs_block};
ghost use Rattle.gx_cluster_state.specs.Tasks.{task_block};

use crate::Running;
use gx_lineage::BlockId;
use gx_rows::NoMemory;
use std::alloc::Global;
use std::marker::Model;

/// One to 64 workers, numbered from 0. Contracts see them as the list of what each runs.
#[derive(Drop)]
pub struct Workers<T> {
    // The first worker has a field of its own, so that a cluster of one worker takes no memory.
    first: Option<Running<T>>,
    rest: Vec<Option<Running<T>>>,
}

impl<T> Model for Workers<T> {
    ghost use Rattle.std.specs.Prelude.{List, Option, ◌∷◌, ◌≤◌, length};
    ghost use Rattle.gx_cluster_state.specs.declared.running.Running.{Running};

    ghost Value = { List (Option (Running T)) };

    ghost view = { λ w. w.first ∷ w.rest.items };

    ghost invariant = { λ w. length w.rest.items ≤ 63 };
}

impl<T: Drop> Workers<T> {
    /// One idle worker. It takes no memory.
    pub fn one(alloc: Global) -> Workers<T>
        ensures { result ≡ None ∷ [] }
    {
        Workers {
            first: None,
            rest: Vec::new(alloc),
        }
    }

    /// Idle workers, as many as `count` says.
    ///
    /// # Errors
    ///
    /// `NoMemory` if memory for the workers runs out.
    pub fn idle(alloc: Global, count: u32) -> Result<Workers<T>, NoMemory>
        requires nonzero { 1 ≤ count }
        requires within_limit { count ≤ 64 }
        ensures { IfOk result (λ w. w ≡ replicate count None) }
    {
        let mut rest = Vec::new(alloc);
        for _worker in 1..count {
            rest.push(None)?;
        }
        Ok(Workers { first: None, rest })
    }

    /// The number of workers, 1 to 64.
    pub fn len(&self) -> u32
        ensures count { result ≡ length self.now }
        ensures nonzero { 1 ≤ result }
        ensures within_limit { result ≤ 64 }
    {
        self.rest.len() as u32 + 1
    }

    /// What worker `w` runs.
    pub fn task(&self, w: u32) -> Option<&Running<T>>
        requires { w < length self.now }
        ensures { slice_get self.now w ≡ Some (option_copied result) }
    {
        if w == 0 {
            self.first.as_ref()
        } else {
            self.rest[w as usize - 1].as_ref()
        }
    }

    /// Worker `w` runs `task` from now on.
    pub fn set(&mut self, w: u32, task: Option<Running<T>>)
        requires { w < length self.old }
        ensures { self.new ≡ set self.old w task }
    {
        if w == 0 {
            self.first = task;
        } else {
            self.rest[w as usize - 1] = task;
        }
    }

    /// Whether a worker runs the block.
    pub fn runs(&self, b: BlockId) -> bool
        ensures { result ≡ list_any (runs_block b) (map task_block self.now) }
    {
        for w in 0..self.len() {
            if self.runs_at(w, b) {
                return true;
            }
        }
        false
    }

    /// The first worker that runs nothing.
    pub fn first_idle(&self) -> Option<u32>
        ensures { result ≡ position is_none (map task_block self.now) }
    {
        for w in 0..self.len() {
            match self.task(w) {
                Some(_) => {}
                None => return Some(w),
            }
        }
        None
    }

    /// The first worker that runs a block.
    pub fn first_busy(&self) -> Option<u32>
        ensures { result ≡ position is_some (map task_block self.now) }
    {
        for w in 0..self.len() {
            match self.task(w) {
                Some(_) => return Some(w),
                None => {}
            }
        }
        None
    }

    // Whether worker `w` runs the block.
    fn runs_at(&self, w: u32, b: BlockId) -> bool
        requires { w < length self.now }
        ensures { option_map (λ t. runs_block b (task_block t)) (slice_get self.now w) ≡ Some result }
    {
        match self.task(w) {
            Some(task) => b.cmp(&task.block).is_eq(),
            None => false,
        }
    }
}
