//! Tasks: a worker starts a block, and finishes it.

ghost use Rattle.std.specs.Prelude.{
  ◌≡◌,
  ◌<◌,
  ℕ,
  List,
  All,
  IfOk,
  OnErr,
  OnOk,
  IsSome,
  None,
  Some,
  length,
  map,
  set,
  slice_get,
  true,
};
ghost use Rattle.gx_lineage.specs.declared.block_id.BlockId.{BlockId as Block};
ghost use Rattle.gx_lineage.specs.Lineage.{IsBlock, block_inputs};
ghost use Rattle.gx_cluster_state.specs.Shapes.{finished, is_held, started};
ghost use Rattle.gx_cluster.specs.States.{HoldsContents, held_value, shape, with_task, with_value};

use crate::{Cluster, Work};
use gx_cluster_state::{Captured, Cargo, Held, LogEntry, Running, Shared};
use gx_lineage::BlockId;
use gx_rows::NoMemory;
use std::alloc::Global;
use std::collections::BTreeMap;
use std::rc::Rc;

/// What a worker computed.
#[derive(Drop)]
pub(crate) struct Computed<T> {
    pub(crate) block: BlockId,
    pub(crate) value: T,
    pub(crate) cargo: Cargo,
}

// The values of held blocks, shared.
fn capture<T: Drop>(
    alloc: Global,
    held: &BTreeMap<BlockId, Held<T>>,
    blocks: &[BlockId],
) -> Result<Captured<T>, NoMemory>
    requires { All (λ b. IsSome (held_value held.now.entries b)) blocks.now }
    ensures { IfOk result
        (λ values. map Some values ≡ map (held_value held.now.entries) blocks.now) }
{
    let mut inputs = Vec::new(alloc);
    for b in blocks {
        let Some(held) = held.get(b) else {
            unreachable!()
        };
        inputs.push(held.value.share()?)?;
    }
    Ok(Captured::of(inputs))
}

impl<T: Drop> Cluster<T> {
    // Worker `w` starts `b`, whose inputs are `inputs`.
    fn start_with(&mut self, w: u32, b: BlockId, inputs: &[BlockId]) -> Result<(), NoMemory>
        requires worker { w < length self.old.running }
        requires held { All (λ c. IsSome (held_value self.old.held c)) inputs.now }
        ensures started { OnOk result ((values : List T)
            × (map Some values ≡ map (held_value self.old.held) inputs.now)
            × (self.new ≡ with_task self.old w b values)) }
        ensures unchanged { OnErr result (self.new ≡ self.old) }
    {
        self.log.reserve(self.spare + 1)?;
        let inputs = capture(self.alloc, &self.held, inputs)?;
        self.workers.set(w, Some(Running { block: b, inputs }));
        let Ok(()) = self.log.push(LogEntry::Started {
            worker: w,
            block: b,
        })
        else {
            unreachable!()
        };
        Ok(())
    }

    // Worker `w` holds what it computed.
    fn hold(&mut self, w: u32, computed: Computed<T>) -> Result<(), NoMemory>
        requires { w < length self.old.running }
        ensures held { OnOk result (self.new
            ≡ with_value self.old w computed.block computed.value computed.cargo) }
        ensures unchanged { OnErr result (self.new ≡ self.old) }
    {
        self.log.reserve(self.spare + 1)?;
        let Computed {
            block,
            value,
            cargo,
        } = computed;
        let value = Shared::of(Rc::new(self.alloc, value)?);
        self.held.insert(block, Held { worker: w, value })?;
        self.workers.set(w, None);
        let Ok(()) = self.log.push(LogEntry::Finished {
            worker: w,
            block,
            cargo,
        })
        else {
            unreachable!()
        };
        Ok(())
    }

    // What worker `w` has computed, from the inputs with which it was started.
    fn compute<W: Work<T>>(&self, work: &W, w: u32) -> Result<Computed<T>, NoMemory>
        requires contents { HoldsContents (W.content work.now) (W.lineage work.now) self.now }
        requires busy { (b : Block) × (slice_get (shape self.now).running w ≡ Some (Some b)) }
        ensures block { IfOk result
            (λ r. slice_get (shape self.now).running w ≡ Some (Some r.block)) }
        ensures content { IfOk result (λ r. W.content work.now r.block r.value) }
        ensures cargo { IfOk result (λ r. r.cargo ≡ W.freight work.now r.block) }
    {
        let Some(task) = self.workers.task(w) else {
            unreachable!()
        };
        let block = task.block;
        let value = work.run(block, task.inputs.inputs())?;
        let cargo = work.cargo(block, &value)?;
        Ok(Computed {
            block,
            value,
            cargo,
        })
    }

    // Worker `w` starts `b`.
    //
    // On `NoMemory` the cluster is unchanged.
    pub(crate) fn start<W: Work<T>>(&mut self, work: &W, w: u32, b: BlockId) -> Result<(), NoMemory>
        requires contents { HoldsContents (W.content work.now) (W.lineage work.now) self.old }
        requires block { IsBlock (W.lineage work.now) b }
        requires idle { slice_get (shape self.old).running w ≡ Some None }
        requires inputs { All (λ c. is_held (shape self.old) c ≡ true)
            (block_inputs (W.lineage work.now) b) }
        ensures started { OnOk result (shape self.new ≡ started (shape self.old) w b) }
        ensures contents { HoldsContents (W.content work.now) (W.lineage work.now) self.new }
        ensures unchanged { OnErr result (self.new ≡ self.old) }
        ensures spare_kept { self.new.spare ≡ self.old.spare }
        ensures workers_kept { length self.new.running ≡ length self.old.running }
    {
        let inputs = work.dag().inputs(b)?;
        self.start_with(w, b, &inputs)
    }

    // Worker `w` finishes the block that it runs, which is returned.
    //
    // On `NoMemory` the cluster is unchanged.
    pub(crate) fn finish<W: Work<T>>(&mut self, work: &W, w: u32) -> Result<BlockId, NoMemory>
        requires contents { HoldsContents (W.content work.now) (W.lineage work.now) self.old }
        requires busy { (b : Block) × (slice_get (shape self.old).running w ≡ Some (Some b)) }
        ensures block { IfOk result
            (λ b. slice_get (shape self.old).running w ≡ Some (Some b)) }
        ensures finished { IfOk result
            (λ b. shape self.new ≡ finished (shape self.old) w b (W.freight work.now b)) }
        ensures contents { HoldsContents (W.content work.now) (W.lineage work.now) self.new }
        ensures unchanged { OnErr result (self.new ≡ self.old) }
        ensures spare_kept { self.new.spare ≡ self.old.spare }
        ensures workers_kept { length self.new.running ≡ length self.old.running }
    {
        let computed = self.compute(work, w)?;
        let block = computed.block;
        self.hold(w, computed)?;
        Ok(block)
    }
}
