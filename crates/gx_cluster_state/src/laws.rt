//! What holds of all runs, as clauses that a caller can use.

ghost use Rattle.std.specs.Prelude.{◌≡◌, ◌≤◌, ◌+◌, ◌*◌, ℕ, true, false, List, All, is_some, length};
ghost use Rattle.std.specs.List.{count_by};
ghost use Rattle.gx_rows.specs.declared.vid.Vid.{Vid};
ghost use Rattle.gx_lineage.specs.declared.block_id.BlockId.{BlockId};
ghost use Rattle.gx_lineage.specs.Lineage.{Lineage, IsBlock, IsSound};
ghost use Rattle.gx_cluster_state.specs.declared.event.Event.{Event};
ghost use Rattle.gx_cluster_state.specs.Measures.{IsClosed};
ghost use Rattle.gx_cluster_state.specs.Nets.{net_of};
ghost use Rattle.gx_cluster_state.specs.Runs.{
  Command,
  Grows,
  LogExtends,
  Passes,
  Point,
  Run,
  RunsIn,
  TargetsAreIn,
};
ghost use Rattle.gx_cluster_state.specs.Shapes.{Shape, all_held};
ghost use Rattle.gx_cluster_state.specs.Turns.{Turn, Turns};

/// The machine is a function: the turns of a demand have one end, a list of commands has one run,
/// and the log of a run that stopped part-way is a prefix of the log of that run.
pub fn commands_have_one_run()
    ensures demand { (l : Lineage) (f : BlockId → List (ℕ × Vid)) (targets : List BlockId)
        (a b s : Shape) (left rest es : List Event)
        → Turns (net_of l f) targets a left s es → all_held a targets ≡ true
        → Turns (net_of l f) targets b rest s es → all_held b targets ≡ true
        → (a ≡ b) × (left ≡ rest) }
    ensures run { (l : Lineage) (f : BlockId → List (ℕ × Vid)) (cs : List Command) (p a b : Point)
        → Run (net_of l f) cs p a → Run (net_of l f) cs p b → a ≡ b }
    ensures prefix { (l : Lineage) (f : BlockId → List (ℕ × Vid)) (cs : List Command)
        (p q r : Point) → Passes (net_of l f) cs p q → Run (net_of l f) cs p r
        → LogExtends q.shape.log r.shape.log }
{}

/// Commands can be carried out: while a target is not held, a turn is possible under each event,
/// and commands whose targets are in the lineage have a run.
pub fn commands_have_a_run()
    ensures turn { (l : Lineage) (f : BlockId → List (ℕ × Vid)) (targets : List BlockId) (s : Shape)
        (e : Event) → IsSound l → All (IsBlock l) targets → 1 ≤ length s.running
        → all_held s targets ≡ false → (new : Shape) × Turn (net_of l f) targets s e new }
    ensures run { (l : Lineage) (f : BlockId → List (ℕ × Vid)) (cs : List Command) (p : Point)
        → IsSound l → TargetsAreIn (net_of l f) cs → 1 ≤ length p.shape.running
        → (q : Point) × Run (net_of l f) cs p q }
{}

/// A run is one under each larger lineage too.
pub fn runs_stand_under_larger_nets()
    ensures turns { (l m : Lineage) (f g : BlockId → List (ℕ × Vid)) (targets : List BlockId)
        (last s : Shape) (left es : List Event)
        → Grows (net_of l f) (net_of m g) → All (net_of l f).has targets → RunsIn (net_of l f) s
        → Turns (net_of l f) targets last left s es → Turns (net_of m g) targets last left s es }
    ensures run { (l m : Lineage) (f g : BlockId → List (ℕ × Vid)) (cs : List Command)
        (p q : Point) → Grows (net_of l f) (net_of m g) → RunsIn (net_of l f) p.shape
        → Run (net_of l f) cs p q → Run (net_of m g) cs p q }
    ensures passes { (l m : Lineage) (f g : BlockId → List (ℕ × Vid)) (cs : List Command)
        (p q : Point) → Grows (net_of l f) (net_of m g) → RunsIn (net_of l f) p.shape
        → Passes (net_of l f) cs p q → Passes (net_of m g) cs p q }
{}

/// A demand ends: its turns, one for each entry of the log, are no more than the events that it
/// takes, two for each of any distinct blocks that have the targets and all inputs, and one for each
/// block that ran at its start.
pub fn turns_are_bounded()
    ensures { (l : Lineage) (f : BlockId → List (ℕ × Vid)) (targets bs : List BlockId)
        (last s : Shape) (left es : List Event)
        → IsClosed (net_of l f) targets bs → Turns (net_of l f) targets last left s es
        → length last.log + length left
        ≤ length s.log + length es + 2 * length bs + count_by is_some s.running }
{}
