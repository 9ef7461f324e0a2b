//! The texts of all actions, each written before the next action is answered.

ghost use Rattle.std.specs.Prelude.{
  ◌≡◌,
  ◌≢◌,
  ◌≤◌,
  ◌+◌,
  ◌∷◌,
  [],
  ◌↔◌,
  IfErr,
  IfOk,
  IsSome,
  None,
  OnOk,
  Some,
  length,
};
ghost use Rattle.gx_exec.specs.Courses.{EndsAs, StopsAs, answered};
ghost use Rattle.gx_exec.specs.Engines.{ForcesTo, HoldsWorkOf, action_answer, point_of};
ghost use Rattle.gx_exec_contents.specs.Worlds.{loaded_in};
ghost use Rattle.gx_exec_answers.specs.AnswerRows.{answer_record};
ghost use Rattle.gx_model.specs.ScriptMeaning.{
  answers_of_script,
  fault_of_action,
  meaning_of_answers,
};
ghost use Rattle.gx_outside.specs.Faults.{FaultCounted};
ghost use Rattle.gx_run.specs.ActionLogs.{
  LogsAs,
  MayAnswerFrom,
  actions_among,
  actions_of,
  moment_of,
  texts_of,
};
ghost use Rattle.gx_run.specs.ActionTexts.{Prints, end_of, meaning_of_number};

use gx_cluster::{Cluster, Events};
use gx_exec::{Engine, RunStop};
use gx_exec_answers::Answer;
use gx_exec_work::Block;
use gx_outside::{Sink, write_all};
use gx_print::{Status, rows_text};
use std::alloc::Global;

/// Writes what the actions of a script print, in order, up to the first that has a fault. The
/// cluster computes what an action uses when the texts of the actions before are written.
///
/// # Errors
///
/// `Fault`, `Sink` or `NoMemory`. The texts of the actions before are then written.
pub(crate) fn print_actions<O: Sink>(
    alloc: Global,
    engine: &mut Engine,
    cluster: &mut Cluster<Block>,
    events: &mut Events,
    out: &mut O,
) -> Result<(), Status>
    requires may { MayAnswerFrom 1 engine.old cluster.old }
    requires no_events { events.old ≡ [] }
    ensures printed { Prints (meaning_of_answers (answers_of_script (loaded_in engine.old.world)))
        (FaultCounted (O.faults out.old) (O.faults out.new)) (end_of result)
        (O.written out.old) (O.written out.new) }
    ensures logged { LogsAs engine.old.world (actions_of (loaded_in engine.old.world))
        (texts_of (loaded_in engine.old.world)) (end_of result)
        (moment_of engine.old cluster.old events.old (O.written out.old))
        (moment_of engine.new cluster.new events.new (O.written out.new)) }
    ensures world_kept { engine.new.world ≡ engine.old.world }
    ensures contents_kept { HoldsWorkOf engine.new cluster.new }
    ensures stays_known { IsSome (O.written out.new) ↔ IsSome (O.written out.old) }
    ensures faults_only_rise { O.faults out.old ≤ O.faults out.new }
{
    for before in 0..engine.len() {
        print_if_action(alloc, engine, cluster, events, before + 1, out)?;
    }
    Ok(())
}

// Writes what statement `s` prints, if it is an action.
fn print_if_action<O: Sink>(
    alloc: Global,
    engine: &mut Engine,
    cluster: &mut Cluster<Block>,
    events: &mut Events,
    s: u32,
    out: &mut O,
) -> Result<(), Status>
    requires from_one { 1 ≤ s }
    requires within { s ≤ length engine.old.world.script }
    requires may { MayAnswerFrom s engine.old cluster.old }
    requires no_events { events.old ≡ [] }
    ensures printed { Prints (meaning_of_number (loaded_in engine.old.world) s)
        (FaultCounted (O.faults out.old) (O.faults out.new)) (end_of result)
        (O.written out.old) (O.written out.new) }
    ensures logged { LogsAs engine.old.world (actions_among (loaded_in engine.old.world) (s ∷ []))
        (meaning_of_number (loaded_in engine.old.world) s).texts (end_of result)
        (moment_of engine.old cluster.old events.old (O.written out.old))
        (moment_of engine.new cluster.new events.new (O.written out.new)) }
    ensures never_done { IfErr result (λ end. end ≢ Status.Done) }
    ensures may_go_on { OnOk result (MayAnswerFrom (s + 1) engine.new cluster.new) }
    ensures world_kept { engine.new.world ≡ engine.old.world }
    ensures contents_kept { HoldsWorkOf engine.new cluster.new }
    ensures events_kept { events.new ≡ events.old }
    ensures stays_known { IsSome (O.written out.new) ↔ IsSome (O.written out.old) }
    ensures faults_only_rise { O.faults out.old ≤ O.faults out.new }
{
    if engine.is_action(s) {
        print_action(alloc, engine, cluster, events, s, out)
    } else {
        Ok(())
    }
}

// Answers action `s`, and writes what it prints.
fn print_action<O: Sink>(
    alloc: Global,
    engine: &mut Engine,
    cluster: &mut Cluster<Block>,
    events: &mut Events,
    s: u32,
    out: &mut O,
) -> Result<(), Status>
    requires from_one { 1 ≤ s }
    requires within { s ≤ length engine.old.world.script }
    requires is_action { IsSome (action_answer (loaded_in engine.old.world) s) }
    requires may { MayAnswerFrom s engine.old cluster.old }
    requires no_events { events.old ≡ [] }
    ensures printed { Prints (meaning_of_number (loaded_in engine.old.world) s)
        (FaultCounted (O.faults out.old) (O.faults out.new)) (end_of result)
        (O.written out.old) (O.written out.new) }
    ensures logged { LogsAs engine.old.world (s ∷ [])
        (meaning_of_number (loaded_in engine.old.world) s).texts (end_of result)
        (moment_of engine.old cluster.old events.old (O.written out.old))
        (moment_of engine.new cluster.new events.new (O.written out.new)) }
    ensures never_done { IfErr result (λ end. end ≢ Status.Done) }
    ensures may_go_on { OnOk result (MayAnswerFrom (s + 1) engine.new cluster.new) }
    ensures world_kept { engine.new.world ≡ engine.old.world }
    ensures contents_kept { HoldsWorkOf engine.new cluster.new }
    ensures events_kept { events.new ≡ events.old }
    ensures stays_known { IsSome (O.written out.new) ↔ IsSome (O.written out.old) }
    ensures faults_only_rise { O.faults out.old ≤ O.faults out.new }
{
    let answer = match answer_action(engine, cluster, events, s) {
        Ok(answer) => answer,
        Err(RunStop::Fault(fault)) => return Err(Status::Fault(fault)),
        Err(RunStop::NoMemory) => return Err(Status::NoMemory),
    };
    let text = rows_text(alloc, answer.header.as_slice(), answer.rows.as_slice())?;
    match write_all(out, text.as_str().as_bytes()) {
        Ok(()) => Ok(()),
        Err(_) => Err(Status::Sink),
    }
}

// What action `s` prints, once the cluster holds its blocks.
fn answer_action(
    engine: &mut Engine,
    cluster: &mut Cluster<Block>,
    events: &mut Events,
    s: u32,
) -> Result<Answer, RunStop>
    requires from_one { 1 ≤ s }
    requires within { s ≤ length engine.old.world.script }
    requires is_action { IsSome (action_answer (loaded_in engine.old.world) s) }
    requires may { MayAnswerFrom s engine.old cluster.old }
    requires no_events { events.old ≡ [] }
    ensures answer { IfOk result (λ answer.
        action_answer (loaded_in engine.old.world) s ≡ Some (answer_record answer)) }
    ensures exact { ForcesTo result (fault_of_action (loaded_in engine.old.world) s) }
    ensures ok { OnOk result (EndsAs engine.old.world
        (answered engine.old.world engine.old.planned s) None engine.new.planned
        (point_of cluster.old events.old) (point_of cluster.new events.new)) }
    ensures stop { IfErr result (λ stop. StopsAs stop engine.old.world
        (answered engine.old.world engine.old.planned s) engine.new.planned
        (point_of cluster.old events.old) (point_of cluster.new events.new)) }
    ensures may_go_on { OnOk result (MayAnswerFrom (s + 1) engine.new cluster.new) }
    ensures world_kept { engine.new.world ≡ engine.old.world }
    ensures contents_kept { HoldsWorkOf engine.new cluster.new }
    ensures events_kept { events.new ≡ events.old }
{
    let blocks = match engine.answer(cluster, events, s) {
        Ok(blocks) => blocks,
        Err(stop) => return Err(stop),
    };
    match engine.read(cluster, s, blocks.as_slice()) {
        Ok(answer) => Ok(answer),
        Err(_) => Err(RunStop::NoMemory),
    }
}
