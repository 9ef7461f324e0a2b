//! The top call: the arguments to a command, and the run of its script on a cluster. It sees files and
//! sinks only through their traits.

ghost use Rattle.std.specs.Prelude.{
  ◌≡◌,
  ◌≢◌,
  ◌≤◌,
  ◌⊎◌,
  ◌↔◌,
  ◌∷◌,
  List,
  [],
  ℕ,
  None,
  Some,
  IfErr,
  IfOk,
  IsSome,
  IsSomeAnd,
  OnErr,
};
ghost use Rattle.gx_outside.specs.Contents.{Contents};
ghost use Rattle.gx_outside.specs.Faults.{FaultCounted};
ghost use Rattle.gx_print.specs.ExitCodes.{exit_code};
ghost use Rattle.gx_model.specs.ScriptMeaning.{refused_with};
ghost use Rattle.gx_exec_contents.specs.Worlds.{loaded_in};
ghost use Rattle.gx_run.specs.Meaning.{loaded_under, meaning, meaning_under};
ghost use Rattle.gx_run.specs.RunLogs.{
  IsFreshEngine,
  IsStart,
  LogEnds,
  LogsAll,
  LogsFirst,
  LogsPart,
  RunLogs,
};
ghost use Rattle.gx_run.specs.RunResults.{
  Ends,
  IsMissing,
  IsRequested,
  IsScriptOrLoaded,
  RunMeans,
  RunEnds,
  Tells,
  WritesAll,
  WritesFirst,
  WritesProperPrefix,
};
ghost use Rattle.gx_run.specs.Steps.{NamesOnly, Reads};
ghost use Rattle.gx_run_args.specs.RunCommands.{
  arg_bytes as args_of,
  command_view,
  run_command,
};

use crate::actions::print_actions;
use crate::loads::read_loads;
use crate::script::read_script;
use crate::telling::tell;
use gx_cluster::{Cluster, Events};
use gx_exec::Engine;
use gx_exec_work::Block;
use gx_outside::{Files, Sink};
use gx_print::Status;
use gx_run_args::{RunArgs, run_args};
use std::alloc::Global;

/// Runs `gx` with these arguments, the ones after the program's name: reads the script and its data
/// from `files`, has `cluster` compute what its actions use, writes what they print to `out`, and the
/// text of a status that is not `Done` to `err`.
///
/// The status says how the run ended. All files are read before the first action, and the text of
/// each action is written before the next begins, so that after a fault `out` has the texts before
/// it. Out of memory may come in place of any status but `Usage`. The cluster has as many workers as
/// the arguments say once all files are read; afterwards it has the log of the run.
pub fn run<F: Files, O: Sink, E: Sink>(
    alloc: Global,
    args: &[String],
    files: &mut F,
    out: &mut O,
    err: &mut E,
    cluster: &mut Cluster<Block>,
) -> Status
    requires empty { cluster.old ≡ record { held = []; running = None ∷ []; log = []; spare = 0 } }

    // Done: the texts of all actions were written.
    ensures output_if_done { result ≡ Status.Done →
        WritesAll (F.contents files.old) (meaning (args_of args.now)) Status.Done
        (O.written out.old) (O.written out.new) }

    // Fault: the texts before it were written, and it is the one of the first action that has one.
    ensures output_if_fault { (fault : _) → result ≡ Status.Fault fault →
        WritesAll (F.contents files.old) (meaning (args_of args.now)) (Status.Fault fault)
        (O.written out.old) (O.written out.new) }

    // Each refusal has its cause, and the first one is returned.
    ensures usage_exactly { (result ≡ Status.Usage) ↔ (run_command (args_of args.now) ≡ None) }
    ensures script_stop_has_cause { (stop : _) → result ≡ Status.Script stop →
        RunMeans (F.contents files.old) (meaning (args_of args.now))
        (refused_with (Status.Script stop)) }
    ensures data_stop_has_cause { (stop : _) → result ≡ Status.Data stop →
        RunMeans (F.contents files.old) (meaning (args_of args.now))
        (refused_with (Status.Data stop)) }
    ensures limit_has_cause { (kind : _) → result ≡ Status.Limit kind →
        RunMeans (F.contents files.old) (meaning (args_of args.now))
        (refused_with (Status.Limit kind)) }
    ensures source_has_cause { (name : List ℕ) → result ≡ Status.Source name →
        FaultCounted (F.faults files.old) (F.faults files.new)
        ⊎ IsMissing (F.contents files.old) (meaning (args_of args.now)) name }
    ensures source_is_requested { (name : List ℕ) → result ≡ Status.Source name →
        IsRequested (args_of args.now) (F.contents files.old) name }
    ensures sink_has_cause { result ≡ Status.Sink →
        FaultCounted (O.faults out.old) (O.faults out.new)
        × WritesProperPrefix (F.contents files.old) (meaning (args_of args.now))
        (O.written out.old) (O.written out.new) }
    ensures no_schedule { (line : ℕ) → result ≢ Status.Schedule line }

    // If no device failed, the status is that of the meaning, or out of memory.
    ensures complete { (contents : Contents) → F.contents files.old ≡ Some contents
        → ¬ FaultCounted (F.faults files.old) (F.faults files.new)
        → ¬ FaultCounted (O.faults out.old) (O.faults out.new)
        → (result ≡ (meaning (args_of args.now) contents).end)
        ⊎ (result ≡ Status.NoMemory) }

    // The log is that of the commands of the script's actions, and what the cluster holds is content
    // of the plan.
    ensures log_if_done { result ≡ Status.Done →
        IsSomeAnd (run_command (args_of args.now))
        (λ c. LogsAll c (F.contents files.old) None cluster.new) }
    ensures log_if_fault { (fault : _) → result ≡ Status.Fault fault →
        IsSomeAnd (run_command (args_of args.now))
        (λ c. LogsAll c (F.contents files.old) (Some fault) cluster.new) }
    ensures log_if_sink { result ≡ Status.Sink →
        IsSomeAnd (run_command (args_of args.now))
        (λ c. LogsFirst c (F.contents files.old) (O.written out.old) (O.written out.new)
        cluster.new) }
    ensures log_if_no_memory { result ≡ Status.NoMemory →
        IsSomeAnd (run_command (args_of args.now))
        (λ c. (cluster.new ≡ cluster.old) ⊎ LogsPart c (F.contents files.old) cluster.new) }

    // The text of the status was written to err, or a part of it if err failed.
    ensures told { Tells (FaultCounted (E.faults err.old) (E.faults err.new)) result
        (E.written err.old) (E.written err.new) }

    // What stays as it was.
    ensures out_kept_if_refused { exit_code result ≢ 0 → exit_code result ≢ 5
        → exit_code result ≢ 6 → ((fault : _) → result ≢ Status.Fault fault)
        → O.written out.new ≡ O.written out.old }
    ensures log_kept_if_refused { exit_code result ≢ 0 → exit_code result ≢ 5
        → exit_code result ≢ 6 → ((fault : _) → result ≢ Status.Fault fault)
        → cluster.new ≡ cluster.old }
    ensures output_if_no_memory { result ≡ Status.NoMemory →
        WritesFirst (F.contents files.old) (meaning (args_of args.now))
        (O.written out.old) (O.written out.new) }
    ensures contents_kept { F.contents files.new ≡ F.contents files.old }
    ensures out_stays_known { IsSome (O.written out.new) ↔ IsSome (O.written out.old) }
    ensures err_stays_known { IsSome (E.written err.new) ↔ IsSome (E.written err.old) }

    // No count of faults falls.
    ensures file_faults_only_rise { F.faults files.old ≤ F.faults files.new }
    ensures out_faults_only_rise { O.faults out.old ≤ O.faults out.new }
    ensures err_faults_only_rise { E.faults err.old ≤ E.faults err.new }
{
    let end = end_of_run(alloc, args, files, out, cluster);
    tell(alloc, err, end)
}

// Runs `gx` with these arguments, and tells nobody why it ended.
fn end_of_run<F: Files, O: Sink>(
    alloc: Global,
    args: &[String],
    files: &mut F,
    out: &mut O,
    cluster: &mut Cluster<Block>,
) -> Status
    requires empty { cluster.old ≡ record { held = []; running = None ∷ []; log = []; spare = 0 } }
    ensures ends { RunEnds (run_command (args_of args.now)) (F.contents files.old)
        (FaultCounted (F.faults files.old) (F.faults files.new))
        (FaultCounted (O.faults out.old) (O.faults out.new)) result
        (O.written out.old) (O.written out.new) }
    ensures logged { RunLogs (run_command (args_of args.now)) (F.contents files.old) result
        (O.written out.old) (O.written out.new) cluster.old cluster.new }
    ensures source_is_requested { NamesOnly result
        (IsRequested (args_of args.now) (F.contents files.old)) }
    ensures contents_kept { F.contents files.new ≡ F.contents files.old }
    ensures out_stays_known { IsSome (O.written out.new) ↔ IsSome (O.written out.old) }
    ensures file_faults_only_rise { F.faults files.old ≤ F.faults files.new }
    ensures out_faults_only_rise { O.faults out.old ≤ O.faults out.new }
{
    match run_args(args) {
        Some(command) => run_script(alloc, files, out, cluster, &command),
        None => Status::Usage,
    }
}

// Runs the script of this command, and returns its end.
fn run_script<F: Files, O: Sink>(
    alloc: Global,
    files: &mut F,
    out: &mut O,
    cluster: &mut Cluster<Block>,
    command: &RunArgs<'_>,
) -> Status
    requires parts_from_one { 1 ≤ command.now.parts }
    requires parts_to_64 { command.now.parts ≤ 64 }
    requires workers_from_one { 1 ≤ command.now.workers }
    requires workers_to_64 { command.now.workers ≤ 64 }
    requires empty { cluster.old ≡ record { held = []; running = None ∷ []; log = []; spare = 0 } }
    ensures ends { Ends (F.contents files.old) (meaning_under (command_view command.now))
        (FaultCounted (F.faults files.old) (F.faults files.new))
        (FaultCounted (O.faults out.old) (O.faults out.new)) result
        (O.written out.old) (O.written out.new) }
    ensures logged { LogEnds (command_view command.now) (F.contents files.old) result
        (O.written out.old) (O.written out.new) cluster.old cluster.new }
    ensures source_is_requested { NamesOnly result
        (IsScriptOrLoaded (command_view command.now) (F.contents files.old)) }
    ensures contents_kept { F.contents files.new ≡ F.contents files.old }
    ensures out_stays_known { IsSome (O.written out.new) ↔ IsSome (O.written out.old) }
    ensures file_faults_only_rise { F.faults files.old ≤ F.faults files.new }
    ensures out_faults_only_rise { O.faults out.old ≤ O.faults out.new }
{
    match start(alloc, files, cluster, command) {
        Ok(mut engine) => {
            let mut events = Events::none(alloc);
            match print_actions(alloc, &mut engine, cluster, &mut events, out) {
                Ok(()) => Status::Done,
                Err(end) => end,
            }
        }
        Err(refusal) => refusal,
    }
}

// The engine of the script of this command, and its cluster with so many workers.
fn start<F: Files>(
    alloc: Global,
    files: &mut F,
    cluster: &mut Cluster<Block>,
    command: &RunArgs<'_>,
) -> Result<Engine, Status>
    requires parts_from_one { 1 ≤ command.now.parts }
    requires parts_to_64 { command.now.parts ≤ 64 }
    requires workers_from_one { 1 ≤ command.now.workers }
    requires workers_to_64 { command.now.workers ≤ 64 }
    requires empty { cluster.old ≡ record { held = []; running = None ∷ []; log = []; spare = 0 } }
    ensures contents_kept { F.contents files.new ≡ F.contents files.old }
    ensures faults_only_rise { F.faults files.old ≤ F.faults files.new }
    ensures loaded { Reads (F.contents files.old) (F.faults files.old) (F.faults files.new)
        (λ engine. loaded_in engine.world) result (loaded_under (command_view command.now)) }
    ensures started { IfOk result
        (λ engine. IsStart (command_view command.now) engine cluster.new) }
    ensures cluster_kept { OnErr result (cluster.new ≡ cluster.old) }
    ensures source_is_requested { IfErr result (λ refusal. NamesOnly refusal
        (IsScriptOrLoaded (command_view command.now) (F.contents files.old))) }
{
    let engine = load_script(alloc, files, command)?;
    cluster.configure(command.workers)?;
    Ok(engine)
}

// The engine of the script of this command, with all its files loaded.
fn load_script<F: Files>(
    alloc: Global,
    files: &mut F,
    command: &RunArgs<'_>,
) -> Result<Engine, Status>
    requires parts_from_one { 1 ≤ command.now.parts }
    requires parts_to_64 { command.now.parts ≤ 64 }
    ensures contents_kept { F.contents files.new ≡ F.contents files.old }
    ensures faults_only_rise { F.faults files.old ≤ F.faults files.new }
    ensures loaded { Reads (F.contents files.old) (F.faults files.old) (F.faults files.new)
        (λ engine. loaded_in engine.world) result (loaded_under (command_view command.now)) }
    ensures engine { IfOk result (IsFreshEngine (command_view command.now)) }
    ensures source_is_requested { IfErr result (λ refusal. NamesOnly refusal
        (IsScriptOrLoaded (command_view command.now) (F.contents files.old))) }
{
    let typed = read_script(alloc, files, command.script)?;
    let loads = read_loads(alloc, files, &typed)?;
    Ok(Engine::new(alloc, typed, loads, command.parts, command.cut)?)
}
