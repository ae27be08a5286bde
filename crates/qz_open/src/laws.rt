//! The law, as the contract of a function that does nothing: so it is proved, and a program that rests on it can call it.
ghost use Rattle.std.specs.Prelude.{List, []};
ghost use Rattle.qz_steps.specs.declared.steps.StepReply.{StepReply as Answered};
ghost use Rattle.qz_cluster.specs.Script.{TimedStep};
ghost use Rattle.qz_cluster.specs.Steps.{ClusterState};
ghost use Rattle.qz_open.specs.Opened.{AreAlwaysAlone};
ghost use Rattle.qz_open.specs.Runs.{IsStart, StepsDone, AlwaysSparesOthers};

/// No job with `no_concurrent` has two open executions: over each run from a store that was just opened, whatever faults
/// and restarts come, and whether the disks are honest or not, an execution that excludes all others of its job is the only
/// one of its job that has begun and not ended, by what the steps were answered. A recovery ends what the failed node had.
/// A node that still holds an epoch then may go on with an execution that another one does again: that is the one way in
/// which a job may run twice at once.
pub fn open_executions_are_alone()
    ensures alone { (S : ClusterState) (ts : List TimedStep) (answers : List Answered) (states : List ClusterState)
        → IsStart S → StepsDone ⊥ S ts answers states → AreAlwaysAlone [] ts answers }
    // a recovery of any other node ends nothing that was open
    ensures spared { (S : ClusterState) (ts : List TimedStep) (answers : List Answered) (states : List ClusterState)
        → IsStart S → StepsDone ⊥ S ts answers states → AlwaysSparesOthers S [] ts answers states }
{}
