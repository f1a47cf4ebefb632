//! Laws of the steps.

ghost use Rattle.stm_state.specs.Done.{DoneHasVersionsAlone, DoneIsInOrder, DoneIsSerial};
ghost use Rattle.stm_state.specs.Dones.{DoneIsAsked, DoneStays, DonesAreAsked, DonesGrowAtDone, LastEntryIsDone, OtherDonesStay};
ghost use Rattle.stm_state.specs.Drive.{DueStepHasResult, RefusedListMeetsLimit};
ghost use Rattle.stm_state.specs.OneWorker.{HasOneWorkerCounts, OneWorkerCountsWhereReached};
ghost use Rattle.stm_state.specs.Parts.{CallsAreAttended, HoldsWhereReached, OthersHaveEstimates, ReadsAreWatched, RunsAreBorneOut, SizesStay};
ghost use Rattle.stm_state.specs.Walk.{ReachedByList};

use rv_ledger::Job;

/// If workers are done with a block, the versions have no estimate and no entry of a call past the last one. This holds for every
/// list of steps that leads there.
pub fn done_has_versions_alone()
    ensures { DoneHasVersionsAlone }
{}

/// If workers are done with a block, the result is that of running its calls one after another. This holds for every list of
/// steps that leads there.
pub fn done_is_serial()
    ensures { DoneIsSerial }
{}

/// If workers are done with a job, each call's receipt and the storage are those of running the calls one after another. This
/// holds for every list of steps that leads there.
pub fn done_is_in_order()
    ensures { DoneIsInOrder }
{}

/// The four parts of the scheduler's invariant hold in each state of a block's run, for every list of steps that leads there.
/// First, a READY call is at or above the execution index, an EXECUTING call is some worker's task, and an ABORTING call is
/// parked or some worker aborts it. Second, only EXECUTED calls, unfinished records and unfinished aborts have versions. Third,
/// if a read of an EXECUTED call does not stand, a validation of that call is still to come or to end. Fourth, true answers bear
/// out each run. Also, the numbers of calls and workers stay the same.
pub fn the_parts_hold()
    ensures sized { SizesStay }
    ensures part_1 { HoldsWhereReached CallsAreAttended }
    ensures part_2 { HoldsWhereReached OthersHaveEstimates }
    ensures part_3 { HoldsWhereReached ReadsAreWatched }
    ensures part_4 { HoldsWhereReached RunsAreBorneOut }
{}

/// One worker is done with a job after the rounds of its calls, and not before. The round of a call is two `Ask` steps, the
/// call's reads, a record, a step for each key that it wrote, a finish, a check of each read and a decision. Each step after the
/// rounds is an `Ask` step that is answered Done.
pub fn one_worker_counts(job: &Job)
    ensures { HasOneWorkerCounts job.now.block job.now.store }
{
    job.block.calls();
}

/// A list of worker numbers leads from the start of a job through some states. In each of them, the step that a worker owes is
/// due: it is made, or refused for a limit. So a list is refused as NotDone exactly if it is used up and workers are not done.
pub fn due_step_has_result()
    ensures { DueStepHasResult }
{}

/// Once workers are done, each step that is made is an `Ask` step, and they are still done after it.
pub fn done_stays()
    ensures asking { DoneIsAsked }
    ensures done { DoneStays }
{}

/// What a step adds to the number of `Ask` steps answered Done. It adds nothing for the other workers. For its own worker it adds
/// one if it is an `Ask` step and workers are done, and nothing otherwise.
pub fn dones_grow_at_done()
    ensures others { OtherDonesStay }
    ensures other_steps { DonesAreAsked }
    ensures askings { DonesGrowAtDone }
{}

/// A state is reached exactly if some list of pairs of a worker and a step leads to it.
pub fn reached_by_list()
    ensures { ReachedByList }
{}

/// Let a list lead to a state in which some `Ask` step of a worker was answered Done. That worker's last entry in the list is
/// such a step, made when workers are done.
pub fn last_entry_is_done()
    ensures { LastEntryIsDone }
{}

/// If the one worker of a block is done, it made one execution and one decision for each call, and each call is at incarnation 0.
/// It asked twice for each call, apart from the `Ask` steps that were answered Done. This holds for every list of steps that
/// leads there and for all keys that the runs read.
pub fn one_worker_counts_where_reached()
    ensures { OneWorkerCountsWhereReached }
{}

/// If a list of worker numbers is refused for a limit, some list of steps leads to a state in which a worker's step is refused
/// for the same limit.
pub fn refused_list_meets_limit()
    ensures { RefusedListMeetsLimit }
{}
