//! Laws of the states that lists lead through.

ghost use Rattle.never_stuck.specs.Astray.{KeyedListsGoAstray, SpentCallsNeverEnd};
ghost use Rattle.never_stuck.specs.Stuck.{NeverStuck, NeverStuckFarFromLimits, NeverStuckWhereReached, NoListIsDeadEnd};

/// No state that a list of worker numbers walks through from the start of a job is stuck: some list leads from it to the end, or
/// to a step that is refused for a limit. If the state is far from the limits, a list leads to the end within a bound that
/// depends on the workers, the calls and their gas. So a list that is used up before workers are done can be continued. The same
/// holds of each state that any steps lead to, if each run there can continue: some replies after its answers bear out a receipt
/// of its call.
pub fn never_stuck()
    ensures ends_or_limit { NeverStuck }
    ensures ends { NeverStuckFarFromLimits }
    ensures no_dead_end { NoListIsDeadEnd }
    ensures where_reached { NeverStuckWhereReached }
{}

/// If a run was answered a key that its call does not ask for, its answers bear out no receipt. From a state with such a run, no
/// list of steps leads to the end.
pub fn keyed_lists_go_astray()
    ensures { KeyedListsGoAstray }
{}

/// A call whose incarnation is at the limit is never EXECUTED again. From a state with such a call, no list of steps leads to the
/// end.
pub fn spent_calls_never_end()
    ensures { SpentCallsNeverEnd }
{}
