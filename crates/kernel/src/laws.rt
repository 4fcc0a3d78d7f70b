//! The laws of the kernel: each is what a function without work ensures.
ghost use Rattle.kernel.specs.Laws.{BeginsKept, ClockedOnce, DeliversOnce, DispatchedOnce, EntryOpens, FourAlways, FourHold, HandlersGoOn, HandlersRun, InsideLists, KeptByEvery, LeftUnmoved, LinesGrow, NobodyReady, NonePassed, OneService, OpensOn, QuietStays, ReachesCallers, RunnerIsCalm, SaysOn, SchedulesInOrder, SomebodyRuns, StandsStill, StartSettles, StepsSettle, ViewsBack, ViewsOn};

/// The start keeps the invariant: priorities and ceilings being below 32, those of handlers 31, whatever the barriers.
pub fn begins_kept()
    ensures { BeginsKept }
{}

/// Every effect whose refusals were passed keeps the invariant, followed by dispatching and the clock.
/// A barrier may have changed in the step where the running task has an action open that may write its object.
pub fn kept_by_every_effect()
    ensures { KeptByEvery }
{}

/// The invariant gives the four statements: one task inside an object (RM 9.5.1), different active priorities within actions and
/// no waiting there (H.5), the highest runs (RM D.2.1), and a queued call has a closed barrier or somebody inside (RM 9.5.3).
pub fn four_statements_hold()
    ensures { FourHold }
{}

/// The four statements hold in every kernel that steps lead to from the start, whatever code takes them, if their refusals were passed.
pub fn four_statements_always()
    ensures { FourAlways }
{}

/// The list of the tasks inside an object holds exactly the tasks and handlers that have an open action of it.
pub fn inside_lists()
    ensures { InsideLists }
{}

/// Dispatching (RM D.2.1) is done once: applied again it changes nothing.
pub fn dispatched_once()
    ensures { DispatchedOnce }
{}

/// Dispatching and the clock are done once: applied again they change nothing.
pub fn clocked_once()
    ensures { ClockedOnce }
{}

/// Neither dispatching nor the clock changes a kernel that keeps the invariant.
pub fn stands_still()
    ensures { StandsStill }
{}

/// Dispatching and the clock leave priorities, queued calls, open actions of tasks, and lines as they are.
pub fn left_unmoved()
    ensures { LeftUnmoved }
{}

/// Beside its effect a step leaves open actions, queued calls and pending interrupts as they are, unless one handler begins, which had no
/// action open.
pub fn steps_settle()
    ensures { StepsSettle }
{}

/// After the activation of all tasks, the start leaves open actions, queued calls and pending interrupts as they are, unless a handler begins.
pub fn start_settles()
    ensures { StartSettles }
{}

/// A step adds lines at the end, and takes none away.
pub fn lines_grow()
    ensures { LinesGrow }
{}

/// Without an outcome somebody runs.
pub fn somebody_runs()
    ensures { SomebodyRuns }
{}

/// Where nobody runs, nobody is ready.
pub fn nobody_ready()
    ensures { NobodyReady }
{}

/// No list is higher than the running task (RM D.2.1).
pub fn runner_is_calm()
    ensures { RunnerIsCalm }
{}

/// A quiet step changes nothing in the kernel.
pub fn quiet_stays()
    ensures { QuietStays }
{}

/// A task that writes a line runs on.
pub fn says_on()
    ensures { SaysOn }
{}

/// A task that opens the action of a procedure or an entry runs on (RM D.3: its active priority does not fall).
pub fn opens_on()
    ensures { OpensOn }
{}

/// A task that opens the action of a function runs on.
pub fn views_on()
    ensures { ViewsOn }
{}

/// The action of a function, opened and closed, leaves the kernel as it was.
pub fn views_back()
    ensures { ViewsBack }
{}

/// The actor of a handler that has begun runs until it is gone, within an action and at the highest priority (RM C.3.1, D.3).
pub fn handlers_run()
    ensures { HandlersRun }
{}

/// The handler of an interrupt runs on in each step that is not its end: no task comes between (RM C.3.1, D.3).
pub fn handlers_go_on()
    ensures { HandlersGoOn }
{}

/// A step delivers at most one interrupt (RM C.3): the first that is pending, whose time has come, and its handler runs then.
pub fn delivers_once()
    ensures { DeliversOnce }
{}

/// The interrupts of a schedule are in the order of their times, as its lines are.
pub fn schedules_in_order()
    ensures { SchedulesInOrder }
{}

/// The pending interrupts are in order in every kernel that steps lead to, and none is before now: the clock passes none (RM C.3, D.8).
pub fn none_passed()
    ensures { NonePassed }
{}

/// An entry call that is made outside of actions and below the ceiling may open the object's action.
pub fn entry_opens()
    ensures { EntryOpens }
{}

/// The end of an action reaches the caller that is queued at its object or that it has served, and never the task itself (RM 9.5.3).
pub fn reaches_callers()
    ensures { ReachesCallers }
{}

/// While an entry body is run for a queued caller, the caller waits for it, and no other call is queued at the object.
pub fn one_service()
    ensures { OneService }
{}
