//! The protected actions that tasks have open, and the calls that wait.
ghost use Rattle.std.specs.Prelude.{◌≡◌, ◌+◌, ◌<◌, ◌≤◌, ◌++◌, ◌∷◌, [], IfSome, length, map, replicate, set, None, Some, Ok, OnOk, OnErr, if◌then◌else◌};
ghost use Rattle.protected.specs.Actions.{Actions, IsInnermost, IsTaskOrHandler, base_of, row_of, active_of, calling, ceiling_of, has_any, innermost_of, is_among, opened_by, opening, queued_at, served, with_opened, with_queued, without_last};
ghost use Rattle.protected.specs.Kept.{AllAreBelow};
ghost use Rattle.base.specs.declared.limits.TheConstants.{OBJECTS, TASKS};

use crate::refusal::Refusal;
use arrayvec::ArrayVec;
use base::limits::{ACTOR, CEILING, OBJECTS, TASKS};
use std::marker::Model;

/// Which protected actions each task has open, and which call waits at each object. Nothing takes memory. Tasks and objects are numbers
/// in the lists that `new` was given, and are only asked for so; number 255 is the handler of an interrupt, at all times (RM C.3.1).
#[derive(Drop)]
pub struct Objects {
    bases: ArrayVec<u8, TASKS>,
    ceilings: ArrayVec<u8, OBJECTS>,
    opened: [ArrayVec<u8, OBJECTS>; TASKS + 1],
    queued: [Option<u8>; OBJECTS],
}

impl Model for Objects {
    ghost use Rattle.std.specs.Prelude.{map};
    ghost use Rattle.protected.specs.Actions.{Actions};
    ghost use Rattle.protected.specs.Kept.{KeepsActions};

    ghost Value = { Actions };

    ghost view = { λ o. record { bases = o.bases.items; ceilings = o.ceilings.items; opened = map (λ l. l.items) o.opened; queued = o.queued } };

    ghost invariant = { λ o. KeepsActions o.bases.items o.ceilings.items (map (λ l. l.items) o.opened) o.queued };
}

// The row of a task, or of the handler of an interrupt.
fn row_of(task: u8) -> usize
    ensures { result ≡ row_of task }
{
    if task == ACTOR {
        TASKS
    } else {
        usize::from(task)
    }
}

impl Objects {
    /// No action is open and no call waits, with the base priority of each task and the ceiling priority of each object.
    pub fn new(bases: &[u8], ceilings: &[u8]) -> Objects
        requires tasks { length bases.now ≤ TASKS }
        requires objects { length ceilings.now ≤ OBJECTS }
        ensures { result ≡ record { bases = bases.now; ceilings = ceilings.now; opened = replicate (TASKS + 1) []; queued = replicate OBJECTS None } }
    {
        Objects {
            bases: copied(bases),
            ceilings: copied(ceilings),
            opened: Default::default(),
            queued: [None; OBJECTS],
        }
    }

    /// A copy.
    pub fn copy(&self) -> Objects
        ensures { result ≡ self.now }
    {
        Objects {
            bases: copied(self.bases.as_slice()),
            ceilings: copied(self.ceilings.as_slice()),
            opened: copied_rows(&self.opened),
            queued: self.queued,
        }
    }

    /// Becomes as others are.
    pub fn restore(&mut self, others: &Objects)
        ensures { self.new ≡ others.now }
    {
        self.bases = copied(others.bases.as_slice());
        self.ceilings = copied(others.ceilings.as_slice());
        restore_rows(&mut self.opened, &others.opened);
        self.queued = others.queued;
    }

    /// The number of tasks.
    pub fn task_count(&self) -> u8
        ensures { result ≡ length self.now.bases }
    {
        self.bases.len() as u8
    }

    /// The number of objects.
    pub fn object_count(&self) -> u8
        ensures { result ≡ length self.now.ceilings }
    {
        self.ceilings.len() as u8
    }

    /// The ceiling priority of an object.
    pub fn ceiling(&self, object: u8) -> u8
        requires { object < length self.now.ceilings }
        ensures { result ≡ ceiling_of self.now.ceilings object }
    {
        self.ceilings[usize::from(object)]
    }

    // The base priority of a task, or of the handler of an interrupt (RM D.1, D.3).
    fn base(&self, task: u8) -> u8
        requires { IsTaskOrHandler self.now task }
        ensures { result ≡ base_of self.now task }
    {
        if task == ACTOR {
            CEILING
        } else {
            self.bases[usize::from(task)]
        }
    }

    /// The active priority of a task: the greatest of its base priority and the ceilings of its open actions (RM D.3).
    pub fn active(&self, task: u8) -> u8
        requires { IsTaskOrHandler self.now task }
        ensures { result ≡ active_of self.now task }
    {
        let mut active = self.base(task);
        for object in self.open_actions(task) {
            active = active.max(self.ceiling(*object));
        }
        active
    }

    /// Whether a task has an action open.
    pub fn in_action(&self, task: u8) -> bool
        requires { IsTaskOrHandler self.now task }
        ensures { result ≡ has_any (opened_by self.now task) }
    {
        !self.open_actions(task).is_empty()
    }

    /// Whether a task has an action of an object open.
    pub fn is_open(&self, task: u8, object: u8) -> bool
        requires { IsTaskOrHandler self.now task }
        ensures { result ≡ is_among object (opened_by self.now task) }
    {
        self.open_actions(task).contains(&object)
    }

    /// The object of the innermost action that a task has open, if it has one.
    pub fn innermost(&self, task: u8) -> Option<u8>
        requires { IsTaskOrHandler self.now task }
        ensures same { result ≡ innermost_of (opened_by self.now task) }
        ensures known { IfSome result (λ object. object < length self.now.ceilings) }
    {
        self.open_actions(task).last().copied()
    }

    /// The task whose call waits in the queue of an object, if there is one.
    pub fn queued(&self, object: u8) -> Option<u8>
        requires { object < length self.now.ceilings }
        ensures { result ≡ queued_at self.now object }
    {
        self.queued[usize::from(object)]
    }

    /// Asks whether a task may open an action of an object. Refuses with `SameObject` where it has one of that object open, else with
    /// `AboveCeiling` where its active priority exceeds the ceiling.
    pub fn may_open(&self, task: u8, object: u8) -> Result<(), Refusal>
        requires task { IsTaskOrHandler self.now task }
        requires object { object < length self.now.ceilings }
        ensures { result ≡ opening self.now task object }
    {
        if self.is_open(task, object) {
            Err(Refusal::SameObject)
        } else if self.ceiling(object) < self.active(task) {
            Err(Refusal::AboveCeiling)
        } else {
            Ok(())
        }
    }

    /// Opens an action of an object, which `may_open` doesn't refuse.
    pub fn enter(&mut self, task: u8, object: u8)
        requires task { IsTaskOrHandler self.old task }
        requires object { object < length self.old.ceilings }
        requires allowed { opening self.old task object ≡ Ok tt }
        ensures opened { self.new ≡ with_opened task (opened_by self.old task ++ object ∷ []) self.old }
        ensures room { length (opened_by self.old task) < OBJECTS }
    {
        self.opened[row_of(task)].push(object);
    }

    /// Puts a task's call into the queue of an object. Refuses with `QueueFull` where another call waits there, and then changes nothing.
    pub fn queue(&mut self, task: u8, object: u8) -> Result<(), Refusal>
        requires task { IsTaskOrHandler self.old task }
        requires object { object < length self.old.ceilings }
        ensures answer { result ≡ calling (queued_at self.old object) }
        ensures waits { OnOk result (self.new ≡ with_queued object (Some task) self.old) }
        ensures refused { OnErr result (self.new ≡ self.old) }
    {
        if self.queued[usize::from(object)].is_some() {
            Err(Refusal::QueueFull)
        } else {
            self.queued[usize::from(object)] = Some(task);
            Ok(())
        }
    }

    /// Takes the call that waits at an object out of its queue where the barrier is open, and returns its task (RM 9.5.3).
    pub fn to_serve(&mut self, object: u8, barrier: bool) -> Option<u8>
        requires { object < length self.old.ceilings }
        ensures task { result ≡ served barrier (queued_at self.old object) }
        ensures left { self.new ≡ (if barrier then with_queued object None self.old else self.old) }
    {
        if barrier {
            self.queued[usize::from(object)].take()
        } else {
            None
        }
    }

    /// Closes the innermost action of a task, which is one of this object.
    pub fn close(&mut self, task: u8, object: u8)
        requires task { IsTaskOrHandler self.old task }
        requires innermost { IsInnermost object (opened_by self.old task) }
        ensures { self.new ≡ with_opened task (without_last (opened_by self.old task)) self.old }
    {
        self.opened[row_of(task)].pop();
    }

    // The objects of a task's open actions, the innermost last.
    fn open_actions(&self, task: u8) -> &[u8]
        requires { IsTaskOrHandler self.now task }
        ensures objects { result.now ≡ opened_by self.now task }
        ensures known { AllAreBelow (length self.now.ceilings) result.now }
    {
        self.opened[row_of(task)].as_slice()
    }
}

// Copies of lists of objects.
fn copied_rows(rows: &[ArrayVec<u8, OBJECTS>; TASKS + 1]) -> [ArrayVec<u8, OBJECTS>; TASKS + 1]
    ensures { map (λ l. l.items) result ≡ map (λ l. l.items) rows.now }
{
    let mut copies: [ArrayVec<u8, OBJECTS>; TASKS + 1] = Default::default();
    restore_rows(&mut copies, rows);
    copies
}

// Rows become as others are.
fn restore_rows(
    rows: &mut [ArrayVec<u8, OBJECTS>; TASKS + 1],
    others: &[ArrayVec<u8, OBJECTS>; TASKS + 1],
)
    ensures { map (λ l. l.items) rows.new ≡ map (λ l. l.items) others.now }
{
    for row in 0..TASKS + 1 {
        put_row(rows, row, others[row].as_slice());
    }
}

// A row becomes this list.
fn put_row(rows: &mut [ArrayVec<u8, OBJECTS>; TASKS + 1], row: usize, list: &[u8])
    requires row { row ≤ TASKS }
    requires few { length list.now ≤ OBJECTS }
    ensures { map (λ l. l.items) rows.new ≡ set (map (λ l. l.items) rows.old) row list.now }
{
    let place = &mut rows[row];
    place.clear();
    match place.try_extend_from_slice(list) {
        Ok(()) => {}
        Err(_) => unreachable!(),
    }
}

// Priorities, or the numbers of objects, in a fixed list.
fn copied<const N: usize>(priorities: &[u8]) -> ArrayVec<u8, N>
    requires { length priorities.now ≤ N }
    ensures { result.items ≡ priorities.now }
{
    let mut list = ArrayVec::new();
    for priority in priorities {
        list.push(*priority);
    }
    list
}
