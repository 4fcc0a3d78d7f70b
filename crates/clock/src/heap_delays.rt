//! Sleeping tasks in a heap.
ghost use Rattle.std.specs.Prelude.{◌≡◌, ◌<◌, ◌≤◌, ◌-◌, ◌^◌, [], filter, length, map, not};
ghost use Rattle.clock.specs.Numbering.{added, free_number};
ghost use Rattle.clock.specs.Sleepers.{due, waiting};
ghost use Rattle.clock.specs.Heaps.{AreDistinct, AreNumbered, IsWithin, TakesAllDue, are_many_due, by_number, earlier, entry_of, is_due_entry, sleeper_of, sleepers_of};
ghost use Rattle.base.specs.declared.limits.TheConstants.{TASKS};

use crate::delays::{Delays, Sleeper};
use crate::heap::{Entry, Heap};
use arrayvec::ArrayVec;
use base::limits::TASKS;
use std::marker::Model;
use std::mem;

/// A binary heap, by wake time and then by the number of adding. Where the next number is the greatest value of 64 bits, the sleepers
/// are numbered anew from 0 in their order before one is added.
#[derive(Drop)]
pub struct HeapDelays {
    heap: Heap,
    next_number: u64,
}

impl Model for HeapDelays {
    ghost use Rattle.std.specs.Prelude.{◌≤◌, length};
    ghost use Rattle.base.specs.declared.limits.TheConstants.{TASKS};
    ghost use Rattle.clock.specs.Numbering.{Numbered};
    ghost use Rattle.clock.specs.Heaps.{AreNumbered, sleepers_of};

    ghost Value = { Numbered };

    ghost view = { λ d. record { sleepers = sleepers_of d.heap; next = d.next_number } };

    ghost invariant = { λ d. (length d.heap ≤ TASKS) × AreNumbered d.next_number d.heap };
}

impl Delays for HeapDelays {
    ghost sleepers = { λ d. d.sleepers };

    fn new() -> Self
        ensures { result ≡ record { sleepers = []; next = 0 } }
    {
        HeapDelays::numbered_from(0)
    }

    fn add(&mut self, task: u8, wake: i64)
        requires room { length self.old.sleepers < TASKS }
        ensures { self.new ≡ added self.old (record { task = task; wake = wake }) }
    {
        let number = next_free(&mut self.heap, self.next_number);
        self.heap.push(Entry { wake, number, task });
        self.next_number = number + 1;
    }

    fn next_time(&self) -> Option<i64> {
        let first = self.heap.first()?;
        Some(first.wake)
    }

    fn wake_time(&self, task: u8) -> Option<i64> {
        let entry = first_added(self.heap.entries(), task)?;
        Some(entry.wake)
    }

    fn in_order(&self) -> ArrayVec<Sleeper, TASKS> {
        let mut entries = copied(self.heap.entries());
        sort(entries.as_mut_slice());
        sleepers(entries.as_slice())
    }

    fn expire(&mut self, now: i64) -> ArrayVec<u8, TASKS>
        ensures tasks { result.items ≡ due now self.old.sleepers }
        ensures left { self.new ≡ record self.old { sleepers = waiting now self.old.sleepers } }
    {
        let mut tasks = ArrayVec::new();
        for entry in take_due(&mut self.heap, now).as_slice() {
            tasks.push(entry.task);
        }
        tasks
    }
}

impl HeapDelays {
    /// Nobody sleeps, and the next number is this one. So the first task that is added gets it, or 0 where it is the greatest value.
    pub fn numbered_from(number: u64) -> HeapDelays
        ensures { result ≡ record { sleepers = []; next = number } }
    {
        HeapDelays {
            heap: Heap::new(),
            next_number: number,
        }
    }

    /// The number that the next task gets that is added; where it is the greatest value, all are numbered anew first.
    pub fn next_number(&self) -> u64
        ensures { result ≡ self.now.next }
    {
        self.next_number
    }
}

// A copy of entries.
fn copied(entries: &[Entry]) -> ArrayVec<Entry, TASKS>
    requires { length entries.now ≤ TASKS }
    ensures { result.items ≡ entries.now }
{
    let mut list = ArrayVec::new();
    for entry in entries {
        list.push(*entry);
    }
    list
}

// The sleepers of entries.
fn sleepers(entries: &[Entry]) -> ArrayVec<Sleeper, TASKS>
    requires { length entries.now ≤ TASKS }
    ensures { result.items ≡ map sleeper_of entries.now }
{
    let mut list = ArrayVec::new();
    for entry in entries {
        list.push(Sleeper {
            task: entry.task,
            wake: entry.wake,
        });
    }
    list
}

// The entry of a task that was added before its others, if it has one.
fn first_added(entries: &[Entry], task: u8) -> Option<Entry>
    ensures { result ≡ entry_of task entries.now }
{
    let mut found = None;
    let mut at = entries.len();
    while 0 < at {
        at -= 1;
        if entries[at].task == task {
            found = Some(earlier(entries[at], found));
        }
    }
    found
}

// The one of two entries that was added first, where there are two.
fn earlier(entry: Entry, other: Option<Entry>) -> Entry
    ensures { result ≡ earlier entry other }
{
    match other {
        Some(other) if other.number <= entry.number => other,
        _ => entry,
    }
}

// The number of one more: the next one, or where that is the greatest value, the one behind those that all get anew.
fn next_free(heap: &mut Heap, next: u64) -> u64
    requires short { length heap.old ≤ TASKS }
    requires numbered { AreNumbered next heap.old }
    ensures same { sleepers_of heap.new ≡ sleepers_of heap.old }
    ensures long { length heap.new ≡ length heap.old }
    ensures numbered { AreNumbered result heap.new }
    ensures free { result ≡ free_number next (sleepers_of heap.old) }
    ensures less { result < 2 ^ 64 - 1 }
{
    if next == u64::MAX {
        number_anew(heap)
    } else {
        next
    }
}

// Numbers all from 0 in the order of their adding, and returns the next number.
fn number_anew(heap: &mut Heap) -> u64
    requires short { length heap.old ≤ TASKS }
    requires distinct { AreDistinct heap.old }
    ensures same { sleepers_of heap.new ≡ sleepers_of heap.old }
    ensures long { length heap.new ≡ length heap.old }
    ensures numbered { AreNumbered result heap.new }
    ensures count { result ≡ length (sleepers_of heap.old) }
    ensures few { result ≤ TASKS }
{
    let mut number = 0;
    let entries = take_all(heap);
    for entry in entries.as_slice() {
        heap.push(Entry { number, ..*entry });
        number += 1;
    }
    number
}

// Takes all out, in the order of their adding.
fn take_all(heap: &mut Heap) -> ArrayVec<Entry, TASKS>
    requires short { length heap.old ≤ TASKS }
    requires distinct { AreDistinct heap.old }
    ensures taken { result.items ≡ by_number heap.old }
    ensures none { heap.new ≡ [] }
{
    let mut entries = ArrayVec::new();
    while let Some(entry) = heap.pop() {
        entries.push(entry);
    }
    sort(entries.as_mut_slice());
    entries
}

// Takes out those that wait for a time or an earlier one, in the order of their adding.
fn take_due(heap: &mut Heap, now: i64) -> ArrayVec<Entry, TASKS>
    requires short { length heap.old ≤ TASKS }
    requires distinct { AreDistinct heap.old }
    ensures due { result.items ≡ filter (is_due_entry now) (by_number heap.old) }
    ensures waiting { by_number heap.new ≡ filter (λ e. not (is_due_entry now e)) (by_number heap.old) }
    ensures distinct { AreDistinct heap.new }
    ensures within { IsWithin heap.new heap.old }
    ensures long { length heap.new ≤ length heap.old }
{
    let mut due = all_due(heap, now);
    sort(due.as_mut_slice());
    due
}

// Takes out those that wait for a time or an earlier one: in one pass over all where they are many.
fn all_due(heap: &mut Heap, now: i64) -> ArrayVec<Entry, TASKS>
    requires { length heap.old ≤ TASKS }
    ensures { TakesAllDue now heap.old heap.new result.items }
{
    if are_many_due(heap, now) {
        split_due(heap, now)
    } else {
        pop_due(heap, now)
    }
}

// Whether more than a quarter of the sleepers wait for a time or an earlier one.
fn are_many_due(heap: &Heap, now: i64) -> bool
    ensures { result ≡ are_many_due now heap.now }
{
    let entries = heap.entries();
    let mut count = 0;
    for entry in entries {
        if entry.wake <= now {
            count += 1;
        }
    }
    entries.len() / 4 < count
}

// Takes out those that wait for a time or an earlier one, in one pass over all.
fn split_due(heap: &mut Heap, now: i64) -> ArrayVec<Entry, TASKS>
    requires { length heap.old ≤ TASKS }
    ensures { TakesAllDue now heap.old heap.new result.items }
{
    let all = mem::replace(heap, Heap::new());
    let mut due = ArrayVec::new();
    for entry in all.entries() {
        if entry.wake <= now {
            due.push(*entry);
        } else {
            heap.push(*entry);
        }
    }
    due
}

// Takes out those that wait for a time or an earlier one, one after the other.
fn pop_due(heap: &mut Heap, now: i64) -> ArrayVec<Entry, TASKS>
    requires { length heap.old ≤ TASKS }
    ensures { TakesAllDue now heap.old heap.new result.items }
{
    let mut due = ArrayVec::new();
    while let Some(entry) = heap.pop_due(now) {
        due.push(entry);
    }
    due
}

// Puts entries into the order of their adding.
fn sort(entries: &mut [Entry])
    requires { AreDistinct entries.old }
    ensures order { entries.new ≡ by_number entries.old }
    ensures long { length entries.new ≡ length entries.old }
{
    entries.sort_unstable_by_key(|entry| entry.number);
}
