//! Sleepers in a binary heap.
ghost use Rattle.std.specs.Prelude.{◌≡◌, ◌<◌, ◌≤◌, ◌+◌, ◌-◌, ◌++◌, ◌∷◌, [], length, slice_get};
ghost use Rattle.std.specs.Option.{MatchOption};
ghost use Rattle.std.specs.List.Sorted.{IsPermutation};
ghost use Rattle.clock.specs.Heaps.{IsAmong, HasNoChild, IsNobodyDue, IsSoonest, IsFirstChild, IsHeap, IsHeapBelowFront, IsHeapUpTo, TakesDue, TakesOut, is_before};
ghost use Rattle.base.specs.declared.limits.TheConstants.{TASKS};

use arrayvec::ArrayVec;
use base::limits::TASKS;
use std::marker::Model;

/// A sleeper, with the number of its adding.
#[derive(Clone, Copy, Default)]
pub struct Entry {
    pub wake: i64,
    pub number: u64,
    pub task: u8,
}

impl Entry {
    /// Whether it is to be taken before another one: by its wake time, then by its number.
    fn is_before(&self, other: &Entry) -> bool
        ensures { result ≡ is_before self.now other.now }
    {
        self.wake
            .cmp(&other.wake)
            .then(self.number.cmp(&other.number))
            .is_lt()
    }
}

/// Entries, the one that is to be taken first at the front, and each other one at a later place than its parent.
#[derive(Drop)]
pub struct Heap {
    entries: ArrayVec<Entry, TASKS>,
}

impl Model for Heap {
    ghost use Rattle.std.specs.Prelude.{List, ◌≤◌, length};
    ghost use Rattle.base.specs.declared.limits.TheConstants.{TASKS};
    ghost use Rattle.clock.specs.declared.heap.Entry.{Entry as Row};
    ghost use Rattle.clock.specs.Heaps.{IsHeap};

    ghost Value = { List Row };

    ghost view = { λ h. h.entries.items };

    ghost invariant = { λ h. (length h.entries.items ≤ TASKS) × IsHeap h.entries.items };
}

impl Heap {
    /// Nobody sleeps.
    pub fn new() -> Heap
        ensures { result ≡ [] }
    {
        Heap {
            entries: ArrayVec::new(),
        }
    }

    /// The entry that is to be taken first, if there is one.
    pub fn first(&self) -> Option<Entry>
        ensures front { result ≡ slice_get self.now 0 }
        ensures least { MatchOption result (self.now ≡ []) (λ e. IsAmong e self.now × IsSoonest e self.now) }
    {
        self.entries.as_slice().first().copied()
    }

    /// The entries, the front first.
    pub fn entries(&self) -> &[Entry]
        ensures { result.now ≡ self.now }
    {
        self.entries.as_slice()
    }

    /// Adds an entry.
    pub fn push(&mut self, entry: Entry)
        requires { length self.old < TASKS }
        ensures moved { IsPermutation (self.old ++ entry ∷ []) self.new }
        ensures long { length self.new ≡ length self.old + 1 }
    {
        self.entries.push(entry);
        lift_last(self.entries.as_mut_slice());
    }

    /// Takes the entry that is to be taken first, if its wake time is this time or an earlier one.
    pub fn pop_due(&mut self, now: i64) -> Option<Entry>
        ensures { MatchOption result ((self.new ≡ self.old) × IsNobodyDue now self.old) (TakesDue now self.old self.new) }
    {
        let first = self.first()?;
        if now < first.wake {
            return None;
        }
        self.pop()
    }

    /// Takes the entry that is to be taken first, if there is one.
    pub fn pop(&mut self) -> Option<Entry>
        ensures front { result ≡ slice_get self.old 0 }
        ensures left { MatchOption result ((self.old ≡ []) × (self.new ≡ [])) (TakesOut self.old self.new) }
    {
        if self.entries.is_empty() {
            return None;
        }
        let first = self.entries.swap_remove(0);
        sink_front(self.entries.as_mut_slice());
        Some(first)
    }
}

// Lets the last entry change places with its parents until none of them is to be taken after it.
fn lift_last(entries: &mut [Entry])
    requires some { 0 < length entries.old }
    requires heap { IsHeapUpTo (length entries.old - 1) entries.old }
    ensures permutation { IsPermutation entries.old entries.new }
    ensures long { length entries.new ≡ length entries.old }
    ensures heap { IsHeap entries.new }
{
    let mut at = entries.len() - 1;
    while 0 < at {
        let parent = (at - 1) / 2;
        if !entries[at].is_before(&entries[parent]) {
            return;
        }
        entries.swap(at, parent);
        at = parent;
    }
}

// Lets the front change places with its first child, and on with that one's, until none of them is to be taken before it.
fn sink_front(entries: &mut [Entry])
    requires long { length entries.old ≤ TASKS }
    requires heap { IsHeapBelowFront entries.old }
    ensures permutation { IsPermutation entries.old entries.new }
    ensures long { length entries.new ≡ length entries.old }
    ensures heap { IsHeap entries.new }
{
    let mut at = 0;
    while let Some(child) = first_child(entries, at) {
        if !entries[child].is_before(&entries[at]) {
            return;
        }
        entries.swap(at, child);
        at = child;
    }
}

// The child of the entry at a place that is to be taken first, if it has one.
fn first_child(entries: &[Entry], at: usize) -> Option<usize>
    requires { (at ≤ length entries.now) × (length entries.now ≤ TASKS) }
    ensures { MatchOption result (HasNoChild at entries.now) (λ child. IsFirstChild at child entries.now) }
{
    let left = 2 * at + 1;
    let right = left + 1;
    if right < entries.len() && entries[right].is_before(&entries[left]) {
        Some(right)
    } else if left < entries.len() {
        Some(left)
    } else {
        None
    }
}
