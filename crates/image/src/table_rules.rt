//! The rules of the tables (docs/FORMATS.md, "Well-formed images", 47).
ghost use Rattle.std.specs.Prelude.{◌≡◌, ◌+◌, ◌≤◌, ◌&&◌, ◌||◌, length, nat_eq, nat_le, nat_lt, not, slice_get, sum_by, IfErr, IfOk};
ghost use Rattle.image.specs.Faults.{memory_fault};
ghost use Rattle.std.specs.List.{list_all};
ghost use Rattle.base.specs.Names.{is_label, is_name, predefined};
ghost use Rattle.image.specs.Operations.{called};
ghost use Rattle.image.specs.Rules.{all_begun, all_nested, all_placed, are_attached, begins_with, has_counts, has_ends, is_attached, is_barrier, is_closed_barrier, is_handling_kind, is_entry_body_of, is_entry_of_object, is_object, is_subprogram, is_task, is_task_body, tables_agree, last_end, may_handle, none_or, some_and};

use crate::{Attachment, Barrier, ImageFault, Kind, Object, Parts, Subprogram, Task, Text};
use base::PredefinedException;
use base::limits::{
    CEILING, CHANNELS, EXCEPTIONS, FRAME_WORDS, INSTRUCTIONS, LABELS, OBJECTS, ROWS, SUBPROGRAMS,
    TASK_PRIORITY, TASKS, WORDS,
};
use base::names::{is_label, is_name};
use handlers::first_crossing;
use std::alloc::Global;

impl Kind {
    /// Whether it is that of a task's body.
    pub fn is_task_body(&self) -> bool
        ensures { result ≡ is_task_body self.now }
    {
        matches!(self, Kind::TaskBody)
    }

    fn is_entry_body_of(&self, number: usize) -> bool
        ensures { result ≡ is_entry_body_of number self.now }
    {
        match self {
            Kind::EntryBody(object) => usize::from(*object) == number,
            _ => false,
        }
    }
}

impl Parts {
    pub(crate) fn tables_agree(&self, alloc: Global) -> Result<bool, ImageFault>
        ensures ok { IfOk result (λ agree. agree ≡ tables_agree self.now) }
        ensures refused { IfErr result (λ fault. fault ≡ memory_fault) }
    {
        let agree = self.has_counts()
            && self.has_ends()
            && self.all_subprograms()
            && self.all_objects()
            && self.all_tasks()
            && self.begins_with_predefined()
            && self.all_exceptions()
            && self.all_labels()
            && self.all_row_exceptions()
            && self.are_attached();
        Ok(agree && self.all_nested(alloc)?)
    }

    fn has_counts(&self) -> bool
        ensures { result ≡ has_counts self.now }
    {
        1 <= self.instructions.len()
            && self.instructions.len() <= INSTRUCTIONS
            && 1 <= self.subprograms.len()
            && self.subprograms.len() <= SUBPROGRAMS
            && 1 <= self.tasks.len()
            && self.tasks.len() <= TASKS
            && 4 <= self.exceptions.len()
            && self.exceptions.len() <= EXCEPTIONS
            && self.objects.len() <= OBJECTS
            && self.rows.len() <= ROWS
            && self.labels.len() <= LABELS
            && self.has_words()
    }

    /// Whether the plain words and those of the objects are within the limit together (47).
    pub fn has_words(&self) -> bool
        ensures { result ≡ nat_le (length self.now.plain_words + sum_by (λ o. length o.words) self.now.objects) WORDS }
    {
        let mut left = match WORDS.checked_sub(self.plain_words.len()) {
            None => return false,
            Some(left) => left,
        };
        for o in &self.objects {
            left = match left.checked_sub(o.words().len()) {
                None => return false,
                Some(left) => left,
            };
        }
        true
    }

    /// Whether the ends of subprograms are in order (47): they increase from above 0, and the last one is the number of instructions.
    pub fn has_ends(&self) -> bool
        ensures { result ≡ has_ends self.now }
    {
        self.ends_increase() && self.last_end() == self.instructions.len()
    }

    fn ends_increase(&self) -> bool
        ensures { result ≡ all_begun (λ first s. nat_lt first s.end_) 0 self.now.subprograms }
    {
        let mut place = 0;
        for s in &self.subprograms {
            if s.end_ <= place {
                return false;
            }
            place = s.end_;
        }
        true
    }

    fn last_end(&self) -> usize
        ensures { result ≡ last_end self.now.subprograms }
    {
        let last = self.subprograms.len().saturating_sub(1);
        self.subprograms
            .get(last)
            .map_or(0, |s| usize::from(s.end_))
    }

    fn all_subprograms(&self) -> bool
        ensures { result ≡ all_placed (is_subprogram self.now) 0 self.now.subprograms }
    {
        for (number, s) in self.subprograms.iter().enumerate() {
            if !self.is_subprogram(number, s) {
                return false;
            }
        }
        true
    }

    fn is_subprogram(&self, number: usize, s: &Subprogram) -> bool
        ensures { result ≡ is_subprogram self.now number s.now }
    {
        s.parameters <= s.locals
            && usize::from(s.locals) + usize::from(s.stack) <= FRAME_WORDS
            && (!s.kind.is_task_body() || s.parameters == 0 && s.results == 0)
            && self.is_entry_of_object(number, &s.kind)
    }

    /// Whether an entry's body is the one that its object has (47).
    pub fn is_entry_of_object(&self, number: usize, kind: &Kind) -> bool
        ensures { result ≡ is_entry_of_object self.now number kind.now }
    {
        let Kind::EntryBody(object) = kind else {
            return true;
        };
        match self.objects.get(usize::from(*object)) {
            None => true,
            Some(o) => match o.entry() {
                None => false,
                Some(entry) => number == usize::from(entry),
            },
        }
    }

    fn all_objects(&self) -> bool
        ensures { result ≡ all_placed (is_object self.now) 0 self.now.objects }
    {
        for (number, o) in self.objects.iter().enumerate() {
            if !self.is_object(number, o) {
                return false;
            }
        }
        true
    }

    fn is_object(&self, number: usize, o: &Object) -> bool
        ensures { result ≡ is_object self.now number o.now }
    {
        o.ceiling() <= CEILING
            && self.is_own_entry(number, o)
            && is_barrier(o)
            && (o.entry().is_some() || is_closed(o.barrier()))
    }

    // Whether the subprogram that an object has as its entry is one of its own.
    fn is_own_entry(&self, number: usize, o: &Object) -> bool
        ensures { result ≡ none_or o.now.entry (λ n. none_or (slice_get self.now.subprograms n) (λ s. is_entry_body_of number s.kind)) }
    {
        match o.entry() {
            None => true,
            Some(entry) => match self.called(entry) {
                None => true,
                Some(s) => s.kind.is_entry_body_of(number),
            },
        }
    }

    fn all_tasks(&self) -> bool
        ensures { result ≡ list_all (is_task self.now) self.now.tasks }
    {
        self.tasks.iter().all(|t| self.is_task(t))
    }

    fn is_task(&self, t: &Task) -> bool
        ensures { result ≡ is_task self.now t.now }
    {
        is_name(t.name.as_bytes())
            && t.priority <= TASK_PRIORITY
            && match self.called(t.subprogram) {
                None => true,
                Some(s) => s.kind.is_task_body(),
            }
    }

    fn begins_with_predefined(&self) -> bool
        ensures { result ≡ begins_with predefined self.now.exceptions }
    {
        begin_with_predefined(&self.exceptions)
    }

    fn all_exceptions(&self) -> bool
        ensures { result ≡ list_all is_name self.now.exceptions }
    {
        self.exceptions.iter().all(|x| is_name(x.as_bytes()))
    }

    fn all_labels(&self) -> bool
        ensures { result ≡ list_all is_label self.now.labels }
    {
        self.labels.iter().all(|l| is_label(l.as_bytes()))
    }

    fn all_row_exceptions(&self) -> bool
        ensures { result ≡ list_all (λ r. nat_le r.exception (length self.now.exceptions)) self.now.rows }
    {
        let last = self.exceptions.len();
        self.rows.iter().all(|r| usize::from(r.exception) <= last)
    }

    // Channels rise within their range, and each has a procedure that may handle its interrupts (RM C.3.1).
    fn are_attached(&self) -> bool
        ensures { result ≡ are_attached self.now 0 self.now.attachments }
    {
        let mut last = 0;
        for a in &self.attachments {
            if !self.is_attached(last, a) {
                return false;
            }
            last = a.channel;
        }
        true
    }

    fn is_attached(&self, last: u8, a: &Attachment) -> bool
        ensures { result ≡ is_attached self.now last a.now }
    {
        last < a.channel && a.channel <= CHANNELS && self.may_be_attached(a.subprogram)
    }

    fn may_be_attached(&self, number: u16) -> bool
        ensures { result ≡ some_and (called self.now number) (may_handle self.now) }
    {
        match self.called(number) {
            None => false,
            Some(s) => self.may_handle(&s),
        }
    }

    /// Whether the subprogram may handle interrupts (47): a protected procedure without parameters and results, of an object of the highest ceiling.
    pub fn may_handle(&self, s: &Subprogram) -> bool
        ensures { result ≡ may_handle self.now s.now }
    {
        self.is_handling_kind(&s.kind) && s.parameters == 0 && s.results == 0
    }

    fn is_handling_kind(&self, kind: &Kind) -> bool
        ensures { result ≡ is_handling_kind self.now kind.now }
    {
        match kind {
            Kind::ProtectedProcedure(object) => match self.objects.get(usize::from(*object)) {
                None => false,
                Some(o) => o.ceiling() == CEILING,
            },
            _ => false,
        }
    }

    fn all_nested(&self, alloc: Global) -> Result<bool, ImageFault>
        ensures ok { IfOk result (λ nested. nested ≡ all_nested self.now.rows) }
        ensures refused { IfErr result (λ fault. fault ≡ memory_fault) }
    {
        match first_crossing(alloc, &self.rows) {
            Ok(crossing) => Ok(crossing.is_none()),
            Err(_) => Err(ImageFault::memory()),
        }
    }
}

fn begin_with_predefined(names: &[Text]) -> bool
    ensures { result ≡ begins_with predefined names.now }
{
    match names {
        [first, second, third, fourth, ..] => {
            PredefinedException::ConstraintError.name() == first.as_bytes()
                && PredefinedException::ProgramError.name() == second.as_bytes()
                && PredefinedException::StorageError.name() == third.as_bytes()
                && PredefinedException::TaskingError.name() == fourth.as_bytes()
        }
        _ => false,
    }
}

fn is_barrier(o: &Object) -> bool
    ensures { result ≡ is_barrier o.now o.now.barrier }
{
    match o.barrier() {
        Barrier::Closed | Barrier::Open => true,
        Barrier::Word(address) => usize::from(address) < o.words().len(),
    }
}

fn is_closed(barrier: Barrier) -> bool
    ensures { result ≡ is_closed_barrier barrier }
{
    matches!(barrier, Barrier::Closed)
}
