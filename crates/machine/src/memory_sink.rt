//! A sink in memory, which keeps to a plan of failures.
ghost use Rattle.std.specs.Prelude.{◌≡◌, ◌+◌, ◌<◌, ◌≤◌, [], ◌++◌, take, length, IfOk, Some, vec_len, vec_capacity};
ghost use Rattle.std.specs.Result.{result_ok};
ghost use Rattle.machine.specs.Written.{failures_of, taken};
ghost use Rattle.machine.specs.Memory.{next_plan, allowed_of};

use crate::writing::{Sink, SinkError};
use std::alloc::{AllocError, Global};
use std::marker::Model;
use std::sync::ledger::{Blank, Book, Ledger, Share};

/// What a sink in memory does at one of its calls.
#[derive(Clone, Copy, PartialEq, Eq, Debug)]
pub enum Plan {
    /// It takes each piece whole.
    TakesAll,
    /// It takes one byte a call.
    TakesOne,
    /// It fails at the nth call from now on, counted from 1.
    FailsAt(u64),
    /// It answers 0 at the nth call from now on, counted from 1.
    AnswersZeroAt(u64),
}

impl Plan {
    // The plan after one more call.
    fn next(self) -> Plan
        ensures { result ≡ next_plan self }
    {
        match self {
            Plan::FailsAt(n) => Plan::FailsAt(n.saturating_sub(1)),
            Plan::AnswersZeroAt(n) => Plan::AnswersZeroAt(n.saturating_sub(1)),
            Plan::TakesAll | Plan::TakesOne => self,
        }
    }
}

/// A sink in memory, with room for a fixed number of bytes. A piece that doesn't fit fails.
#[derive(Drop)]
pub struct MemorySink<L: Ledger> {
    buffer: Vec<u8>,
    plan: Plan,
    book: Book<L>,
    share: Share<L>,
}

impl<L: Ledger> Model for MemorySink<L> {
    ghost use Rattle.std.specs.Prelude.{◌<◌, vec_capacity};
    ghost use Rattle.machine.specs.Memory.{MemoryState};

    ghost Value = { MemoryState };

    ghost view = { λ s. record { bytes = s.buffer.items; room = vec_capacity s.buffer; plan = s.plan; failures = s.share.amount } };

    ghost invariant = { λ s. 0 < s.share.parts };
}

impl<L: Ledger> MemorySink<L> {
    /// An empty sink with this room in bytes, which keeps to the plan.
    ///
    /// # Errors
    /// Where memory was refused.
    pub fn new(
        alloc: Global,
        room: usize,
        plan: Plan,
        blank: Blank,
    ) -> Result<MemorySink<L>, AllocError>
        requires name { blank.name ≡ L.name }
        requires parts { blank.parts ≡ L.parts }
        requires some { 0 < L.parts }
        ensures { IfOk result (λ sink. sink ≡ record { bytes = []; room = room; plan = plan; failures = 0 }) }
    {
        let buffer = Vec::with_capacity(alloc, room)?;
        let (book, share) = blank.open::<L>();
        Ok(MemorySink {
            buffer,
            plan,
            book,
            share,
        })
    }

    /// The bytes taken so far.
    pub fn bytes(&self) -> &[u8]
        ensures { result.now ≡ self.now.bytes }
    {
        &self.buffer
    }

    // How many bytes of a piece this call takes, or None where it fails.
    fn allowed(&self, piece: &[u8]) -> Option<usize>
        ensures { result ≡ allowed_of self.now piece.now }
    {
        let room = self.buffer.capacity() - self.buffer.len();
        let count = match self.plan {
            Plan::FailsAt(1) => return None,
            Plan::AnswersZeroAt(1) => 0,
            Plan::TakesOne => piece.len().min(1),
            Plan::TakesAll | Plan::FailsAt(_) | Plan::AnswersZeroAt(_) => piece.len(),
        };
        (count <= room).then_some(count)
    }
}

impl<L: Ledger> Sink for MemorySink<L> {
    ghost bytes = { λ s. Some s.bytes };

    ghost failures = { λ s. s.failures };

    fn write(&mut self, piece: &[u8]) -> Result<usize, SinkError>
        ensures within { IfOk result (λ count. count ≤ length piece.now) }
        ensures bytes { self.new.bytes ≡ self.old.bytes ++ take (taken result) piece.now }
        ensures failures { self.new.failures ≡ self.old.failures + failures_of piece.now result }
        ensures answer { result_ok result ≡ allowed_of self.old piece.now }
        ensures plan { self.new.plan ≡ next_plan self.old.plan }
        ensures room { self.new.room ≡ self.old.room }
    {
        let allowed = self.allowed(piece);
        self.plan = self.plan.next();
        let Some(count) = allowed else {
            self.book.add(&mut self.share, 1);
            return Err(SinkError);
        };
        if count == 0 && !piece.is_empty() {
            self.book.add(&mut self.share, 1);
        }
        append(&mut self.buffer, &piece[..count]);
        Ok(count)
    }
}

fn append(buffer: &mut Vec<u8>, piece: &[u8])
    requires { vec_len buffer.old + length piece.now ≤ vec_capacity buffer.old }
    ensures items { buffer.new.items ≡ buffer.old.items ++ piece.now }
    ensures capacity { vec_capacity buffer.new ≡ vec_capacity buffer.old }
{
    for byte in piece {
        buffer.push_reserved(*byte);
    }
}
