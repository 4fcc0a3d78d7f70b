//! What frames have beside their words.
ghost use Rattle.std.specs.Prelude.{◌≡◌, ◌<◌, ◌≤◌, ◌+◌, ◌∷◌, [], IfOk, length, vec_capacity};
ghost use Rattle.base.specs.declared.limits.TheConstants.{FRAMES, INSTRUCTIONS};

use crate::role::Role;
use base::limits::FRAMES;
use std::alloc::{AllocError, Global};
use std::marker::Model;

/// A frame but for its words: its subprogram, the place of its instruction or of the call that it waits for, how many of its words are locals,
/// where its words begin in the row of its task, and how it came about.
#[derive(Clone, Copy)]
pub(crate) struct Header {
    pub(crate) subprogram: u16,
    pub(crate) place: u16,
    pub(crate) locals: u16,
    pub(crate) base: usize,
    pub(crate) role: Role,
}

/// A copy of the headers of a task.
#[derive(Drop)]
pub(crate) struct SavedHeaders {
    items: Vec<Header>,
}

impl Model for SavedHeaders {
    ghost use Rattle.std.specs.Prelude.{◌<◌, ◌≤◌, ◌+◌, length, reverse};
    ghost use Rattle.base.specs.declared.limits.TheConstants.{FRAMES};
    ghost use Rattle.processor.specs.Layout.{HeaderStack, stack_of};

    ghost Value = { HeaderStack };

    ghost view = { λ h. stack_of (reverse h.items.items) };

    ghost invariant = { λ h. (0 < length h.items.items) × (length h.items.items ≤ FRAMES + 1) };
}

/// The headers of the frames of a task, that of the running one last, in memory that stays where it is. There is always one.
#[derive(Drop)]
pub(crate) struct Headers {
    items: Vec<Header>,
}

impl Model for Headers {
    ghost use Rattle.std.specs.Prelude.{◌<◌, ◌≤◌, ◌+◌, length, reverse, vec_capacity};
    ghost use Rattle.base.specs.declared.limits.TheConstants.{FRAMES};
    ghost use Rattle.processor.specs.Layout.{HeaderStack, stack_of};

    ghost Value = { HeaderStack };

    ghost view = { λ h. stack_of (reverse h.items.items) };

    ghost invariant = { λ h. (0 < length h.items.items) × (length h.items.items ≤ FRAMES + 1) × (FRAMES + 1 ≤ vec_capacity h.items) };
}

impl Headers {
    /// One header.
    ///
    /// # Errors
    /// Where memory was refused.
    pub(crate) fn new(alloc: Global, first: Header) -> Result<Headers, AllocError>
        ensures { IfOk result (λ h. h ≡ record { running = first; waiting = [] }) }
    {
        let mut items = Vec::with_capacity(alloc, FRAMES + 1)?;
        items.push_reserved(first);
        Ok(Headers { items })
    }

    /// The header of the running frame.
    #[inline(always)]
    pub(crate) fn running(&self) -> &Header
        ensures { result.now ≡ self.now.running }
    {
        &self.items[self.items.len() - 1]
    }

    /// How many frames there are below the running one.
    #[inline(always)]
    pub(crate) fn waiting(&self) -> usize
        ensures count { result ≡ length self.now.waiting }
        ensures few { length self.now.waiting ≤ FRAMES }
    {
        self.items.len() - 1
    }

    /// The running frame goes on at a place.
    #[inline(always)]
    pub(crate) fn set_place(&mut self, place: u16)
        ensures { self.new ≡ record self.old { running = record self.old.running { place = place } } }
    {
        let last = self.items.len() - 1;
        self.items[last].place = place;
    }

    /// The running frame goes on at the next place.
    #[inline(always)]
    pub(crate) fn advance(&mut self)
        requires { self.old.running.place < INSTRUCTIONS }
        ensures { self.new ≡ record self.old { running = record self.old.running { place = self.old.running.place + 1 } } }
    {
        let last = self.items.len() - 1;
        self.items[last].place += 1;
    }

    /// Another frame runs above the running one.
    #[inline(always)]
    pub(crate) fn push(&mut self, header: Header)
        requires { length self.old.waiting < FRAMES }
        ensures { self.new ≡ record { running = header; waiting = self.old.running ∷ self.old.waiting } }
    {
        self.items.push_reserved(header);
    }

    // One header is left.
    fn strip(&mut self)
        ensures { self.new.waiting ≡ [] }
    {
        while 0 < self.waiting() {
            self.pop();
        }
    }

    /// This header alone.
    pub(crate) fn restart(&mut self, first: Header)
        ensures { self.new ≡ record { running = first; waiting = [] } }
    {
        self.strip();
        let last = self.items.len() - 1;
        self.items[last] = first;
    }

    /// A copy of them.
    ///
    /// # Errors
    /// Where memory was refused.
    pub(crate) fn save(&self, alloc: Global) -> Result<SavedHeaders, AllocError>
        ensures { IfOk result (λ saved. saved ≡ self.now) }
    {
        let mut items = Vec::new(alloc);
        items.extend_from_slice(&self.items)?;
        Ok(SavedHeaders { items })
    }

    /// Becomes the headers of which there is a copy.
    pub(crate) fn restore(&mut self, saved: &SavedHeaders)
        ensures { self.new ≡ saved.now }
    {
        copy(&saved.items, &mut self.items);
    }

    /// The frame below runs again.
    #[inline(always)]
    pub(crate) fn pop(&mut self)
        requires { 0 < length self.old.waiting }
        ensures { self.old.waiting ≡ self.new.running ∷ self.new.waiting }
    {
        let _ = self.items.pop();
    }
}

// Copies headers in place of others, in memory that is there.
fn copy(headers: &[Header], kept: &mut Vec<Header>)
    requires few { length headers.now ≤ FRAMES + 1 }
    requires room { FRAMES + 1 ≤ vec_capacity kept.old }
    ensures items { kept.new.items ≡ headers.now }
    ensures room { FRAMES + 1 ≤ vec_capacity kept.new }
{
    kept.clear();
    for header in headers {
        kept.push_reserved(*header);
    }
}
