//! Broken rules as walks find them (docs/LANGUAGE.md, "Rules of expressions").
ghost use Rattle.std.specs.Prelude.{◌≡◌, IfOk, option_to_list};
ghost use Rattle.expr_rules.specs.Faults.{rule};
ghost use Rattle.expr_rules.specs.Findings.{none_found, noted, noted_one};

use crate::fault::sooner;
use lexer::Fault;
use std::alloc::{AllocError, Global};
use std::marker::Model;

/// Broken rules as walks find them: the least, how many there are, and as many of them as there is room for, in the order in which they are found. So all
/// broken rules of a tree are found in two walks, of which neither can fail: the first counts them, the second has room for so many.
#[derive(Drop)]
pub struct Findings {
    least: Option<Fault>,
    count: usize,
    room: usize,
    kept: Option<Vec<Fault>>,
}

impl Model for Findings {
    ghost use Rattle.std.specs.Prelude.{◌≡◌, ◌≤◌};
    ghost use Rattle.expr_rules.specs.Findings.{Findings, has_places, kept_faults};

    ghost Value = { Findings };

    ghost view = { λ f. record { least = f.least; count = f.count; kept = kept_faults f.kept; room = f.room } };

    ghost invariant = { λ f. has_places f.room f.kept };
}

impl Findings {
    /// Nothing found so far, and room for none: the least will be known, and how many there are.
    pub fn new() -> Findings
        ensures { result ≡ none_found 0 }
    {
        Findings {
            least: None,
            count: 0,
            room: 0,
            kept: None,
        }
    }

    /// Nothing found so far, and room for so many. Memory is the only refusal.
    pub fn with_room(alloc: Global, room: usize) -> Result<Findings, AllocError>
        ensures { IfOk result (λ found. found ≡ none_found room) }
    {
        let kept = Vec::with_capacity(alloc, room)?;
        Ok(Findings {
            least: None,
            count: 0,
            room,
            kept: Some(kept),
        })
    }

    /// The one with the least place, and at one place the one with the least number.
    pub fn least(&self) -> Option<Fault>
        ensures { result ≡ self.now.least }
    {
        self.least
    }

    /// How many were found.
    pub fn count(&self) -> usize
        ensures { result ≡ self.now.count }
    {
        self.count
    }

    /// The faults for which there was room, in the order in which they were found.
    pub fn into_kept(self, alloc: Global) -> Vec<Fault>
        ensures { result.items ≡ self.kept }
    {
        match self.kept {
            Some(kept) => kept,
            None => Vec::new(alloc),
        }
    }

    /// One more was found.
    pub fn note(&mut self, fault: Fault)
        ensures { self.new ≡ noted_one self.old fault }
    {
        self.least = sooner(self.least, Some(fault));
        self.count = self.count.saturating_add(1);
        if let Some(kept) = &mut self.kept {
            if kept.len() < self.room {
                let _ = kept.push(fault);
            }
        }
    }

    /// What was found where there is one.
    pub fn note_any(&mut self, fault: Option<Fault>)
        ensures { self.new ≡ noted self.old (option_to_list fault) }
    {
        if let Some(fault) = fault {
            self.note(fault);
        }
    }

    /// The rule with this number is broken at this place, if so.
    pub fn note_rule(&mut self, number: u8, place: u32, is_broken: bool)
        ensures { self.new ≡ noted self.old (rule number place is_broken) }
    {
        if is_broken {
            self.note(Fault { number, place });
        }
    }
}
