//! Conflicts, as walks find them: types that don't match, and expressions that must be static and are not, or whose value is wrong.
ghost use Rattle.std.specs.Prelude.{◌≡◌, ◌&&◌, IfOk, not};
ghost use Rattle.expr_rules.specs.Typing.{is_known, is_wanted};
ghost use Rattle.mismatches.specs.Conflicts.{SearchGoesByParts, conflict_if, none_found, noted, noted_one, rule_of, unexpected};

use base::faults::{NO_MEANING, NOT_STATIC, WRONG_STATIC_VALUE};
use expr_rules::{Own, Wanted, mismatch};
use std::alloc::{AllocError, Global};
use std::marker::Model;
use types::Scope;

/// What keeps an expression from being static (RM 4.9), by the place where it begins.
#[derive(Clone, Copy)]
pub enum Obstacle {
    /// A name of something else than a number, a truth value, or a scalar constant of the package.
    Name(u32),
    IfExpression(u32),
}

/// How an expression breaks a rule: by types that don't match (12), or where it must be static (14, 15).
#[derive(Clone, Copy)]
pub enum Conflict {
    /// An expression is expected to be the first, and is of the second.
    Unexpected(Wanted, Own),
    /// An operator has no meaning for a left operand of the first and a right one of the second.
    Operands(Own, Own),
    /// The actual parameter for a formal one of mode `out` or `in out` is no object (RM 6.4.1).
    NoVariable,
    /// The selecting expression of a case statement is of this type, which is neither an integer type nor Boolean (RM 5.4).
    NotDiscrete(Own),
    /// An expression isn't static, for this.
    NotStatic(Obstacle),
    /// The value of a static expression is the first number, and lies outside the range from the second to the third.
    Outside(i64, i64, i64),
    /// The evaluation of a static expression raises an exception.
    Raises,
    /// A range that is declared is null: these are its bounds (RM 3.5).
    NullRange(i64, i64),
}

impl Conflict {
    /// The number of the rule that is broken.
    pub(crate) fn number(self) -> u8
        ensures { result ≡ rule_of self }
    {
        match self {
            Conflict::NotStatic(_) => NOT_STATIC,
            Conflict::Outside(_, _, _) | Conflict::Raises | Conflict::NullRange(_, _) => {
                WRONG_STATIC_VALUE
            }
            _ => NO_MEANING,
        }
    }
}

/// A conflict at a place.
#[derive(Clone, Copy)]
pub struct Mismatch {
    pub place: u32,
    pub conflict: Conflict,
}

/// What a walk over a text has found: how many conflicts there are, and as many of them as there is room for, in the order in which they are found. So all of a
/// tree are found in two walks, of which neither can fail: the first counts them, the second has room for so many.
#[derive(Drop)]
pub(crate) struct Search {
    count: usize,
    room: usize,
    kept: Option<Vec<Mismatch>>,
}

impl Model for Search {
    ghost use Rattle.std.specs.Prelude.{◌≡◌, ◌≤◌};
    ghost use Rattle.mismatches.specs.Conflicts.{Search, has_places, kept_mismatches};

    ghost Value = { Search };

    ghost view = { λ s. record { count = s.count; kept = kept_mismatches s.kept; room = s.room } };

    ghost invariant = { λ s. has_places s.room s.kept };
}

impl Search {
    /// Nothing found so far, and room for none: how many there are will be known.
    pub(crate) fn new() -> Search
        ensures { result ≡ none_found 0 }
    {
        Search {
            count: 0,
            room: 0,
            kept: None,
        }
    }

    /// Nothing found so far, and room for so many. Memory is the only refusal.
    pub(crate) fn with_room(alloc: Global, room: usize) -> Result<Search, AllocError>
        ensures { IfOk result (λ search. search ≡ none_found room) }
    {
        let kept = Vec::with_capacity(alloc, room)?;
        Ok(Search {
            count: 0,
            room,
            kept: Some(kept),
        })
    }

    /// How many were found.
    pub(crate) fn count(&self) -> usize
        ensures { result ≡ self.now.count }
    {
        self.count
    }

    /// The mismatches that are kept: of all that were found the first ones, as many as there was room for.
    pub(crate) fn into_kept(self, alloc: Global) -> Vec<Mismatch>
        ensures { result.items ≡ self.kept }
    {
        match self.kept {
            Some(kept) => kept,
            None => Vec::new(alloc),
        }
    }

    fn note_one(&mut self, mismatch: Mismatch)
        ensures { self.new ≡ noted_one self.old mismatch }
    {
        self.count = self.count.saturating_add(1);
        if let Some(kept) = &mut self.kept {
            if kept.len() < self.room {
                let _ = kept.push(mismatch);
            }
        }
    }

    /// The conflict is at this place, if so.
    pub(crate) fn note(&mut self, place: u32, conflict: Conflict, is_so: bool)
        ensures { self.new ≡ noted self.old (conflict_if place conflict is_so) }
    {
        if is_so {
            self.note_one(Mismatch { place, conflict });
        }
    }
}

/// What joined lists leave of a search is what the second one leaves after the first one.
pub(crate) fn noted_by_parts()
    ensures { SearchGoesByParts }
{}

pub(crate) fn is_known(own: Own) -> bool
    ensures { result ≡ is_known own }
{
    match own {
        Own::Unknown => false,
        _ => true,
    }
}

// Whether a type that is known is not the one that is expected.
#[tactic(auto, using(crate::proofs::Noted::rule_is))]
fn is_unexpected(scope: &Scope, wanted: Wanted, own: Own) -> bool
    ensures { result ≡ (is_known own && not (is_wanted scope.now wanted own)) }
{
    mismatch(scope, wanted, own, 0).is_some()
}

/// An expression at this place that is of a known type, but not of the one that is expected.
pub(crate) fn note_unexpected(
    scope: &Scope,
    wanted: Wanted,
    own: Own,
    place: u32,
    search: &mut Search,
)
    ensures { search.new ≡ noted search.old (unexpected scope.now wanted own place) }
{
    let conflict = Conflict::Unexpected(wanted, own);
    search.note(place, conflict, is_unexpected(scope, wanted, own));
}
