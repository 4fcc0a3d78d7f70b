//! The declarations that a name may denote at a place (RM 8.6).

use crate::entity::{Denoted, EntityId};
use crate::table::Names;

/// The declarations of a name that are visible at a place, the innermost first.
#[derive(Clone, Copy)]
pub(crate) struct Candidates {
    // The type that is expected here.
    expected: Option<EntityId>,
    first: Option<EntityId>,
    are_several: bool,
    // The first one with the type that is expected.
    fitting: Option<EntityId>,
}

impl Candidates {
    /// No declarations yet, at a place where a value of this type is expected.
    pub(crate) fn new(expected: Option<EntityId>) -> Candidates {
        Candidates {
            expected,
            first: None,
            are_several: false,
            fitting: None,
        }
    }

    /// The innermost one.
    pub(crate) fn first(&self) -> Option<EntityId> {
        self.first
    }

    /// Adds a declaration, unless this inner one hides it, or it is there already.
    pub(crate) fn add(&mut self, names: &Names, id: EntityId, inner: Option<EntityId>) {
        if names.hides(inner, id) || self.first == Some(id) {
            return;
        }
        self.are_several = self.first.is_some();
        self.first = self.first.or(Some(id));
        if self.fitting.is_none() && names.fits(id, self.expected) {
            self.fitting = Some(id);
        }
    }

    /// What the name denotes.
    pub(crate) fn denoted(&self) -> Denoted {
        match self.first {
            None => Denoted::Unknown,
            Some(first) if self.are_several => match self.fitting {
                Some(fitting) => Denoted::Entity(fitting),
                None => Denoted::Ambiguous(first),
            },
            Some(first) => Denoted::Entity(first),
        }
    }
}
