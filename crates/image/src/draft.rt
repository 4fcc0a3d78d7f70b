//! The sections of an image that is yet to be judged, with the subprogram of each place.
ghost use Rattle.std.specs.Prelude.{◌≡◌, slice_get, IfErr, IfOk, OnOk};
ghost use Rattle.image.specs.Faults.{memory_fault};
ghost use Rattle.image.specs.Refusals.{RefusesImage};
ghost use Rattle.image.specs.Rules.{IsWellFormed};
ghost use Rattle.image.specs.Sections.{holder, holder_number};

use crate::{Image, ImageFault, Parts, Subprogram};
use base::faults::{
    DEPTHS_DISAGREE, JUMP_OUTSIDE, NAMED_THING_MISSING, OPERAND_OUT_OF_RANGE, TABLES_DISAGREE,
};
use handlers::{Holders, build};
use std::alloc::Global;
use std::marker::Model;

/// The sections of an image, well-formed or not, in which the subprogram that holds a place is found at once. Contracts see the sections.
#[derive(Drop)]
pub struct Draft {
    pub(crate) parts: Parts,
    holders: Holders,
}

impl Model for Draft {
    ghost use Rattle.std.specs.Prelude.{◌≡◌};
    ghost use Rattle.image.specs.Sections.{Sections, ends_of};

    ghost Value = { Sections };

    ghost view = { λ d. d.parts };

    ghost invariant = { λ d. d.holders ≡ ends_of d.parts.subprograms };
}

impl Draft {
    /// The draft of these sections.
    ///
    /// # Errors
    /// 60, at byte 0, where memory was refused.
    pub fn new(alloc: Global, parts: Parts) -> Result<Draft, ImageFault>
        ensures same { IfOk result (λ draft. draft ≡ parts) }
        ensures refused { IfErr result (λ fault. fault ≡ memory_fault) }
    {
        let ends = parts.ends(alloc)?;
        match Holders::new(alloc, ends) {
            Ok(holders) => Ok(Draft { parts, holders }),
            Err(_) => Err(ImageFault::memory()),
        }
    }

    /// Its sections.
    pub fn parts(&self) -> &Parts
        ensures { result.now ≡ self.now }
    {
        &self.parts
    }

    /// The subprogram that holds a place.
    #[tactic(auto, using(crate::proofs::Holder::held_none, crate::proofs::Holder::held_some))]
    pub fn holder(&self, place: usize) -> Option<Subprogram>
        ensures { result ≡ holder self.now.subprograms place }
    {
        match self.holder_number(place) {
            None => None,
            Some(number) => self.numbered(number),
        }
    }

    // The subprogram of a number.
    fn numbered(&self, number: usize) -> Option<Subprogram>
        ensures { result ≡ slice_get self.now.subprograms number }
    {
        self.parts.subprograms.get(number).copied()
    }

    // Its number.
    pub(crate) fn holder_number(&self, place: usize) -> Option<usize>
        ensures { result ≡ holder_number self.now.subprograms place }
    {
        self.holders.number(place)
    }

    /// The image of its sections.
    ///
    /// # Errors
    /// 43 to 47, at byte 0, where that rule is broken; 60 where memory was refused.
    pub fn build(self, alloc: Global) -> Result<Image, ImageFault>
        ensures same { IfOk result (λ image. image ≡ self) }
        ensures well_formed { OnOk result (IsWellFormed self) }
        ensures refused { IfErr result (RefusesImage self) }
    {
        self.check(alloc)?;
        let Draft { parts, holders } = self;
        let rows = parts.copied_rows(alloc)?;
        match build(alloc, rows, holders.ends()) {
            Ok(table) => Ok(Image { parts, table }),
            Err(fault) => Err(ImageFault::broken(fault.number)),
        }
    }

    // Whether the rules 43 to 47 are kept; else the first that is broken, in their order.
    fn check(&self, alloc: Global) -> Result<(), ImageFault>
        ensures well_formed { OnOk result (IsWellFormed self.now) }
        ensures refused { IfErr result (RefusesImage self.now) }
    {
        if !self.parts.operands_in_range() {
            return Err(ImageFault::broken(OPERAND_OUT_OF_RANGE));
        }
        if !self.jumps_stay_inside() {
            return Err(ImageFault::broken(JUMP_OUTSIDE));
        }
        if !self.named_things_exist() {
            return Err(ImageFault::broken(NAMED_THING_MISSING));
        }
        if !self.depths_agree() {
            return Err(ImageFault::broken(DEPTHS_DISAGREE));
        }
        if !self.parts.tables_agree(alloc)? {
            return Err(ImageFault::broken(TABLES_DISAGREE));
        }
        Ok(())
    }
}
