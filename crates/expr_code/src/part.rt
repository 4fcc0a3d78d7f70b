//! The code of parts of objects (RM 4.1.1, 4.1.3): the address of the object, what goes from there to the part's, and a load of the words there.
ghost use Rattle.std.specs.Prelude.{◌≡◌, ◌+◌, ◌+ℤ◌, ◌-ℤ◌, ◌*ℤ◌, nat_lt, pos, None, Some, IfOk, OnOk};
ghost use Rattle.ada_tree.specs.ExpressionTree.{Arguments, argument_trees, Component, selector_tree, selector_trees};
ghost use Rattle.image.specs.declared.instruction.Operation.TheVariants.{Add};
ghost use Rattle.base.specs.declared.limits.TheConstants.{WORDS};
ghost use Rattle.types.specs.Layouts.{capped, words_of};
ghost use Rattle.expr_code.specs.ExpressionCode.{address_code, at_offset_code, at_offset_shift, by_words_code, if_near, less_first_code, less_first_shift, misfit_code, parts_of, part_behind, path_code, path_part, selector_code, stored_code, stored_words, whole_of};
ghost use Rattle.expr_code.specs.Locating.{IsNear};
ghost use Rattle.expr_code.specs.Pieces.{adds, one, ◌▸◌};

use crate::fragment::{Fragment, above};
use crate::name::loaded_at;
use crate::visible::{Slot, Visible};
use ada_tree::laws::arguments_by_parts;
use ada_tree::{Argument, Identifier, Selector};
use base::limits::WORDS;
use image::{Operation, Region};
use std::alloc::AllocError;
use types::{Subtype, TypeForm};

/// How near to 0 a number is that is added to an address when compiling.
pub const NEAR: u64 = 1_099_511_627_776;

/// A part of an object: its subtype, and what is known of its address, to be added where the object's is pushed.
#[derive(Clone, Copy, PartialEq, Eq, Debug)]
pub struct PartAt {
    pub subtype: Subtype,
    pub shift: i64,
}

// What is told with the offset of a component, if it stays near to 0.
fn with_offset(shift: i64, offset: u16) -> Option<i64>
    requires near { IsNear shift }
    ensures { result ≡ if_near (shift +ℤ pos offset) (Some (shift +ℤ pos offset)) None }
{
    match shift.checked_add(i64::from(offset)) {
        Some(next) if next.unsigned_abs() <= NEAR => Some(next),
        _ => None,
    }
}

// The number to add to an address, less the words before the first component of an array, which has this index, where each component has so many words.
fn without_front(shift: i64, first: i64, words: u16) -> Option<i64>
    requires near { IsNear shift }
    ensures { result ≡ if_near (shift -ℤ first *ℤ pos words) (Some (shift -ℤ first *ℤ pos words)) None }
{
    match first.checked_mul(i64::from(words)) {
        Some(front) => match shift.checked_sub(front) {
            Some(next) if next.unsigned_abs() <= NEAR => Some(next),
            _ => None,
        },
        None => None,
    }
}

// The address of an object, with what is told of that of its part.
fn with_shift(offset: u16, shift: i64) -> i64
    requires near { IsNear shift }
    ensures { result ≡ pos offset +ℤ shift }
{
    i64::from(offset) + shift
}

impl Fragment {
    /// Adds the code of an object that may have a place, or of the part of it that these selectors lead to, and returns how many words it takes.
    #[cycle(expression)]
    #[tactic(auto, using(crate::proofs::Pieces::adds_then, crate::proofs::Pieces::adds_nothing))]
    pub(crate) fn stored(
        &mut self,
        visible: &Visible,
        depth: usize,
        place: Option<Slot>,
        subtype: Subtype,
        selectors: &[Selector],
    ) -> Result<u16, AllocError>
        ensures words { IfOk result (λ words. words ≡ stored_words place (capped (words_of visible.now.scope
            (path_part visible.now.scope (whole_of subtype) (selector_trees selectors.now)).subtype))) }
        ensures made { OnOk result (self.new ≡ adds self.old (stored_code visible.now depth (selector_trees selectors.now)
            (parts_of visible.now depth (selector_trees selectors.now)) subtype place)) }
    {
        let Some(slot) = place else {
            return Ok(1);
        };
        if selectors.is_empty() {
            let words = visible.scope.words(subtype);
            self.object(depth, slot, words)?;
            return Ok(words);
        }
        let last = self.address(visible, depth, slot, subtype, selectors)?;
        let words = visible.scope.words(last.subtype);
        self.put(above(depth)?, loaded_at(slot.region, words))?;
        Ok(words)
    }

    /// Adds the code of the address of an object that has this place and subtype, or of the part of it that these selectors lead to, and returns the part.
    /// What is known of the part's address is added to that of the object when compiling.
    #[cycle(expression)]
    pub fn address(
        &mut self,
        visible: &Visible,
        depth: usize,
        slot: Slot,
        subtype: Subtype,
        selectors: &[Selector],
    ) -> Result<PartAt, AllocError>
        ensures part { IfOk result (λ part. part ≡ path_part visible.now.scope (whole_of subtype) (selector_trees selectors.now)) }
        ensures made { OnOk result (self.new ≡ adds self.old (address_code depth slot.offset
            (path_part visible.now.scope (whole_of subtype) (selector_trees selectors.now))
            (path_code visible.now (depth + 1) (whole_of subtype) (selector_trees selectors.now)))) }
    {
        let place = self.instructions.len();
        self.put(depth, Operation::Push(i64::from(slot.offset)))?;
        let part = self.path(visible, above(depth)?, subtype, selectors)?;
        self.patch(place, Operation::Push(with_shift(slot.offset, part.shift)));
        Ok(part)
    }

    // Adds what goes from the address on top, which has `depth` words, to that of the part that these selectors lead to, and returns the part.
    #[cycle(expression)]
    fn path(
        &mut self,
        visible: &Visible,
        depth: usize,
        subtype: Subtype,
        selectors: &[Selector],
    ) -> Result<PartAt, AllocError>
        ensures near { IfOk result (λ part. IsNear part.shift) }
        ensures part { IfOk result (λ part. part ≡ path_part visible.now.scope (whole_of subtype) (selector_trees selectors.now)) }
        ensures made { OnOk result (self.new ≡ adds self.old (path_code visible.now depth (whole_of subtype) (selector_trees selectors.now))) }
    {
        let mut part = PartAt { subtype, shift: 0 };
        for selector in selectors {
            part = self.select(visible, depth, part, selector)?;
        }
        Ok(part)
    }

    // Adds what one selector makes of the address of a part.
    #[cycle(expression)]
    #[tactic(auto, using(crate::proofs::Pieces::adds_nothing))]
    fn select(
        &mut self,
        visible: &Visible,
        depth: usize,
        part: PartAt,
        selector: &Selector,
    ) -> Result<PartAt, AllocError>
        requires near { IsNear part.shift }
        ensures near { IfOk result (λ next. IsNear next.shift) }
        ensures part { IfOk result (λ next. next ≡ part_behind visible.now.scope part (selector_tree selector.now)) }
        ensures made { OnOk result (self.new ≡ adds self.old (selector_code visible.now depth part (selector_tree selector.now))) }
    {
        arguments_by_parts();
        match selector {
            Selector::Component(name) => self.component(visible, depth, part, name),
            Selector::Arguments(arguments) => self.element(visible, depth, part, arguments),
            Selector::Attribute(_) => Ok(part),
        }
    }

    // Adds an instruction that no image may have, where a number of words is more than one may have.
    #[tactic(auto, using(crate::proofs::Pieces::adds_nothing))]
    fn misfit(&mut self, depth: usize, words: u16) -> Result<(), AllocError>
        ensures made { OnOk result (self.new ≡ adds self.old (misfit_code (nat_lt WORDS words) depth)) }
    {
        if WORDS < usize::from(words) {
            let region = Region::Locals;
            return self.put(depth, Operation::LoadBlock { region, words: 0 });
        }
        Ok(())
    }

    // Of a component of a record: its offset, added when compiling, or by an instruction.
    #[tactic(auto, using(crate::proofs::Pieces::adds_nothing, crate::proofs::Pieces::adds_then))]
    fn component(
        &mut self,
        visible: &Visible,
        depth: usize,
        part: PartAt,
        name: &Identifier,
    ) -> Result<PartAt, AllocError>
        requires near { IsNear part.shift }
        ensures near { IfOk result (λ next. IsNear next.shift) }
        ensures part { IfOk result (λ next. next ≡ part_behind visible.now.scope part (Component name.now)) }
        ensures made { OnOk result (self.new ≡ adds self.old (selector_code visible.now depth part (Component name.now))) }
    {
        match visible.field(part.subtype, &name.name) {
            Some((subtype, offset)) => {
                self.misfit(depth, offset)?;
                let shift = self.at_offset(depth, offset, part.shift)?;
                Ok(PartAt { subtype, shift })
            }
            None => Ok(part),
        }
    }

    // Adds the offset of a component to the address on top, or to what is added when compiling.
    #[tactic(auto, using(crate::proofs::Pieces::adds_then, crate::proofs::Pieces::adds_nothing))]
    fn at_offset(&mut self, depth: usize, offset: u16, shift: i64) -> Result<i64, AllocError>
        requires near { IsNear shift }
        ensures near { IfOk result (λ next. IsNear next) }
        ensures shift { IfOk result (λ next. next ≡ at_offset_shift shift offset) }
        ensures made { OnOk result (self.new ≡ adds self.old (at_offset_code depth shift offset)) }
    {
        if let Some(next) = with_offset(shift, offset) {
            return Ok(next);
        }
        self.put(depth, Operation::Push(i64::from(offset)))?;
        self.put(above(depth)?, Operation::Add)?;
        Ok(shift)
    }

    // Of a component of an array: the index, checked, less the first one, by the words of a component, added.
    #[cycle(expression)]
    #[tactic(auto, using(crate::proofs::Pieces::adds_then, crate::proofs::Pieces::adds_nothing))]
    fn element(
        &mut self,
        visible: &Visible,
        depth: usize,
        part: PartAt,
        arguments: &[Argument],
    ) -> Result<PartAt, AllocError>
        requires near { IsNear part.shift }
        ensures near { IfOk result (λ next. IsNear next.shift) }
        ensures part { IfOk result (λ next. next ≡ part_behind visible.now.scope part (Arguments (argument_trees arguments.now))) }
        ensures made { OnOk result (self.new ≡ adds self.old (selector_code visible.now depth part (Arguments (argument_trees arguments.now)))) }
    {
        match visible.scope.form(part.subtype.type_number) {
            Some(TypeForm::Array(index, many, last)) => {
                let words = visible.scope.words(*last);
                self.misfit(depth, (*many).max(words))?;
                self.first_argument(visible, depth, Some(*index), arguments)?;
                let shift = self.offset(above(depth)?, index.first, words, part.shift)?;
                Ok(PartAt {
                    subtype: *last,
                    shift,
                })
            }
            _ => Ok(part),
        }
    }

    // Adds what makes of an address and a checked index above it the address of the component, given the first index and the words of a component.
    #[tactic(auto, using(crate::proofs::Pieces::adds_then))]
    fn offset(
        &mut self,
        depth: usize,
        first: i64,
        words: u16,
        shift: i64,
    ) -> Result<i64, AllocError>
        requires near { IsNear shift }
        ensures near { IfOk result (λ next. IsNear next) }
        ensures shift { IfOk result (λ next. next ≡ less_first_shift first words shift) }
        ensures made { OnOk result (self.new ≡ adds self.old (less_first_code depth first words shift ▸ by_words_code depth words ▸ one depth Add)) }
    {
        let next = self.less_first(depth, first, words, shift)?;
        self.by_words(depth, words)?;
        self.put(depth, Operation::Add)?;
        Ok(next)
    }

    // Subtracts the first index from the one on top, or the words before the first component from what is added when compiling.
    #[tactic(auto, using(crate::proofs::Pieces::adds_then, crate::proofs::Pieces::adds_nothing))]
    fn less_first(
        &mut self,
        depth: usize,
        first: i64,
        words: u16,
        shift: i64,
    ) -> Result<i64, AllocError>
        requires near { IsNear shift }
        ensures near { IfOk result (λ next. IsNear next) }
        ensures shift { IfOk result (λ next. next ≡ less_first_shift first words shift) }
        ensures made { OnOk result (self.new ≡ adds self.old (less_first_code depth first words shift)) }
    {
        if let Some(next) = without_front(shift, first, words) {
            return Ok(next);
        }
        self.put(depth, Operation::Push(first))?;
        self.put(above(depth)?, Operation::Subtract)?;
        Ok(shift)
    }

    // Multiplies the number on top by the words of a component: nothing is added where it has one.
    #[tactic(auto, using(crate::proofs::Pieces::adds_then, crate::proofs::Pieces::adds_nothing))]
    fn by_words(&mut self, depth: usize, words: u16) -> Result<(), AllocError>
        ensures made { OnOk result (self.new ≡ adds self.old (by_words_code depth words)) }
    {
        if words == 1 {
            return Ok(());
        }
        self.put(depth, Operation::Push(i64::from(words)))?;
        self.put(above(depth)?, Operation::Multiply)
    }
}
