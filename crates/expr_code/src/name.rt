//! The code of names (RM 4.1): values that are known, objects, and what is in the parentheses after a name.
ghost use Rattle.std.specs.Prelude.{◌≡◌, IfOk, OnOk};
ghost use Rattle.ada_tree.specs.ExpressionTree.{argument_trees, selector_trees};
ghost use Rattle.types.specs.Evaluating.{fixed_value};
ghost use Rattle.types.specs.Scopes.{number_of};
ghost use Rattle.types.specs.Standings.{stands_first};
ghost use Rattle.expr_code.specs.ExpressionCode.{argument_code, expr_code, first_code, named_code, named_words, object_code, parts_of, value_words};
ghost use Rattle.expr_code.specs.NameForms.{value_named};
ghost use Rattle.expr_code.specs.Naming.{load_operation, loaded_at, scalar_word};
ghost use Rattle.expr_code.specs.Pieces.{adds};

use crate::fragment::{Fragment, above};
use crate::visible::{Slot, Visible};
use ada_tree::laws::arguments_by_parts;
use ada_tree::{Argument, Identifier, NameExpr, Selector};
use image::{Operation, Region};
use std::alloc::AllocError;
use types::{Standing, Subtype, Value};

/// The value that a name has by types and constants alone.
pub(crate) fn fixed_value(standing: Standing) -> Option<Value>
    ensures { result ≡ fixed_value standing }
{
    match standing {
        Standing::Fixed(_, value) => value,
        Standing::Given(_, value) => value,
        Standing::Plain(number) => Some(Value::Number(number)),
        _ => None,
    }
}

/// The word of a value that is known: a number, 0 for False, 1 for True.
pub fn scalar_word(value: Value) -> i64
    ensures { result ≡ scalar_word value }
{
    match value {
        Value::Number(number) => number,
        Value::Truth(truth) => i64::from(truth),
    }
}

// The instruction that loads the word of an object of one word.
fn load_operation(slot: Slot) -> Operation
    ensures { result ≡ load_operation slot.region slot.offset }
{
    match slot.region {
        Region::Locals => Operation::LoadLocal(slot.offset),
        Region::Plain => Operation::LoadPlain(slot.offset),
        Region::Object => Operation::LoadObject(slot.offset),
    }
}

/// What loads so many words from the address on top of the operand stack.
pub fn loaded_at(region: Region, words: u16) -> Operation
    ensures { result ≡ loaded_at region words }
{
    if words == 1 {
        Operation::LoadIndexed(region)
    } else {
        Operation::LoadBlock { region, words }
    }
}

impl Fragment {
    /// Adds the code of a name, and returns how many words its value takes.
    #[cycle(expression)]
    pub(crate) fn name(
        &mut self,
        visible: &Visible,
        depth: usize,
        name: &NameExpr,
    ) -> Result<u16, AllocError>
        ensures words { IfOk result (λ words. words ≡ value_words visible.now (value_named name.now)) }
        ensures made { OnOk result (self.new ≡ adds self.old (expr_code visible.now depth (value_named name.now))) }
    {
        match fixed_value(visible.scope.standing(name)) {
            Some(value) => {
                self.put(depth, Operation::Push(scalar_word(value)))?;
                Ok(1)
            }
            None => self.named(visible, depth, &name.first, &name.selectors),
        }
    }

    // Adds the code of a name whose value is not known by types and constants alone.
    #[cycle(expression)]
    fn named(
        &mut self,
        visible: &Visible,
        depth: usize,
        first: &Identifier,
        selectors: &[Selector],
    ) -> Result<u16, AllocError>
        ensures words { IfOk result (λ words. words ≡ named_words visible.now first.now (selector_trees selectors.now)
            (stands_first visible.now.scope (number_of visible.now.scope first.now.name))) }
        ensures made { OnOk result (self.new ≡ adds self.old (named_code visible.now depth first.now (selector_trees selectors.now)
            (parts_of visible.now depth (selector_trees selectors.now)) (stands_first visible.now.scope (number_of visible.now.scope first.now.name)))) }
    {
        match visible.scope.stands_first(first) {
            Standing::Part(_, subtype) => {
                self.stored(
                    visible,
                    depth,
                    visible.slot(&first.name),
                    subtype,
                    selectors,
                )
            }
            Standing::Named(subtype) => {
                self.argument(visible, depth, Some(subtype), selectors)?;
                Ok(1)
            }
            Standing::Callee(_) => {
                self.called(visible, depth, first, selectors)?;
                Ok(1)
            }
            Standing::Protected(_) => {
                self.external(visible, depth, first, selectors)?;
                Ok(1)
            }
            _ => Ok(1),
        }
    }

    /// Adds the code of an object as a whole, whose words have this place.
    #[tactic(auto, using(crate::proofs::Pieces::adds_then))]
    pub fn object(&mut self, depth: usize, slot: Slot, words: u16) -> Result<(), AllocError>
        ensures made { OnOk result (self.new ≡ adds self.old (object_code depth slot words)) }
    {
        if words == 1 {
            return self.put(depth, load_operation(slot));
        }
        self.put(depth, Operation::Push(i64::from(slot.offset)))?;
        let operation = Operation::LoadBlock {
            region: slot.region,
            words,
        };
        self.put(above(depth)?, operation)
    }

    /// Adds the code of the first value in the parentheses after a name, checked where a subtype is given.
    #[cycle(expression)]
    #[tactic(auto, using(crate::proofs::Pieces::adds_nothing))]
    pub(crate) fn argument(
        &mut self,
        visible: &Visible,
        depth: usize,
        check: Option<Subtype>,
        selectors: &[Selector],
    ) -> Result<(), AllocError>
        ensures made { OnOk result (self.new ≡ adds self.old (argument_code visible.now depth check (selector_trees selectors.now))) }
    {
        arguments_by_parts();
        for selector in selectors {
            match selector {
                Selector::Arguments(arguments) => {
                    return self.first_argument(visible, depth, check, arguments);
                }
                Selector::Component(_) => continue,
                Selector::Attribute(_) => continue,
            }
        }
        Ok(())
    }

    // Adds the first of the arguments that stand in parentheses.
    #[cycle(expression)]
    #[tactic(auto, using(crate::proofs::Pieces::adds_nothing))]
    pub(crate) fn first_argument(
        &mut self,
        visible: &Visible,
        depth: usize,
        check: Option<Subtype>,
        arguments: &[Argument],
    ) -> Result<(), AllocError>
        ensures made { OnOk result (self.new ≡ adds self.old (first_code visible.now depth check (argument_trees arguments.now))) }
    {
        for argument in arguments {
            if let Argument::Expr(e) = argument {
                return self.checked(visible, depth, check, e);
            }
        }
        Ok(())
    }
}
