//! The code of calls of functions (RM 6.4): the actual parameters in order, each checked against the subtype of its formal, and the call.
ghost use Rattle.std.specs.Prelude.{◌≡◌, ◌+◌, length, option_map, IfOk, OnOk};
ghost use Rattle.ada_tree.specs.ExpressionTree.{argument_tree, argument_trees, selector_trees};
ghost use Rattle.image.specs.declared.instruction.Operation.TheVariants.{Call, ProtectedCall};
ghost use Rattle.expr_code.specs.ExpressionCode.{actual_code, actuals_code, actuals_count, arguments_code, call_code, called_code, external_code, operation_behind, parts_of};
ghost use Rattle.expr_code.specs.Pieces.{adds};
ghost use Rattle.expr_code.specs.Seeing.{operation_named};

use crate::fragment::{Fragment, above};
use crate::visible::Visible;
use ada_tree::laws::arguments_by_parts;
use ada_tree::{Argument, Identifier, Selector};
use image::Operation;
use lexer::Text;
use std::alloc::AllocError;
use types::{FormalParameter, Subtype};

// The operation that follows the name of its protected object.
fn operation_behind(selectors: &[Selector]) -> Option<&Text>
    ensures { option_map (λ name. name.now) result ≡ operation_behind (selector_trees selectors.now) }
{
    for selector in selectors {
        if let Selector::Component(operation) = selector {
            return Some(&operation.name);
        }
    }
    None
}

impl Fragment {
    /// Adds the code of a call of the function with this name: one of the language, or of the program.
    #[cycle(expression)]
    #[tactic(auto, using(crate::proofs::Pieces::adds_then, crate::proofs::Pieces::adds_nothing))]
    pub(crate) fn called(
        &mut self,
        visible: &Visible,
        depth: usize,
        first: &Identifier,
        selectors: &[Selector],
    ) -> Result<(), AllocError>
        ensures made { OnOk result (self.new ≡ adds self.old (called_code visible.now depth first.now (selector_trees selectors.now)
            (parts_of visible.now depth (selector_trees selectors.now)) (operation_named visible.now.scope first.now.name))) }
    {
        match visible.predefined(&first.name) {
            Some(operation) => self.predefined(visible, depth, operation, selectors),
            None => match visible.profile(&first.name) {
                Some(profile) => {
                    let height = self.actuals(visible, depth, &profile.formals, selectors)?;
                    self.call(height, visible.subprogram(&first.name))
                }
                None => Ok(()),
            },
        }
    }

    /// Adds the code of a call through the name of a protected object (RM 9.4, 9.5).
    #[cycle(expression)]
    #[tactic(auto, using(crate::proofs::Pieces::adds_then, crate::proofs::Pieces::adds_nothing))]
    pub(crate) fn external(
        &mut self,
        visible: &Visible,
        depth: usize,
        first: &Identifier,
        selectors: &[Selector],
    ) -> Result<(), AllocError>
        ensures made { OnOk result (self.new ≡ adds self.old (external_code visible.now depth first.now (selector_trees selectors.now)
            (parts_of visible.now depth (selector_trees selectors.now)) (operation_behind (selector_trees selectors.now)))) }
    {
        let Some(operation) = operation_behind(selectors) else {
            return Ok(());
        };
        match visible.external_profile(&first.name, operation) {
            Some(profile) => {
                let height = self.actuals(visible, depth, &profile.formals, selectors)?;
                self.protected_call(height, visible.external(&first.name, operation))
            }
            None => Ok(()),
        }
    }

    // Adds the call itself, which finds `height` words on the operand stack with those of the actual parameters.
    #[tactic(auto, using(crate::proofs::Pieces::adds_nothing))]
    fn call(&mut self, height: usize, number: Option<u16>) -> Result<(), AllocError>
        ensures made { OnOk result (self.new ≡ adds self.old (call_code height Call number)) }
    {
        match number {
            Some(number) => self.put(height, Operation::Call(number)),
            None => Ok(()),
        }
    }

    #[tactic(auto, using(crate::proofs::Pieces::adds_nothing))]
    fn protected_call(&mut self, height: usize, number: Option<u16>) -> Result<(), AllocError>
        ensures made { OnOk result (self.new ≡ adds self.old (call_code height ProtectedCall number)) }
    {
        match number {
            Some(number) => self.put(height, Operation::ProtectedCall(number)),
            None => Ok(()),
        }
    }

    // Adds the code of the actual parameters after a name, and returns how many words are on the operand stack with theirs.
    #[cycle(expression)]
    #[tactic(auto, using(crate::proofs::Pieces::adds_nothing))]
    fn actuals(
        &mut self,
        visible: &Visible,
        depth: usize,
        formals: &[FormalParameter],
        selectors: &[Selector],
    ) -> Result<usize, AllocError>
        ensures high { IfOk result (λ height. height ≡ depth + actuals_count (selector_trees selectors.now)) }
        ensures made { OnOk result (self.new ≡ adds self.old (actuals_code visible.now depth formals.now (selector_trees selectors.now))) }
    {
        arguments_by_parts();
        for selector in selectors {
            match selector {
                Selector::Arguments(arguments) => {
                    return self.passed(visible, depth, formals, arguments);
                }
                Selector::Component(_) => continue,
                Selector::Attribute(_) => continue,
            }
        }
        Ok(depth)
    }

    // Adds the actual parameters that stand in parentheses. Returns the height of the operand stack.
    #[cycle(expression)]
    fn passed(
        &mut self,
        visible: &Visible,
        depth: usize,
        formals: &[FormalParameter],
        arguments: &[Argument],
    ) -> Result<usize, AllocError>
        ensures high { IfOk result (λ height. height ≡ depth + length arguments.now) }
        ensures made { OnOk result (self.new ≡ adds self.old (arguments_code visible.now depth formals.now (argument_trees arguments.now))) }
    {
        let mut height = depth;
        for (index, argument) in arguments.iter().enumerate() {
            if let Some(formal) = formals.get(index) {
                self.actual(visible, height, formal.subtype, argument)?;
            }
            height = above(height)?;
        }
        Ok(height)
    }

    // Adds the code of the actual parameter for a formal of this subtype.
    #[cycle(expression)]
    #[tactic(auto, using(crate::proofs::Pieces::adds_nothing))]
    fn actual(
        &mut self,
        visible: &Visible,
        depth: usize,
        subtype: Subtype,
        argument: &Argument,
    ) -> Result<(), AllocError>
        ensures made { OnOk result (self.new ≡ adds self.old (actual_code visible.now depth subtype (argument_tree argument.now))) }
    {
        match argument {
            Argument::Expr(e) => self.checked(visible, depth, Some(subtype), e),
            Argument::Label(..) => Ok(()),
        }
    }
}
