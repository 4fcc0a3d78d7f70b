//! The code of calls of functions of the language: those of Ada.Real_Time (RM D.8), and Read of Control_IO.
ghost use Rattle.std.specs.Prelude.{◌≡◌, OnOk};
ghost use Rattle.ada_tree.specs.ExpressionTree.{selector_trees};
ghost use Rattle.expr_code.specs.ExpressionCode.{argument_code, predefined_code};
ghost use Rattle.expr_code.specs.Pieces.{adds};

use crate::fragment::{Fragment, above};
use crate::visible::Visible;
use ada_tree::Selector;
use image::Operation;
use std::alloc::AllocError;
use types::{PredefinedOperation, Subtype};

impl Fragment {
    /// Adds the code of a call of this function of the language: its actual parameter as it is, as milliseconds, or as a channel, which the instruction checks.
    #[cycle(expression)]
    #[tactic(auto, using(crate::proofs::Pieces::adds_then))]
    pub(crate) fn predefined(
        &mut self,
        visible: &Visible,
        depth: usize,
        operation: PredefinedOperation,
        selectors: &[Selector],
    ) -> Result<(), AllocError>
        ensures made { OnOk result (self.new ≡ adds self.old (predefined_code depth operation
            (λ height check. argument_code visible.now height check (selector_trees selectors.now)))) }
    {
        match operation {
            PredefinedOperation::Clock => self.put(depth, Operation::Clock),
            PredefinedOperation::Milliseconds => {
                self.put(depth, Operation::Push(1000))?;
                let one = above(depth)?;
                self.argument(visible, one, Some(Subtype::INTEGER), selectors)?;
                self.put(above(one)?, Operation::Multiply)
            }
            PredefinedOperation::Microseconds => {
                self.argument(visible, depth, Some(Subtype::INTEGER), selectors)
            }
            PredefinedOperation::Read => {
                self.argument(visible, depth, None, selectors)?;
                self.put(above(depth)?, Operation::ReadInput)
            }
        }
    }
}
