//! The code of if expressions (RM 4.5.7): each condition, a jump over its value where it does not hold, the value, a jump to the end.
ghost use Rattle.std.specs.Prelude.{◌≡◌, ◌+◌, ◌++◌, ◌∷◌, [], length, IfOk, OnOk};
ghost use Rattle.image.specs.declared.instruction.Operation.TheVariants.{Jump, JumpIfZero};
ghost use Rattle.ada_tree.specs.ExpressionTree.{elsif_value_trees};
ghost use Rattle.expr_code.specs.ExpressionCode.{elsifs_code};
ghost use Rattle.expr_code.specs.Pieces.{Opens, adds, end_of, narrow, one, patched, rejoined};

use crate::fragment::{Fragment, above, raised};
use crate::visible::Visible;
use ada_tree::ElsifValue;
use image::Operation;
use std::alloc::AllocError;

impl Fragment {
    /// Adds a jump where the condition above `depth` words does not hold, and returns its place; where it leads is not known yet.
    pub fn test(&mut self, depth: usize) -> Result<usize, AllocError>
        ensures place { IfOk result (λ place. place ≡ length self.old.code) }
        ensures made { OnOk result (self.new ≡ adds self.old (one (depth + 1) (JumpIfZero 0))) }
    {
        let place = self.instructions.len();
        self.put(above(depth)?, Operation::JumpIfZero(0))?;
        Ok(place)
    }

    /// Adds a jump after a value, which finds `height` words on the operand stack with those of the value, and whose target waits for the end; and makes the
    /// test lead to the place after it.
    pub fn close(
        &mut self,
        height: usize,
        test: usize,
        waiting: &mut Vec<usize>,
    ) -> Result<(), AllocError>
        ensures waits { OnOk result (waiting.new.items ≡ waiting.old.items ++ length self.old.code ∷ []) }
        ensures made { OnOk result (self.new ≡ patched (adds self.old (one height (Jump 0))) test
            (JumpIfZero (narrow (end_of (adds self.old (one height (Jump 0))))))) }
    {
        waiting.push(self.instructions.len())?;
        self.put(height, Operation::Jump(0))?;
        let next = self.end();
        self.patch(test, Operation::JumpIfZero(next));
        Ok(())
    }

    /// Adds the code of all parts after the first one, whose values take so many words.
    #[cycle(expression)]
    pub(crate) fn elsifs(
        &mut self,
        visible: &Visible,
        depth: usize,
        width: u16,
        elsifs: &[ElsifValue],
        waiting: &mut Vec<usize>,
    ) -> Result<(), AllocError>
        ensures opens { OnOk result (Opens self.old waiting.old.items (elsifs_code visible.now depth width (elsif_value_trees elsifs.now))
            self.new waiting.new.items) }
    {
        for elsif in elsifs {
            self.expression(visible, depth, &elsif.condition)?;
            let test = self.test(depth)?;
            self.expression(visible, depth, &elsif.value)?;
            self.close(raised(depth, width)?, test, waiting)?;
        }
        Ok(())
    }

    /// Makes the jumps at these places lead to the end of the code.
    pub fn rejoin(&mut self, places: &[usize])
        ensures made { self.new ≡ rejoined self.old places.now (narrow (end_of self.old)) }
    {
        let end = self.end();
        for place in places {
            self.patch(*place, Operation::Jump(end));
        }
    }
}
