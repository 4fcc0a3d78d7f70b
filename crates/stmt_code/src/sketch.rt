//! What statements make as it is put together, before limits of images are tested where it is added to the code of a program (docs/CODEGEN.md).
ghost use Rattle.std.specs.Prelude.{◌≡◌, ◌++◌, ◌∷◌, [], length, IfOk, OnOk};
ghost use Rattle.ada_tree.specs.ExpressionTree.{expr_tree};
ghost use Rattle.expr_code.specs.ExpressionCode.{expr_code};
ghost use Rattle.expr_code.specs.Pieces.{narrow, one};
ghost use Rattle.image.specs.declared.instruction.Operation.TheVariants as op;
ghost use Rattle.stmt_code.specs.Drafting.{Sketched, adds, all_led, coded, end_of, handles, led, marks};

use crate::draft::Labels;
use crate::tables::PlaceRow;
use ada_tree::Expr;
use expr_code::Visible;
use expr_code::fragment::Fragment;
use handlers::Row;
use image::Operation;
use std::alloc::AllocError;
use std::marker::Model;

/// Instructions with the rows of their handlers and of the places of their statements and declarations, the labels of all lines up to them, and the most words
/// of the frame that are taken at once.
#[derive(Drop)]
pub struct Sketch {
    pub fragment: Fragment,
    pub rows: Vec<Row>,
    pub places: Vec<PlaceRow>,
    pub labels: Labels,
    pub most: usize,
}

// Adds rows after others.
fn append(rows: &mut Vec<Row>, more: &[Row]) -> Result<(), AllocError>
    ensures rows { OnOk result (rows.new.items ≡ rows.old.items ++ more.now) }
{
    for row in more {
        rows.push(*row)?;
    }
    Ok(())
}

impl Model for Sketch {
    ghost use Rattle.stmt_code.specs.Drafting.{Sketched};

    ghost Value = { Sketched };

    ghost view = { λ s. record {
      before = s.fragment.before;
      made = record { code = s.fragment.code; rows = s.rows.items; places = s.places.items; labels = s.labels; most = s.most };
    } };
}

impl Sketch {
    /// The place after all instructions.
    pub fn place(&self) -> Result<usize, AllocError>
        ensures place { IfOk result (λ place. place ≡ end_of self.now) }
    {
        match self
            .fragment
            .before
            .checked_add(self.fragment.instructions.len())
        {
            Some(place) => Ok(place),
            None => Err(AllocError),
        }
    }

    /// How many instructions there are.
    pub fn many(&self) -> usize
        ensures { result ≡ length self.now.made.code }
    {
        self.fragment.instructions.len()
    }

    /// The place after all instructions, as a jump to it names it.
    pub fn end(&self) -> u16
        ensures { result ≡ narrow (end_of self.now) }
    {
        self.fragment.end()
    }

    /// No places of jumps.
    pub fn no_places(&self) -> Vec<usize>
        ensures { result.items ≡ [] }
    {
        Vec::new(self.fragment.alloc)
    }

    /// No rows.
    pub fn no_rows(&self) -> Vec<Row>
        ensures { result.items ≡ [] }
    {
        Vec::new(self.fragment.alloc)
    }

    /// Adds an instruction that finds `depth` words on the operand stack.
    pub fn put(&mut self, depth: usize, operation: Operation) -> Result<(), AllocError>
        ensures made { OnOk result (self.new ≡ adds self.old (coded (one depth operation))) }
    {
        self.fragment.put(depth, operation)?;
        Ok(())
    }

    /// Adds the code of an expression above `depth` words of the operand stack.
    pub fn expression(
        &mut self,
        visible: &Visible,
        depth: usize,
        e: &Expr,
    ) -> Result<(), AllocError>
        ensures made { OnOk result (self.new ≡ adds self.old (coded (expr_code visible.now depth (expr_tree e.now)))) }
    {
        self.fragment.expression(visible, depth, e)?;
        Ok(())
    }

    /// Adds a jump where the condition on the operand stack does not hold, and returns where it is among the instructions.
    pub fn test(&mut self) -> Result<usize, AllocError>
        ensures place { IfOk result (λ place. place ≡ length self.old.made.code) }
        ensures made { OnOk result (self.new ≡ adds self.old (coded (one 1 (op.JumpIfZero 0)))) }
    {
        let place = self.fragment.instructions.len();
        self.put(1, Operation::JumpIfZero(0))?;
        Ok(place)
    }

    /// Adds a jump that waits for the end.
    pub fn wait(&mut self, waiting: &mut Vec<usize>) -> Result<(), AllocError>
        ensures waits { OnOk result (waiting.new.items ≡ waiting.old.items ++ length self.old.made.code ∷ []) }
        ensures made { OnOk result (self.new ≡ adds self.old (coded (one 0 (op.Jump 0)))) }
    {
        waiting.push(self.many())?;
        self.put(0, Operation::Jump(0))?;
        Ok(())
    }

    /// Makes a jump lead to the place after all instructions.
    pub fn lead(&mut self, place: usize, jump: Operation)
        ensures led { self.new ≡ led self.old place jump }
    {
        self.fragment.patch(place, jump);
    }

    /// Makes the jumps at these places lead to the place after all instructions.
    pub fn rejoin(&mut self, places: &[usize])
        ensures made { self.new ≡ all_led self.old places.now (narrow (end_of self.old)) }
    {
        self.fragment.rejoin(places);
    }

    /// Adds rows of handlers.
    pub fn handle(&mut self, more: &[Row]) -> Result<(), AllocError>
        ensures made { OnOk result (self.new ≡ adds self.old (handles more.now)) }
    {
        append(&mut self.rows, more)?;
        Ok(())
    }

    /// Adds the row of a statement or a declaration at this place of the source, whose code begins at `first` and ends here.
    pub fn mark(&mut self, first: usize, place: u32) -> Result<(), AllocError>
        ensures made { OnOk result (self.new ≡ marks self.old first place) }
    {
        let behind = self.place()?;
        self.places.push(PlaceRow {
            first,
            behind,
            place,
        })?;
        Ok(())
    }
}
