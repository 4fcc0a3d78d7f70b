//! The code of an expression as it is put together, before it is added to that of its subprogram.
ghost use Rattle.std.specs.Prelude.{◌≡◌, ◌+◌, [], IfOk, OnOk};
ghost use Rattle.expr_code.specs.Pieces.{adds, end_of, narrow, one, patched};

use image::{Instr, Operation};
use std::alloc::{AllocError, Global};
use std::marker::Model;

/// One word more on the operand stack.
///
/// # Errors
/// Where no machine has so much memory.
pub fn above(depth: usize) -> Result<usize, AllocError>
    ensures more { IfOk result (λ more. more ≡ depth + 1) }
{
    raised(depth, 1)
}

/// So many words more on the operand stack.
///
/// # Errors
/// Where no machine has so much memory.
pub fn raised(depth: usize, words: u16) -> Result<usize, AllocError>
    ensures more { IfOk result (λ more. more ≡ depth + words) }
{
    match depth.checked_add(usize::from(words)) {
        Some(more) => Ok(more),
        None => Err(AllocError),
    }
}

/// A number as an operand of an instruction.
#[tactic(auto, unfolding(crate::specs::Pieces::narrow))]
fn narrow(number: usize) -> u16
    ensures { result ≡ narrow number }
{
    if number < 65_535 {
        number as u16
    } else {
        65_535
    }
}

/// Instructions that are to be added after so many others.
#[derive(Drop)]
pub struct Fragment {
    pub alloc: Global,
    pub before: usize,
    pub instructions: Vec<Instr>,
}

impl Model for Fragment {
    ghost use Rattle.expr_code.specs.Pieces.{Made};

    ghost Value = { Made };

    ghost view = { λ f. record { before = f.before; code = f.instructions.items } };
}

impl Fragment {
    /// None, after so many others.
    pub fn new(alloc: Global, before: usize) -> Fragment
        ensures { result ≡ record { before = before; code = [] } }
    {
        Fragment {
            alloc,
            before,
            instructions: Vec::new(alloc),
        }
    }

    /// Adds an instruction that finds `depth` words on the operand stack.
    #[tactic(auto, unfolding(crate::specs::Pieces::adds, crate::specs::Pieces::one))]
    pub fn put(&mut self, depth: usize, operation: Operation) -> Result<(), AllocError>
        ensures made { OnOk result (self.new ≡ adds self.old (one depth operation)) }
    {
        let depth = narrow(depth);
        self.instructions.push(Instr { depth, operation })?;
        Ok(())
    }

    /// The place after all instructions, as a jump to it names it.
    pub fn end(&self) -> u16
        ensures { result ≡ narrow (end_of self.now) }
    {
        narrow(self.before.saturating_add(self.instructions.len()))
    }

    /// Puts another operation in the place of one of these instructions.
    pub fn patch(&mut self, place: usize, operation: Operation)
        ensures made { self.new ≡ patched self.old place operation }
    {
        if place < self.instructions.len() {
            let depth = self.instructions[place].depth;
            self.instructions[place] = Instr { depth, operation };
        }
    }
}
