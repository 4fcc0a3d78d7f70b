//! The instructions of a program as they are put together.
ghost use Rattle.std.specs.Prelude.{◌≡◌, ◌+◌, ◌<◌, ◌≤◌, [], max, IfErr, OnOk};
ghost use Rattle.base.specs.declared.limits.TheConstants.{FRAME_WORDS, INSTRUCTIONS};
ghost use Rattle.expr_code.specs.Code.{Adds, Extends, here};
ghost use Rattle.expr_code.specs.Refusing.{IsRefused};

use crate::refusal::{ImageLimit, Refusal};
use base::limits::{FRAME_WORDS, INSTRUCTIONS};
use image::{Instr, Operation};
use std::alloc::Global;

/// Instructions that are put together one by one.
#[derive(Drop)]
pub struct Code {
    pub alloc: Global,
    pub instructions: Vec<Instr>,
    /// The greatest depth of the operand stack in the subprogram that is being put together, in words.
    pub deepest: u16,
}

impl Code {
    /// No code.
    pub fn new(alloc: Global) -> Code
        ensures instructions { result.instructions.items ≡ [] }
        ensures deepest { result.deepest ≡ 0 }
    {
        Code {
            alloc,
            instructions: Vec::new(alloc),
            deepest: 0,
        }
    }

    /// Adds an instruction that finds `depth` words on the operand stack.
    pub(crate) fn emit(&mut self, depth: u16, operation: Operation) -> Result<(), Refusal>
        ensures adds { OnOk result (Adds self.old depth operation self.new) }
        ensures few { OnOk result (here self.new ≤ INSTRUCTIONS) }
        ensures shallow { OnOk result (depth ≤ FRAME_WORDS) }
        ensures deepest { OnOk result (self.new.deepest ≡ max self.old.deepest depth) }
        ensures refused { IfErr result (λ why. IsRefused (here self.old + 1) depth why) }
        ensures kept { IfErr result (λ why. Extends self.old self.new) }
    {
        if FRAME_WORDS < usize::from(depth) {
            return Err(Refusal::Limit(ImageLimit::Frame));
        }
        if INSTRUCTIONS <= self.instructions.len() {
            return Err(Refusal::Limit(ImageLimit::Instructions));
        }
        self.instructions.push(Instr { depth, operation })?;
        self.deepest = self.deepest.max(depth);
        Ok(())
    }
}
