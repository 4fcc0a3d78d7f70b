//! What was put together, added to code as far as it keeps the limits of images (docs/FORMATS.md).
ghost use Rattle.std.specs.Prelude.{◌≡◌, [], IfErr, OnOk};
ghost use Rattle.expr_code.specs.Appending.{Appends, Misfits};
ghost use Rattle.expr_code.specs.Code.{Extends, here, IsAsBefore};

use crate::code::Code;
use crate::fragment::Fragment;
use crate::refusal::{ImageLimit, Refusal};
use base::limits::INSTRUCTIONS;
use image::Instr;

impl Code {
    /// Nothing yet, to be added after all instructions.
    pub fn fragment(&self) -> Fragment
        ensures { result ≡ record { before = here self.now; code = [] } }
    {
        Fragment::new(self.alloc, self.instructions.len())
    }

    /// Adds these instructions, which keep the limits of images, or none.
    ///
    /// # Errors
    /// Where memory was refused, or a limit would be passed. The code is as before then.
    pub fn append(&mut self, fragment: &Fragment) -> Result<(), Refusal>
        ensures appends { OnOk result (Appends self.old fragment.now.code self.new) }
        ensures refused { IfErr result (λ why. Misfits self.old fragment.now.code why) }
        ensures restored { IfErr result (λ why. IsAsBefore self.old self.new) }
    {
        let start = self.instructions.len();
        let deepest = self.deepest;
        match self.add_all(&fragment.instructions) {
            Ok(()) => Ok(()),
            Err(why) => {
                self.instructions.truncate(start);
                self.deepest = deepest;
                Err(why)
            }
        }
    }

    // Adds these instructions one by one, as far as they keep the limits; where one does not, those before it stay.
    fn add_all(&mut self, all: &[Instr]) -> Result<(), Refusal>
        ensures appends { OnOk result (Appends self.old all.now self.new) }
        ensures refused { IfErr result (λ why. Misfits self.old all.now why) }
        ensures kept { IfErr result (λ why. Extends self.old self.new) }
    {
        if INSTRUCTIONS < self.instructions.len() {
            return Err(Refusal::Limit(ImageLimit::Instructions));
        }
        for instruction in all {
            if !instruction.operation.has_operands() {
                return Err(Refusal::Limit(ImageLimit::Block));
            }
            self.emit(instruction.depth, instruction.operation)?;
        }
        Ok(())
    }
}
