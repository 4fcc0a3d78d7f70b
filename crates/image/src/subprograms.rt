//! Subprograms.
ghost use Rattle.std.specs.Prelude.{◌≡◌, IfOk};
ghost use Rattle.image.specs.Sections.{ends_of};

use std::alloc::{AllocError, Global};

/// What a subprogram is, and the object that it belongs to.
#[derive(Clone, Copy, PartialEq, Eq, Debug)]
pub enum Kind {
    /// A procedure or function outside protected objects, or the body of a function there.
    Plain,
    /// A procedure of an object.
    ProtectedProcedure(u16),
    /// A function of an object.
    ProtectedFunction(u16),
    /// The body of an object's entry.
    EntryBody(u16),
    /// The body of a task, or main.
    TaskBody,
}

/// A subprogram. Its first instruction is where the subprogram before it ends.
#[derive(Clone, Copy, PartialEq, Eq, Debug)]
pub struct Subprogram {
    pub kind: Kind,
    /// The place after its last instruction.
    pub end_: u16,
    /// How many words a call takes from the caller's operand stack.
    pub parameters: u16,
    /// How many words a return gives to the caller's operand stack.
    pub results: u16,
    /// The words of its frame below the operand stack, the parameters first.
    pub locals: u16,
    /// The greatest depth of its operand stack.
    pub stack: u16,
}

/// The place after the last instruction of each subprogram, in their order.
///
/// # Errors
/// Where memory was refused.
pub fn subprogram_ends(alloc: Global, subprograms: &[Subprogram]) -> Result<Vec<u16>, AllocError>
    ensures { IfOk result (λ ends. ends.items ≡ ends_of subprograms.now) }
{
    let mut ends = Vec::new(alloc);
    for subprogram in subprograms {
        ends.push(subprogram.end_)?;
    }
    Ok(ends)
}
