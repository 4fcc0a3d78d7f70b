//! What stores words (RM 5.2).
ghost use Rattle.std.specs.Prelude.{◌≡◌};
ghost use Rattle.part_code.specs.Emitting.{store_operation, stored_at};

use expr_code::Slot;
use image::{Operation, Region};

/// What stores a word there.
pub fn store_operation(slot: Slot) -> Operation
    ensures { result ≡ store_operation slot }
{
    match slot.region {
        Region::Locals => Operation::StoreLocal(slot.offset),
        Region::Plain => Operation::StorePlain(slot.offset),
        Region::Object => Operation::StoreObject(slot.offset),
    }
}

/// What stores so many words of a value in a region, at the address below them on the operand stack.
pub fn stored_at(region: Region, words: u16) -> Operation
    ensures { result ≡ stored_at region words }
{
    if words == 1 {
        Operation::StoreIndexed(region)
    } else {
        Operation::StoreBlock { region, words }
    }
}
