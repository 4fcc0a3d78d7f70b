//! Which rules the instructions of an image break, and at which byte (specs/Loading, "Instructions").
ghost use Rattle.std.specs.Prelude.{◌≡◌, ◌-◌, ◌<◌, ◌^◌, ◌&&◌, [], if◌then◌else◌, nat_eq, not};
ghost use Rattle.image_loading.specs.FaultOrder.{after, first_of};
ghost use Rattle.image_loading.specs.Loading.{behind_row, each, effect_faults, held_faults, instruction_faults, jump_faults, may_use_object, operand_faults, operation_faults, place_faults};
ghost use Rattle.image.specs.Rules.{has_effect, is_return};

use crate::fault_order::{after, rule, sooner};
use crate::raw_sections::RawInstruction;
use base::faults::{DEPTHS_DISAGREE, JUMP_OUTSIDE, NAMED_THING_MISSING, OPERAND_OUT_OF_RANGE};
use image::{Draft, ImageFault, Instr, Operation, Parts, Region, Subprogram};
use image_format::{address_of, constant_of};

// Whether a word of the object is used only where that is allowed.
fn may_use_object(s: &Subprogram, operation: &Operation) -> bool
    ensures { result ≡ may_use_object s.now operation.now }
{
    match operation {
        Operation::LoadObject(_) => s.has_region(Region::Object),
        Operation::StoreObject(_) => s.kind.writes_object(),
        _ => true,
    }
}

// The opcode and the operands by themselves.
#[tactic(auto, using(crate::proofs::FirstFault::first_append))]
fn operand_fault(byte: u32, x: &RawInstruction, operation: Option<Operation>) -> Option<ImageFault>
    ensures { result ≡ first_of (operand_faults byte x.now operation) }
{
    let Some(operation) = operation else {
        return rule(OPERAND_OUT_OF_RANGE, byte, true);
    };
    let address = address_of(&operation) == x.address;
    let constant = constant_of(&operation) == x.constant && operation.has_operands();
    sooner(
        rule(OPERAND_OUT_OF_RANGE, after(byte, 3), !address),
        rule(OPERAND_OUT_OF_RANGE, after(byte, 5), !constant),
    )
}

fn instruction_fault(_place: usize, byte: u32, x: &RawInstruction) -> Option<ImageFault>
    ensures { result ≡ first_of (instruction_faults _place byte x.now) }
{
    operand_fault(byte, x, x.operation())
}

/// The first fault of the opcodes and operands by themselves.
pub(crate) fn operands_fault(start: u32, instructions: &[RawInstruction]) -> Option<ImageFault>
    ensures { result ≡ first_of (each (behind_row 13) instruction_faults 0 start instructions.now) }
{
    let mut fault = None;
    let mut byte = start;
    for (place, x) in instructions.iter().enumerate() {
        fault = sooner(fault, instruction_fault(place, byte, x));
        byte = after(byte, 13);
    }
    fault
}

// The depth at a jump's target, at the one of the two that stands later.
fn jump_fault(
    parts: &Parts,
    code: u32,
    place: usize,
    byte: u32,
    depth: usize,
    target: Option<u16>,
) -> Option<ImageFault>
    ensures { result ≡ first_of (jump_faults parts.now code place byte depth target) }
{
    let target = usize::from(target?);
    let later = if place < target {
        after(code, 13 * target + 1)
    } else {
        after(byte, 1)
    };
    rule(DEPTHS_DISAGREE, later, !parts.has_depth(target, depth))
}

// What the operation takes and leaves.
#[tactic(auto, using(crate::proofs::FirstFault::first_append))]
fn effect_fault(
    parts: &Parts,
    code: u32,
    place: usize,
    byte: u32,
    x: &Instr,
    s: &Subprogram,
) -> Option<ImageFault>
    requires { place < 2 ^ 64 - 1 }
    ensures { result ≡ first_of (effect_faults parts.now code place byte x.now s.now) }
{
    let depth = usize::from(x.depth);
    let taken = parts.taken_by(s.results, &x.operation);
    if depth < taken {
        return rule(DEPTHS_DISAGREE, after(byte, 1), true);
    }
    let left = depth - taken + parts.given_by(&x.operation);
    let follows = x.operation.goes_on() && !parts.has_depth(place + 1, left);
    sooner(
        rule(DEPTHS_DISAGREE, after(byte, 1), left > usize::from(s.stack)),
        sooner(
            rule(DEPTHS_DISAGREE, after(byte, 14), follows),
            jump_fault(parts, code, place, byte, left, x.operation.jump_target()),
        ),
    )
}

// The operand that names something, or the opcode where a word of the object may not be used.
fn named_byte(byte: u32, s: &Subprogram, operation: &Operation) -> u32
    ensures { result ≡ (if may_use_object s.now operation.now then after byte 3 else byte) }
{
    if may_use_object(s, operation) {
        after(byte, 3)
    } else {
        byte
    }
}

// What the operation takes and leaves, where that is known.
fn known_effect_fault(
    parts: &Parts,
    code: u32,
    place: usize,
    byte: u32,
    x: &Instr,
    s: &Subprogram,
) -> Option<ImageFault>
    requires { place < 2 ^ 64 - 1 }
    ensures { result ≡ first_of (if has_effect parts.now x.now.operation then effect_faults parts.now code place byte x.now s.now else []) }
{
    if parts.has_effect(&x.operation) {
        effect_fault(parts, code, place, byte, x, s)
    } else {
        None
    }
}

// Whether it is a return at another depth than that of the results.
fn returns_otherwise(x: &Instr, results: u16) -> bool
    ensures { result ≡ (is_return x.now.operation && not (nat_eq x.now.depth results)) }
{
    x.operation.is_return() && x.depth != results
}

// The operation in its subprogram.
#[tactic(auto, using(crate::proofs::FirstFault::first_append))]
fn operation_fault(
    draft: &Draft,
    code: u32,
    place: usize,
    byte: u32,
    x: &Instr,
    s: &Subprogram,
) -> Option<ImageFault>
    requires { place < 2 ^ 64 - 1 }
    ensures { result ≡ first_of (operation_faults draft.now code place byte x.now s.now) }
{
    let named = named_byte(byte, s, &x.operation);
    let names = draft.parts().names_things(s, &x.operation);
    let returns = returns_otherwise(x, s.results);
    let effect = known_effect_fault(draft.parts(), code, place, byte, x, s);
    sooner(
        rule(JUMP_OUTSIDE, after(byte, 3), !draft.jumps_within(place, x)),
        sooner(
            rule(NAMED_THING_MISSING, named, !names),
            sooner(rule(DEPTHS_DISAGREE, after(byte, 1), returns), effect),
        ),
    )
}

// The instruction in its subprogram.
#[tactic(auto, using(crate::proofs::FirstFault::first_append))]
fn held_fault(
    draft: &Draft,
    code: u32,
    place: usize,
    byte: u32,
    x: &RawInstruction,
    s: &Subprogram,
) -> Option<ImageFault>
    requires { place < 2 ^ 64 - 1 }
    ensures { result ≡ first_of (held_faults draft.now code place byte x.now s.now) }
{
    let operation = if x.operation().is_some() {
        operation_fault(draft, code, place, byte, &x.instruction(), s)
    } else {
        None
    };
    sooner(
        rule(DEPTHS_DISAGREE, after(byte, 1), x.depth > s.stack),
        operation,
    )
}

fn place_fault(
    draft: &Draft,
    code: u32,
    place: usize,
    byte: u32,
    x: &RawInstruction,
) -> Option<ImageFault>
    requires { place < 2 ^ 64 - 1 }
    ensures { result ≡ first_of (place_faults draft.now code place byte x.now) }
{
    match draft.holder(place) {
        None => None,
        Some(s) => held_fault(draft, code, place, byte, x, &s),
    }
}

/// The first fault of the instructions in their subprograms.
pub(crate) fn places_fault(
    draft: &Draft,
    code: u32,
    start: u32,
    instructions: &[RawInstruction],
) -> Option<ImageFault>
    ensures { result ≡ first_of (each (behind_row 13) (place_faults draft.now code) 0 start instructions.now) }
{
    let mut fault = None;
    let mut byte = start;
    for (place, x) in instructions.iter().enumerate() {
        fault = sooner(fault, place_fault(draft, code, place, byte, x));
        byte = after(byte, 13);
    }
    fault
}
