//! Where the words of formal parameters are.
ghost use Rattle.std.specs.Prelude.{◌≡◌, ◌≤◌, ◌+◌, ◌++◌, false, map, max, IfErr, IfOk, OnOk};
ghost use Rattle.std.specs.List.{All};
ghost use Rattle.base.specs.declared.limits.TheConstants.{FRAME_WORDS};
ghost use Rattle.ada_tree.specs.Size.{total};
ghost use Rattle.expr_code.specs.Refusing.{IsRefused};
ghost use Rattle.part_code.specs.Formals.{HasValue, no_subprogram, passed_for, slot_for, StandInTurn, StandsAt};
ghost use Rattle.part_code.specs.Needs.{are_wordless, is_wordless, out_for, placed_end};

use crate::frame_words::{FrameWords, behind};
use ada_tree::{Formal, Mode};
use expr_code::{Refusal, Slot, Visible};
use image::Region;
use std::alloc::Global;
use type_rules::subtype_of;
use types::{Scope, Subtype};

/// Where the words of a formal parameter are.
#[derive(Clone, Copy)]
pub struct PlacedFormal {
    pub mode: Mode,
    pub subtype: Subtype,
    /// The first word of its value.
    pub offset: u16,
    /// The word with the address to which its value is copied back, if it is.
    pub address: Option<u16>,
}

/// The places of all formal parameters, and how many words a call passes for them.
#[derive(Drop)]
pub struct PlacedFormals {
    pub formals: Vec<PlacedFormal>,
    pub passed: u16,
}

// The words that a call passes for a formal parameter: those of its value, where it is copied in, and the address of its target, where it is copied back.
fn passed_words(scope: &Scope, formal: &Formal) -> Result<u16, Refusal>
    requires some { is_wordless scope.now formal.now ≡ false }
    ensures passed { IfOk result (λ many. many ≡ passed_for scope.now formal.now) }
    ensures refused { IfErr result (λ why. IsRefused 0 (passed_for scope.now formal.now) why) }
{
    let Some(subtype) = subtype_of(scope, &formal.subtype) else {
        unreachable!();
    };
    let many = scope.words(subtype);
    match formal.mode {
        Mode::In => behind(0, many),
        Mode::Out => Ok(1),
        Mode::InOut => behind(1, many),
    }
}

/// Takes the words that a call passes for all formal parameters.
pub fn take_passed(words: &mut FrameWords, scope: &Scope, formals: &[Formal]) -> Result<(), Refusal>
    requires most { words.old.taken ≤ words.old.most }
    requires some { are_wordless scope.now formals.now ≡ false }
    ensures taken { OnOk result (words.new.taken ≡ words.old.taken + total (passed_for scope.now) formals.now) }
    ensures most { OnOk result (words.new.taken ≤ words.new.most) }
    ensures refused { IfErr result (λ why. IsRefused 0 (words.old.taken + total (passed_for scope.now) formals.now) why) }
    ensures same { OnOk result (words.old.most ≡ words.old.taken → words.new.most ≡ words.new.taken) }
{
    for formal in formals {
        words.take(passed_words(scope, formal)?)?;
    }
    Ok(())
}

// Places a formal parameter, of whose value there are so many words: where it is passed, from a word on, or behind all others, where it is not copied in. Tells
// where the next one is passed.
fn place(
    words: &mut FrameWords,
    mode: Mode,
    subtype: Subtype,
    many: u16,
    from: u16,
) -> Result<(PlacedFormal, u16), Refusal>
    requires most { words.old.taken ≤ words.old.most }
    ensures subtype { IfOk result (λ placed. placed.0.subtype ≡ subtype) }
    ensures mode { IfOk result (λ placed. placed.0.mode ≡ mode) }
    ensures few { OnOk result (many ≤ FRAME_WORDS) }
    ensures stands { IfOk result (λ placed. StandsAt mode many from words.old.taken placed.0 placed.1 words.new.taken) }
    ensures most { OnOk result (words.new.taken ≤ words.new.most) }
    ensures refused { IfErr result (λ why. IsRefused 0 (placed_end mode many from words.old.taken) why) }
    ensures same { OnOk result (words.old.most ≡ words.old.taken → words.new.most ≡ words.new.taken) }
{
    let address = match mode {
        Mode::In => None,
        Mode::Out | Mode::InOut => Some(from),
    };
    let (offset, next) = match mode {
        Mode::In => (from, behind(from, many)?),
        Mode::Out => (words.take(many)?, behind(from, 1)?),
        Mode::InOut => {
            let offset = behind(from, 1)?;
            (offset, behind(offset, many)?)
        }
    };
    let placed = PlacedFormal {
        mode,
        subtype,
        offset,
        address,
    };
    Ok((placed, next))
}

/// Places all formal parameters, those that are not copied in after the words that are taken.
pub fn place_all(
    words: &mut FrameWords,
    scope: &Scope,
    formals: &[Formal],
    alloc: Global,
) -> Result<PlacedFormals, Refusal>
    requires most { words.old.taken ≤ words.old.most }
    requires some { are_wordless scope.now formals.now ≡ false }
    ensures stand { IfOk result (λ placed. StandInTurn scope.now 0 words.old.taken formals.now placed.formals.items placed.passed words.new.taken) }
    ensures some { IfOk result (λ placed. All (HasValue scope.now) placed.formals.items) }
    ensures most { OnOk result (words.new.taken ≤ words.new.most) }
    ensures refused { IfErr result (λ why. IsRefused 0 (max (total (passed_for scope.now) formals.now)
        (words.old.taken + total (out_for scope.now) formals.now)) why) }
    ensures same { OnOk result (words.old.most ≡ words.old.taken → words.new.most ≡ words.new.taken) }
{
    let mut placed = Vec::new(alloc);
    let mut from: u16 = 0;
    for formal in formals {
        let Some(subtype) = subtype_of(scope, &formal.subtype) else {
            unreachable!();
        };
        let many = scope.words(subtype);
        let (one, next) = place(words, formal.mode, subtype, many, from)?;
        placed.push(one)?;
        from = next;
    }
    Ok(PlacedFormals {
        formals: placed,
        passed: from,
    })
}

/// Makes the places of formal parameters visible.
pub fn show(visible: &mut Visible, placed: &[PlacedFormal]) -> Result<(), Refusal>
    ensures scope { OnOk result (visible.new.scope ≡ visible.old.scope) }
    ensures slots { OnOk result (visible.new.slots ≡ visible.old.slots ++ map slot_for placed.now) }
    ensures subprograms { OnOk result (visible.new.subprograms ≡ visible.old.subprograms ++ map no_subprogram placed.now) }
    ensures operations { OnOk result (visible.new.operations ≡ visible.old.operations) }
    ensures refused { IfErr result (λ why. IsRefused 0 0 why) }
{
    for formal in placed {
        visible.slots.push(Some(Slot {
            region: Region::Locals,
            offset: formal.offset,
        }))?;
        visible.subprograms.push(None)?;
    }
    Ok(())
}
