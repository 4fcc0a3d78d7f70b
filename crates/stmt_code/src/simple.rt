//! The code of statements without others within, as it is put together before it is added to that of its body (RM 5.2, 5.7, 6.4, 6.5, 9.5.3, 9.6, 11.3).
ghost use Rattle.std.specs.Prelude.{◌≡◌, OnOk};
ghost use Rattle.ada_tree.specs.ExpressionTree.{argument_trees, expr_tree, name_tree, selector_trees};
ghost use Rattle.ada_tree.specs.StatementTree.{optional_tree};
ghost use Rattle.types.specs.Entities.{profile_value};
ghost use Rattle.expr_code.specs.Pieces.{adds};
ghost use Rattle.expr_code.specs.Seeing.{external_of, external_profile, subprogram_of};
ghost use Rattle.part_code.specs.EntryNames.{entry_behind};
ghost use Rattle.part_code.specs.Moving.{moves};
ghost use Rattle.part_code.specs.Passing.{actuals_behind};
ghost use Rattle.stmt_code.specs.SimpleCode.{assigned_code, assignment_code, delay_code, exit_code, invoked_code, jump_code, leaving_code, moved_code, procedure_code, raise_code, stored_code, through_code, timed_code, word_code};

use ada_tree::{Argument, Expr, Identifier, NameExpr, Selector};
use expr_code::Visible;
use expr_code::fragment::{Fragment, raised};
use image::Operation;
use lexer::Text;
use part_code::call::{actuals, copies, fitting, object_at};
use part_code::moving::move_value;
use part_code::{
    Moved, Source, actuals_of, entry_behind, is_composite, is_moved, names_composite, raised_by,
    store_operation, stored_at,
};
use std::alloc::AllocError;
use types::{FormalParameter, Profile, Standing, bounds};

// Adds the address of an object or of a part of one, the value, which is checked, and what stores its words there.
#[tactic(auto, using(expr_code::proofs::Pieces::adds_then))]
fn store(
    fragment: &mut Fragment,
    visible: &Visible,
    source: Source,
    selectors: &[Selector],
    value: &Expr,
) -> Result<(), AllocError>
    ensures made { OnOk result (fragment.new ≡ adds fragment.old (stored_code visible.now source (selector_trees selectors.now) (expr_tree value.now))) }
{
    let part = fragment.address(visible, 0, source.slot, source.whole, selectors)?;
    fitting(fragment, visible, 1, part.subtype, value)?;
    let words = visible.scope.words(part.subtype);
    let height = raised(1, words)?;
    fragment.put(height, stored_at(source.slot.region, words))
}

// Adds the value of an object of one word, which is checked, and what stores it.
#[tactic(auto, using(expr_code::proofs::Pieces::adds_then))]
fn store_word(
    fragment: &mut Fragment,
    visible: &Visible,
    source: Source,
    value: &Expr,
) -> Result<(), AllocError>
    ensures made { OnOk result (fragment.new ≡ adds fragment.old (word_code visible.now source (expr_tree value.now))) }
{
    fitting(fragment, visible, 0, source.whole, value)?;
    fragment.put(1, store_operation(source.slot))
}

// Adds the address of an array or a record, or of a part that is one, and what moves the words there.
#[tactic(auto, using(expr_code::proofs::Pieces::adds_then))]
fn move_to(
    fragment: &mut Fragment,
    visible: &Visible,
    source: Source,
    selectors: &[Selector],
    value: &Expr,
) -> Result<(), AllocError>
    ensures made { OnOk result (fragment.new ≡ adds fragment.old (moved_code visible.now source (selector_trees selectors.now) (expr_tree value.now))) }
{
    let part = fragment.address(visible, 0, source.slot, source.whole, selectors)?;
    let to = Moved {
        region: source.slot.region,
        words: visible.scope.words(part.subtype),
    };
    move_value(fragment, visible, to, value)
}

// Adds what assigns a value that isn't moved.
fn assign_value(
    fragment: &mut Fragment,
    visible: &Visible,
    source: Source,
    selectors: &[Selector],
    value: &Expr,
) -> Result<(), AllocError>
    ensures made { OnOk result (fragment.new ≡ adds fragment.old (assigned_code visible.now source (selector_trees selectors.now) (expr_tree value.now))) }
{
    match selectors {
        [] => {
            if visible.scope.words(source.whole) == 1 {
                store_word(fragment, visible, source, value)
            } else {
                store(fragment, visible, source, selectors, value)
            }
        }
        [_, ..] => store(fragment, visible, source, selectors, value),
    }
}

// Whether the words of a value are moved to an array or a record that is named.
fn moves(visible: &Visible, name: &NameExpr, value: &Expr) -> bool
    ensures { result ≡ moves visible.now (name_tree name.now) (expr_tree value.now) }
{
    let whole = match visible.scope.stands_first(&name.first) {
        Standing::Part(_, subtype) => is_composite(visible, subtype),
        _ => false,
    };
    if whole && (names_composite(visible, name) && visible.slot(&name.first.name).is_some()) {
        is_moved(visible, value)
    } else {
        false
    }
}

/// Adds the code of an assignment (RM 5.2).
#[tactic(auto, using(expr_code::proofs::Pieces::adds_nothing))]
pub fn assign(
    fragment: &mut Fragment,
    visible: &Visible,
    name: &NameExpr,
    value: &Expr,
) -> Result<(), AllocError>
    ensures made { OnOk result (fragment.new ≡ adds fragment.old (assignment_code visible.now (name_tree name.now) (expr_tree value.now))) }
{
    let slot = visible.slot(&name.first.name);
    match object_at(visible.scope.stands_first(&name.first), slot) {
        Some(source) => {
            if moves(visible, name, value) {
                move_to(fragment, visible, source, &name.selectors, value)
            } else {
                assign_value(fragment, visible, source, &name.selectors, value)
            }
        }
        None => Ok(()),
    }
}

// Adds the actual parameters of a call, the call by an instruction, and what is copied back.
#[tactic(auto, using(expr_code::proofs::Pieces::adds_then))]
fn invoke(
    fragment: &mut Fragment,
    visible: &Visible,
    formals: &[FormalParameter],
    arguments: &[Argument],
    call: Operation,
) -> Result<(), AllocError>
    ensures made { OnOk result (fragment.new ≡ adds fragment.old (invoked_code visible.now formals.now (argument_trees arguments.now) call)) }
{
    let mut destinations = Vec::new(fragment.alloc);
    let height = actuals(fragment, visible, formals, arguments, &mut destinations)?;
    fragment.put(height, call)?;
    copies(fragment, visible, &destinations)
}

/// Adds the code of a call of a procedure with this profile (RM 6.4).
#[tactic(auto, using(expr_code::proofs::Pieces::adds_nothing))]
pub fn call_procedure(
    fragment: &mut Fragment,
    visible: &Visible,
    name: &NameExpr,
    profile: &Profile,
) -> Result<(), AllocError>
    ensures made { OnOk result (fragment.new ≡ adds fragment.old (procedure_code visible.now (profile_value profile.now)
        (actuals_behind (name_tree name.now).selectors) (subprogram_of visible.now (name_tree name.now).first.name))) }
{
    let number = visible.subprogram(&name.first.name);
    match (actuals_of(name), number) {
        (Some(arguments), Some(number)) => {
            let call = Operation::Call(number);
            invoke(fragment, visible, &profile.formals, arguments, call)
        }
        _ => Ok(()),
    }
}

/// Adds the code of a call of an operation or an entry through the name of its protected object (RM 9.5.1, 9.5.3).
#[tactic(auto, using(expr_code::proofs::Pieces::adds_then, expr_code::proofs::Pieces::adds_nothing))]
pub fn call_through(
    fragment: &mut Fragment,
    visible: &Visible,
    object: &Text,
    operation: &Text,
    arguments: &[Argument],
) -> Result<(), AllocError>
    ensures made { OnOk result (fragment.new ≡ adds fragment.old (through_code visible.now (argument_trees arguments.now)
        (external_profile visible.now.scope object.now operation.now) (entry_behind visible.now.scope object.now operation.now)
        (external_of visible.now object.now operation.now))) }
{
    let Some(profile) = visible.external_profile(object, operation) else {
        return Ok(());
    };
    match entry_behind(visible, object, operation) {
        Some(number) => {
            fragment.put(0, Operation::CheckBlocking)?;
            let entry = Operation::EntryCall(number);
            invoke(fragment, visible, &profile.formals, arguments, entry)
        }
        None => match visible.external(object, operation) {
            Some(number) => {
                let call = Operation::ProtectedCall(number);
                invoke(fragment, visible, &profile.formals, arguments, call)
            }
            None => Ok(()),
        },
    }
}

/// Adds a jump to a way out, if there is one (RM 5.7, 6.5).
#[tactic(auto, using(expr_code::proofs::Pieces::adds_nothing))]
pub fn jump(fragment: &mut Fragment, way: Option<u16>) -> Result<(), AllocError>
    ensures made { OnOk result (fragment.new ≡ adds fragment.old (jump_code way)) }
{
    match way {
        Some(place) => fragment.put(0, Operation::Jump(place)),
        None => Ok(()),
    }
}

// Adds such a jump where the condition on the operand stack holds.
#[tactic(auto, using(expr_code::proofs::Pieces::adds_nothing))]
fn jump_if(fragment: &mut Fragment, way: Option<u16>) -> Result<(), AllocError>
    ensures made { OnOk result (fragment.new ≡ adds fragment.old (leaving_code way)) }
{
    match way {
        Some(place) => fragment.put(1, Operation::JumpIfNotZero(place)),
        None => Ok(()),
    }
}

/// Adds the code of an exit from the innermost loop, where a condition holds, if there is one (RM 5.7).
#[tactic(auto, using(expr_code::proofs::Pieces::adds_then))]
pub fn exit(
    fragment: &mut Fragment,
    visible: &Visible,
    way: Option<u16>,
    condition: &Option<Expr>,
) -> Result<(), AllocError>
    ensures made { OnOk result (fragment.new ≡ adds fragment.old (exit_code visible.now way (optional_tree expr_tree condition.now))) }
{
    match condition {
        None => jump(fragment, way),
        Some(condition) => {
            fragment.expression(visible, 0, condition)?;
            jump_if(fragment, way)
        }
    }
}

/// Adds the code of a raise statement: its exception is put on the operand stack, and raised (RM 11.3).
#[tactic(auto, using(expr_code::proofs::Pieces::adds_then, expr_code::proofs::Pieces::adds_nothing))]
pub fn raise(
    fragment: &mut Fragment,
    exceptions: &[Text],
    handled: Option<u16>,
    name: &Option<Identifier>,
) -> Result<(), AllocError>
    ensures made { OnOk result (fragment.new ≡ adds fragment.old (raise_code exceptions.now handled name.now)) }
{
    match raised_by(exceptions, handled, name) {
        Some(exception) => {
            fragment.put(0, exception)?;
            fragment.put(1, Operation::Raise)
        }
        None => Ok(()),
    }
}

// Adds a test that the task is inside no protected action, so that nothing is evaluated where it is (RM 9.5.1), the time, and the delay.
#[tactic(auto, using(expr_code::proofs::Pieces::adds_then))]
fn timed(fragment: &mut Fragment, visible: &Visible, until: &Expr) -> Result<(), AllocError>
    ensures made { OnOk result (fragment.new ≡ adds fragment.old (timed_code visible.now (expr_tree until.now))) }
{
    fragment.put(0, Operation::CheckBlocking)?;
    fragment.expression(visible, 0, until)?;
    fragment.put(1, Operation::DelayUntil)
}

/// Adds the code of a delay (RM 9.6).
pub fn delay(fragment: &mut Fragment, visible: &Visible, until: &Expr) -> Result<(), AllocError>
    ensures made { OnOk result (fragment.new ≡ adds fragment.old (delay_code visible.now (expr_tree until.now))) }
{
    // (nothing is read of these: that they are held in 64 bits tells that the time is)
    bounds(&visible.scope, until);
    timed(fragment, visible, until)
}
