//! The code of main, as it is put together (RM 10.2).
ghost use Rattle.std.specs.Prelude.{◌≡◌, OnOk};
ghost use Rattle.expr_code.specs.Pieces.{adds};
ghost use Rattle.stmt_code.specs.WholeCode.{call_code, main_call, main_code};

use ada_tree::MainStatement;
use expr_code::Visible;
use expr_code::fragment::Fragment;
use image::Operation;
use std::alloc::AllocError;

// Adds the call of the procedure with this number, if it has one.
#[tactic(auto, using(expr_code::proofs::Pieces::adds_nothing))]
fn add_call(fragment: &mut Fragment, number: Option<u16>) -> Result<(), AllocError>
    ensures made { OnOk result (fragment.new ≡ adds fragment.old (call_code number)) }
{
    match number {
        Some(number) => fragment.put(0, Operation::Call(number)),
        None => Ok(()),
    }
}

// Adds a statement of main.
#[tactic(auto, using(expr_code::proofs::Pieces::adds_nothing))]
fn add_statement(
    fragment: &mut Fragment,
    visible: &Visible,
    statement: &MainStatement,
) -> Result<(), AllocError>
    ensures made { OnOk result (fragment.new ≡ adds fragment.old (main_call visible.now statement.now)) }
{
    match statement {
        MainStatement::Null(_) => Ok(()),
        MainStatement::Call(_, procedure) => {
            add_call(fragment, visible.subprogram(&procedure.name))
        }
    }
}

/// Adds the calls of main, one after another, and the return.
pub fn add_main(
    fragment: &mut Fragment,
    visible: &Visible,
    statements: &[MainStatement],
) -> Result<(), AllocError>
    ensures made { OnOk result (fragment.new ≡ adds fragment.old (main_code visible.now statements.now)) }
{
    for statement in statements {
        add_statement(fragment, visible, statement)?;
    }
    fragment.put(0, Operation::Return)
}
