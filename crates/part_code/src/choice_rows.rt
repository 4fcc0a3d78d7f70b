//! The rows of choices of handlers (RM 11.2).
ghost use Rattle.std.specs.Prelude.{◌≡◌, ◌+◌, ◌<◌, ◌++◌, IfErr, OnOk};
ghost use Rattle.expr_code.specs.Refusing.{IsRefused};
ghost use Rattle.part_code.specs.Raising.{choice_number};

use crate::exceptions::exception_number;
use ada_tree::ExceptionChoice;
use expr_code::Refusal;
use handlers::Row;
use lexer::Text;

/// The number for which a choice makes a row.
pub fn choice_number(exceptions: &[Text], choice: &ExceptionChoice) -> Option<u16>
    ensures { result ≡ choice_number exceptions.now choice.now }
{
    match choice {
        ExceptionChoice::Exception(name) => exception_number(exceptions, &name.name),
        ExceptionChoice::Others(_) => Some(0),
    }
}

/// Adds rows after others.
pub fn add_rows(rows: &mut Vec<Row>, more: &[Row]) -> Result<(), Refusal>
    ensures rows { OnOk result (rows.new.items ≡ rows.old.items ++ more.now) }
    ensures refused { IfErr result (λ why. IsRefused 0 0 why) }
{
    for row in more {
        rows.push(*row)?;
    }
    Ok(())
}
