//! How what is open is named, and what closes it.
ghost use Rattle.std.specs.Prelude.{◌≡◌};
ghost use Rattle.remedies.specs.Closings.{closing_of, part_of};

use crate::opening::Opened;

/// How what is open is named in messages.
pub fn part_of(opened: Opened) -> &'static str
    ensures { result.now ≡ part_of opened }
{
    match opened {
        Opened::Parenthesis => "a parenthesis",
        Opened::Package => "the specification of a package",
        Opened::PackageBody => "a package body",
        Opened::Task => "a task",
        Opened::Protected => "a protected object",
        Opened::ProtectedBody => "a protected body",
        Opened::Declarations => "a body",
        Opened::Statements => "a body",
        Opened::Main => "the body of main",
        Opened::MainStatements => "the body of main",
        Opened::Declare => "a block",
        Opened::Block => "a block",
        Opened::If => "an `if`",
        Opened::Case => "a `case`",
        Opened::Loop => "a loop",
        Opened::Record => "a record",
        Opened::Select => "a `select`",
    }
}

/// By what it is closed, in words; code is between two marks (96).
pub fn closing_of(opened: Opened) -> &'static str
    ensures { result.now ≡ closing_of opened }
{
    match opened {
        Opened::Parenthesis => "closed by `)`",
        Opened::Package => "closed by `end` and its name",
        Opened::PackageBody => "closed by `end` and its name",
        Opened::Task => "closed by `end` and its name",
        Opened::Protected => "closed by `end` and its name",
        Opened::ProtectedBody => "closed by `end` and its name",
        Opened::Declarations => "closed by `end` and its name",
        Opened::Statements => "closed by `end` and its name",
        Opened::Main => "closed by `end` and its name",
        Opened::MainStatements => "closed by `end` and its name",
        Opened::Declare => "closed by `end;`",
        Opened::Block => "closed by `end;`",
        Opened::If => "closed by `end if;`",
        Opened::Case => "closed by `end case;`",
        Opened::Loop => "closed by `end loop;`",
        Opened::Record => "closed by `end record;`",
        Opened::Select => "closed by `end select;`",
    }
}
