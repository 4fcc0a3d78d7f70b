//! Constructs that aren't lowered, and what to write instead.

use ada2012_parser::LeftOut;
use std::alloc::{AllocError, Global};

// What to write in place of each, in the order of `LeftOut`.
const INSTEAD: [&str; 30] = [
    "let the task ask a protected object what to do",
    "use a protected object with one entry",
    "use an index into an array of the package",
    "leave the word out; no access value leads to it",
    "use an if expression, or a case statement",
    "write the value of each component",
    "use a subtype, or an integer type with its range",
    "use a protected object with one entry",
    "use a return of one expression, or a procedure with an out parameter",
    "write the unit for each type and value with which it is used",
    "use an if statement, or a loop with exit",
    "use a record type and procedures",
    "leave the word out",
    "declare what it has in the package around it",
    "write the name of the object itself",
    "use a function with an identifier as its name",
    "leave the indicator out",
    "declare the type in full where it is private",
    "use a unit that isn't private",
    "use a loop over the values",
    "use a raise statement",
    "use an integer type that counts the smallest unit",
    "leave the clause out, for layouts and addresses mean nothing here",
    "let the caller call the other entry",
    "use a protected object with one entry",
    "write the body in its package",
    "use a loop over the components",
    "use a record type with a component that says which kind it is",
    "give the array type its bounds",
    "use a record with the components of all variants",
];

/// Adds which construct it is, that it isn't lowered, and what to write instead.
pub(crate) fn put_left_out(
    alloc: Global,
    out: &mut Vec<u8>,
    construct: LeftOut,
) -> Result<(), AllocError> {
    let name = format!(in alloc; "{construct}")?;
    out.extend_from_slice(name.as_bytes())?;
    out.extend_from_slice(b" isn't lowered: ")?;
    out.extend_from_slice(INSTEAD[construct as usize].as_bytes())?;
    Ok(())
}
