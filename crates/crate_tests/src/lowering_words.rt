//! Texts of whole Ada that aren't lowered, with what is said of each; and what is said of a note.

use lowering::lower;
use lowering_report::{put_fault_report, put_note_report};
use std::alloc::Global;
use std::test::Fail;

/// A text of one line, and the first line of what is said of it.
type Row = (&'static str, &'static str);

// Constructs of declarations and statements.
const FIRST: [Row; 15] = [
    (
        "procedure P is begin abort T; end P;",
        "f:1:22: error: an abort statement isn't lowered: let the task ask a protected object what to do\n",
    ),
    (
        "procedure P is begin accept E; end P;",
        "f:1:22: error: an accept statement isn't lowered: use a protected object with one entry\n",
    ),
    (
        "package Q is type T is access Integer; end Q;",
        "f:1:24: error: an access type or value isn't lowered: use an index into an array of the package\n",
    ),
    (
        "package Q is A : aliased Integer; end Q;",
        "f:1:18: error: an aliased object or component isn't lowered: leave the word out; no access value leads to it\n",
    ),
    (
        "procedure P is begin X := (case A is when 1 => 2, when others => 3); end P;",
        "f:1:28: error: a case expression isn't lowered: use an if expression, or a case statement\n",
    ),
    (
        "procedure P is begin X := (A => <>); end P;",
        "f:1:33: error: a component that takes its default in an aggregate isn't lowered: write the value of each component\n",
    ),
    (
        "package Q is type T is new Integer; end Q;",
        "f:1:24: error: a derived type isn't lowered: use a subtype, or an integer type with its range\n",
    ),
    (
        "package Q is task T is entry E; end T; end Q;",
        "f:1:24: error: an entry of a task isn't lowered: use a protected object with one entry\n",
    ),
    (
        "function F return T is begin return R : T; end F;",
        "f:1:37: error: an extended return statement isn't lowered: use a return of one expression, or a procedure with an out parameter\n",
    ),
    (
        "generic package Q is end Q;",
        "f:1:1: error: a generic unit or an instance of one isn't lowered: write the unit for each type and value with which it is used\n",
    ),
    (
        "procedure P is begin goto L; end P;",
        "f:1:22: error: a goto statement or a label for one isn't lowered: use an if statement, or a loop with exit\n",
    ),
    (
        "package Q is type T is interface; end Q;",
        "f:1:24: error: an interface type isn't lowered: use a record type and procedures\n",
    ),
    (
        "package Q is type T is limited record A : B; end record; end Q;",
        "f:1:24: error: a limited type or a limited with clause isn't lowered: leave the word out\n",
    ),
    (
        "procedure P is package Q is end Q; begin null; end P;",
        "f:1:16: error: a package in a declarative part isn't lowered: declare what it has in the package around it\n",
    ),
    (
        "package Q is A : T renames B; end Q;",
        "f:1:20: error: an object that is renamed isn't lowered: write the name of the object itself\n",
    ),
];

// Further ones.
const OTHERS: [Row; 15] = [
    (
        "function \"+\" (A : T) return T is begin return A; end;",
        "f:1:10: error: a function that is an operator isn't lowered: use a function with an identifier as its name\n",
    ),
    (
        "package Q is overriding procedure P; end Q;",
        "f:1:14: error: an overriding indicator isn't lowered: leave the indicator out\n",
    ),
    (
        "package Q is type T is private; end Q;",
        "f:1:24: error: a private type isn't lowered: declare the type in full where it is private\n",
    ),
    (
        "private package Q is end Q;",
        "f:1:1: error: a private unit or private with clause isn't lowered: use a unit that isn't private\n",
    ),
    (
        "procedure P is begin X := (for all I in A => B); end P;",
        "f:1:28: error: a quantified expression isn't lowered: use a loop over the values\n",
    ),
    (
        "procedure P is begin X := (raise E); end P;",
        "f:1:28: error: a raise expression isn't lowered: use a raise statement\n",
    ),
    (
        "package Q is type T is digits 6; end Q;",
        "f:1:24: error: a real type isn't lowered: use an integer type that counts the smallest unit\n",
    ),
    (
        "package Q is for T use 8; end Q;",
        "f:1:14: error: a representation clause isn't lowered: leave the clause out, for layouts and addresses mean nothing here\n",
    ),
    (
        "procedure P is begin requeue E; end P;",
        "f:1:22: error: a requeue statement isn't lowered: let the caller call the other entry\n",
    ),
    (
        "procedure P is begin select null; end select; end P;",
        "f:1:22: error: a select statement isn't lowered: use a protected object with one entry\n",
    ),
    (
        "procedure P is separate;",
        "f:1:16: error: a separate body isn't lowered: write the body in its package\n",
    ),
    (
        "procedure P is begin X := A (1 .. 2); end P;",
        "f:1:36: error: a slice of an array isn't lowered: use a loop over the components\n",
    ),
    (
        "package Q is type T is tagged null record; end Q;",
        "f:1:24: error: a tagged or abstract type isn't lowered: use a record type with a component that says which kind it is\n",
    ),
    (
        "package Q is type T is array (Integer range <>) of B; end Q;",
        "f:1:45: error: an array type without bounds isn't lowered: give the array type its bounds\n",
    ),
    (
        "package Q is type T is record A : B; case D is when 1 => C : B; end case; end record; end Q;",
        "f:1:38: error: a variant part of a record isn't lowered: use a record with the components of all variants\n",
    ),
];

// Numbers, lexical elements and tokens.
const FAULTS: [Row; 6] = [
    (
        "package Q is Pi : constant := 3.14; end Q;",
        "f:1:31: error: a real number isn't lowered: count the smallest unit\n",
    ),
    (
        "package Q is N : constant := 2 ** 63; end Q;",
        "f:1:30: error: this number has no value in -2**63 .. 2**63 - 1\n",
    ),
    (
        "procedure P is begin X := 17#1#; end P;",
        "f:1:27: error: a number whose base isn't one of 2 to 16\n",
    ),
    (
        "procedure P is begin null end P;",
        "f:1:27: error: this can't be here: expected ;\n",
    ),
    (
        "procedure P is end P;",
        "f:1:16: error: this can't be here: expected BEGIN\n",
    ),
    (
        "procedure P is begin X := ; end P;",
        "f:1:27: error: this can't be here: expected an expression\n",
    ),
];

// Is this said of the text, and then the text itself?
fn is_reported(alloc: Global, text: &str, words: &str) -> bool {
    let Err(fault) = lower(alloc, text.as_bytes()) else {
        return false;
    };
    let mut report = Vec::new(alloc);
    if put_fault_report(alloc, &mut report, b"f", text.as_bytes(), &fault).is_err() {
        return false;
    }
    report.starts_with(words.as_bytes())
}

fn are_reported(alloc: Global, rows: &[Row]) -> bool {
    rows.iter()
        .all(|(text, words)| is_reported(alloc, text, words))
}

#[test]
fn first_constructs_are_reported(rt: HostRuntime) -> Result<(), Fail> {
    assert!(rt; are_reported(rt.alloc(), &FIRST));
    Ok(())
}

#[test]
fn other_constructs_are_reported(rt: HostRuntime) -> Result<(), Fail> {
    assert!(rt; are_reported(rt.alloc(), &OTHERS));
    Ok(())
}

#[test]
fn faults_are_reported(rt: HostRuntime) -> Result<(), Fail> {
    assert!(rt; are_reported(rt.alloc(), &FAULTS));
    Ok(())
}

const NOTES: [Row; 6] = [
    (
        "package Q is pragma Pure; end Q;",
        "f:1:14: note: pragma PURE left out\npackage Q is pragma Pure; end Q;\n             ^\n",
    ),
    (
        "package Q is A : T := 0 with Atomic; end Q;",
        "f:1:30: note: aspect ATOMIC left out\npackage Q is A : T := 0 with Atomic; end Q;\n                             ^\n",
    ),
    (
        "with Ada.Interrupts.Names; package Q is protected O is procedure H with Attach_Handler => Ada.Interrupts.Names.SIGHUP; end O; end Q;",
        "f:1:91: note: SIGHUP is channel 1\n",
    ),
    (
        "procedure P is begin raise E with \"late\"; end P;",
        "f:1:29: note: message of an exception left out\n",
    ),
    (
        "with Ada.Text_IO; use Ada.Text_IO; procedure P is begin Put_Line (Integer'Image (1) & \"s\"); end P;",
        "f:1:57: note: part of a text left out\n",
    ),
    (
        "package Q is procedure P (Q : Integer); end Q; with Q; procedure M is begin null; end M;",
        "f:1:27: note: Q is renamed to Q_2\n",
    ),
];

// What is said of the first note.
fn first_note(alloc: Global, text: &str) -> Option<Vec<u8>> {
    let lowered = lower(alloc, text.as_bytes()).ok()?;
    let note = lowered.notes.first()?;
    let mut report = Vec::new(alloc);
    put_note_report(alloc, &mut report, b"f", text.as_bytes(), note).ok()?;
    Some(report)
}

// Is this said of the first note?
fn is_noted(alloc: Global, text: &str, words: &str) -> bool {
    match first_note(alloc, text) {
        Some(report) => report.starts_with(words.as_bytes()),
        None => false,
    }
}

#[test]
fn notes_are_reported(rt: HostRuntime) -> Result<(), Fail> {
    for (text, words) in &NOTES {
        assert!(rt; is_noted(rt.alloc(), text, words));
    }
    Ok(())
}
