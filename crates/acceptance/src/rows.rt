//! What calls of the program leave: words, files, exit statuses, and sinks that fail (docs/FORMATS.md, "Commands").
ghost use Rattle.std.specs.Prelude.{◌≡◌};

use crate::files::{LINES, files};
use crate::memory::{Left, call};
use machine::Plan;
use std::alloc::{AllocError, Global};
use std::test::Fail;

const NAMES_LISTED: &[u8] = b"exception 1 CONSTRAINT_ERROR
exception 2 PROGRAM_ERROR
exception 3 STORAGE_ERROR
exception 4 TASKING_ERROR
task MAIN priority 15 sub 0
sub 0 kind 4 object - params 0 results 0 locals 0 stack 0
    0 RET 0 0 0
";

/// A call of the program by its words, and what it leaves: its exit status, standard output and standard error.
type Row<'a> = (&'a [&'a str], u8, &'a [u8], &'a [u8]);

const DONE: [Row<'static>; 8] = [
    (
        &["go", "main.adb", "empty", "0"],
        5,
        b"step limit at 0\n",
        b"",
    ),
    (
        &["go", "raises.adb", "empty", "0100000"],
        3,
        b"unhandled CONSTRAINT_ERROR in MAIN at 0\n",
        b"",
    ),
    (&["list", "return.img"], 0, NAMES_LISTED, b""),
    (
        &["run", "return.img", "empty", "1"],
        0,
        b"ended at 0\n",
        b"",
    ),
    (
        &["run", "return.img", "empty", "0"],
        5,
        b"step limit at 0\n",
        b"",
    ),
    (
        &["run", "thousand.img", "empty", "18446744073709551615"],
        0,
        b"0 MAIN x 1000\nended at 0\n",
        b"",
    ),
    (
        &["run", "thousand.img", "empty", "2"],
        5,
        b"0 MAIN x 1000\nstep limit at 0\n",
        b"",
    ),
    (
        &["run", "unserved.img", "empty", "100"],
        4,
        b"waits forever at 0\n",
        b"",
    ),
];

const REFUSED: [Row<'static>; 12] = [
    (
        &["go", "none.adb", "none", "1"],
        1,
        b"",
        b"cannot read none.adb\n",
    ),
    (
        &["go", "refused.adb", "none", "1"],
        1,
        b"",
        b"cannot read none\n",
    ),
    (
        &["go", "refused.adb", "faulty", "1"],
        2,
        b"",
        b"fault 6 at 1:25\n",
    ),
    (
        &["go", "main.adb", "faulty", "1"],
        7,
        b"",
        b"schedule fault 50 at line 1\n",
    ),
    (
        &["compile", "none.adb", "new.img"],
        1,
        b"",
        b"cannot read none.adb\n",
    ),
    (
        &["compile", "refused.adb", "new.img"],
        2,
        b"",
        b"fault 6 at 1:25\n",
    ),
    (
        &["compile", "main.adb", "/new.img"],
        1,
        b"",
        b"cannot write\n",
    ),
    (&["list", "none.img"], 1, b"", b"cannot read none.img\n"),
    (&["list", "main.adb"], 6, b"", b"image fault 40 at byte 0\n"),
    (
        &["run", "none.img", "none", "1"],
        1,
        b"",
        b"cannot read none.img\n",
    ),
    (
        &["run", "main.adb", "faulty", "1"],
        6,
        b"",
        b"image fault 40 at byte 0\n",
    ),
    (
        &["run", "return.img", "faulty", "1"],
        7,
        b"",
        b"schedule fault 50 at line 1\n",
    ),
];

const WRONG: [Row<'static>; 15] = [
    (&[], 1, b"", b"usage\n"),
    (&["stop"], 1, b"", b"usage\n"),
    (&["--help"], 1, b"", b"usage\n"),
    (&["go"], 1, b"", b"usage\n"),
    (&["go", "--help"], 1, b"", b"usage\n"),
    (&["go", "main.adb", "empty"], 1, b"", b"usage\n"),
    (&["go", "main.adb", "empty", "-1"], 1, b"", b"usage\n"),
    (
        &["go", "main.adb", "empty", "18446744073709551616"],
        1,
        b"",
        b"usage\n",
    ),
    (
        &["go", "main.adb", "empty", "1", "more"],
        1,
        b"",
        b"usage\n",
    ),
    (&["go", "none.adb", "none", "x"], 1, b"", b"usage\n"),
    (&["compile", "main.adb"], 1, b"", b"usage\n"),
    (&["list"], 1, b"", b"usage\n"),
    (&["list", "return.img", "more"], 1, b"", b"usage\n"),
    (&["run", "return.img", "empty"], 1, b"", b"usage\n"),
    (&["run", "none.img", "none", "x"], 1, b"", b"usage\n"),
];

fn is_left(left: &Left, status: u8, out: &[u8], err: &[u8]) -> bool {
    left.status == status && left.out.as_slice() == out && left.err.as_slice() == err
}

// The first row whose call leaves something else, or writes a file.
fn first_other(rt: &HostRuntime, rows: &[Row<'_>]) -> Result<Option<usize>, AllocError> {
    for (number, (words, status, out, err)) in rows.iter().enumerate() {
        let left = call(rt, words, &files(b""), Plan::TakesAll)?;
        if !is_left(&left, *status, out, err) || left.written.is_some() {
            return Ok(Some(number));
        }
    }
    Ok(None)
}

#[test]
fn calls_leave_their_status(rt: HostRuntime) -> Result<(), Fail> {
    assert_eq!(rt; first_other(&rt, &DONE)?, None);
    assert_eq!(rt; first_other(&rt, &REFUSED)?, None);
    assert_eq!(rt; first_other(&rt, &WRONG)?, None);
    Ok(())
}

// The first lines of the program main.adb, so many of them.
fn first_lines(alloc: Global, count: usize) -> Result<Vec<u8>, AllocError> {
    let mut text = Vec::new(alloc);
    for line in LINES.iter().take(count) {
        text.extend_from_slice(line)?;
    }
    Ok(text)
}

// Whether the program main.adb leaves its first lines, so many of them, where standard output keeps to a plan.
fn writes(rt: &HostRuntime, plan: Plan, count: usize) -> Result<bool, AllocError> {
    let words = ["go", "main.adb", "empty", "100000"];
    let left = call(rt, &words, &files(b""), plan)?;
    let text = first_lines(rt.alloc(), count)?;
    Ok(if count < LINES.len() {
        is_left(&left, 1, &text, b"cannot write\n")
    } else {
        is_left(&left, 0, &text, b"")
    })
}

// Each line is one piece, and a whole run writes six: a sink fails, or answers 0, at each of them, and at none.
#[test]
fn each_write_may_fail(rt: HostRuntime) -> Result<(), Fail> {
    for at in 1..8u8 {
        let count = usize::from(at.saturating_sub(1));
        assert!(rt; writes(&rt, Plan::FailsAt(u64::from(at)), count)?);
        assert!(rt; writes(&rt, Plan::AnswersZeroAt(u64::from(at)), count)?);
    }
    assert!(rt; writes(&rt, Plan::TakesOne, LINES.len())?);
    let words = ["list", "return.img"];
    let left = call(&rt, &words, &files(b""), Plan::FailsAt(1))?;
    assert!(rt; is_left(&left, 1, b"", b"cannot write\n"));
    Ok(())
}

#[test]
fn a_compiled_image_runs_as_its_source(rt: HostRuntime) -> Result<(), Fail> {
    let words = ["compile", "main.adb", "new.img"];
    let compiled = call(&rt, &words, &files(b""), Plan::TakesAll)?;
    assert!(rt; is_left(&compiled, 0, b"", b""));
    let (name, bytes) = compiled.written.as_ref().expect(&rt, "an image");
    assert!(rt; name.as_str() == "new.img");
    for limit in ["0", "1", "4", "8", "12", "16", "100"] {
        let words = ["run", "compiled.img", "empty", limit];
        let run = call(&rt, &words, &files(bytes), Plan::TakesAll)?;
        let words = ["go", "main.adb", "empty", limit];
        let went = call(&rt, &words, &files(bytes), Plan::TakesAll)?;
        assert!(rt; is_left(&run, went.status, &went.out, b""));
    }
    Ok(())
}
