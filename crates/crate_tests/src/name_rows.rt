//! Texts of whole Ada, and what the names in them denote by the rules of visibility (RM 8.2 to 8.6), as rows of a test.

use ada2012_names::Predefined;

/// What a name denotes.
#[derive(Clone, Copy)]
pub(crate) enum Expected {
    /// What the identifier of the same name declares that is this one of them, counted from 1.
    At(usize),
    Predefined(Predefined),
    /// One of several, the innermost of which is declared by this identifier of the same name.
    Ambiguous(usize),
    Unknown,
}

/// A text, a name in upper case, which of the identifiers of this name, counted from 1, and what that denotes.
pub(crate) type Row = (&'static str, &'static str, usize, Expected);

pub(crate) const HIDING: [Row; 13] = [
    (
        "procedure P is X : Integer; procedure Q is X : Integer; begin X := 1; end; begin X := 2; end;",
        "X",
        3,
        Expected::At(2),
    ),
    (
        "procedure P is X : Integer; procedure Q is X : Integer; begin X := 1; end; begin X := 2; end;",
        "X",
        4,
        Expected::At(1),
    ),
    (
        "procedure P is X : Integer; begin declare Y : Integer := X; X : Integer; begin X := Y; end; end;",
        "X",
        2,
        Expected::At(1),
    ),
    (
        "procedure P is X : Integer; begin declare Y : Integer := X; X : Integer; begin X := Y; end; end;",
        "X",
        4,
        Expected::At(3),
    ),
    (
        "procedure P is X : Integer; begin for X in 1 .. 3 loop exit when X = 2; end loop; X := 1; end;",
        "X",
        3,
        Expected::At(2),
    ),
    (
        "procedure P is X : Integer; procedure Q (X : Integer) is Y : Integer := X; begin null; end; begin null; end;",
        "X",
        3,
        Expected::At(2),
    ),
    (
        "procedure P is type Integer is range 0 .. 9; X : Integer; begin null; end;",
        "INTEGER",
        2,
        Expected::At(1),
    ),
    (
        "procedure P is X : Integer; type Integer is range 0 .. 9; begin null; end;",
        "INTEGER",
        1,
        Expected::Predefined(Predefined::Integer),
    ),
    (
        "procedure P is begin X := 1; end;",
        "X",
        1,
        Expected::Unknown,
    ),
    (
        "procedure P is Y : Integer := X; X : Integer; begin null; end;",
        "X",
        1,
        Expected::Unknown,
    ),
    (
        "procedure P is procedure S is null; procedure Q is procedure S is null; begin S; end; begin S; end;",
        "S",
        3,
        Expected::At(2),
    ),
    (
        "procedure P is procedure S is null; procedure Q is procedure S is null; begin S; end; begin S; end;",
        "S",
        4,
        Expected::At(1),
    ),
    (
        "procedure P is procedure S (X : Integer) is null; procedure S (X : Boolean) is null; begin S (1); end;",
        "S",
        3,
        Expected::Ambiguous(2),
    ),
];

pub(crate) const LITERALS_AND_STATEMENTS: [Row; 13] = [
    (
        "procedure P is type C is (Red, Green); X : C := Red; begin null; end;",
        "RED",
        2,
        Expected::At(1),
    ),
    (
        "procedure P is type C is (Red, Green); type L is (Green, Amber); X : C := Green; Y : L := Green; begin null; end;",
        "GREEN",
        3,
        Expected::At(1),
    ),
    (
        "procedure P is type C is (Red, Green); type L is (Green, Amber); X : C := Green; Y : L := Green; begin null; end;",
        "GREEN",
        4,
        Expected::At(2),
    ),
    (
        "procedure P is type C is (Red, Green); type L is (Green, Amber); begin if Green = Green then null; end if; end;",
        "GREEN",
        3,
        Expected::Ambiguous(2),
    ),
    (
        "procedure P is type C is (Red, Green); type L is (Green, Amber); X : C; begin if X = Green then null; end if; end;",
        "GREEN",
        3,
        Expected::At(1),
    ),
    (
        "procedure P is type C is (Red, Green); type L is (Green, Amber); X : C; begin case X is when Green => null; end case; end;",
        "GREEN",
        3,
        Expected::At(1),
    ),
    (
        "procedure P is type C is (Red, Green); type L is (Green, Amber); X : C; B : Boolean := X in Green .. Green; begin null; end;",
        "GREEN",
        4,
        Expected::At(1),
    ),
    (
        "procedure P is type C is (Red, Green); type L is (Green, Amber); begin for X in C loop exit when X = Green; end loop; end;",
        "GREEN",
        3,
        Expected::At(1),
    ),
    (
        "procedure P is type C is (Red, Green); type L is (Green, Amber); X : Integer := C'Pos (Green); begin null; end;",
        "GREEN",
        3,
        Expected::At(1),
    ),
    (
        "procedure P is type C is (Red, Green); type L is (Green, Amber); X : C; begin X := C'Succ (Green); end;",
        "GREEN",
        3,
        Expected::At(1),
    ),
    (
        "procedure P is begin L : loop exit L when True; end loop L; end;",
        "L",
        2,
        Expected::At(1),
    ),
    (
        "procedure P is E : exception; begin raise E; exception when E => null; end;",
        "E",
        3,
        Expected::At(1),
    ),
    (
        "procedure P is begin null; exception when X : Constraint_Error => Q (X); end;",
        "X",
        2,
        Expected::At(1),
    ),
];

pub(crate) const PACKAGES: [Row; 18] = [
    (
        "package Q is X : Integer; end; with Q; procedure P is begin Q.X := 1; end;",
        "Q",
        3,
        Expected::At(1),
    ),
    (
        "package Q is X : Integer; end; with Q; procedure P is begin Q.X := 1; end;",
        "X",
        2,
        Expected::At(1),
    ),
    (
        "package Q is X : Integer; end; procedure P is begin Q.X := 1; end;",
        "Q",
        2,
        Expected::Unknown,
    ),
    (
        "package Q is X : Integer; end; with Q; procedure P is begin X := 1; end;",
        "X",
        2,
        Expected::Unknown,
    ),
    (
        "package Q is X : Integer; end; with Q; use Q; procedure P is begin X := 1; end;",
        "X",
        2,
        Expected::At(1),
    ),
    (
        "package Q is X : Integer; end; package R is X : Integer; end; with Q; use Q; with R; use R; procedure P is begin X := 1; end;",
        "X",
        3,
        Expected::Ambiguous(1),
    ),
    (
        "package Q is X : Integer; end; with Q; use Q; procedure P is X : Integer; begin X := 1; end;",
        "X",
        3,
        Expected::At(2),
    ),
    (
        "package Q is X : Integer; end; with Q; procedure P is begin declare use Q; begin X := 1; end; X := 2; end;",
        "X",
        2,
        Expected::At(1),
    ),
    (
        "package Q is X : Integer; end; with Q; procedure P is begin declare use Q; begin X := 1; end; X := 2; end;",
        "X",
        3,
        Expected::Unknown,
    ),
    (
        "package Q is type T is mod 8; X : T; end; with Q; use type Q.T; procedure P is begin X := 1; end;",
        "X",
        2,
        Expected::Unknown,
    ),
    (
        "package Q is X : Integer; end; package body Q is procedure S is begin X := 1; end; end;",
        "X",
        2,
        Expected::At(1),
    ),
    (
        "package Q is private X : Integer; end; package body Q is Y : Integer := X; end;",
        "X",
        2,
        Expected::At(1),
    ),
    (
        "package Q is private X : Integer; end; with Q; procedure P is begin Q.X := 1; end;",
        "X",
        2,
        Expected::Unknown,
    ),
    (
        "package Q is end; package body Q is X : Integer; end; with Q; use Q; procedure P is begin X := 1; end;",
        "X",
        2,
        Expected::Unknown,
    ),
    (
        "package R is X : Integer; end; with R; use R; package Q is end; package body Q is Y : Integer := X; end;",
        "X",
        2,
        Expected::At(1),
    ),
    (
        "package R is X : Integer; end; with R; package Q is end; with R; use R; package body Q is end; with Q; procedure P is begin X := 1; end;",
        "X",
        2,
        Expected::Unknown,
    ),
    (
        "package A is X : Integer; end; package A.B is Y : Integer := X; end;",
        "X",
        2,
        Expected::At(1),
    ),
    (
        "package A is end; package A.B is Y : Integer; end; with A.B; procedure P is begin A.B.Y := 1; end;",
        "Y",
        2,
        Expected::At(1),
    ),
];

pub(crate) const BODIES: [Row; 17] = [
    (
        "package Q is C : constant Integer; private C : constant Integer := 5; end;",
        "C",
        2,
        Expected::At(1),
    ),
    (
        "package R is X : Integer; end; with R; package Q is use R; end; package body Q is Y : Integer := X; end;",
        "X",
        2,
        Expected::At(1),
    ),
    (
        "with Ada.Real_Time; use Ada.Real_Time; procedure P is T : Time := Clock; begin null; end;",
        "CLOCK",
        1,
        Expected::Predefined(Predefined::Clock),
    ),
    (
        "with Ada.Real_Time; procedure P is T : Ada.Real_Time.Time; begin null; end;",
        "REAL_TIME",
        2,
        Expected::Predefined(Predefined::RealTime),
    ),
    (
        "with Ada.Real_Time; procedure P is T : Time; begin null; end;",
        "TIME",
        1,
        Expected::Unknown,
    ),
    (
        "with Control_IO; use Control_IO; procedure P is begin Put (Value => 1); end;",
        "PUT",
        1,
        Expected::Predefined(Predefined::LabelledPut),
    ),
    (
        "package Q is procedure S (A : Integer); end; package body Q is procedure S (A : Integer) is B : Integer := A; begin null; end; end;",
        "S",
        2,
        Expected::At(1),
    ),
    (
        "package Q is procedure S (A : Integer); end; package body Q is procedure S (A : Integer) is B : Integer := A; begin null; end; end;",
        "A",
        2,
        Expected::At(1),
    ),
    (
        "package Q is procedure S (A : Integer); end; package body Q is procedure S (A : Integer) is B : Integer := A; begin null; end; end;",
        "A",
        3,
        Expected::At(1),
    ),
    (
        "package Q is end; package body Q is protected Q is procedure S; end; protected body Q is procedure S is null; end; function F return T is (Q.S); end;",
        "Q",
        4,
        Expected::At(3),
    ),
    (
        "package Q is end; package body Q is protected Q is procedure S; end; protected body Q is procedure S is null; end; function F return T is (Q.S); end;",
        "Q",
        5,
        Expected::At(3),
    ),
    (
        "package Q is end; package body Q is protected Q is procedure S; end; protected body Q is procedure S is null; end; function F return T is (Q.S); end;",
        "S",
        3,
        Expected::At(1),
    ),
    (
        "package Q is task type T (D : Integer); X : T (D => 1); end; package body Q is task body T is Y : Integer := D; begin null; end; end;",
        "D",
        2,
        Expected::At(1),
    ),
    (
        "package Q is task type T (D : Integer); X : T (D => 1); end; package body Q is task body T is Y : Integer := D; begin null; end; end;",
        "D",
        3,
        Expected::At(1),
    ),
    (
        "package body Q is protected O is entry E (A : T); private B, A : T; end; protected body O is entry E (A : T) when B is begin X (A); end; end; end;",
        "B",
        2,
        Expected::At(1),
    ),
    (
        "package body Q is protected O is entry E (A : T); private B, A : T; end; protected body O is entry E (A : T) when B is begin X (A); end; end; end;",
        "A",
        4,
        Expected::At(1),
    ),
    (
        "package Q is protected O is procedure S; private B : Boolean; end; end; with Q; procedure P is begin Q.O.B := True; end;",
        "B",
        2,
        Expected::Unknown,
    ),
];

pub(crate) const COMPONENTS_AND_ACTUALS: [Row; 15] = [
    (
        "procedure P is A : Integer; procedure S (A : Integer) is null; begin S (A => A); end;",
        "A",
        3,
        Expected::At(2),
    ),
    (
        "procedure P is A : Integer; procedure S (A : Integer) is null; begin S (A => A); end;",
        "A",
        4,
        Expected::At(1),
    ),
    (
        "procedure P is type R is record A, B : Integer; end record; A : R; begin A.A := 1; end;",
        "A",
        4,
        Expected::At(1),
    ),
    (
        "procedure P is type R is record A, B : Integer; end record; A : Integer; X : R := (A => A, B => 2); begin null; end;",
        "A",
        3,
        Expected::At(1),
    ),
    (
        "procedure P is type R is record A, B : Integer; end record; A : Integer; X : R := (A => A, B => 2); begin null; end;",
        "A",
        4,
        Expected::At(2),
    ),
    (
        "procedure P is type R is record A, B : Integer; end record; X : R; begin X := (A => 1, B => 2); end;",
        "B",
        2,
        Expected::At(1),
    ),
    (
        "procedure P is type R is record A, B : Integer; end record; procedure S (X : R) is null; begin S ((A => 1, B => 2)); end;",
        "A",
        2,
        Expected::At(1),
    ),
    (
        "procedure P is type R is record A, B : Integer; end record; procedure S (X : R) is null; begin S (R'(A => 1, B => 2)); end;",
        "A",
        2,
        Expected::At(1),
    ),
    (
        "procedure P is type R is record A, B : Integer; end record; function F return R is begin return (A => 1, B => 2); end; begin null; end;",
        "A",
        2,
        Expected::At(1),
    ),
    (
        "procedure P is type R is record A, B : Integer; end record; function F return R is ((1, 2)); X : Integer := F.A; begin null; end;",
        "A",
        2,
        Expected::At(1),
    ),
    (
        "procedure P is type R is record A, B : Integer; end record; type O is record I : R; end record; X : O; begin X := (I => (A => 1, B => 2)); end;",
        "A",
        2,
        Expected::At(1),
    ),
    (
        "procedure P is type R is record A, B : Integer; end record; X : array (1 .. 2) of R; begin X (1).A := 1; end;",
        "A",
        2,
        Expected::At(1),
    ),
    (
        "procedure P is type R is record A, B : Integer; end record; X : array (1 .. 2) of R; begin for Y of X loop Y.A := 1; end loop; end;",
        "A",
        2,
        Expected::At(1),
    ),
    (
        "procedure P is type E is (U, V); type F is (V, U); X : array (E) of Integer := (U => 1, V => 2); begin null; end;",
        "U",
        3,
        Expected::At(1),
    ),
    (
        "procedure P is type R is record A, B : Integer; end record; X : R; begin X := (C => 1, B => 2); end;",
        "C",
        1,
        Expected::Unknown,
    ),
];
