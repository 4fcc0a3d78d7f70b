//! Texts of whole Ada, and what they are lowered to; and such as are refused.

use ada2012_lexer::{Delimiter, FaultKind as SpellingFault};
use ada2012_parser::{Expected, FaultKind as SyntaxFault};
use lowering::{Fault, FaultKind, Note, NoteKind, lower};
use std::alloc::Global;
use std::test::Fail;

/// A text, and its lowered text.
type Pair = (&'static str, &'static str);

// Several names, priorities and package System.
const DECLARATIONS: [Pair; 10] = [
    (
        "package Q is A, B : Integer := 1; end Q;",
        "package Q is A : Integer := 1; B : Integer := 1; end Q;",
    ),
    (
        "package Q is procedure P (X, Y : in T; Z : U); end Q;",
        "package Q is procedure P (X : in T; Y : in T; Z : U); end Q;",
    ),
    (
        "package Q is type R is record X, Y, Z : Integer; end record; end Q;",
        "package Q is type R is record X : Integer; Y : Integer; Z : Integer; end record; end Q;",
    ),
    (
        "package Q is E, F : exception; end Q;",
        "package Q is E : exception; F : exception; end Q;",
    ),
    (
        "package Q is\n   A, -- one\n   B\n     : Integer\n     := 1;\nend Q;\n",
        "package Q is\n   A : Integer := 1; -- one\n   B\n     : Integer\n     := 1;\nend Q;\n",
    ),
    (
        "package Q is task T is pragma Priority (10); end T; end Q;",
        "package Q is task T with Priority => 10 is  end T; end Q;",
    ),
    (
        "package Q is protected O is pragma Interrupt_Priority; procedure S; end O; end Q;",
        "package Q is protected O with Priority => 31 is  procedure S; end O; end Q;",
    ),
    (
        "procedure P is pragma Priority (System.Priority'Last); begin null; end P;",
        "procedure P with Priority => 30 is  begin null; end P;",
    ),
    (
        "with System; use System; package Q is A : T; end Q;",
        "  package Q is A : T; end Q;",
    ),
    (
        "package Q is task T is\n   pragma Priority\n     (5);\nend T; end Q;",
        "package Q is task T with Priority => 5 is\n   \n\nend T; end Q;",
    ),
];

// Numbers, literals, functions and null procedures.
const VALUES: [Pair; 7] = [
    (
        "package Q is N : constant := 8; end Q;",
        "package Q is N : constant Integer := 8; end Q;",
    ),
    (
        "package Q is M, N : constant := 2 ** 3; end Q;",
        "package Q is M : constant Integer := 8; N : constant Integer := 8; end Q;",
    ),
    (
        "package Q is N : constant := M * 2; end Q;",
        "package Q is N : constant Integer := M * 2; end Q;",
    ),
    (
        "package body Q is function F (A : T) return T is (A + 1); end Q;",
        "package body Q is function F (A : T) return T is begin return (A + 1); end F; end Q;",
    ),
    (
        "package body Q is procedure P is null; end Q;",
        "package body Q is procedure P is begin null; end P; end Q;",
    ),
    (
        "procedure P is begin X := 16#FF# + 1E3 + 1_000; end P;",
        "procedure P is begin X := 255 + 1000 + 1_000; end P;",
    ),
    (
        "procedure P is begin X := 2#1_0#E2; Y := System.Interrupt_Priority'First; end P;",
        "procedure P is begin X := 8; Y := 31; end P;",
    ),
];

// Names of statements and at ends, and pragmas.
const NAMES: [Pair; 9] = [
    (
        "procedure P is begin L : loop exit; end loop L; end P;",
        "procedure P is begin   loop exit; end loop ; end P;",
    ),
    (
        "procedure P is begin L : loop exit L; end loop L; end P;",
        "procedure P is begin   loop exit ; end loop ; end P;",
    ),
    (
        "procedure P is begin B : begin null; end B; end P;",
        "procedure P is begin   begin null; end ; end P;",
    ),
    (
        "package Q is pragma Inline (F); A : T; end Q;",
        "package Q is  A : T; end Q;",
    ),
    (
        "procedure P is begin pragma Warnings (Off); end P;",
        "procedure P is begin null; end P;",
    ),
    ("package Q is end;", "package Q is end Q;"),
    (
        "package body Q is task body T is begin null; end; end;",
        "package body Q is task body T is begin null; end T; end Q;",
    ),
    (
        "package body Q is protected body O is entry W when A is begin null; end; end; end Q;",
        "package body Q is protected body O is entry W when A is begin null; end W; end O; end Q;",
    ),
    (
        "package Q is task T is\npragma Priority (3);\nend; A, B : T; end; -- last\n",
        "package Q is task T with Priority => 3 is\n\nend T; A : T; B : T; end Q; -- last\n",
    ),
];

// Enumeration types, and case statements over all values.
const ENUMERATIONS: [Pair; 6] = [
    (
        "package Q is type S is (A, B, C); end Q;",
        "package Q is type S is range 0 .. 2; A : constant S := 0; B : constant S := 1; C : constant S := 2; end Q;",
    ),
    (
        "package Q is type S is (A); X : Integer := S'Pos (A); end Q;",
        "package Q is type S is range 0 .. 0; A : constant S := 0; X : Integer := Integer (A); end Q;",
    ),
    (
        "package Q is type S is (A, B); X : S := S'Succ (S'Val (0)); Y : S := S'Pred (B); end Q;",
        "package Q is type S is range 0 .. 1; A : constant S := 0; B : constant S := 1; X : S := S (S (0) + 1); Y : S := S (B - 1); end Q;",
    ),
    (
        "package Q is type S is (A); subtype T is S range A .. A; X : T := T'Val (0); end Q;",
        "package Q is type S is range 0 .. 0; A : constant S := 0; subtype T is S range A .. A; X : T := S (0); end Q;",
    ),
    (
        "package Q is\n   type S is\n     (A, -- first\n      B);\nend Q;\n",
        "package Q is\n   type S is\n     range 0 .. 1\n; A : constant S := 0; B : constant S := 1;\nend Q;\n",
    ),
    (
        "procedure P is begin case X is when True => null; when False => null; end case; end P;",
        "procedure P is begin case X is when True => null; when False => null; when others => null; end case; end P;",
    ),
];

// Loops over subtypes and arrays.
const LOOPS: [Pair; 4] = [
    (
        "package body Q is type S is range 1 .. 3; procedure P is begin for I in S loop null; end loop; end P; end Q;",
        "package body Q is type S is range 1 .. 3; procedure P is begin for I in S'First .. S'Last loop null; end loop; end P; end Q;",
    ),
    (
        "package body Q is type S is (A); procedure P is begin for I in S loop null; end loop; end P; end Q;",
        "package body Q is type S is range 0 .. 0; A : constant S := 0; procedure P is begin for I in S'First .. S'Last loop null; end loop; end P; end Q;",
    ),
    (
        "package body Q is procedure P is begin for I in reverse X'Range loop null; end loop; end P; end Q;",
        "package body Q is procedure P is begin for I in reverse X'First .. X'Last loop null; end loop; end P; end Q;",
    ),
    (
        "procedure P is type R is array (1 .. 3) of T; X : R; begin for E of X loop E := 1; end loop; end P;",
        "procedure P is type R is array (1 .. 3) of T; X : R; begin for E_Index in X'First .. X'Last loop X (E_Index) := 1; end loop; end P;",
    ),
];

// Membership tests, calls by name and qualified expressions.
const EXPRESSIONS: [Pair; 7] = [
    (
        "with Control_IO; use Control_IO; package body Q is function F (A : Integer) return Integer is begin return A + 1; end F; procedure P (X : out \
         Boolean) is begin X := F (Read (1)) not in 2 .. 3 | 7; if Read (2) in 1 .. 4 then X := False; end if; end P; end Q;",
        "with Control_IO; use Control_IO; package body Q is function F (A : Integer) return Integer is begin return A + 1; end F; procedure P (X : out \
         Boolean) is Tested : Integer; Tested_2 : Integer; begin Tested := F (Read (1)); X := not ((Tested >= 2 and Tested <= 3) or else (Tested = 7)); \
         Tested_2 := Read (2); if (Tested_2 >= 1 and Tested_2 <= 4) then X := False; end if; end P; end Q;",
    ),
    (
        "package body Q is procedure P (X : Integer; Y : out Boolean) is begin Y := X in Natural; end P; end Q;",
        "package body Q is procedure P (X : Integer; Y : out Boolean) is begin Y := (X >= Natural'First and X <= Natural'Last); end P; end Q;",
    ),
    (
        "package body Q is procedure P (X : T; Y : out T) is begin Y := X + 1 not in 1 .. 5 | 7; end P; end Q;",
        "package body Q is procedure P (X : T; Y : out T) is begin Y := not ((X + 1 >= 1 and X + 1 <= 5) or else (X + 1 = 7)); end P; end Q;",
    ),
    (
        "package body Q is procedure P (X : out Boolean) is begin X := Read (1) in 2 .. 3; end P; end Q;",
        "package body Q is procedure P (X : out Boolean) is begin X := Read (1) in 2 .. 3; end P; end Q;",
    ),
    (
        "package body Q is procedure P (A : T; B : T := 2); procedure R is begin P (B => 1, A => 3); P (4); P (A => 5, B => 6); end R; end Q;",
        "package body Q is procedure P (A : T; B : T  ); procedure R is begin P (3, 1); P (4, 2); P (5, 6); end R; end Q;",
    ),
    (
        "package body Q is function F return T; procedure P (A : T; B : T); procedure R is begin P (B => F, A => F); end R; end Q;",
        "package body Q is function F return T; procedure P (A : T; B : T); procedure R is begin P (B => F, A => F); end R; end Q;",
    ),
    (
        "package body Q is X : Integer := Natural'(5); end Q;",
        "package body Q is X : Integer := Natural (5); end Q;",
    ),
];

// Attributes of integer types, and ranges as choices.
const ATTRIBUTES: [Pair; 4] = [
    (
        "procedure P is A : Integer; begin A := Integer'Max (A, 2) - Integer'Min (A + 1, 3); end P;",
        "procedure P is A : Integer; begin A := (if A > 2 then A else 2) - (if A + 1 < 3 then A + 1 else 3); end P;",
    ),
    (
        "procedure P is A : Integer; begin A := Natural'Succ (A) + Integer'Pred (A) + Integer'Pos (A); end P;",
        "procedure P is A : Integer; begin A := (A + 1) + (A - 1) + Integer (A); end P;",
    ),
    (
        "procedure P is A : Boolean; B : Integer := Boolean'Pos (A and B > 1); begin null; end P;",
        "procedure P is A : Boolean; B : Integer := (if A and B > 1 then 1 else 0); begin null; end P;",
    ),
    (
        "procedure P is N : constant := 4; begin case A is when 1 .. 2 | 7 | N .. 5 => B; when others => C; end case; end P;",
        "procedure P is N : constant Integer := 4; begin case A is when 1 | 2 | 7 | 4 | 5 => B; when others => C; end case; end P;",
    ),
];

// Modular types.
const MODULAR_TYPES: [Pair; 5] = [
    (
        "package body Q is type M is mod 8; type T is range -3 .. 3; X : M := 0; procedure D (A : Integer) is begin null; end D; procedure P is begin X := X + \
         1; D (-1); for I in -1 .. 1 loop D ((if I > 0 then I + 1 else -2)); end loop; end P; end Q;",
        "package body Q is type M is range 0 .. 7; type T is range -3 .. 3; X : M := 0; procedure D (A : Integer) is begin null; end D; procedure P is begin \
         X := (X + 1) mod 8; D (-1); for I in -1 .. 1 loop D ((if I > 0 then I + 1 else -2)); end loop; end P; end Q;",
    ),
    (
        "package body Q is type M is mod 8; X : M := 0; procedure P is begin X := M'Succ (X + 1) - X * 2; end P; end Q;",
        "package body Q is type M is range 0 .. 7; X : M := 0; procedure P is begin X := ((((X + 1) mod 8 + 1) mod 8) - (X * 2) mod 8) mod 8; end P; end Q;",
    ),
    (
        "package body Q is N : constant := 8; type M is mod N; X : M := M'Last; procedure P is begin X := -X; end P; end Q;",
        "package body Q is N : constant Integer := 8; type M is range 0 .. 7; X : M := M'Last; procedure P is begin X := (-X) mod 8; end P; end Q;",
    ),
    (
        "package body Q is type M is mod 8; X : M := 0; procedure P is begin X := X and 3; end P; end Q;",
        "package body Q is type M is mod 8; X : M := 0; procedure P is begin X := X and 3; end P; end Q;",
    ),
    (
        "package body Q is type M is mod 8; X : M := 0; procedure P is begin X := -1; end P; end Q;",
        "package body Q is type M is mod 8; X : M := 0; procedure P is begin X := -1; end P; end Q;",
    ),
];

// Units, clauses and prefixes.
const UNITS: [Pair; 7] = [
    (
        "package A is X : Integer; end A; with A; package B is procedure P; end B; package body B is procedure P is begin A.X := 1; end P; end B; \
         with B; procedure M is begin B.P; end M;",
        "package A is X : Integer;    procedure P; end A; package body A is procedure P is begin X := 1; end P; end A; with A; procedure M is begin \
         A.P; end M;",
    ),
    (
        "with Ada.Real_Time; package Q is procedure P; end Q; with Control_IO; package body Q is procedure P is T : Ada.Real_Time.Time; begin T := \
         Ada.Real_Time.Clock; Control_IO.Put (\"a\", 1); end P; end Q; with Q; use Q; procedure M is begin P; end M;",
        " with Ada.Real_Time; use Ada.Real_Time; with Control_IO; use Control_IO; package Q is procedure P; end Q;  package body Q is procedure P \
         is T : Time; begin T := Clock; Put (\"a\", 1); end P; end Q; with Q;  procedure M is begin Q.P; end M;",
    ),
    (
        "package Q is procedure P; private X : Integer; end Q; package body Q is procedure P is begin X := 1; end P; end Q; with Q; procedure M is \
         begin null; end M;",
        "package Q is procedure P;  X : Integer; end Q; package body Q is procedure P is begin X := 1; end P; end Q; with Q; procedure M is begin \
         null; end M;",
    ),
    (
        "package Q is X : Integer; end Q; with Q; procedure M is begin null; end M;",
        "package Q is X : Integer; end Q; package body Q is end Q; with Q; procedure M is begin null; end M;",
    ),
    (
        "package A is X : Integer; end A; package A.B is procedure P; end A.B; package body A.B is procedure P is begin X := 1; end P; end A.B; \
         with A.B; procedure M is begin A.B.P; end M;",
        "package A is X : Integer;   procedure P; end A; package body A is procedure P is begin X := 1; end P; end A; with A; procedure M is begin \
         A.P; end M;",
    ),
    (
        "package A is\nX : Integer;\nend A;\nwith A; use A;\npackage B is\nprocedure P;\nend B;\npackage body B is\nprocedure P is begin X := 1; \
         end P;\nend B;\nwith A, B;\nprocedure M is begin B.P; end M;\n",
        "package A is\nX : Integer;\n\n \n\nprocedure P;\nend A;\npackage body A is\nprocedure P is begin X := 1; end P;\nend A;\nwith \
         A;\nprocedure M is begin A.P; end M;\n",
    ),
    (
        "package Q is procedure P (X : System.Priority); end Q;",
        "package Q is procedure P (X : Natural); end Q;",
    ),
];

// Names that are declared twice or hide others.
const CLASHES: [Pair; 5] = [
    (
        "with Control_IO; use Control_IO; package Q is protected O is procedure Put (N : Integer); end O; procedure P; end Q; package body Q is \
         protected body O is procedure Put (N : Integer) is begin null; end Put; end O; procedure P is begin O.Put (1); Put (\"a\", 1); end P; end \
         Q; with Q; procedure M is begin null; end M;",
        "with Control_IO; use Control_IO; package Q is protected O is procedure Put_2 (N : Integer); end O; procedure P; end Q; package body Q is \
         protected body O is procedure Put_2 (N : Integer) is begin null; end Put_2; end O; procedure P is begin O.Put_2 (1); Put (\"a\", 1); end \
         P; end Q; with Q; procedure M is begin null; end M;",
    ),
    (
        "package A is X : Integer; end A; package B is X : Integer; procedure P; end B; with A; package body B is procedure P is begin X := A.X; \
         end P; end B; with B; procedure M is begin null; end M;",
        "package A is X : Integer;   X_2 : Integer; procedure P; end A;  package body A is procedure P is begin X_2 := X; end P; end A; with A; \
         procedure M is begin null; end M;",
    ),
    (
        "package Q is I : Integer; procedure P; end Q; package body Q is procedure P is begin for I in 1 .. 2 loop null; end loop; for J in 1 .. 2 \
         loop null; end loop; for J in 1 .. 2 loop null; end loop; end P; end Q; with Q; procedure M is begin null; end M;",
        "package Q is I : Integer; procedure P; end Q; package body Q is procedure P is begin for I_2 in 1 .. 2 loop null; end loop; for J in 1 .. \
         2 loop null; end loop; for J in 1 .. 2 loop null; end loop; end P; end Q; with Q; procedure M is begin null; end M;",
    ),
    (
        "package Q is procedure P; end Q; package body Q is protected Q is procedure R; end Q; protected body Q is procedure R is begin null; end \
         R; end Q; procedure P is begin Q.R; end P; end Q; with Q; procedure M is begin null; end M;",
        "package Q is procedure P; end Q; package body Q is protected Q_2 is procedure R; end Q_2; protected body Q_2 is procedure R is begin null; \
         end R; end Q_2; procedure P is begin Q_2.R; end P; end Q; with Q; procedure M is begin null; end M;",
    ),
    (
        "package Q is procedure P (X : Integer); X : Integer; end Q; package body Q is procedure P (X : Integer) is begin null; end P; end Q; with \
         Q; procedure M is begin null; end M;",
        "package Q is procedure P (X_2 : Integer); X : Integer; end Q; package body Q is procedure P (X_2 : Integer) is begin null; end P; end Q; \
         with Q; procedure M is begin null; end M;",
    ),
];

// Exceptions and lines of text.
const LINES: [Pair; 5] = [
    (
        "procedure P is begin raise E with \"late\"; end P;",
        "procedure P is begin raise E; end P;",
    ),
    (
        "procedure P is begin null; exception when X : others => null; end P;",
        "procedure P is begin null; exception when  others => null; end P;",
    ),
    (
        "procedure P is begin null; exception when X : others => F (X); end P;",
        "procedure P is begin null; exception when X : others => F (X); end P;",
    ),
    (
        "with Ada.Text_IO; procedure P is N : Natural; begin Ada.Text_IO.Put_Line (\"n =\" & Natural'Image (N)); end P;",
        "with Control_IO; with Ada.Text_IO; procedure P is N : Natural; begin Control_IO.Put (\"n_=\", N); end P;",
    ),
    (
        "with Ada.Text_IO; use Ada.Text_IO; procedure P is B : Boolean; begin Put_Line (\"never here\"); Put_Line (B'Img & \" \"\"or\"\" \" & \
         B'Img); end P;",
        "with Control_IO; with Ada.Text_IO; use Ada.Text_IO; procedure P is B : Boolean; begin Control_IO.Put (\"never_here\", 0); Control_IO.Put \
         (\"_\", (if B then 1 else 0)); Control_IO.Put (\"___or___\", (if B then 1 else 0)); end P;",
    ),
];

// Task types, suspension objects and arrays.
const TASKS: [Pair; 7] = [
    (
        "package Q is task type T (N : Positive; P : Integer) with Priority => P; A : T (1, 2); B : T (P => 4, N => 3); end Q; package body Q is \
         task body T is begin null; end T; end Q; with Q; procedure M is begin null; end M;",
        "package Q is  task A with Priority => 2; task B with Priority => 4; end Q; package body Q is procedure T_Body (N : Positive; P : Integer) \
         is begin null; end T_Body; task body A is begin T_Body (1, 2); end A; task body B is begin T_Body (3, 4); end B; end Q; with Q; procedure \
         M is begin null; end M;",
    ),
    (
        "package Q is task type T; end Q; package body Q is task body T is begin null; end T; A : T; end Q; with Q; procedure M is begin null; end M;",
        "package Q is  end Q; package body Q is procedure T_Body is begin null; end T_Body; task A; task body A is begin T_Body; end A; end Q; with \
         Q; procedure M is begin null; end M;",
    ),
    (
        "package Q is task type T; A : array (1 .. 2) of T; end Q; package body Q is task body T is begin null; end T; end Q; with Q; procedure M \
         is begin null; end M;",
        "package Q is task type T; type A_Type is array (1 .. 2) of T; A : A_Type; end Q; package body Q is task body T is begin null; end T; end \
         Q; with Q; procedure M is begin null; end M;",
    ),
    (
        "with Ada.Synchronous_Task_Control; use Ada.Synchronous_Task_Control; package Q is S : Suspension_Object; procedure P; end Q; package body \
         Q is procedure P is begin Set_True (S); Suspend_Until_True (S); end P; end Q; with Q; procedure M is begin null; end M;",
        "  package Q is protected S with Priority => 31 is procedure Set_True; procedure Set_False; function Current_State return Boolean; entry \
         Suspend_Until_True; private Is_Open : Boolean := False; end S; procedure P; end Q; package body Q is protected body S is procedure \
         Set_True is begin Is_Open := True; end Set_True; procedure Set_False is begin Is_Open := False; end Set_False; function Current_State \
         return Boolean is begin return Is_Open; end Current_State; entry Suspend_Until_True when Is_Open is begin Is_Open := False; end \
         Suspend_Until_True; end S; procedure P is begin S.Set_True; S.Suspend_Until_True; end P; end Q; with Q; procedure M is begin null; end M;",
    ),
    (
        "with Ada.Synchronous_Task_Control; use Ada.Synchronous_Task_Control; package Q is procedure P; end Q; package body Q is S : \
         Suspension_Object; procedure P is begin null; end P; end Q; with Q; procedure M is begin null; end M;",
        "  package Q is procedure P; end Q; package body Q is protected S with Priority => 31 is procedure Set_True; procedure Set_False; function \
         Current_State return Boolean; entry Suspend_Until_True; private Is_Open : Boolean := False; end S; protected body S is procedure Set_True \
         is begin Is_Open := True; end Set_True; procedure Set_False is begin Is_Open := False; end Set_False; function Current_State return \
         Boolean is begin return Is_Open; end Current_State; entry Suspend_Until_True when Is_Open is begin Is_Open := False; end \
         Suspend_Until_True; end S; procedure P is begin null; end P; end Q; with Q; procedure M is begin null; end M;",
    ),
    (
        "package Q is X : array (1 .. 3) of Integer; end Q;",
        "package Q is type X_Type is array (1 .. 3) of Integer; X : X_Type; end Q;",
    ),
    (
        "package body Q is\nprocedure P is\nX : constant array (1 .. 3) of Integer := F;\nbegin null; end P; end Q;",
        "package body Q is\ntype X_Type is array (1 .. 3) of Integer; procedure P is\nX : constant X_Type := F;\nbegin null; end P; end Q;",
    ),
];

// Functions with several statements.
const RESULTS: [Pair; 8] = [
    (
        "package body Q is function F (A : Integer) return Boolean is begin null; return A > 1; end F; procedure P (X : in out Integer) is begin if X = 1 \
         or else F (X) then X := 2; else X := 3; end if; end P; end Q;",
        "package body Q is procedure F (A : Integer; F_Result : out Boolean)   is begin null; F_Result := A > 1; return; end F; procedure P (X : in out \
         Integer) is Condition : Boolean; begin Condition := X = 1; if not Condition then F (X, Condition)  ; end if; if Condition then X := 2; else X := 3; \
         end if; end P; end Q;",
    ),
    (
        "package body Q is type T is array (1 .. 2) of Integer; V : T; function F (A : T) return Integer is begin return A (1); end F; procedure P (X : in \
         out Integer) is begin X := (if X > 1 then F (V) else 3); X := Integer'Max (F (V), 5); end P; end Q;",
        "package body Q is type T is array (1 .. 2) of Integer; V : T; procedure F (A : T; F_Result : out Integer)   is begin F_Result := A (1); return; end \
         F; procedure P (X : in out Integer) is F_Value : Integer; begin if X > 1 then F (V, X)  ; else X := 3; end if; F (V, F_Value)  ; X := (if F_Value > 5 \
         then F_Value else 5); end P; end Q;",
    ),
    (
        "package body Q is function F (A : T) return T is begin if A < 0 then return -A; end if; return A; end F; end Q;",
        "package body Q is function F (A : T) return T is begin return (if A < 0 then  -A   else A); end F; end Q;",
    ),
    (
        "package body Q is function F (A : T) return T is begin if A then return 1; elsif B then return 2; else return 3; end if; end F; end Q;",
        "package body Q is function F (A : T) return T is begin return (if A then  1 elsif B then  2 else  3  ); end F; end Q;",
    ),
    (
        "package body Q is function F (A : Integer) return Integer is B : Integer; begin B := A; return B; end F; procedure P (X : out Integer) is \
         begin X := F (1); end P; end Q;",
        "package body Q is procedure F (A : Integer; F_Result : out Integer)   is B : Integer; begin B := A; F_Result := B; return; end F; \
         procedure P (X : out Integer) is begin F (1, X)  ; end P; end Q;",
    ),
    (
        "package body Q is function F return Integer is begin null; return 1; end F; procedure P (X : out Integer) is begin X := F + 2; end P; end \
         Q;",
        "package body Q is procedure F (F_Result : out Integer)   is begin null; F_Result := 1; return; end F; procedure P (X : out Integer) is \
         F_Value : Integer; begin F (F_Value)  ; X := F_Value + 2; end P; end Q;",
    ),
    (
        "package body Q is function F (A : Integer) return Boolean is begin null; return A > 1; end F; procedure P (X : in out Integer) is begin if X = 1 \
         then null; elsif F (X) then X := 2; end if; while F (X) loop X := 3; end loop; end P; end Q;",
        "package body Q is procedure F (A : Integer; F_Result : out Boolean)   is begin null; F_Result := A > 1; return; end F; procedure P (X : in out \
         Integer) is F_Value : Boolean; F_Value_2 : Boolean; begin if X = 1 then null; else F (X, F_Value)  ; if F_Value then X := 2; end if; end if; loop F \
         (X, F_Value_2)  ; exit when not ( F_Value_2 ); X := 3; end loop; end P; end Q;",
    ),
    (
        "package body Q is function F (A : Integer) return Integer is begin null; return A; end F; procedure P (X : out Integer) is begin X := F (F (1)) + F \
         (2) + F (3); end P; end Q;",
        "package body Q is procedure F (A : Integer; F_Result : out Integer)   is begin null; F_Result := A; return; end F; procedure P (X : out Integer) is \
         F_Value : Integer; F_Value_2 : Integer; F_Value_3 : Integer; F_Operand : Integer; F_Value_4 : Integer; begin F (1, F_Value_2)  ; F (F_Value_2, \
         F_Value)  ; F (2, F_Value_3)  ; F_Operand := F_Value + F_Value_3; F (3, F_Value_4)  ; X := F_Operand + F_Value_4; end P; end Q;",
    ),
];

// First values of tasks and packages, and operations with time spans.
const TIMES: [Pair; 4] = [
    (
        "with Ada.Real_Time; use Ada.Real_Time; package body Q is task body T is N : Time := Clock + Milliseconds (1); begin delay until N; \
         exception when others => null; end T; end Q;",
        "with Ada.Real_Time; use Ada.Real_Time; package body Q is task body T is N : Time  ; begin N := Clock + Milliseconds (1); begin delay until \
         N; exception when others => null; end; end T; end Q;",
    ),
    (
        "with Ada.Real_Time; use Ada.Real_Time; package Q is S : constant Time := Clock + Milliseconds (1); task T with Priority => 3; end Q; \
         package body Q is task body T is begin null; end T; end Q; with Q; procedure M is begin null; end M;",
        "with Ada.Real_Time; use Ada.Real_Time; package Q is S :  Time  ; task T with Priority => 3; procedure Start; end Q; package body Q is task \
         body T is begin null; end T; procedure Start is begin S := Clock + Milliseconds (1); end Start; end Q; with Q; procedure M with Priority \
         => 4 is begin Q.Start; end M;",
    ),
    (
        "with Ada.Real_Time; use Ada.Real_Time; package body Q is procedure P (X : out Time_Span) is begin X := 2 * Milliseconds (10); X := Seconds \
         (1); end P; end Q;",
        "with Ada.Real_Time; use Ada.Real_Time; package body Q is procedure P (X : out Time_Span) is begin X := Microseconds (((10) * 1_000) * \
         (2)); X := Milliseconds ((1) * 1_000); end P; end Q;",
    ),
    (
        "with Ada.Real_Time; use Ada.Real_Time; package body Q is procedure P (X : Time; N : out Integer) is begin N := (Clock - X) / Microseconds \
         (2); end P; end Q;",
        "with Ada.Real_Time; use Ada.Real_Time; package body Q is function Microseconds_In (Span : Time_Span; Low : Integer; High : Integer) return \
         Integer is begin return (if High - Low < 2 then Low elsif Microseconds ((Low + High) / 2) <= Span then Microseconds_In (Span, (Low + \
         High) / 2, High) else Microseconds_In (Span, Low, (Low + High) / 2)); end Microseconds_In; procedure P (X : Time; N : out Integer) is \
         begin N := Microseconds_In ((Clock - X), -2305843009213693952, 2305843009213693952) / ((2) * 1); end P; end Q;",
    ),
];

// Aggregates, default values of components, and constant arrays.
const COMPOSITES: [Pair; 8] = [
    (
        "package body Q is type R is record A : Integer; B : Integer; end record; procedure P is X : R := (1, 2); Y : Integer := X.A; begin Y := X.B; \
         exception when others => null; end P; end Q;",
        "package body Q is type R is record A : Integer; B : Integer; end record; procedure P is X : R  ; begin X.A := 1; X.B := 2;  declare Y : Integer := \
         X.A; begin Y := X.B; exception when others => null; end; end P; end Q;",
    ),
    (
        "package body Q is type R is record A : Integer; B : Boolean; end record; procedure P is X : R; begin X := (1, True); X := (B => False, A \
         => 2); end P; end Q;",
        "package body Q is type R is record A : Integer; B : Boolean; end record; procedure P is X : R; begin X.A := 1; X.B := True;  X.A := 2; \
         X.B := False;  end P; end Q;",
    ),
    (
        "package body Q is type A is array (1 .. 3) of Integer; procedure P is X : A := (others => 0); begin null; end P; end Q;",
        "package body Q is type A is array (1 .. 3) of Integer; procedure P is X : A  ; begin for Place in X'First .. X'Last loop X (Place) := 0; \
         end loop;  null; end P; end Q;",
    ),
    (
        "package body Q is type R is record A : Integer; B : Boolean; end record; procedure P (X : R) is begin null; end P; procedure S is begin P \
         ((1, True)); end S; end Q;",
        "package body Q is type R is record A : Integer; B : Boolean; end record; procedure P (X : R) is begin null; end P; procedure S is R_Value \
         : R; begin R_Value.A := 1; R_Value.B := True; P (R_Value); end S; end Q;",
    ),
    (
        "package body Q is C : constant array (1 .. 2) of Integer := (5, 7); function F (N : Integer) return Integer is begin return C (N); end F; \
         end Q;",
        "package body Q is type C_Type is array (1 .. 2) of Integer; subtype C_Index is Integer range 1 .. 2; function C (Place : C_Index) return \
         Integer is begin return (if Place = C_Index'First + 0 then 5 else 7); end C; function F (N : Integer) return Integer is begin return C \
         (N); end F; end Q;",
    ),
    (
        "package body Q is type R is record A : Integer := 0; B : Boolean; end record; procedure P is X : R; begin null; end P; end Q;",
        "package body Q is type R is record A : Integer  ; B : Boolean; end record; procedure P is X : R  ; begin X.A := 0; X.B := False;  null; \
         end P; end Q;",
    ),
    (
        "package Q is type A is array (1 .. 2) of Integer; protected O is procedure S; private R : A := (others => 1); end O; task T; end Q; \
         package body Q is protected body O is procedure S is begin null; end S; end O; task body T is begin null; end T; end Q; with Q; procedure \
         M is begin null; end M;",
        "package Q is type A is array (1 .. 2) of Integer; protected O is procedure S; procedure R_Start; private R : A  ; end O; task T; \
         procedure Start; end Q; package body Q is protected body O is procedure S is begin null; end S; procedure R_Start is begin for Place in \
         R'First .. R'Last loop R (Place) := 1; end loop;  end R_Start; end O; task body T is begin null; end T; procedure Start is begin \
         O.R_Start; end Start; end Q; with Q; procedure M with Priority => 16 is begin Q.Start; end M;",
    ),
    (
        "package Q is type A is array (1 .. 2) of Positive; X : A := (others => 1); end Q;",
        "package Q is type A is array (1 .. 2) of Positive; X : A  ; end Q;",
    ),
];

// Aspects, and handlers of interrupts.
const ASPECTS: [Pair; 4] = [
    (
        "package Q is protected O with Interrupt_Priority => 31 is procedure S; end O; X : T := 0 with Atomic, Volatile; end Q;",
        "package Q is protected O with Priority => 31 is procedure S; end O; X : T := 0   ; end Q;",
    ),
    (
        "package Q is task T with Priority => 3, Storage_Size => 4096; procedure P with Pre => A, Post => B; end Q;",
        "package Q is task T with Priority => 3 ; procedure P   ; end Q;",
    ),
    (
        "package Q is protected O with Interrupt_Priority is pragma Attach_Handler (H, 3); procedure H; end O; end Q;",
        "package Q is protected O with Priority => 31 is  procedure H with Attach_Handler => 3; end O; end Q;",
    ),
    (
        "with Ada.Interrupts.Names; use Ada.Interrupts.Names; package Q is protected O is procedure H with Attach_Handler => SIGHUP; procedure K with \
         Attach_Handler => Ada.Interrupts.Names.SIGINT; end O; end Q;",
        "with Ada.Interrupts.Names; use Ada.Interrupts.Names; package Q is protected O is procedure H with Attach_Handler => 1; procedure K with \
         Attach_Handler => 2; end O; end Q;",
    ),
];

// Named numbers beside other types, and powers.
const NUMBERS: [Pair; 3] = [
    (
        "package Q is N : constant := 8; type S is range 0 .. 9; X : S := N; Y : Integer := N; end Q;",
        "package Q is N : constant Integer := 8; type S is range 0 .. 9; X : S := 8; Y : Integer := N; end Q;",
    ),
    (
        "package body Q is M : constant := 4; N : constant := M + 1; type S is range 0 .. 9; X : S; procedure P is begin if X > N then X := X - M; end if; \
         end P; end Q;",
        "package body Q is M : constant Integer := 4; N : constant Integer := 4 + 1; type S is range 0 .. 9; X : S; procedure P is begin if X > 5 then X := \
         X - 4; end if; end P; end Q;",
    ),
    (
        "procedure P is N : constant Integer := 2 ** 10; begin X := (-2) ** 3; end P;",
        "procedure P is N : constant Integer := 1024; begin X := (-8); end P;",
    ),
];

// Ranges of objects, loops and indexes.
const RANGES: [Pair; 4] = [
    (
        "package body Q is X : Integer range 0 .. 9 := 1; procedure P is Y : Natural range 1 .. 3; begin null; end P; end Q;",
        "package body Q is subtype X_Subtype is Integer range 0 .. 9; X : X_Subtype := 1; subtype Y_Subtype is Natural range 1 .. 3; procedure P is Y : \
         Y_Subtype; begin null; end P; end Q;",
    ),
    (
        "package body Q is type D is (A, B, C); procedure P is begin for I in D range A .. B loop null; end loop; for K in Integer range 1 .. 3 loop null; \
         end loop; end P; end Q;",
        "package body Q is type D is range 0 .. 2; A : constant D := 0; B : constant D := 1; C : constant D := 2; procedure P is begin for I in A .. B loop \
         null; end loop; for K in 1 .. 3 loop null; end loop; end P; end Q;",
    ),
    (
        "package Q is type D is range 0 .. 9; type A is array (D range 1 .. 3) of Integer; type B is array (Integer range 1 .. 3) of D; end Q;",
        "package Q is type D is range 0 .. 9; subtype D_Index is D range 1 .. 3; type A is array (D_Index) of Integer; type B is array (1 .. 3) of D; end Q;",
    ),
    (
        "package body Q is procedure P is begin A : loop loop exit A when B; exit A; end loop; end loop A; end P; end Q;",
        "package body Q is procedure P is A_Done : Boolean; begin   loop A_Done := False; loop if B then A_Done := True; exit; end if; A_Done := True; exit; \
         end loop; exit  when A_Done; end loop ; end P; end Q;",
    ),
];

// Default values of components of components, and equality.
const RECORDS: [Pair; 3] = [
    (
        "package body Q is type R is record A : Integer := 1; end record; type V is array (1 .. 2) of R; procedure P is X : V; begin null; end P; end Q;",
        "package body Q is type R is record A : Integer  ; end record; type V is array (1 .. 2) of R; procedure P is X : V  ; begin for Place in X'First .. \
         X'Last loop X (Place).A := 1;  end loop;  null; end P; end Q;",
    ),
    (
        "package Q is type R is record A : Natural := 0; end record; type V is array (1 .. 2) of R; X : V; end Q;",
        "package Q is type R is record A : Natural  ; end record; type V is array (1 .. 2) of R; X : V  ; end Q;",
    ),
    (
        "package body Q is type R is record A : Integer; B : Boolean; end record; X, Y : R; procedure P is begin if X = Y or X /= Y then null; end if; end \
         P; end Q;",
        "package body Q is type R is record A : Integer; B : Boolean; end record; X : R; Y : R; procedure P is begin if (X.A = Y.A and then X.B = Y.B) or \
         (X.A /= Y.A or else X.B /= Y.B) then null; end if; end P; end Q;",
    ),
];

// Formal parameters, and where subprograms are.
const SUBPROGRAMS: [Pair; 6] = [
    (
        "package body Q is procedure P (A : Integer := 1) is begin null; end P; procedure R is begin P; end R; end Q;",
        "package body Q is procedure P (A : Integer  ) is begin null; end P; procedure R is begin P (1); end R; end Q;",
    ),
    (
        "package Q is function F (A : T) return T is (A + 1); procedure N is null; end Q; package body Q is end Q;",
        "package Q is function F (A : T) return T ; procedure N ; end Q; package body Q is procedure N is begin null; end N; function F (A : T) return T is \
         begin return (A + 1); end F; end Q;",
    ),
    (
        "package body Q is procedure P is type S is range 1 .. 3; procedure N (A : S) is begin null; end N; begin N (2); end P; end Q;",
        "package body Q is type S is range 1 .. 3; procedure N (A : S) is begin null; end N; procedure P is   begin N (2); end P; end Q;",
    ),
    (
        "package Q is X : Integer; end Q; package body Q is begin X := 1; end Q; with Q; procedure M is begin null; end M;",
        "package Q is X : Integer; procedure Start; end Q; package body Q is procedure Start is begin X := 1; end Start; end Q; with Q; procedure M with \
         Priority => 1 is begin Q.Start; end M;",
    ),
    (
        "package Q is X : Integer; procedure P; end Q; package body Q is procedure P is begin null; end P; begin X := 1; end Q; with Q; procedure M is begin \
         Q.P; end M;",
        "package Q is X : Integer; procedure P; procedure Start; end Q; package body Q is procedure P is begin null; end P; procedure Start is begin X := 1; \
         end Start; end Q; with Q; procedure M is begin Q.Start; Q.P; end M;",
    ),
    (
        "package body Q is procedure P is type S is range 1 .. 3; X : S; begin null; end P; procedure R is type S is range 1 .. 9; X : S; begin null; end R; \
         end Q;",
        "package body Q is type S_2 is range 1 .. 3; procedure P is  X : S_2; begin null; end P; type S is range 1 .. 9; procedure R is  X : S; begin null; \
         end R; end Q;",
    ),
];

/// A text, and what is wrong with it.
type Row = (&'static str, Fault);

const REFUSED: [Row; 5] = [
    (
        "package Q is Pi : constant := 3.14; end Q;",
        Fault {
            kind: FaultKind::RealNumber,
            place: 30,
        },
    ),
    (
        "package Q is N : constant := 2 ** 63; end Q;",
        Fault {
            kind: FaultKind::NumberOutOfRange,
            place: 29,
        },
    ),
    (
        "package Q is N : constant := 1 / 0; end Q;",
        Fault {
            kind: FaultKind::NumberOutOfRange,
            place: 29,
        },
    ),
    (
        "procedure P is begin X := 17#1#; end P;",
        Fault {
            kind: FaultKind::Spelling(SpellingFault::WrongBase),
            place: 26,
        },
    ),
    (
        "procedure P is begin null end P;",
        Fault {
            kind: FaultKind::Syntax(SyntaxFault::Unexpected(Expected::Delimiter(
                Delimiter::Semicolon,
            ))),
            place: 26,
        },
    ),
];

// Is the text lowered to this one?
fn is_lowered_to(alloc: Global, text: &str, lowered: &str) -> bool {
    match lower(alloc, text.as_bytes()) {
        Ok(found) => found.text.as_slice() == lowered.as_bytes(),
        Err(_) => false,
    }
}

// Are all texts lowered to those beside them?
fn are_lowered(alloc: Global, pairs: &[Pair]) -> bool {
    pairs
        .iter()
        .all(|(text, lowered)| is_lowered_to(alloc, text, lowered))
}

// What is wrong with a text, none where it is lowered.
fn fault_in(alloc: Global, text: &str) -> Option<Fault> {
    match lower(alloc, text.as_bytes()) {
        Ok(_) => None,
        Err(fault) => Some(fault),
    }
}

// Is this pragma left out at the place, and is nothing else said?
fn notes_pragma(notes: &[Note], name: &str, place: u32) -> bool {
    match notes {
        [note] => match &note.kind {
            NoteKind::PragmaLeftOut(own) => {
                own.as_bytes() == name.as_bytes() && note.place == place
            }
            _ => false,
        },
        _ => false,
    }
}

#[test]
fn declarations_are_lowered(rt: HostRuntime) -> Result<(), Fail> {
    assert!(rt; are_lowered(rt.alloc(), &DECLARATIONS));
    Ok(())
}

#[test]
fn values_are_lowered(rt: HostRuntime) -> Result<(), Fail> {
    assert!(rt; are_lowered(rt.alloc(), &VALUES));
    Ok(())
}

#[test]
fn names_are_lowered(rt: HostRuntime) -> Result<(), Fail> {
    assert!(rt; are_lowered(rt.alloc(), &NAMES));
    Ok(())
}

#[test]
fn units_are_lowered(rt: HostRuntime) -> Result<(), Fail> {
    assert!(rt; are_lowered(rt.alloc(), &UNITS));
    Ok(())
}

#[test]
fn clashes_are_lowered(rt: HostRuntime) -> Result<(), Fail> {
    assert!(rt; are_lowered(rt.alloc(), &CLASHES));
    Ok(())
}

#[test]
fn lines_are_lowered(rt: HostRuntime) -> Result<(), Fail> {
    assert!(rt; are_lowered(rt.alloc(), &LINES));
    Ok(())
}

#[test]
fn tasks_are_lowered(rt: HostRuntime) -> Result<(), Fail> {
    assert!(rt; are_lowered(rt.alloc(), &TASKS));
    Ok(())
}

#[test]
fn results_are_lowered(rt: HostRuntime) -> Result<(), Fail> {
    assert!(rt; are_lowered(rt.alloc(), &RESULTS));
    Ok(())
}

#[test]
fn times_are_lowered(rt: HostRuntime) -> Result<(), Fail> {
    assert!(rt; are_lowered(rt.alloc(), &TIMES));
    Ok(())
}

#[test]
fn composites_are_lowered(rt: HostRuntime) -> Result<(), Fail> {
    assert!(rt; are_lowered(rt.alloc(), &COMPOSITES));
    Ok(())
}

#[test]
fn enumerations_are_lowered(rt: HostRuntime) -> Result<(), Fail> {
    assert!(rt; are_lowered(rt.alloc(), &ENUMERATIONS));
    Ok(())
}

#[test]
fn loops_are_lowered(rt: HostRuntime) -> Result<(), Fail> {
    assert!(rt; are_lowered(rt.alloc(), &LOOPS));
    Ok(())
}

#[test]
fn expressions_are_lowered(rt: HostRuntime) -> Result<(), Fail> {
    assert!(rt; are_lowered(rt.alloc(), &EXPRESSIONS));
    Ok(())
}

#[test]
fn attributes_are_lowered(rt: HostRuntime) -> Result<(), Fail> {
    assert!(rt; are_lowered(rt.alloc(), &ATTRIBUTES));
    Ok(())
}

#[test]
fn modular_types_are_lowered(rt: HostRuntime) -> Result<(), Fail> {
    assert!(rt; are_lowered(rt.alloc(), &MODULAR_TYPES));
    Ok(())
}

#[test]
fn aspects_are_lowered(rt: HostRuntime) -> Result<(), Fail> {
    assert!(rt; are_lowered(rt.alloc(), &ASPECTS));
    Ok(())
}

#[test]
fn numbers_are_lowered(rt: HostRuntime) -> Result<(), Fail> {
    assert!(rt; are_lowered(rt.alloc(), &NUMBERS));
    Ok(())
}

#[test]
fn ranges_are_lowered(rt: HostRuntime) -> Result<(), Fail> {
    assert!(rt; are_lowered(rt.alloc(), &RANGES));
    Ok(())
}

#[test]
fn records_are_lowered(rt: HostRuntime) -> Result<(), Fail> {
    assert!(rt; are_lowered(rt.alloc(), &RECORDS));
    Ok(())
}

#[test]
fn subprograms_are_lowered(rt: HostRuntime) -> Result<(), Fail> {
    assert!(rt; are_lowered(rt.alloc(), &SUBPROGRAMS));
    Ok(())
}

#[test]
fn texts_are_refused(rt: HostRuntime) -> Result<(), Fail> {
    for (text, fault) in &REFUSED {
        assert!(rt; fault_in(rt.alloc(), text) == Some(*fault));
    }
    Ok(())
}

// The pragma is found in the second round: the place is that in the text which was given.
#[test]
fn notes_have_places_of_the_text(rt: HostRuntime) -> Result<(), Fail> {
    let Ok(lowered) = lower(
        rt.alloc(),
        "package Q is A, B : T := 1; pragma Inline (F); end;".as_bytes(),
    ) else {
        panic!(rt; "no memory");
    };
    assert!(rt; notes_pragma(&lowered.notes, "INLINE", 28));
    Ok(())
}
