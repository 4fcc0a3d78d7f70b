//! What breaks the rules of the language.
ghost use Rattle.std.specs.Prelude.{◌≡◌, option_map};
ghost use Rattle.diagnostics.specs.explanations.Explained.{of_rules};

pub(crate) fn explanation(number: u64) -> Option<&'static str>
    ensures { option_map (λ text. text.now) result ≡ of_rules number }
{
    match number {
        10 => Some(NAME_NOT_VISIBLE),
        11 => Some(DECLARED_TWICE),
        12 => Some(NO_MEANING),
        13 => Some(NOT_A_VARIABLE),
        14 => Some(NOT_STATIC),
        15 => Some(WRONG_STATIC_VALUE),
        16 => Some(WRONG_ARGUMENT_COUNT),
        17 => Some(WRONG_CHOICES),
        18 => Some(UNMATCHED_BODY),
        19 => Some(MISPLACED_STATEMENT),
        20 => Some(WRONG_HANDLER),
        21 => Some(WRONG_FUNCTION),
        22 => Some(WRONG_END_NAME),
        23 => Some(LIMIT_PASSED),
        _ => None,
    }
}

const NAME_NOT_VISIBLE: &str = "\
10 A name is not visible

A name is used where nothing visible has it, or after a record, protected object or task that has \
no such part (RM 8.3, 4.1.3); a `with` names a unit that is not there, and a `use` another one \
than its `with` (RM 10.1.2).

    pragma Profile (Ravenscar);
    package App is
       procedure Run;
    end App;
    package body App is
       procedure Run is begin Count := 1; end Run;
    end App;
    with App;
    procedure Main is begin App.Run; end Main;

fault 10 at 6:27

The place is the name. Declare it before: `Count : Integer;`. A name is visible from the end of \
its declaration.
";

const DECLARED_TWICE: &str = "\
11 A name is declared twice

What is declared has the name of something that is visible there (RM 8.3): no declaration hides \
another one. Two parts of a record or of a protected object, and a part and what is declared \
between the object and its body, have different names too. Main is not named like the package or a \
task.

    pragma Profile (Ravenscar);
    package App is
       Count : Integer;
       procedure Run;
    end App;
    package body App is
       procedure Run is Count : Integer; begin Count := 1; end Run;
    end App;
    with App;
    procedure Main is begin App.Run; end Main;

fault 11 at 7:21

The place is the second of the two; `adarun explain 11 SRC` says where the first one is. Give \
it another name, as `Own_Count`.
";

const NO_MEANING: &str = "\
12 A type or meaning is wrong

An expression is of another type than is expected, or an operator, a call or a name has no meaning \
where it stands (RM 4.5, 8.6).

    pragma Profile (Ravenscar);
    package App is
       type Small is range 0 .. 9;
       Digit : Small;
       procedure Run;
    end App;
    package body App is
       procedure Run is N : Integer; begin N := Digit; end Run;
    end App;
    with App;
    procedure Main is begin App.Run; end Main;

fault 12 at 8:45

The place is the expression, which for an operator is the whole operation; `adarun explain 12 SRC` \
gives the type that is expected and the one that is found, and where they are declared. Between \
integer types convert: `N := Integer (Digit);`. A Boolean where a number is wanted is written \
`(if B then 1 else 0)`, or the variable is declared Boolean (`X := True;` with X an Integer); a \
number where a Boolean is wanted is compared, `N > 0`.
";

const NOT_A_VARIABLE: &str = "\
13 No variable

A constant, a loop parameter, an `in` formal, or a component in the body of a protected function \
is to be changed (RM 3.3, 5.2).

    pragma Profile (Ravenscar);
    package App is
       procedure Run;
    end App;
    package body App is
       procedure Run is begin
          for I in 1 .. 3 loop
             I := I + 1;
          end loop;
       end Run;
    end App;
    with App;
    procedure Main is begin App.Run; end Main;

fault 13 at 8:10

The place is the name. Use a variable of its own, and a `while` loop for steps of another size.
";

const NOT_STATIC: &str = "\
14 An expression is not static

Bounds of types, choices of a `case`, and the initial values of the package, of task bodies and of \
protected objects are static (RM 4.9); a constant has an initial value.

    pragma Profile (Ravenscar);
    package App is
       Size : Integer := 4;
       type Row is array (1 .. Size) of Integer;
       procedure Run;
    end App;
    package body App is
       procedure Run is begin null; end Run;
    end App;
    with App;
    procedure Main is begin App.Run; end Main;

fault 14 at 4:28

The place is the expression. Declare a constant: `Size : constant Integer := 4;`.
";

const WRONG_STATIC_VALUE: &str = "\
15 A static value is wrong

The value of an expression that is to be static raises an exception or lies outside its subtype \
(RM 4.9), or a range that is declared is null.

    pragma Profile (Ravenscar);
    package App is
       type Small is range 0 .. 9;
       Digit : Small := 10;
       procedure Run;
    end App;
    package body App is
       procedure Run is begin null; end Run;
    end App;
    with App;
    procedure Main is begin App.Run; end Main;

fault 15 at 4:21

The place is the expression; of a null range, its first bound. Take a value of the subtype, or a \
larger range.
";

const WRONG_ARGUMENT_COUNT: &str = "\
16 The number of arguments is wrong

A call has as many actual parameters as the subprogram has formals (RM 6.4); `Put` has a label and \
a value.

    pragma Profile (Ravenscar);
    package App is
       procedure Run;
    end App;
    package body App is
       function Twice (N : Integer) return Integer is begin return 2 * N; end Twice;
       procedure Run is N : Integer := Twice; begin null; end Run;
    end App;
    with App;
    procedure Main is begin App.Run; end Main;

fault 16 at 7:36

The place is the name that is called; `adarun explain 16 SRC` says how many actual and formal \
parameters there are. Write `Twice (3)`; there are no default values.
";

const WRONG_CHOICES: &str = "\
17 A case is incomplete

No value is chosen twice, and `others` stands once, last (RM 5.4). It is asked for also where the \
other choices have all values.

    pragma Profile (Ravenscar);
    package App is
       procedure Run;
    end App;
    package body App is
       procedure Run is N : Integer := 3; begin
          case N is
             when 1 | 2 => null;
             when 2 => N := 1;
             when others => N := 0;
          end case;
       end Run;
    end App;
    with App;
    procedure Main is begin App.Run; end Main;

fault 17 at 9:15

The place is the second choice of the value, an `others` that does not stand last, or `case` where \
there is none. Leave the second choice out.
";

const UNMATCHED_BODY: &str = "\
18 A body doesn't belong to its declaration

Each procedure, function, task, protected object and operation that is declared has one body \
after it, with the same formals and result (RM 3.11.1, 6.3.1, 7.2, 9.1, 9.4); bodies of tasks, \
protected objects and entries have a declaration. Something in the specification of a package has \
a body.

    pragma Profile (Ravenscar);
    package App is
       procedure Run;
       procedure Walk;
    end App;
    package body App is
       procedure Run is begin null; end Run;
    end App;
    with App;
    procedure Main is begin App.Run; end Main;

fault 18 at 4:14

The place is the name in the declaration where the body is missing, and else the name of the body; \
`adarun explain 18 SRC` says which of these cases it is, and where the declaration is, or the \
earlier body that has the name. Write the body of `Walk`.
";

const MISPLACED_STATEMENT: &str = "\
19 A statement is misplaced

`exit` stands in a loop (RM 5.7), `return;` in a procedure or the body of an entry, `return` with \
a value in a function (RM 6.5), and `raise;` in a handler (RM 11.3).

    pragma Profile (Ravenscar);
    package App is
       procedure Run;
    end App;
    package body App is
       procedure Run is N : Integer := 1; begin
          if N = 1 then exit; end if;
       end Run;
    end App;
    with App;
    procedure Main is begin App.Run; end Main;

fault 19 at 7:21

The place is the statement. To leave a procedure write `return;`.
";

const WRONG_HANDLER: &str = "\
20 A handler's choice is wrong

A handler names exceptions, none of them twice in one sequence of handlers; `others` stands alone \
and last (RM 11.2).

    pragma Profile (Ravenscar);
    package App is
       Bad : exception;
       procedure Run;
    end App;
    package body App is
       procedure Run is begin
          raise Bad;
       exception
          when Bad => null;
          when Bad => raise;
       end Run;
    end App;
    with App;
    procedure Main is begin App.Run; end Main;

fault 20 at 11:12

The place is the choice. Join the two handlers.
";

const WRONG_FUNCTION: &str = "\
21 A function is of another form

The formals of a function are `in` and scalar, as is its result, and its body is one `return` with \
a value, without declarations and handlers (RM 6.1, 6.5; this language asks for more than the \
standard).

    pragma Profile (Ravenscar);
    package App is
       procedure Run;
    end App;
    package body App is
       function Larger (A : Integer; B : Integer) return Integer is
       begin
          if A > B then return A; end if;
          return B;
       end Larger;
       procedure Run is N : Integer := Larger (1, 2); begin null; end Run;
    end App;
    with App;
    procedure Main is begin App.Run; end Main;

fault 21 at 6:13

The place is the function's name. Write `return (if A > B then A else B);`, or a procedure with an \
`out` formal.
";

const WRONG_END_NAME: &str = "\
22 Another name after `end`

After the `end` of a body, a specification, a task or a protected object stands its own name (RM \
6.3, 7.1, 9.1, 9.4).

    pragma Profile (Ravenscar);
    procedure Main is begin null; end Mane;

fault 22 at 2:35

The place is the name after `end`; `adarun explain 22 SRC` gives the name that is wanted. Write \
`end Main;`.
";

const LIMIT_PASSED: &str = "\
23 A limit is passed

Programs have the limits of docs/LANGUAGE.md (\"Limits\"): so many tasks, protected objects, \
subprograms, exceptions, labels, formals, components of an array, words of the package and of a \
frame.

    pragma Profile (Ravenscar);
    package App is
       type Row is array (0 .. 1_024) of Integer;
       procedure Run;
    end App;
    package body App is
       procedure Run is begin null; end Run;
    end App;
    with App;
    procedure Main is begin App.Run; end Main;

fault 23 at 3:23

The place is what passes the limit: here the range of an array with 1,025 components. Where the \
code of a legal program passes a limit of images (docs/FORMATS.md, \"Limits\"), the place is \
main's first byte, and `adarun explain 23 SRC` names the body with which it is passed: make the \
program smaller; declare arrays and records of more than 255 words in the package and not in a \
body, and assign large ones from variables by name.
";
