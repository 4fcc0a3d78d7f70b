//! What breaks the restrictions of the profile.
ghost use Rattle.std.specs.Prelude.{◌≡◌, option_map};
ghost use Rattle.diagnostics.specs.explanations.Explained.{of_restrictions};

pub(crate) fn explanation(number: u64) -> Option<&'static str>
    ensures { option_map (λ text. text.now) result ≡ of_restrictions number }
{
    match number {
        30 => Some(LOCAL_TASKING),
        31 => Some(SECOND_ENTRY),
        32 => Some(TASK_ENTRY),
        33 => Some(WRONG_BARRIER),
        34 => Some(RELATIVE_DELAY),
        35 => Some(SELECT_STATEMENT),
        36 => Some(ABORT_STATEMENT),
        37 => Some(REQUEUE_STATEMENT),
        38 => Some(WRONG_ASPECT),
        39 => Some(WRONG_PRAGMAS),
        _ => None,
    }
}

const LOCAL_TASKING: &str = "\
30 A task or protected object in a body

Tasks and protected objects are declared in the package, not in a body or a block (RM D.7, \
No_Task_Hierarchy and No_Local_Protected_Objects).

    pragma Profile (Ravenscar);
    package App is
       procedure Run;
    end App;
    package body App is
       procedure Run is
          task Helper;
       begin
          null;
       end Run;
    end App;
    with App;
    procedure Main is begin App.Run; end Main;

fault 30 at 7:7

The place is the first byte of the declaration, which is refused whole. Declare the task in the \
package, with its body there.
";

const SECOND_ENTRY: &str = "\
31 A second entry

A protected object has one entry at most (RM D.7, Max_Protected_Entries).

    pragma Profile (Ravenscar);
    package App is
       protected Store is
          entry Put_One;
          entry Take_One;
       private
          Full : Boolean := False;
       end Store;
       procedure Run;
    end App;
    package body App is
       protected body Store is
          entry Put_One when Full is begin Full := False; end Put_One;
          entry Take_One when Full is begin Full := False; end Take_One;
       end Store;
       procedure Run is begin null; end Run;
    end App;
    with App;
    procedure Main is begin App.Run; end Main;

fault 31 at 5:7

The place is each entry after the first. Use two objects, or a procedure for one of the two.
";

const TASK_ENTRY: &str = "\
32 An entry of a task

A task has no entries, and there is no `accept` (RM D.7, Max_Task_Entries).

    pragma Profile (Ravenscar);
    package App is
       task Server is
          entry Start;
       end Server;
       procedure Run;
    end App;
    package body App is
       task body Server is begin null; end Server;
       procedure Run is begin null; end Run;
    end App;
    with App;
    procedure Main is begin App.Run; end Main;

fault 32 at 4:7

The place is the entry, or the `accept`. Let the tasks meet at the entry of a protected object.
";

const WRONG_BARRIER: &str = "\
33 A barrier that is no component

A barrier is the bare name of a Boolean component of its object, or True or False: no expression, \
no parentheses (RM D.7, Simple_Barriers).

    pragma Profile (Ravenscar);
    package App is
       protected Gate is
          entry Pass;
       private
          Shut : Boolean := False;
       end Gate;
       procedure Run;
    end App;
    package body App is
       protected body Gate is
          entry Pass when not Shut is begin null; end Pass;
       end Gate;
       procedure Run is begin null; end Run;
    end App;
    with App;
    procedure Main is begin App.Run; end Main;

fault 33 at 12:23

The place is the barrier. Keep a component `Is_Open`, and set it where `Shut` was set.
";

const RELATIVE_DELAY: &str = "\
34 A relative delay

A task waits by `delay until` alone (RM D.7, No_Relative_Delay).

    pragma Profile (Ravenscar);
    package App is
       procedure Run;
    end App;
    package body App is
       procedure Run is
       begin
          delay 5;
       end Run;
    end App;
    with App;
    procedure Main is begin App.Run; end Main;

fault 34 at 8:7

The place is the statement. With Ada.Real_Time write `delay until Clock + Milliseconds (5_000);`. \
There are no real numbers, so `delay 0.5;` is refused before, by 6.
";

const SELECT_STATEMENT: &str = "\
35 A select

There is no `select` (RM D.7, No_Select_Statements).

    pragma Profile (Ravenscar);
    package App is
       procedure Run;
    end App;
    package body App is
       procedure Run is
       begin
          select null; end select;
       end Run;
    end App;
    with App;
    procedure Main is begin App.Run; end Main;

fault 35 at 8:7

The place is the statement. A call of an entry waits until it is served; a task that is to do \
something else meanwhile is a task of its own.
";

const ABORT_STATEMENT: &str = "\
36 An abort

There is no `abort` (RM D.7, No_Abort_Statements).

    pragma Profile (Ravenscar);
    package App is
       task Helper;
       procedure Run;
    end App;
    package body App is
       task body Helper is begin loop null; end loop; end Helper;
       procedure Run is
       begin
          abort Helper;
       end Run;
    end App;
    with App;
    procedure Main is begin App.Run; end Main;

fault 36 at 10:7

The place is the statement. Let the task ask a protected object whether it is to end.
";

const REQUEUE_STATEMENT: &str = "\
37 A requeue

There is no `requeue` (RM D.7, No_Requeue_Statements).

    pragma Profile (Ravenscar);
    package App is
       protected Gate is
          entry Pass;
       private
          Is_Open : Boolean := False;
       end Gate;
       procedure Run;
    end App;
    package body App is
       protected body Gate is
          entry Pass when Is_Open is begin requeue Pass; end Pass;
       end Gate;
       procedure Run is begin null; end Run;
    end App;
    with App;
    procedure Main is begin App.Run; end Main;

fault 37 at 12:40

The place is the statement. Let the caller call again.
";

const WRONG_ASPECT: &str = "\
38 A wrong aspect

The aspect of a task or main is Priority, with a static Integer from 0 to 30, that of a protected \
object likewise, to 31, and that of a protected object's subprogram is Attach_Handler (RM C.3.1, \
D.1, D.3; other aspects are no part of this language).

    pragma Profile (Ravenscar);
    package App is
       task Helper with Priority => 40;
       procedure Run;
    end App;
    package body App is
       task body Helper is begin null; end Helper;
       procedure Run is begin null; end Run;
    end App;
    with App;
    procedure Main is begin App.Run; end Main;

fault 38 at 3:16

The place is the aspect's `with`. Write a number from 0 to 30, or a constant of the package.
";

const WRONG_PRAGMAS: &str = "\
39 Other pragmas

A text begins with `pragma Profile (Ravenscar);`, and after it stands `pragma \
Partition_Elaboration_Policy (Sequential);` or no further pragma (RM D.13, H.6).

    procedure Main is begin null; end Main;

fault 39 at 1:1

The place is the first token that is another one than is asked for: here that where the pragma \
should stand, else the name or the argument of a pragma, or a third `pragma`.
";
