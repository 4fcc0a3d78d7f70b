//! What breaks the rules of handlers of interrupts.
ghost use Rattle.std.specs.Prelude.{◌≡◌, option_map};
ghost use Rattle.diagnostics.specs.explanations.Explained.{of_handlers};

pub(crate) fn explanation(number: u64) -> Option<&'static str>
    ensures { option_map (λ text. text.now) result ≡ of_handlers number }
{
    match number {
        70 => Some(HANDLER_PROFILE),
        71 => Some(WRONG_INTERRUPT),
        72 => Some(SECOND_HANDLER),
        73 => Some(HANDLER_CEILING),
        _ => None,
    }
}

const HANDLER_PROFILE: &str = "\
70 A handler with parameters or a result

What handles an interrupt is a procedure of a protected object without parameters (RM C.3.1).

    pragma Profile (Ravenscar);
    package App is
       protected Box is
          procedure Handle (N : Integer) with Attach_Handler => 1;
       end Box;
       procedure Run;
    end App;
    package body App is
       protected body Box is
          procedure Handle (N : Integer) is begin null; end Handle;
       end Box;
       procedure Run is begin null; end Run;
    end App;
    with App;
    procedure Main is begin App.Run; end Main;

fault 70 at 4:38

The place is the aspect's `with`. Read the channel in the procedure, `N := Read (1);`, and keep \
what was read in a component.
";

const WRONG_INTERRUPT: &str = "\
71 No such interrupt

The interrupt of a handler is that of a channel, a static Integer from 1 to 8 (RM C.3.1).

    pragma Profile (Ravenscar);
    package App is
       protected Box is
          procedure Handle with Attach_Handler => 9;
       end Box;
       procedure Run;
    end App;
    package body App is
       protected body Box is
          procedure Handle is begin null; end Handle;
       end Box;
       procedure Run is begin null; end Run;
    end App;
    with App;
    procedure Main is begin App.Run; end Main;

fault 71 at 4:47

The place is the expression. Write the channel's number, or a constant of the package.
";

const SECOND_HANDLER: &str = "\
72 A second handler of a channel

A channel has one handler at most (RM C.3.1).

    pragma Profile (Ravenscar);
    package App is
       protected Box is
          procedure First with Attach_Handler => 1;
          procedure Second with Attach_Handler => 1;
       end Box;
       procedure Run;
    end App;
    package body App is
       protected body Box is
          procedure First is begin null; end First;
          procedure Second is begin null; end Second;
       end Box;
       procedure Run is begin null; end Run;
    end App;
    with App;
    procedure Main is begin App.Run; end Main;

fault 72 at 5:24

The place is the `with` of the second aspect, in the order of the text, also where the first one \
is of another object. Call the second procedure in the first one.
";

const HANDLER_CEILING: &str = "\
73 A ceiling below interrupts

A protected object with a handler has the priority 31, above all tasks (RM C.3.1, D.3).

    pragma Profile (Ravenscar);
    package App is
       protected Box with Priority => 20 is
          procedure Handle with Attach_Handler => 1;
       end Box;
       procedure Run;
    end App;
    package body App is
       protected body Box is
          procedure Handle is begin null; end Handle;
       end Box;
       procedure Run is begin null; end Run;
    end App;
    with App;
    procedure Main is begin App.Run; end Main;

fault 73 at 3:18

The place is the `with` of the object's aspect. Write 31, or leave the aspect out: the object's \
priority is 31 then.
";
