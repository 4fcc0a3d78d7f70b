//! Where statements leave what is around them.
ghost use Rattle.std.specs.Prelude.{◌≡◌};
ghost use Rattle.part_code.specs.Emitting.{ways_of};
ghost use Rattle.part_code.specs.Statements.{with_exit, within_handler};

/// The ways out of a statement, as places of code: after the innermost loop (RM 5.7), and to the end of the body (RM 6.5); and the word of the frame that
/// holds the exception of the innermost handler (RM 11.3). Each is None where there is none.
#[derive(Clone, Copy, PartialEq, Eq, Debug)]
pub struct Leaving {
    pub exit: Option<u16>,
    pub return_: Option<u16>,
    pub handled: Option<u16>,
}

impl Leaving {
    /// The ways out in a loop with this way out, if it has one.
    pub fn in_loop(self, exit: Option<u16>) -> Leaving
        ensures { ways_of result ≡ with_exit exit (ways_of self) }
    {
        Leaving {
            exit,
            return_: self.return_,
            handled: self.handled,
        }
    }
    /// The ways out in a handler whose exception this word holds.
    pub fn in_handler(self, word: u16) -> Leaving
        ensures { ways_of result ≡ within_handler word (ways_of self) }
    {
        Leaving {
            exit: self.exit,
            return_: self.return_,
            handled: Some(word),
        }
    }
}
