//! What is around a statement.
ghost use Rattle.std.specs.Prelude.{◌≡◌};
ghost use Rattle.stmt_rules.specs.StatementRules.{in_body, in_handler, in_loop};

/// The kind of body that a statement is in (RM 6.3, 9.1, 9.5.2).
#[derive(Clone, Copy, Debug, PartialEq, Eq)]
pub enum BodyKind {
    Procedure,
    /// The number of the result's type, if it is known.
    Function(Option<usize>),
    Entry,
    Task,
}

/// What is around a statement.
#[derive(Clone, Copy, Debug, PartialEq, Eq)]
pub struct Around {
    pub kind: BodyKind,
    /// Whether a loop of the body is around it.
    pub in_loop: bool,
    /// Whether a handler of the body is around it.
    pub in_handler: bool,
}

impl Around {
    /// What is around the statements of a body of this kind.
    pub fn body(kind: BodyKind) -> Around
        ensures { result ≡ in_body kind }
    {
        Around {
            kind,
            in_loop: false,
            in_handler: false,
        }
    }

    pub(crate) fn in_loop(self) -> Around
        ensures { result ≡ in_loop self }
    {
        Around {
            in_loop: true,
            ..self
        }
    }

    pub(crate) fn in_handler(self) -> Around
        ensures { result ≡ in_handler self }
    {
        Around {
            in_handler: true,
            ..self
        }
    }
}
