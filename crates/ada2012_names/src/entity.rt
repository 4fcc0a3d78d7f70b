//! Declared entities (RM 3.1), and uses of their names.
ghost use Rattle.std.specs.Prelude.{◌≡◌};
ghost use Rattle.ada2012_names.specs.Queries.{is_part};

use crate::predefined::Predefined;
use ada2012_tree::{Mode, Span};
use base::Text;

/// One of the entities of a table of names.
#[derive(Clone, Copy, PartialEq, Eq)]
pub struct EntityId {
    pub(crate) number: usize,
}

impl EntityId {
    /// Its place in the list of entities.
    pub fn number(self) -> usize {
        self.number
    }
}

/// How the definition of a type begins (RM 3.2.1).
#[derive(Clone, Copy, PartialEq, Eq)]
pub enum TypeForm {
    Enumeration,
    Integer,
    Modular,
    /// A predefined real type.
    Real,
    /// An array type. An array definition in the declaration of an object is one without a name.
    Array,
    Record,
    Task,
    Protected,
    /// A predefined type of which nothing but its name is visible.
    Private,
}

/// What is declared.
#[derive(Clone, Copy)]
pub enum EntityKind {
    Package,
    Type(TypeForm),
    Subtype,
    Variable,
    Constant,
    /// A named number.
    Number,
    Exception,
    /// A literal of an enumeration, by its position.
    Literal(usize),
    Procedure,
    Function,
    Entry,
    /// A task that is no object of a named type.
    Task,
    /// A protected object that is no object of a named type.
    Protected,
    /// A component of a record or of a protected object.
    Component,
    Discriminant,
    Formal(Mode),
    /// An index of an array type, which has no name: its span is that of the range.
    Index,
    LoopParameter,
    /// The name of a loop.
    Loop,
    /// The name of a block.
    Block,
    /// The name that a handler gives to an occurrence of an exception.
    Occurrence,
}

/// A declared entity.
pub struct Entity {
    /// The span of the identifier that declares it, both ends 0 where it is predefined. Of an array type without a name and of an index it is that of the
    /// definition.
    pub span: Span,
    /// Its name, in upper case. What has no name has none here.
    pub name: Option<Text>,
    pub kind: EntityKind,
    /// The entity in which it is declared: a package, subprogram, task or protected object, a record type, a subprogram or task type of which it is a
    /// parameter. None for a unit that is no child of another one.
    pub within: Option<EntityId>,
    /// The subtype of an object, component, parameter or index; the type of a literal; the subtype of a function's result and of an array's components; what a
    /// subtype is a subtype of. None where it has no name that is known, as the type of a named number.
    pub subtype: Option<EntityId>,
    /// Is it declared in a private part or a body, and so not visible outside of what it is within?
    pub hidden: bool,
    /// Which predefined entity it is. None for a formal parameter of one, too.
    pub predefined: Option<Predefined>,
}

/// What a name denotes.
#[derive(Clone, Copy, PartialEq, Eq)]
pub enum Denoted {
    Entity(EntityId),
    /// One of several: this is the innermost one.
    Ambiguous(EntityId),
    /// No declaration of this name is visible, or it can't be told of which type that before it is.
    Unknown,
}

/// A use of a name: the span of an identifier that doesn't declare anything, and what it denotes. Identifiers that complete a declaration, or repeat it in a
/// body, are uses of what was declared.
#[derive(Clone, Copy, PartialEq, Eq)]
pub struct Use {
    pub span: Span,
    pub denoted: Denoted,
}

/// The span of an expression, and its type or subtype.
#[derive(Clone, Copy, PartialEq, Eq)]
pub struct TypedSpan {
    pub span: Span,
    pub subtype: EntityId,
}

impl Drop for Entity {
    fn drop(self) {
        let Self {
            span: _,
            name: _,
            kind: _,
            within: _,
            subtype: _,
            hidden: _,
            predefined: _,
        } = self;
    }
}

impl EntityKind {
    /// Can several entities of one name be visible (RM 8.3(7))?
    pub(crate) fn is_overloadable(self) -> bool {
        matches!(
            self,
            EntityKind::Literal(_)
                | EntityKind::Procedure
                | EntityKind::Function
                | EntityKind::Entry
        )
    }

    /// Is it associated by place or by name in a call, a constraint, an aggregate or an indexed component?
    pub(crate) fn is_part(self) -> bool
        ensures { result ≡ is_part self }
    {
        matches!(
            self,
            EntityKind::Formal(_)
                | EntityKind::Discriminant
                | EntityKind::Component
                | EntityKind::Index
        )
    }

    /// Is it called with actual parameters?
    pub(crate) fn is_callable(self) -> bool {
        matches!(
            self,
            EntityKind::Procedure | EntityKind::Function | EntityKind::Entry
        )
    }

    /// Is it a type or a subtype?
    pub(crate) fn is_subtype(self) -> bool {
        matches!(self, EntityKind::Type(_) | EntityKind::Subtype)
    }
}
