//! What names denote.
ghost use Rattle.std.specs.Prelude.{◌≡◌, bytes_eq, position};
ghost use Rattle.types.specs.Entities.{protected_value};
ghost use Rattle.types.specs.Scopes.{base_range_of};
ghost use Rattle.types.specs.Values.{fits, value_of};

use crate::parts::{Components, Operations};
use ada_tree::Mode;
use lexer::Text;

/// A subtype (RM 3.2): the number of its type's name, and its first and last value. They are 0 and 1 for Boolean, the base range for Time and
/// Time_Span, and 0 and 0 for a composite type.
#[derive(Clone, Copy, Debug, PartialEq, Eq)]
pub struct Subtype {
    pub type_number: usize,
    pub first: i64,
    pub last: i64,
}

impl Subtype {
    /// The predefined type Integer (RM 3.5.4), whose bounds are those of its base range.
    pub const INTEGER: Subtype = Subtype {
        type_number: 0,
        first: i64::MIN,
        last: i64::MAX,
    };

    /// The predefined subtype Natural.
    pub const NATURAL: Subtype = Subtype {
        type_number: 0,
        first: 0,
        last: i64::MAX,
    };

    /// The predefined subtype Positive.
    pub const POSITIVE: Subtype = Subtype {
        type_number: 0,
        first: 1,
        last: i64::MAX,
    };

    /// The predefined type Boolean (RM 3.5.3).
    pub const BOOLEAN: Subtype = Subtype {
        type_number: 3,
        first: 0,
        last: 1,
    };

    /// The subtype of the whole base range of a type (RM 3.5.4).
    pub fn base_range_of(type_number: usize) -> Subtype
        ensures { result ≡ base_range_of type_number }
    {
        Subtype {
            type_number,
            first: i64::MIN,
            last: i64::MAX,
        }
    }

    /// Whether a value lies in the subtype (RM 3.2).
    pub fn fits(self, value: Value) -> bool
        ensures { result ≡ fits self (value_of value) }
    {
        match value {
            Value::Number(number) => self.first <= number && number <= self.last,
            Value::Truth(_) => true,
        }
    }
}

/// What an object may be used for (RM 3.3, 5.5, 6.2, 9.5.1).
#[derive(Clone, Copy, Debug, PartialEq, Eq)]
pub enum Role {
    Variable,
    Constant,
    LoopParameter,
    In,
    Out,
    InOut,
    /// A component of a protected object, in the body of a procedure or an entry.
    Component,
    /// A component of a protected object, in the body of a function.
    ReadOnlyComponent,
}

/// The value of a static expression, which is a scalar (RM 3.5): a number, or a truth value. Time and Time_Span are numbers of microseconds.
#[derive(Clone, Copy, Debug, PartialEq, Eq, Hash)]
pub enum Value {
    Number(i64),
    Truth(bool),
}

/// A component of a record type or of a protected object (RM 3.8, 9.4).
#[derive(Drop)]
pub struct RecordComponent {
    pub name: Text,
    pub subtype: Subtype,
}

/// The form of a type (RM 3.2).
#[derive(Drop)]
pub enum TypeForm {
    Integer,
    Boolean,
    Time,
    TimeSpan,
    /// The subtype of the index, the number of components, and their subtype.
    Array(Subtype, u16, Subtype),
    Record(Components),
}

/// A formal parameter, as a call sees it (RM 6.1).
#[derive(Clone, Copy, Debug, PartialEq, Eq)]
pub struct FormalParameter {
    pub mode: Mode,
    pub subtype: Subtype,
}

/// The formal parameters of a subprogram or an entry, and the result of a function (RM 6.1).
#[derive(Drop)]
pub struct Profile {
    pub formals: Vec<FormalParameter>,
    pub result: Option<Subtype>,
}

/// A subprogram that the unit of its name declares (RM D.8, and Control_IO). `Put` is not among them: its label is of no type.
#[derive(Clone, Copy, Debug, PartialEq, Eq)]
pub enum PredefinedOperation {
    Clock,
    Milliseconds,
    Microseconds,
    Read,
}

/// A procedure, function or entry of a protected object (RM 9.4).
#[derive(Drop)]
pub struct Operation {
    pub name: Text,
    pub is_entry: bool,
    pub profile: Profile,
}

/// The barrier of an entry (RM 9.5.2): the same for ever, or the value of the component with this position.
#[derive(Clone, Copy, Debug, PartialEq, Eq)]
pub enum Barrier {
    Always(bool),
    Component(usize),
}

/// A protected object (RM 9.4): its number among the protected objects in the order of their declarations, from 0 on, its ceiling priority (RM D.3),
/// its operations and components, and the barrier of its entry, once the body of that is known.
#[derive(Drop)]
pub struct ProtectedObject {
    pub number: usize,
    pub ceiling: u8,
    pub operations: Operations,
    pub components: Vec<RecordComponent>,
    pub barrier: Option<Barrier>,
}

impl ProtectedObject {
    /// The position of the operation with this name.
    pub fn position_of(&self, name: &Text) -> Option<usize>
        ensures { result ≡ position (λ o. bytes_eq o.name name.now) (protected_value self.now).operations }
    {
        self.operations.position_of(name)
    }
}

/// What a name denotes.
#[derive(Drop)]
pub enum Entity {
    /// A type and its first subtype (RM 3.2.1).
    Type(TypeForm, Subtype),
    /// A subtype (RM 3.2.2).
    Subtype(Subtype),
    /// An object and what it may be used for.
    Object(Role, Subtype),
    /// A constant of the package, with its value where that is a scalar.
    Constant(Subtype, Option<Value>),
    /// True or False (RM 3.5.3).
    Literal(bool),
    Exception,
    /// A subprogram of the package, or of the protected object in whose body the name is read.
    Subprogram(Profile),
    /// The entry of the protected object in whose body the name is read.
    Entry(Profile),
    Predefined(PredefinedOperation, Profile),
    /// `Put` of Control_IO.
    Put,
    /// A task, with its base priority (RM D.1).
    Task(u8),
    Protected(ProtectedObject),
    /// The package, or main.
    Unit,
    /// What a declaration that breaks a rule declares: nothing is said of its uses.
    Doubtful,
}
