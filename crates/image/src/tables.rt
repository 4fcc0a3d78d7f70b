//! Looking things up in the sections of an image.
ghost use Rattle.std.specs.Prelude.{◌≡◌, ◌≤◌, ◌^◌};
ghost use Rattle.image.specs.Sections.{object_of, writes_object};
ghost use Rattle.image.specs.Operations.{called, entry_called, given_by, parameters_of, results_of, taken_by};

use crate::{Kind, Operation, Parts, Subprogram};

impl Kind {
    /// The object that a subprogram of this kind belongs to.
    pub fn object(&self) -> Option<u16>
        ensures { result ≡ object_of self.now }
    {
        match self {
            Kind::ProtectedProcedure(object)
            | Kind::ProtectedFunction(object)
            | Kind::EntryBody(object) => Some(*object),
            Kind::Plain | Kind::TaskBody => None,
        }
    }

    /// Whether a subprogram of this kind may write the words of its object.
    pub fn writes_object(&self) -> bool
        ensures { result ≡ writes_object self.now }
    {
        matches!(self, Kind::ProtectedProcedure(_) | Kind::EntryBody(_))
    }
}

impl Parts {
    /// The subprogram of this number.
    pub fn called(&self, number: u16) -> Option<Subprogram>
        ensures { result ≡ called self.now number }
    {
        self.subprograms.get(usize::from(number)).copied()
    }

    /// The subprogram of an object's entry.
    pub fn entry_called(&self, object: u16) -> Option<Subprogram>
        ensures { result ≡ entry_called self.now object }
    {
        let entry = self.objects.get(usize::from(object))?.entry()?;
        self.called(entry)
    }

    /// How many words an operation takes; a return takes the results of its subprogram.
    pub fn taken_by(&self, results: u16, operation: &Operation) -> usize
        ensures taken { result ≡ taken_by self.now results operation.now }
        ensures small { result ≤ 2 ^ 16 }
    {
        match operation {
            Operation::Push(_)
            | Operation::LoadLocal(_)
            | Operation::LoadPlain(_)
            | Operation::LoadObject(_)
            | Operation::Jump(_)
            | Operation::CheckBlocking
            | Operation::Clock => 0,
            Operation::Drop
            | Operation::Duplicate
            | Operation::StoreLocal(_)
            | Operation::StorePlain(_)
            | Operation::StoreObject(_)
            | Operation::LoadIndexed(_)
            | Operation::LoadBlock { .. }
            | Operation::Negate
            | Operation::Absolute
            | Operation::Not
            | Operation::JumpIfZero(_)
            | Operation::JumpIfNotZero(_)
            | Operation::Raise
            | Operation::DelayUntil
            | Operation::PutLine(_)
            | Operation::ReadInput => 1,
            Operation::StoreIndexed(_)
            | Operation::Copy { .. }
            | Operation::Add
            | Operation::Subtract
            | Operation::Multiply
            | Operation::Divide
            | Operation::Modulo
            | Operation::Remainder
            | Operation::Equal
            | Operation::NotEqual
            | Operation::Less
            | Operation::LessOrEqual
            | Operation::Greater
            | Operation::GreaterOrEqual
            | Operation::And
            | Operation::Or
            | Operation::ExclusiveOr => 2,
            Operation::StoreBlock { words, .. } => usize::from(*words) + 1,
            Operation::CheckRange => 3,
            Operation::Call(number) | Operation::ProtectedCall(number) => {
                parameters_of(self.called(*number))
            }
            Operation::EntryCall(object) => parameters_of(self.entry_called(*object)),
            Operation::Return => usize::from(results),
        }
    }

    /// How many words an operation gives.
    pub fn given_by(&self, operation: &Operation) -> usize
        ensures given { result ≡ given_by self.now operation.now }
        ensures small { result ≤ 2 ^ 16 }
    {
        match operation {
            Operation::Drop
            | Operation::StoreLocal(_)
            | Operation::StorePlain(_)
            | Operation::StoreObject(_)
            | Operation::StoreIndexed(_)
            | Operation::StoreBlock { .. }
            | Operation::Copy { .. }
            | Operation::Jump(_)
            | Operation::JumpIfZero(_)
            | Operation::JumpIfNotZero(_)
            | Operation::Return
            | Operation::Raise
            | Operation::CheckBlocking
            | Operation::DelayUntil
            | Operation::PutLine(_) => 0,
            Operation::Duplicate => 2,
            Operation::LoadBlock { words, .. } => usize::from(*words),
            Operation::Call(number) | Operation::ProtectedCall(number) => {
                results_of(self.called(*number))
            }
            Operation::EntryCall(object) => results_of(self.entry_called(*object)),
            Operation::Push(_)
            | Operation::LoadLocal(_)
            | Operation::LoadPlain(_)
            | Operation::LoadObject(_)
            | Operation::LoadIndexed(_)
            | Operation::Negate
            | Operation::Absolute
            | Operation::Add
            | Operation::Subtract
            | Operation::Multiply
            | Operation::Divide
            | Operation::Modulo
            | Operation::Remainder
            | Operation::CheckRange
            | Operation::Equal
            | Operation::NotEqual
            | Operation::Less
            | Operation::LessOrEqual
            | Operation::Greater
            | Operation::GreaterOrEqual
            | Operation::And
            | Operation::Or
            | Operation::ExclusiveOr
            | Operation::Not
            | Operation::ReadInput
            | Operation::Clock => 1,
        }
    }
}

fn parameters_of(subprogram: Option<Subprogram>) -> usize
    ensures same { result ≡ parameters_of subprogram }
    ensures small { result ≤ 2 ^ 16 }
{
    subprogram.map_or(0, |s| usize::from(s.parameters))
}

fn results_of(subprogram: Option<Subprogram>) -> usize
    ensures same { result ≡ results_of subprogram }
    ensures small { result ≤ 2 ^ 16 }
{
    subprogram.map_or(0, |s| usize::from(s.results))
}
