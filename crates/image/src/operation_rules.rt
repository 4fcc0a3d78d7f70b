//! What an operation needs by itself, and where it goes on.
ghost use Rattle.std.specs.Prelude.{◌≡◌};
ghost use Rattle.image.specs.Operations.{goes_on, jump_target};
ghost use Rattle.image.specs.Rules.{has_operands, is_block, is_return};

use crate::Operation;
use base::limits::WORDS;

impl Operation {
    /// Whether its operands are in range by themselves: a block has 1 to 8,192 words.
    pub fn has_operands(&self) -> bool
        ensures { result ≡ has_operands self.now }
    {
        match self {
            Operation::LoadBlock { words, .. }
            | Operation::StoreBlock { words, .. }
            | Operation::Copy { words, .. } => is_block(*words),
            Operation::Push(_)
            | Operation::Drop
            | Operation::Duplicate
            | Operation::LoadLocal(_)
            | Operation::StoreLocal(_)
            | Operation::LoadPlain(_)
            | Operation::StorePlain(_)
            | Operation::LoadObject(_)
            | Operation::StoreObject(_)
            | Operation::LoadIndexed(_)
            | Operation::StoreIndexed(_)
            | Operation::Negate
            | Operation::Absolute
            | Operation::Add
            | Operation::Subtract
            | Operation::Multiply
            | Operation::Divide
            | Operation::Modulo
            | Operation::Remainder
            | Operation::CheckRange
            | Operation::Equal
            | Operation::NotEqual
            | Operation::Less
            | Operation::LessOrEqual
            | Operation::Greater
            | Operation::GreaterOrEqual
            | Operation::And
            | Operation::Or
            | Operation::ExclusiveOr
            | Operation::Not
            | Operation::Jump(_)
            | Operation::JumpIfZero(_)
            | Operation::JumpIfNotZero(_)
            | Operation::Call(_)
            | Operation::ProtectedCall(_)
            | Operation::EntryCall(_)
            | Operation::Return
            | Operation::Raise
            | Operation::CheckBlocking
            | Operation::DelayUntil
            | Operation::PutLine(_)
            | Operation::ReadInput
            | Operation::Clock => true,
        }
    }

    /// Whether the next instruction may follow.
    pub fn goes_on(&self) -> bool
        ensures { result ≡ goes_on self.now }
    {
        match self {
            Operation::Jump(_) | Operation::Return | Operation::Raise => false,
            Operation::Push(_)
            | Operation::Drop
            | Operation::Duplicate
            | Operation::LoadLocal(_)
            | Operation::StoreLocal(_)
            | Operation::LoadPlain(_)
            | Operation::StorePlain(_)
            | Operation::LoadObject(_)
            | Operation::StoreObject(_)
            | Operation::LoadIndexed(_)
            | Operation::StoreIndexed(_)
            | Operation::LoadBlock { .. }
            | Operation::StoreBlock { .. }
            | Operation::Copy { .. }
            | Operation::Negate
            | Operation::Absolute
            | Operation::Add
            | Operation::Subtract
            | Operation::Multiply
            | Operation::Divide
            | Operation::Modulo
            | Operation::Remainder
            | Operation::CheckRange
            | Operation::Equal
            | Operation::NotEqual
            | Operation::Less
            | Operation::LessOrEqual
            | Operation::Greater
            | Operation::GreaterOrEqual
            | Operation::And
            | Operation::Or
            | Operation::ExclusiveOr
            | Operation::Not
            | Operation::JumpIfZero(_)
            | Operation::JumpIfNotZero(_)
            | Operation::Call(_)
            | Operation::ProtectedCall(_)
            | Operation::EntryCall(_)
            | Operation::CheckBlocking
            | Operation::DelayUntil
            | Operation::PutLine(_)
            | Operation::ReadInput
            | Operation::Clock => true,
        }
    }

    /// Whether it is a return.
    pub fn is_return(&self) -> bool
        ensures { result ≡ is_return self.now }
    {
        matches!(self, Operation::Return)
    }

    /// Where it may jump.
    pub fn jump_target(&self) -> Option<u16>
        ensures { result ≡ jump_target self.now }
    {
        match self {
            Operation::Jump(target)
            | Operation::JumpIfZero(target)
            | Operation::JumpIfNotZero(target) => Some(*target),
            Operation::Push(_)
            | Operation::Drop
            | Operation::Duplicate
            | Operation::LoadLocal(_)
            | Operation::StoreLocal(_)
            | Operation::LoadPlain(_)
            | Operation::StorePlain(_)
            | Operation::LoadObject(_)
            | Operation::StoreObject(_)
            | Operation::LoadIndexed(_)
            | Operation::StoreIndexed(_)
            | Operation::LoadBlock { .. }
            | Operation::StoreBlock { .. }
            | Operation::Copy { .. }
            | Operation::Negate
            | Operation::Absolute
            | Operation::Add
            | Operation::Subtract
            | Operation::Multiply
            | Operation::Divide
            | Operation::Modulo
            | Operation::Remainder
            | Operation::CheckRange
            | Operation::Equal
            | Operation::NotEqual
            | Operation::Less
            | Operation::LessOrEqual
            | Operation::Greater
            | Operation::GreaterOrEqual
            | Operation::And
            | Operation::Or
            | Operation::ExclusiveOr
            | Operation::Not
            | Operation::Call(_)
            | Operation::ProtectedCall(_)
            | Operation::EntryCall(_)
            | Operation::Return
            | Operation::Raise
            | Operation::CheckBlocking
            | Operation::DelayUntil
            | Operation::PutLine(_)
            | Operation::ReadInput
            | Operation::Clock => None,
        }
    }
}

fn is_block(words: u16) -> bool
    ensures { result ≡ is_block words }
{
    let words = usize::from(words);
    1 <= words && words <= WORDS
}
