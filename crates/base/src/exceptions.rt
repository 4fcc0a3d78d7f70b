//! The predefined exceptions of the language (RM 11.1) and their numbers.
ghost use Rattle.std.specs.Prelude.{◌≡◌};
ghost use Rattle.base.specs.Exceptions.{name_of, number_of};

/// An exception that the language declares (RM 11.1).
#[derive(Clone, Copy, PartialEq, Eq, Debug)]
pub enum PredefinedException {
    ConstraintError,
    ProgramError,
    StorageError,
    TaskingError,
}

impl PredefinedException {
    /// The number of the exception: from 1 on in the order of declaration; declared exceptions follow them.
    pub fn number(self) -> u16
        ensures { result ≡ number_of self }
    {
        match self {
            PredefinedException::ConstraintError => 1,
            PredefinedException::ProgramError => 2,
            PredefinedException::StorageError => 3,
            PredefinedException::TaskingError => 4,
        }
    }

    /// The name of the exception in upper case.
    pub fn name(self) -> &'static [u8]
        ensures { result.now ≡ name_of self }
    {
        match self {
            PredefinedException::ConstraintError => b"CONSTRAINT_ERROR",
            PredefinedException::ProgramError => b"PROGRAM_ERROR",
            PredefinedException::StorageError => b"STORAGE_ERROR",
            PredefinedException::TaskingError => b"TASKING_ERROR",
        }
    }
}
