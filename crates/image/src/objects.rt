//! Protected objects (RM 9.4).
ghost use Rattle.std.specs.Prelude.{◌≡◌, vec_len};

use std::marker::Model;

/// What opens an object's entry (RM 9.5.2).
#[derive(Clone, Copy, PartialEq, Eq, Debug)]
pub enum Barrier {
    /// False: it is never open.
    Closed,
    /// True: it is always open.
    Open,
    /// It is open where this word of the object isn't 0.
    Word(u16),
}

/// A protected object.
#[derive(Drop)]
pub struct Object {
    ceiling: u8,
    entry: Option<u16>,
    barrier: Barrier,
    words: Vec<i64>,
}

impl Model for Object {
    ghost use Rattle.std.specs.Prelude.{Option};
    ghost use Rattle.image.specs.ObjectTable.{ObjectRow};

    ghost Value = { ObjectRow };

    ghost view = { λ o. record { ceiling = o.ceiling; entry = o.entry; barrier = o.barrier; words = o.words.items } };
}

impl Object {
    /// An object with a ceiling priority (RM D.3), the subprogram of its entry if it has one, and its words' initial values.
    pub fn new(ceiling: u8, entry: Option<u16>, barrier: Barrier, words: Vec<i64>) -> Object
        ensures { result ≡ record { ceiling = ceiling; entry = entry; barrier = barrier; words = words.items } }
    {
        Object {
            ceiling,
            entry,
            barrier,
            words,
        }
    }

    /// Its ceiling priority.
    pub fn ceiling(&self) -> u8
        ensures { result ≡ self.now.ceiling }
    {
        self.ceiling
    }

    /// The subprogram of its entry, if it has one.
    pub fn entry(&self) -> Option<u16>
        ensures { result ≡ self.now.entry }
    {
        self.entry
    }

    /// What opens its entry.
    pub fn barrier(&self) -> Barrier
        ensures { result ≡ self.now.barrier }
    {
        self.barrier
    }

    /// The initial values of its words.
    pub fn words(&self) -> &[i64]
        ensures { result.now ≡ self.now.words }
    {
        &self.words
    }
}
