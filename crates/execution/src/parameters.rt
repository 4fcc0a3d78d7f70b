//! Words on their way from a caller to the body of an entry, in memory that was made before the run.
ghost use Rattle.std.specs.Prelude.{◌≡◌, ◌≤◌, [], IfOk, length};
ghost use Rattle.base.specs.declared.limits.TheConstants.{FRAME_WORDS};

use base::limits::FRAME_WORDS;
use std::alloc::{AllocError, Global};
use std::marker::Model;

/// The parameters of a call that is served, the first one first.
#[derive(Drop)]
pub(crate) struct Parameters {
    words: Vec<i64>,
}

impl Model for Parameters {
    ghost use Rattle.std.specs.Prelude.{◌≤◌, ℤ, List, vec_capacity};
    ghost use Rattle.base.specs.declared.limits.TheConstants.{FRAME_WORDS};

    ghost Value = { List ℤ };

    ghost view = { λ p. p.words.items };

    ghost invariant = { λ p. FRAME_WORDS ≤ vec_capacity p.words };
}

impl Parameters {
    /// None.
    ///
    /// # Errors
    /// Where memory was refused.
    pub(crate) fn new(alloc: Global) -> Result<Parameters, AllocError>
        ensures { IfOk result (λ p. p ≡ []) }
    {
        let words = Vec::with_capacity(alloc, FRAME_WORDS)?;
        Ok(Parameters { words })
    }

    /// These words in place of others.
    pub(crate) fn keep(&mut self, words: &[i64])
        requires { length words.now ≤ FRAME_WORDS }
        ensures { self.new ≡ words.now }
    {
        self.words.clear();
        for word in words {
            self.words.push_reserved(*word);
        }
    }

    /// The words.
    pub(crate) fn words(&self) -> &[i64]
        ensures { result.now ≡ self.now }
    {
        &self.words
    }
}
