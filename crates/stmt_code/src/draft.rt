//! Code as statements add to it, with the labels of its lines.
ghost use Rattle.std.specs.Prelude.{◌≡◌, [], length, IfErr, IfOk, OnOk};
ghost use Rattle.expr_code.specs.Refusing.{IsRefused};
ghost use Rattle.part_code.specs.Labels.{with_label};
ghost use Rattle.stmt_code.specs.Drafting.{label_number};

use crate::tables::CodeTables;
use expr_code::{Code, Refusal};
use indexmap::IndexSet;
use lexer::Text;
use part_code::FrameWords;
use std::alloc::{AllocError, Global};
use std::marker::Model;

/// The labels of lines, each once. The number of a label is its place. Contracts see a list.
#[derive(Drop)]
pub struct Labels {
    labels: IndexSet<Text>,
}

impl Model for Labels {
    ghost use Rattle.std.specs.Prelude.{ℕ, List};

    ghost Value = { List (List ℕ) };

    ghost view = { λ l. l.labels.keys };
}

impl Labels {
    /// No labels.
    pub fn new(alloc: Global) -> Labels
        ensures { result ≡ [] }
    {
        Labels {
            labels: IndexSet::new(alloc),
        }
    }

    /// The place of a label among all, after which it is one of them.
    ///
    /// # Errors
    /// Where memory was refused.
    pub fn place(&mut self, label: &Text) -> Result<usize, AllocError>
        ensures place { IfOk result (λ place. place ≡ label_number self.old label.now) }
        ensures labels { OnOk result (self.new ≡ with_label self.old label.now) }
    {
        let label = label.clone()?;
        let Ok((place, _)) = self.labels.insert_full(label) else {
            return Err(AllocError);
        };
        Ok(place)
    }

    /// How many there are.
    pub fn many(&self) -> usize
        ensures { result ≡ length self.now }
    {
        self.labels.len()
    }

    /// The labels by their numbers, as an image has them (docs/FORMATS.md).
    pub fn texts(&self, alloc: Global) -> Result<Vec<Text>, Refusal>
        ensures texts { IfOk result (λ texts. texts.items ≡ self.now) }
        ensures refused { IfErr result (λ why. IsRefused 0 0 why) }
    {
        let mut texts = Vec::new(alloc);
        for label in self.labels.as_slice() {
            texts.push(label.clone()?)?;
        }
        Ok(texts)
    }
}

/// Code that is put together statement by statement.
#[derive(Drop)]
pub struct Draft {
    pub code: Code,
    pub labels: Labels,
    pub words: FrameWords,
    /// The rows of handlers in the code, and those of the places of its statements and declarations.
    pub rows: CodeTables,
    /// The names of the program's exceptions, by their numbers from 1.
    pub exceptions: Vec<Text>,
}

impl Draft {
    /// No code, in a program with these exceptions.
    pub fn new(alloc: Global, exceptions: Vec<Text>) -> Draft
        ensures instructions { result.code.instructions.items ≡ [] }
        ensures labels { result.labels ≡ [] }
        ensures taken { result.words.taken ≡ 0 }
        ensures most { result.words.most ≡ 0 }
        ensures rows { result.rows.items ≡ [] }
        ensures places { result.rows.places ≡ [] }
        ensures exceptions { result.exceptions ≡ exceptions }
    {
        Draft {
            code: Code::new(alloc),
            labels: Labels::new(alloc),
            words: FrameWords::new(),
            rows: CodeTables::new(alloc),
            exceptions,
        }
    }
}
