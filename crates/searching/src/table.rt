//! Worlds in which runs have been, by their digests. No proof relies on a digest: worlds are compared, word by word.
ghost use Rattle.std.specs.Prelude.{◌≡◌, ◌++◌, IfOk, List, OnOk, true};
ghost use Rattle.choices.specs.Parts.{is_of_part};
ghost use Rattle.choices.specs.Slots.{Slot as SlotRow};
ghost use Rattle.choices.specs.declared.part.Part.{Part as SetPart};
ghost use Rattle.image.specs.Sections.{Sections};
ghost use Rattle.searching.specs.Following.{AreKeptRows, IsRow, KeptRow, MeetsRow};

use choices::Choice;
use indexmap::IndexMap;
use std::alloc::{AllocError, Global};
use std::hash::{FoldHasher, Hasher};
use std::marker::Model;

// How many words all rows may have together, 512 MB: beyond that all rows are left out.
const WORDS: usize = 67_108_864;

/// The words of the world in which the run on a choice is just before the time of the slots after the first `front` ones, after the last values of the channels
/// before it.
#[derive(Drop)]
pub(crate) struct Row {
    front: usize,
    time: i64,
    choice: Choice,
    words: Vec<i64>,
}

impl Model for Row {
    ghost use Rattle.searching.specs.Following.{KeptRow};

    ghost Value = { KeptRow };

    ghost view = { λ r. record { front = r.front; time = r.time; choice = r.choice; words = r.words.items } };

    ghost invariant = { λ r. Unit {0} };
}

impl Row {
    /// The row of the run on a choice, with these values of the channels and the words of its world, in as much memory as they need.
    ///
    /// # Errors
    /// Where memory was refused.
    pub(crate) fn new(
        alloc: Global,
        front: usize,
        time: i64,
        choice: &Choice,
        values: &[i64],
        encoded: &[i64],
    ) -> Result<Row, AllocError>
        ensures { IfOk result (λ r. r ≡ record { front = front; time = time; choice = choice.now; words = values.now ++ encoded.now }) }
    {
        let choice = choice.copy()?;
        let mut words = Vec::with_capacity(alloc, values.len().saturating_add(encoded.len()))?;
        words.extend_from_slice(values)?;
        words.extend_from_slice(encoded)?;
        Ok(Row {
            front,
            time,
            choice,
            words,
        })
    }

    // Whether the run on a later choice has met the one of the row: the same values of the channels, and the same world. `false` doesn't say that it hasn't.
    fn is_met(
        &self,
        choice: &Choice,
        front: usize,
        time: i64,
        values: &[i64],
        encoded: &[i64],
    ) -> bool
        ensures { result ≡ true → MeetsRow self.now choice.now front time values.now encoded.now }
    {
        if self.front != front {
            return false;
        }
        if self.time != time {
            return false;
        }
        if !are_joined(self.words.as_slice(), values, encoded) {
            return false;
        }
        self.choice.is_earlier_in_front(choice, front)
    }
}

// Whether words are these values and those after them.
fn are_joined(words: &[i64], values: &[i64], encoded: &[i64]) -> bool
    ensures { result ≡ true → words.now ≡ values.now ++ encoded.now }
{
    let count = values.len();
    if words.len() < count {
        return false;
    }
    if !are_same(&words[..count], values) {
        return false;
    }
    are_same(&words[count..], encoded)
}

// Whether words are the same.
fn are_same(values: &[i64], others: &[i64]) -> bool
    ensures { result ≡ true → values.now ≡ others.now }
{
    values == others
}

/// A digest of words.
pub(crate) fn digest_of(words: &[i64]) -> u64 {
    let mut hasher = FoldHasher::default();
    for word in words {
        hasher.write_i64(*word);
    }
    hasher.finish()
}

/// Rows by their digests.
#[derive(Drop)]
pub(crate) struct Table {
    rows: IndexMap<u64, Row>,
    words: usize,
    count: u64,
}

impl Model for Table {
    ghost use Rattle.std.specs.Prelude.{List};
    ghost use Rattle.indexmap.specs.IndexMap.{values};
    ghost use Rattle.searching.specs.Following.{KeptRow};

    ghost Value = { List KeptRow };

    ghost view = { λ t. values t.rows };

    ghost invariant = { λ t. Unit {0} };
}

impl Table {
    /// No rows.
    pub(crate) fn new(alloc: Global) -> Table
        ensures { (i : Sections) (set : List SlotRow) (part : SetPart) → AreKeptRows i set part result }
    {
        Table {
            rows: IndexMap::new(alloc),
            words: 0,
            count: 0,
        }
    }

    /// Whether the run on a choice has met one that the table has with this digest. `false` doesn't say that it hasn't.
    pub(crate) fn has_met(
        &self,
        digest: u64,
        choice: &Choice,
        front: usize,
        time: i64,
        values: &[i64],
        encoded: &[i64],
    ) -> bool
        ensures { result ≡ true → (i : Sections) (slots : List SlotRow) (part : SetPart) → AreKeptRows i slots part self.now
            → (row : KeptRow) × IsRow i slots part row × MeetsRow row choice.now front time values.now encoded.now }
    {
        let Some(row) = self.rows.get(&digest) else {
            return false;
        };
        row.is_met(choice, front, time, values, encoded)
    }

    /// Whether it has a row with this digest.
    pub(crate) fn has_digest(&self, digest: u64) -> bool {
        self.rows.contains_key(&digest)
    }

    /// How many rows have been kept, with those that were left out.
    pub(crate) fn count(&self) -> u64 {
        self.count
    }

    /// Keeps a row with this digest, in place of one with the same digest.
    ///
    /// # Errors
    /// Where memory was refused.
    pub(crate) fn keep(&mut self, digest: u64, row: Row) -> Result<(), AllocError>
        ensures { OnOk result ((i : Sections) (slots : List SlotRow) (part : SetPart) → AreKeptRows i slots part self.old → IsRow i slots part row
            → AreKeptRows i slots part self.new) }
    {
        self.make_room(row.words.len());
        self.count = self.count.saturating_add(1);
        self.rows.insert(digest, row)?;
        Ok(())
    }

    // Leaves out all rows, where so many words more would be too many.
    fn make_room(&mut self, words: usize)
        ensures { (i : Sections) (slots : List SlotRow) (part : SetPart) → AreKeptRows i slots part self.old → AreKeptRows i slots part self.new }
    {
        self.words = self.words.saturating_add(words);
        if WORDS < self.words {
            self.rows.clear();
            self.words = words;
        }
    }
}
