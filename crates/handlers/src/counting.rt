//! Counters of the work of a search, which take no bytes at run time, and what a search compares: each comparison counts.

ghost use Rattle.std.specs.Prelude.{◌≡◌, ◌+◌, nat_le};
ghost use Rattle.handlers.specs.Innermost.{handles};

use crate::Row;
use std::marker::Model;
use std::sync::ledger::{Blank, Book, Ledger, Share};

/// How many places and how many exceptions searches have compared. It takes no bytes at run time,
/// and only searches change it.
#[derive(Drop)]
pub struct Probes<L: Ledger> {
    book: Book<L>,
    places: Share<L>,
    exceptions: Share<L>,
}

impl<L: Ledger> Model for Probes<L> {
    ghost use Rattle.std.specs.Prelude.{◌<◌};
    ghost use Rattle.handlers.specs.Counts.{Counts};

    ghost Value = { Counts };

    ghost view = { λ p. record { places = p.places.amount; exceptions = p.exceptions.amount } };

    ghost invariant = { λ p. (0 < p.places.parts) × (0 < p.exceptions.parts) };
}

impl<L: Ledger> Probes<L> {
    /// Counters at 0, over a new ledger of two parts.
    pub fn new(blank: Blank) -> Probes<L>
        requires name { blank.name ≡ L.name }
        requires parts { blank.parts ≡ L.parts }
        requires two { L.parts ≡ 2 }
        ensures places { result.places ≡ 0 }
        ensures exceptions { result.exceptions ≡ 0 }
    {
        let (book, mut places) = blank.open::<L>();
        let exceptions = places.split_off(1, 0);
        Probes {
            book,
            places,
            exceptions,
        }
    }

    fn count_place(&mut self)
        ensures places { self.new.places ≡ self.old.places + 1 }
        ensures exceptions { self.new.exceptions ≡ self.old.exceptions }
    {
        self.book.add(&mut self.places, 1);
    }

    fn count_exception(&mut self)
        ensures places { self.new.places ≡ self.old.places }
        ensures exceptions { self.new.exceptions ≡ self.old.exceptions + 1 }
    {
        self.book.add(&mut self.exceptions, 1);
    }
}

// The start or the end of a row, which a search compares with a place by `is_passed` alone.
#[derive(Drop)]
pub(crate) struct Edge {
    place: u16,
}

impl Model for Edge {
    ghost use Rattle.std.specs.Prelude.{ℕ};

    ghost Value = { ℕ };

    ghost view = { λ e. e.place };
}

impl Edge {
    pub(crate) fn new(place: u16) -> Edge
        ensures { result ≡ place }
    {
        Edge { place }
    }

    // Whether it is at a place or before it.
    pub(crate) fn is_passed<L: Ledger>(&self, place: u16, probes: &mut Probes<L>) -> bool
        ensures passed { result ≡ nat_le self.now place }
        ensures places { probes.new.places ≡ probes.old.places + 1 }
        ensures exceptions { probes.new.exceptions ≡ probes.old.exceptions }
    {
        probes.count_place();
        self.place <= place
    }
}

// A row that a search compares with an exception by `handles` alone, and the number of the next row outwards.
#[derive(Drop)]
pub(crate) struct Candidate {
    row: Row,
    around: Option<usize>,
}

impl Candidate {
    pub(crate) fn new(row: Row, around: Option<usize>) -> Candidate
        ensures { result ≡ record { row = row; around = around } }
    {
        Candidate { row, around }
    }

    pub(crate) fn handles<L: Ledger>(&self, exception: u16, probes: &mut Probes<L>) -> bool
        ensures handles { result ≡ handles exception self.now.row }
        ensures places { probes.new.places ≡ probes.old.places }
        ensures exceptions { probes.new.exceptions ≡ probes.old.exceptions + 1 }
    {
        probes.count_exception();
        self.row.handles(exception)
    }

    pub(crate) fn target(&self) -> u16
        ensures { result ≡ self.now.row.target }
    {
        self.row.target
    }

    pub(crate) fn around(&self) -> Option<usize>
        ensures { result ≡ self.now.around }
    {
        self.around
    }
}
