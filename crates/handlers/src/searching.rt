//! The index of a table: the pieces into which the starts and ends of rows cut the places, each with its innermost row, and for each row the
//! next one outwards.
ghost use Rattle.std.specs.Prelude.{◌≡◌, ◌+◌, ◌≤◌, true, drop, length, map, option_map, IfOk};
ghost use Rattle.std.specs.List.{count_by, find};
ghost use Rattle.std.specs.List.Sorted.{IsNonDecreasingBy, IsPermutation, IsStableByKey, IsStrictlyIncreasing};
ghost use Rattle.std.specs.Ordering.{nat_cmp};
ghost use Rattle.handlers.specs.Innermost.{covers, width};
ghost use Rattle.handlers.specs.Laws.{takes};
ghost use Rattle.handlers.specs.Nesting.{all_nested};
ghost use Rattle.handlers.specs.Searching.{AreEdges, ComparesPlaces, CountsDigits, SplitsAt, AreByWidth, candidates_of, cover_something, next_covering};

use crate::counting::{Candidate, Edge};
use crate::nesting::copied;
use crate::{Probes, Row};
use std::alloc::{AllocError, Global};
use std::marker::Model;
use std::sync::ledger::Ledger;

#[derive(Drop)]
pub(crate) struct Index {
    // The starts and ends of rows, each once, in order.
    edges: Vec<Edge>,
    // For the places from each edge up to the next one, the number of the innermost row that covers them.
    pieces: Vec<Option<usize>>,
    // The rows, those with shorter regions first.
    candidates: Vec<Candidate>,
}

// Contracts see the rows, those with shorter regions first.
impl Model for Index {
    ghost use Rattle.std.specs.Prelude.{List};
    ghost use Rattle.handlers.specs.Searching.{IsIndex, rows_in};
    ghost use Rattle.handlers.specs.declared.rows.Row.{Row};

    ghost Value = { List Row };

    ghost view = { λ x. rows_in x.candidates.items };

    ghost invariant = { λ x. IsIndex x.edges.items x.pieces.items x.candidates.items };
}

// The rows with the shorter regions first, equal ones in their order.
fn by_width(alloc: Global, rows: &[Row]) -> Result<Vec<Row>, AllocError>
    ensures moved { IfOk result (λ sorted. IsPermutation rows.now sorted.items) }
    ensures sorted { IfOk result (λ sorted. IsNonDecreasingBy width sorted.items) }
    ensures stable { IfOk result (λ sorted. IsStableByKey width nat_cmp rows.now sorted.items) }
{
    let mut sorted = copied(alloc, rows)?;
    sorted.sort_by_key(|row| row.width())?;
    Ok(sorted)
}

// The starts and ends of rows, each once, in order.
fn places(alloc: Global, rows: &[Row]) -> Result<Vec<u16>, AllocError>
    ensures { IfOk result (λ places. AreEdges rows.now places.items) }
{
    let mut places = Vec::new(alloc);
    for row in rows {
        places.push(row.start)?;
        places.push(row.end_)?;
    }
    places.sort_unstable();
    places.dedup();
    Ok(places)
}

// The number of the first row, from a number on, that covers a place.
fn next_covering(rows: &[Row], from: usize, place: u16) -> Option<usize>
    ensures { result ≡ next_covering place from (drop from rows.now) }
{
    for number in from..rows.len() {
        if rows[number].covers(place) {
            return Some(number);
        }
    }
    None
}

fn edges(alloc: Global, places: &[u16]) -> Result<Vec<Edge>, AllocError>
    ensures { IfOk result (λ edges. edges.items ≡ places.now) }
{
    let mut edges = Vec::new(alloc);
    for place in places {
        edges.push(Edge::new(*place))?;
    }
    Ok(edges)
}

fn pieces(alloc: Global, rows: &[Row], places: &[u16]) -> Result<Vec<Option<usize>>, AllocError>
    ensures { IfOk result (λ pieces. pieces.items ≡ map (λ p. next_covering p 0 rows.now) places.now) }
{
    let mut pieces = Vec::new(alloc);
    for place in places {
        pieces.push(next_covering(rows, 0, *place))?;
    }
    Ok(pieces)
}

fn candidates(alloc: Global, rows: &[Row]) -> Result<Vec<Candidate>, AllocError>
    ensures { IfOk result (λ candidates. candidates.items ≡ candidates_of 0 rows.now) }
{
    let mut candidates = Vec::new(alloc);
    for (number, row) in rows.iter().enumerate() {
        let around = next_covering(rows, number + 1, row.start);
        candidates.push(Candidate::new(*row, around))?;
    }
    Ok(candidates)
}

// How many edges are at a place or before it.
fn passed<L: Ledger>(edges: &[Edge], place: u16, probes: &mut Probes<L>) -> usize
    requires { IsStrictlyIncreasing edges.now }
    ensures cut { SplitsAt edges.now place result }
    ensures places { CountsDigits (length edges.now) probes.old.places probes.new.places }
    ensures exceptions { probes.new.exceptions ≡ probes.old.exceptions }
{
    let mut low = 0;
    let mut left = edges.len();
    while 0 < left {
        let half = left / 2;
        if edges[low + half].is_passed(place, probes) {
            low += half + 1;
            left -= half + 1;
        } else {
            left = half;
        }
    }
    low
}

impl Index {
    // The index of rows each of which covers a place, and of which no two cross.
    pub(crate) fn new(alloc: Global, rows: &[Row]) -> Result<Index, AllocError>
        requires nested { all_nested rows.now ≡ true }
        requires covering { cover_something rows.now ≡ true }
        ensures { IfOk result (λ index. AreByWidth rows.now index) }
    {
        let sorted = by_width(alloc, rows)?;
        let places = places(alloc, rows)?;
        Ok(Index {
            edges: edges(alloc, &places)?,
            pieces: pieces(alloc, &sorted, &places)?,
            candidates: candidates(alloc, &sorted)?,
        })
    }

    // The number of the innermost row that covers a place.
    fn first<L: Ledger>(&self, place: u16, probes: &mut Probes<L>) -> Option<usize>
        ensures first { result ≡ next_covering place 0 self.now }
        ensures places { ComparesPlaces self.now probes.old.places probes.new.places }
        ensures exceptions { probes.new.exceptions ≡ probes.old.exceptions }
    {
        match passed(&self.edges, place, probes).checked_sub(1) {
            None => None,
            Some(piece) => self.pieces[piece],
        }
    }

    // The target of the first row that covers a place and handles an exception.
    pub(crate) fn target<L: Ledger>(
        &self,
        place: u16,
        exception: u16,
        probes: &mut Probes<L>,
    ) -> Option<u16>
        ensures target { result ≡ option_map (λ r. r.target) (find (takes place exception) self.now) }
        ensures places { ComparesPlaces self.now probes.old.places probes.new.places }
        ensures exceptions { probes.new.exceptions ≤ probes.old.exceptions + count_by (covers place) self.now }
    {
        let mut next = self.first(place, probes);
        while let Some(number) = next {
            let candidate = &self.candidates[number];
            if candidate.handles(exception, probes) {
                return Some(candidate.target());
            }
            next = candidate.around();
        }
        None
    }
}
