//! What passes a limit: the things after the first so many, and the objects for which no words are left.
ghost use Rattle.std.specs.Prelude.{◌≡◌, ◌++◌, ◌∷◌, [], IfOk, OnOk, drop, map};
ghost use Rattle.expr_rules.specs.Findings.{noted};
ghost use Rattle.size_rules.specs.Limits.{first_use, first_uses, is_among, limit_passed, object_rule, over, place_of_kind, places_of, room_behind};
ghost use Rattle.size_rules.specs.Limits.{same_kind, used_with, words_faults};

use crate::thing::{Kind, Thing};
use base::faults::LIMIT_PASSED;
use expr_rules::Findings;
use expr_rules::laws::noted_by_parts;
use indexmap::IndexMap;
use lexer::{Fault, Text};
use std::alloc::{AllocError, Global};
use std::marker::Model;

fn passed_faults(places: &[u32], found: &mut Findings)
    ensures { found.new ≡ noted found.old (map limit_passed places.now) }
{
    for place in places {
        found.note(Fault {
            number: LIMIT_PASSED,
            place: *place,
        });
    }
}

// The faults of those of these places that are behind so many others.
fn over(limit: usize, places: &[u32], found: &mut Findings)
    ensures { found.new ≡ noted found.old (over limit places.now) }
{
    if limit < places.len() {
        passed_faults(&places[limit..], found);
    }
}

fn same_kind(a: Kind, b: Kind) -> bool
    ensures { result ≡ same_kind a b }
{
    match (a, b) {
        (Kind::Subprogram, Kind::Subprogram) => true,
        (Kind::Task, Kind::Task) => true,
        (Kind::ProtectedObject, Kind::ProtectedObject) => true,
        (Kind::Exception, Kind::Exception) => true,
        _ => false,
    }
}

fn push_of_kind(kind: Kind, thing: &Thing, places: &mut Vec<u32>) -> Result<(), AllocError>
    ensures { OnOk result (places.new.items ≡ places.old.items ++ place_of_kind kind thing.now) }
{
    if let Thing::Counted(own, place) = thing {
        if same_kind(kind, *own) {
            places.push(*place)?;
        }
    }
    Ok(())
}

fn places_of(alloc: Global, kind: Kind, things: &[Thing]) -> Result<Vec<u32>, AllocError>
    ensures { IfOk result (λ places. places.items ≡ places_of kind things.now) }
{
    let mut places = Vec::new(alloc);
    for thing in things {
        push_of_kind(kind, thing, &mut places)?;
    }
    Ok(places)
}

/// Notes the faults of the things of this kind that are after so many of the kind. Memory is the only refusal.
pub(crate) fn count_faults(
    alloc: Global,
    kind: Kind,
    limit: usize,
    things: &[Thing],
    found: &mut Findings,
) -> Result<(), AllocError>
    ensures { OnOk result (found.new ≡ noted found.old (over limit (places_of kind things.now))) }
{
    let places = places_of(alloc, kind, things)?;
    over(limit, &places, found);
    Ok(())
}

// The labels that were used so far, each once. Contracts see a list.
#[derive(Drop)]
struct Labels {
    texts: IndexMap<Text, ()>,
}

impl Model for Labels {
    ghost use Rattle.std.specs.Prelude.{List, ℕ};
    ghost use Rattle.std.specs.Map.{keys_of};

    ghost Value = { List (List ℕ) };

    ghost view = { λ l. keys_of l.texts.entries };
}

impl Labels {
    fn new(alloc: Global) -> Labels
        ensures { result ≡ [] }
    {
        Labels {
            texts: IndexMap::new(alloc),
        }
    }

    fn has(&self, text: &Text) -> bool
        ensures { result ≡ is_among self.now text.now }
    {
        self.texts.get_index_of(text).is_some()
    }

    // Adds the label of a call, unless one like it was used before; of a new one the place is pushed.
    fn add(&mut self, thing: &Thing, places: &mut Vec<u32>) -> Result<(), AllocError>
        ensures used { OnOk result (self.new ≡ used_with self.old thing.now) }
        ensures places { OnOk result (places.new.items ≡ places.old.items ++ first_use self.old thing.now) }
    {
        if let Thing::Label(text, place) = thing {
            if !self.has(text) {
                self.texts.insert(text.clone()?, ())?;
                places.push(*place)?;
            }
        }
        Ok(())
    }
}

fn first_uses(alloc: Global, things: &[Thing]) -> Result<Vec<u32>, AllocError>
    ensures { IfOk result (λ places. places.items ≡ first_uses [] things.now) }
{
    let mut labels = Labels::new(alloc);
    let mut places = Vec::new(alloc);
    for thing in things {
        labels.add(thing, &mut places)?;
    }
    Ok(places)
}

/// Notes the faults of the labels that are after so many different ones. Memory is the only refusal.
pub(crate) fn label_faults(
    alloc: Global,
    limit: usize,
    things: &[Thing],
    found: &mut Findings,
) -> Result<(), AllocError>
    ensures { OnOk result (found.new ≡ noted found.old (over limit (first_uses [] things.now))) }
{
    let places = first_uses(alloc, things)?;
    over(limit, &places, found);
    Ok(())
}

fn object_rule(room: u16, thing: &Thing, found: &mut Findings)
    ensures { found.new ≡ noted found.old (object_rule room thing.now) }
{
    if let Thing::Object(place, words) = thing {
        found.note_rule(LIMIT_PASSED, *place, room < *words);
    }
}

fn room_behind(room: u16, thing: &Thing) -> u16
    ensures { result ≡ room_behind room thing.now }
{
    match thing {
        Thing::Object(_, words) => room.saturating_sub(*words),
        _ => room,
    }
}

/// Notes the faults of the objects for which not enough of so many words is left.
pub(crate) fn words_faults(words: u16, things: &[Thing], found: &mut Findings)
    ensures { found.new ≡ noted found.old (words_faults words things.now) }
{
    noted_by_parts();
    let mut room = words;
    for thing in things {
        object_rule(room, thing, found);
        room = room_behind(room, thing);
    }
}
