//! Names, found by their bytes or by their order, so that no choice of names makes a look-up slow.
ghost use Rattle.std.specs.Prelude.{◌≡◌, [], ◌∷◌, ◌++◌, length, not, position, IfOk, IfSome, IsTrue, IsSome, OnErr, ℕ, List, if◌then◌else◌, Some, is_some, false};
ghost use Rattle.std.specs.List.{list_any};
ghost use Rattle.std.specs.Str.{bytes_eq};
ghost use Rattle.acc_document_fields.specs.Names.{place_in, AreOnce};

use crate::guesses::Guesses;
use acc_base::{InlineText, OutOfMemory, Sequence};
use std::alloc::Global;
use std::collections::BTreeMap;
use std::marker::Model;

/// Names in the order in which they were added, each once.
#[derive(Drop)]
pub struct NameTable {
    names: Sequence<InlineText>,
    places: BTreeMap<Vec<u8>, usize>,
    guesses: Guesses,
}

impl Model for NameTable {
    ghost use Rattle.std.specs.Prelude.{List, ℕ};
    ghost use Rattle.acc_document_fields.specs.Names.{ArePlaces, AreOnce};

    ghost Value = { List (List ℕ) };

    ghost view = { λ t. t.names };

    ghost invariant = { λ t. ArePlaces t.names t.places × AreOnce t.names };
}

impl NameTable {
    /// No names.
    pub fn new(alloc: Global) -> NameTable
        ensures { result ≡ [] }
    {
        NameTable {
            names: Sequence::new(alloc),
            places: BTreeMap::new(alloc),
            guesses: Guesses::new(alloc),
        }
    }

    /// Adds a name, and answers whether it is new.
    pub fn add(&mut self, alloc: Global, name: &[u8]) -> Result<bool, OutOfMemory>
        ensures added { IfOk result (λ added. added ≡ not (list_any (bytes_eq name.now) self.old)) }
        ensures names { IfOk result (λ added. self.new
            ≡ (if added then self.old ++ name.now ∷ [] else self.old)) }
        ensures err { OnErr result (self.new ≡ self.old) }
    {
        let place = self.names.len();
        self.names.push(InlineText::from_slice(alloc, name)?)?;
        match enter(&mut self.places, alloc, name, place) {
            Ok(true) => {
                self.guesses.add(name, place);
                Ok(true)
            }
            Ok(false) => {
                self.names.truncate(place);
                Ok(false)
            }
            Err(OutOfMemory) => {
                self.names.truncate(place);
                Err(OutOfMemory)
            }
        }
    }

    /// The place of a name, counted from 0.
    pub fn place(&self, name: &[u8]) -> Option<usize>
        ensures { result ≡ position (bytes_eq name.now) self.now }
    {
        match self.guessed(name) {
            Some(place) => Some(place),
            None => self.places.get(name).copied(),
        }
    }

    // The place that is guessed, if the name stands there.
    fn guessed(&self, name: &[u8]) -> Option<usize>
        ensures { IfSome result (λ place. position (bytes_eq name.now) self.now ≡ Some place) }
    {
        match self.guesses.get(name) {
            Some(place) if self.stands_at(place, name) => Some(place),
            _ => None,
        }
    }

    fn stands_at(&self, place: usize, name: &[u8]) -> bool
        ensures { IsTrue result → position (bytes_eq name.now) self.now ≡ Some place }
    {
        match self.names.as_slice().get(place) {
            Some(found) => found.as_slice() == name,
            None => false,
        }
    }

    /// Whether there is such a name.
    pub fn has(&self, name: &[u8]) -> bool
        ensures { result ≡ list_any (bytes_eq name.now) self.now }
    {
        self.place(name).is_some()
    }

    /// No name stands twice.
    pub fn stand_once(&self)
        ensures { AreOnce self.now }
    {
        let _names = &self.names;
    }

    /// How many there are.
    pub fn len(&self) -> usize
        ensures { result ≡ length self.now }
    {
        self.names.len()
    }
}

// Notes the place of a name, and answers whether it is new. A name that has a place keeps it, and without memory the places are
// as before.
fn enter(
    places: &mut BTreeMap<Vec<u8>, usize>,
    alloc: Global,
    name: &[u8],
    place: usize,
) -> Result<bool, OutOfMemory>
    ensures fresh { IfOk result (λ fresh. fresh ≡ not (is_some (place_in places.old name.now))) }
    ensures added { IfOk result (λ fresh. IsTrue fresh → (other : List ℕ) → place_in places.new other ≡ (if bytes_eq name.now other then Some place else place_in places.old other)) }
    ensures known { IfOk result (λ fresh. fresh ≡ false → (other : List ℕ) → place_in places.new other ≡ place_in places.old other) }
    ensures err { OnErr result ((other : List ℕ) → place_in places.new other ≡ place_in places.old other) }
{
    match places.insert(Vec::from_slice(alloc, name)?, place)? {
        None => Ok(true),
        Some(before) => {
            put_back(places, name, before);
            Ok(false)
        }
    }
}

// Gives another place to a name that has one.
fn put_back(places: &mut BTreeMap<Vec<u8>, usize>, name: &[u8], place: usize)
    requires { IsSome (place_in places.old name.now) }
    ensures { (other : List ℕ) → place_in places.new other ≡ (if bytes_eq name.now other then Some place else place_in places.old other) }
{
    if let Some(found) = places.get_mut(name) {
        *found = place;
    }
}
