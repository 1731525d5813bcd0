//! Places of names, four octets each where they are usual ones.

ghost use Rattle.std.specs.Prelude.{◌≡◌, ◌++◌, ◌∷◌, [], length, get_or, ◌==◌, IfOk, OnOk, OnErr, IfSome};
ghost use Rattle.std.specs.List.{slice_get};
ghost use Rattle.endpoint.specs.declared.place.Place.{Place};
ghost use Rattle.endpoint.specs.declared.place.Place.TheVariants as places;
ghost use Rattle.endpoint.specs.PlaceWords.{place_of, part_at, IsUsual, IsOther};

use super::Place;
use std::alloc::{AllocError, Global};
use std::marker::Model;

/// How many numbers stand for places of one kind.
const KIND: u32 = 1 << 30;

/// A list of places. Each takes four octets, and an unusual one as many more as a [`Place`]: a name
/// of more than 1,023 octets, or that begins past the first 2^20, and numbers from 2^15 on that no text
/// writes.
#[derive(Debug, Drop)]
pub struct PlaceList {
    words: Vec<u32>,
    others: Vec<Place>,
}

impl Model for PlaceList {
    ghost use Rattle.std.specs.Prelude.{List};
    ghost use Rattle.std.specs.List.{All};
    ghost use Rattle.endpoint.specs.declared.place.Place.{Place};
    ghost use Rattle.endpoint.specs.PlaceWords.{places_of, IsAmong};

    ghost Value = { List Place };

    ghost view = { λ list. places_of list.others.items list.words.items };

    ghost invariant = { λ list. All (IsAmong list.others.items) list.words.items };
}

impl PlaceList {
    /// No places yet. It takes no memory.
    pub fn new(alloc: Global) -> PlaceList
        ensures { result ≡ [] }
    {
        PlaceList {
            words: Vec::new(alloc),
            others: Vec::new(alloc),
        }
    }

    /// No places yet, and room for so many usual ones.
    pub fn with_room(alloc: Global, room: usize) -> Result<PlaceList, AllocError>
        ensures { IfOk result (λ list. list ≡ []) }
    {
        Ok(PlaceList {
            words: Vec::with_capacity(alloc, room)?,
            others: Vec::new(alloc),
        })
    }

    /// How many places there are.
    pub fn len(&self) -> usize
        ensures { result ≡ length self.now }
    {
        self.words.len()
    }

    /// Whether there are none.
    pub fn is_empty(&self) -> bool
        ensures { result ≡ (length self.now == 0) }
    {
        self.words.is_empty()
    }

    /// The place with this number, from 0 on, if there is one.
    pub fn get(&self, at: usize) -> Option<Place>
        ensures { result ≡ slice_get self.now at }
    {
        match self.words.get(at) {
            Some(word) => Some(place_of(*word, self.others.as_slice())),
            None => None,
        }
    }

    /// Adds a place at the end. Where memory runs out the list stays as it was.
    pub fn push(&mut self, place: Place) -> Result<(), AllocError>
        ensures ok { OnOk result (self.new ≡ self.old ++ place ∷ []) }
        ensures err { OnErr result (self.new ≡ self.old) }
    {
        match word_of(place) {
            Some(word) => self.push_word(word, place),
            None => self.push_other(place),
        }
    }

    /// Adds a usual place, by its number.
    fn push_word(&mut self, word: u32, place: Place) -> Result<(), AllocError>
        requires { IsUsual word place }
        ensures ok { OnOk result (self.new ≡ self.old ++ place ∷ []) }
        ensures err { OnErr result (self.new ≡ self.old) }
    {
        self.words.push(word)?;
        Ok(())
    }

    /// Adds another place. For the first there is room for all that may come.
    fn push_other(&mut self, place: Place) -> Result<(), AllocError>
        ensures ok { OnOk result (self.new ≡ self.old ++ place ∷ []) }
        ensures err { OnErr result (self.new ≡ self.old) }
    {
        let room = self.words.capacity().saturating_sub(self.words.len());
        self.others.reserve(room)?;
        let word = other_word(self.others.as_slice().len())?;
        self.others.push(place)?;
        self.words.push(word)?;
        Ok(())
    }
}

/// The place that a number stands for.
#[tactic(auto, unfolding(crate::specs::PlaceWords::place_of))]
fn place_of(word: u32, others: &[Place]) -> Place
    ensures { result ≡ place_of others.now word }
{
    if word < KIND {
        part_at(word / 1024, word % 1024)
    } else if word < 2 * KIND {
        let rest = word - KIND;
        Place::Written {
            from: (rest / 64) as usize,
            size: (rest % 64) as usize,
        }
    } else if word < 3 * KIND {
        let rest = word - 2 * KIND;
        Place::Ipn {
            node: u64::from(rest / 32768),
            service: u64::from(rest % 32768),
        }
    } else {
        other_at((word - 3 * KIND) as usize, others)
    }
}

/// A dtn name's place; of no octets it is the null endpoint's.
fn part_at(from: u32, size: u32) -> Place
    ensures { result ≡ part_at from size }
{
    if size == 0 {
        return Place::Null;
    }
    Place::Dtn {
        from: from as usize,
        size: size as usize,
    }
}

/// The place with this number; past the end the null endpoint's.
fn other_at(at: usize, others: &[Place]) -> Place
    ensures { result ≡ get_or others.now at places.Null }
{
    match others.get(at) {
        Some(place) => *place,
        None => Place::Null,
    }
}

/// The number that stands for a place, if it is a usual one.
fn word_of(place: Place) -> Option<u32>
    ensures { IfSome result (λ word. IsUsual word place) }
{
    match place {
        Place::Null => Some(0),
        Place::Dtn { from, size } => dtn_word(from, size),
        Place::Written { from, size } => written_word(from, size),
        Place::Ipn { node, service } => ipn_word(node, service),
    }
}

/// That of a dtn name.
fn dtn_word(from: usize, size: usize) -> Option<u32>
    ensures { IfSome result (λ word. IsUsual word (places.Dtn from size)) }
{
    if from >= 1 << 20 || size == 0 || size >= 1024 {
        return None;
    }
    Some(from as u32 * 1024 + size as u32)
}

/// That of numbers that a text writes.
fn written_word(from: usize, size: usize) -> Option<u32>
    ensures { IfSome result (λ word. IsUsual word (places.Written from size)) }
{
    if from >= 1 << 24 || size >= 64 {
        return None;
    }
    Some(KIND + (from as u32 * 64 + size as u32))
}

/// That of two numbers.
fn ipn_word(node: u64, service: u64) -> Option<u32>
    ensures { IfSome result (λ word. IsUsual word (places.Ipn node service)) }
{
    if node >= 1 << 15 || service >= 1 << 15 {
        return None;
    }
    Some(2 * KIND + (node as u32 * 32768 + service as u32))
}

/// That of an unusual place after so many of them. A list that has none left has no memory left.
fn other_word(at: usize) -> Result<u32, AllocError>
    ensures { IfOk result (λ word. IsOther at word) }
{
    if at >= 1 << 30 {
        return Err(AllocError);
    }
    Ok(3 * KIND + at as u32)
}
