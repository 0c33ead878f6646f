//! Formal names by their places.

ghost use Rattle.std.specs.Prelude.{◌≡◌, map, IfOk, OnOk, [], ◌++◌, ◌∷◌, List, ℕ, length};
ghost use Rattle.std.specs.List.{list_any};
ghost use Rattle.std.specs.Str.{bytes_eq};
ghost use Rattle.qasm_names.specs.Places.{ArePlaces, place_in};
ghost use Rattle.qasm_scope.specs.Applications.{has_twice};

use std::alloc::{AllocError, Global};
use std::collections::BTreeMap;

// Of so many names, each is compared with each.
const FEW: usize = 8;

/// Names by their places in a list.
#[derive(Drop)]
pub struct Places<'a> {
    /// The place of each name; of equal names the first one's.
    pub places: BTreeMap<&'a [u8], usize>,
}

impl<'a> Places<'a> {
    /// No names.
    pub fn none(alloc: Global) -> Places<'a>
        ensures { ArePlaces result [] }
    {
        Places {
            places: BTreeMap::new(alloc),
        }
    }

    /// The places of these names.
    pub fn new(alloc: Global, names: &[&'a [u8]]) -> Result<Places<'a>, AllocError>
        ensures { IfOk result (λ places. ArePlaces places (map (λ name. name.now) names.now)) }
    {
        let mut places = Places::none(alloc);
        for (place, name) in names.iter().enumerate() {
            places.put(*name, place)?;
        }
        Ok(places)
    }

    /// The place of a name.
    pub fn find(&self, name: &'a [u8]) -> Option<usize>
        ensures { result ≡ place_in self.now name.now }
    {
        self.places.get(&name).copied()
    }

    // Puts a name at a place, unless it has one.
    fn put(&mut self, name: &'a [u8], place: usize) -> Result<(), AllocError>
        ensures { OnOk result ((before : List (List ℕ)) → length before ≡ place
            → ArePlaces self.old before → ArePlaces self.new (before ++ name.now ∷ [])) }
    {
        match self.find(name) {
            Some(_) => Ok(()),
            None => {
                self.places.insert(name, place)?;
                Ok(())
            }
        }
    }
}

/// Whether a name stands twice in a list.
pub fn has_name_twice<'a>(alloc: Global, names: &[&'a [u8]]) -> Result<bool, AllocError>
    ensures { IfOk result (λ twice. twice ≡ has_twice bytes_eq (map (λ name. name.now) names.now)) }
{
    if names.len() <= FEW {
        return Ok(any_twice(names));
    }
    let mut places = Places::none(alloc);
    for (place, name) in names.iter().enumerate() {
        if places.find(*name).is_some() {
            return Ok(true);
        }
        places.put(*name, place)?;
    }
    Ok(false)
}

// Whether a name stands twice in a list, by comparing each with those behind it.
fn any_twice(names: &[&[u8]]) -> bool
    ensures { result ≡ has_twice bytes_eq (map (λ name. name.now) names.now) }
{
    let mut rest = names;
    while let [first, others @ ..] = rest {
        if stands_among(*first, others) {
            return true;
        }
        rest = others;
    }
    false
}

// Whether a name stands in a list.
fn stands_among(name: &[u8], names: &[&[u8]]) -> bool
    ensures { result
        ≡ list_any (λ other. bytes_eq other name.now) (map (λ name. name.now) names.now) }
{
    for other in names {
        if is_same(*other, name) {
            return true;
        }
    }
    false
}

fn is_same(name: &[u8], other: &[u8]) -> bool
    ensures { result ≡ bytes_eq name.now other.now }
{
    name == other
}
