//! The endpoints that a block of version 6 refers to. A block may have millions of references to one
//! long name, so a list has each reference's place, and shares the texts.

ghost use Rattle.std.specs.Prelude.{◌≡◌, ◌++◌, ◌∷◌, [], length, get_or, IfOk, OnOk, OnErr};
ghost use Rattle.endpoint.specs.declared.name.Endpoint.TheVariants.{Null, Dtn};
ghost use Rattle.endpoint.specs.Lent.{endpoint_of};
ghost use Rattle.endpoint.specs.Places.{endpoint_at, endpoints_at, IsFixed};

use super::lent::Name;
use super::{Octets, Place, PlaceList};
use std::alloc::{AllocError, Global};
use std::marker::Model;
use std::rc::Rc;

/// Texts that lists of names share: one more owner takes no memory.
#[derive(Debug, Drop)]
pub struct Texts {
    octets: Rc<Octets>,
}

impl Model for Texts {
    ghost use Rattle.std.specs.Prelude.{List, ℕ};

    ghost Value = { List ℕ };

    ghost view = { λ texts. texts.octets.value };
}

impl Texts {
    /// These octets, moved and not copied.
    pub fn new(alloc: Global, octets: Octets) -> Result<Texts, AllocError>
        ensures { IfOk result (λ texts. texts ≡ octets) }
    {
        Ok(Texts {
            octets: Rc::new(alloc, octets)?,
        })
    }

    /// The octets, lent.
    pub fn as_slice(&self) -> &[u8]
        ensures { result.now ≡ self.now }
    {
        self.octets.as_ref().as_slice()
    }

    /// The same octets, with one owner more.
    pub fn share(&self) -> Result<Texts, AllocError>
        ensures { IfOk result (λ texts. texts ≡ self.now) }
    {
        Ok(Texts {
            octets: self.octets.clone()?,
        })
    }
}

/// Names of one list: their places, and the texts.
#[derive(Debug, Drop)]
struct Listed {
    texts: Texts,
    places: PlaceList,
}

impl Model for Listed {
    ghost use Rattle.std.specs.Prelude.{List};
    ghost use Rattle.endpoint.specs.declared.name.Endpoint.{Endpoint};
    ghost use Rattle.endpoint.specs.Places.{endpoints_at};

    ghost Value = { List Endpoint };

    ghost view = { λ listed. endpoints_at listed.texts listed.places };
}

/// The endpoints that a version 6 block refers to (RFC 5050, section 4.5.2). A copy shares what the
/// list has, and takes no memory.
#[derive(Debug, Drop)]
pub struct Refs {
    listed: Option<Rc<Listed>>,
}

impl Model for Refs {
    ghost use Rattle.std.specs.Prelude.{List, [], option_map, unwrap_or};
    ghost use Rattle.endpoint.specs.declared.name.Endpoint.{Endpoint};

    ghost Value = { List Endpoint };

    ghost view = { λ refs. unwrap_or (option_map (λ listed. listed.value) refs.listed) [] };
}

impl Refs {
    /// No references. It takes no memory.
    pub fn new(_alloc: Global) -> Refs
        ensures { result ≡ [] }
    {
        Refs { listed: None }
    }

    /// The endpoints at these places in the texts, which are shared.
    pub fn from_places(alloc: Global, texts: &Texts, places: PlaceList) -> Result<Refs, AllocError>
        ensures { IfOk result (λ refs. refs ≡ endpoints_at texts.now places) }
    {
        if places.is_empty() {
            return Ok(Refs::new(alloc));
        }
        let texts = texts.share()?;
        Ok(Refs {
            listed: Some(Rc::new(alloc, Listed { texts, places })?),
        })
    }

    /// How many references there are.
    pub fn len(&self) -> usize
        ensures { result ≡ length self.now }
    {
        match &self.listed {
            Some(listed) => listed.places.len(),
            None => 0,
        }
    }

    /// The reference with this number, from 0 on, its octets lent; past the end the null endpoint.
    pub fn get(&self, at: usize) -> Name<'_>
        ensures { endpoint_of result ≡ get_or self.now at Null }
    {
        match &self.listed {
            Some(listed) => listed.get(at),
            None => Name::Null,
        }
    }

    /// The same references.
    pub fn copy(&self, _alloc: Global) -> Result<Refs, AllocError>
        ensures { IfOk result (λ copied. copied ≡ self.now) }
    {
        Ok(Refs {
            listed: match &self.listed {
                Some(listed) => Some(listed.clone()?),
                None => None,
            },
        })
    }
}

impl Listed {
    /// The name with this number; past the end the null endpoint.
    fn get(&self, at: usize) -> Name<'_>
        ensures { endpoint_of result ≡ get_or self.now at Null }
    {
        match self.places.get(at) {
            Some(place) => place.name(self.texts.as_slice()),
            None => Name::Null,
        }
    }
}

/// A list of names that is still being made, with texts of its own.
#[derive(Debug, Drop)]
pub struct Listing {
    texts: Vec<u8>,
    places: PlaceList,
}

impl Model for Listing {
    ghost use Rattle.std.specs.Prelude.{List};
    ghost use Rattle.std.specs.List.{All};
    ghost use Rattle.endpoint.specs.declared.name.Endpoint.{Endpoint};
    ghost use Rattle.endpoint.specs.Places.{endpoints_at, IsIn};

    ghost Value = { List Endpoint };

    ghost view = { λ listing. endpoints_at listing.texts.items listing.places };

    ghost invariant = { λ listing. All (IsIn listing.texts.items) listing.places };
}

impl Listing {
    /// No names yet. It takes no memory.
    pub fn new(alloc: Global) -> Listing
        ensures { result ≡ [] }
    {
        Listing {
            texts: Vec::new(alloc),
            places: PlaceList::new(alloc),
        }
    }

    /// Adds a name at the end. Where memory runs out the list stays as it was.
    pub fn push(&mut self, name: Name<'_>) -> Result<(), AllocError>
        ensures ok { OnOk result (self.new ≡ self.old ++ endpoint_of name.entry ∷ []) }
        ensures err { OnErr result (self.new ≡ self.old) }
    {
        match name {
            Name::Null => self.push_fixed(Place::Null),
            Name::Ipn { node, service } => self.push_fixed(Place::Ipn { node, service }),
            Name::Dtn(ssp) => self.push_text(ssp),
        }
    }

    /// Adds a name that needs no text.
    fn push_fixed(&mut self, place: Place) -> Result<(), AllocError>
        requires { IsFixed place }
        ensures ok { OnOk result (self.new ≡ self.old ++ endpoint_at [] place ∷ []) }
        ensures err { OnErr result (self.new ≡ self.old) }
    {
        self.places.push(place)?;
        Ok(())
    }

    /// Adds a dtn name.
    fn push_text(&mut self, ssp: &[u8]) -> Result<(), AllocError>
        ensures ok { OnOk result (self.new ≡ self.old ++ Dtn ssp.now ∷ []) }
        ensures err { OnErr result (self.new ≡ self.old) }
    {
        let place = Place::Dtn {
            from: self.texts.as_slice().len(),
            size: ssp.len(),
        };
        self.texts.extend_from_slice(ssp)?;
        self.places.push(place)?;
        Ok(())
    }

    /// The list, made.
    pub fn into_refs(self, alloc: Global) -> Result<Refs, AllocError>
        ensures { IfOk result (λ refs. refs ≡ self) }
    {
        let Listing { texts, places } = self;
        let texts = Texts::new(alloc, Octets::from_vec(texts))?;
        Refs::from_places(alloc, &texts, places)
    }
}
