//! The dictionary of a bundle that is to be written, and the numbers of its names.

ghost use Rattle.std.specs.Prelude.{ℕ, ◌≡◌, List, [], map, length, IfOk};
ghost use Rattle.endpoint.specs.Endpoints.{ssp_of};
ghost use Rattle.endpoint.specs.Lent.{endpoint_of};
ghost use Rattle.bundle6.specs.Spelling.{with_text, with_name, with_names, offset_of, places_of, numbers_of, is_numbered};
ghost use Rattle.bundle6.specs.Gathering.{Shows, Placed, Named};

use crate::names::Offsets;
use endpoint::Name;
use std::alloc::{AllocError, Global};
use std::collections::BTreeMap;

/// The texts of a dictionary, each once, in the order of first use.
#[derive(Drop)]
pub(crate) struct Gathering {
    /// The texts, each with a NUL after it.
    pub(crate) dictionary: Vec<u8>,
    /// Where each text stands.
    pub(crate) places: BTreeMap<Vec<u8>, u64>,
}

impl Gathering {
    /// No texts yet.
    pub(crate) fn new(alloc: Global) -> Gathering
        ensures { Shows result [] }
    {
        Gathering {
            dictionary: Vec::new(alloc),
            places: BTreeMap::new(alloc),
        }
    }

    /// The dictionary's octets.
    pub(crate) fn into_dictionary(self) -> Vec<u8>
        ensures { result ≡ self.dictionary }
    {
        let Gathering {
            dictionary,
            places: _,
        } = self;
        dictionary
    }

    /// Where a text stands. One that isn't there is put at the end.
    fn place(&mut self, alloc: Global, text: &[u8]) -> Result<u64, AllocError>
        ensures { (texts : List (List ℕ)) → Shows self.old texts
            → IfOk result (λ at. Placed self.new texts text.now at) }
    {
        if let Some(at) = self.places.get(text) {
            return Ok(*at);
        }
        let at = self.dictionary.as_slice().len() as u64;
        self.places.insert(Vec::from_slice(alloc, text)?, at)?;
        self.dictionary.extend_from_slice(text)?;
        self.dictionary.push(0)?;
        Ok(at)
    }

    /// Where the two texts of an endpoint stand. Those that aren't there are put at the end.
    pub(crate) fn name(&mut self, alloc: Global, endpoint: &Name<'_>) -> Result<Offsets, AllocError>
        ensures { (texts : List (List ℕ)) → Shows self.old texts
            → IfOk result (λ pair. Named self.new texts (endpoint_of endpoint.now) pair) }
    {
        let scheme = self.place(alloc, endpoint.scheme())?;
        let ssp = self.part(alloc, endpoint)?;
        Ok(Offsets { scheme, ssp })
    }

    /// Where the scheme-specific part of an endpoint stands.
    fn part(&mut self, alloc: Global, endpoint: &Name<'_>) -> Result<u64, AllocError>
        ensures { (texts : List (List ℕ)) → Shows self.old texts
            → IfOk result (λ at. Placed self.new texts (ssp_of (endpoint_of endpoint.now)) at) }
    {
        match endpoint {
            Name::Dtn(ssp) => self.place(alloc, ssp),
            other => {
                let ssp = other.owned(alloc)?.ssp(alloc)?;
                self.place(alloc, ssp.as_slice())
            }
        }
    }
}
