//! Where a name is among texts.

ghost use Rattle.std.specs.Prelude.{◌≡◌, take, drop, unwrap_or};
ghost use Rattle.endpoint.specs.declared.name.Endpoint.TheVariants.{Null};
ghost use Rattle.endpoint.specs.Reading.{ipn_named};
ghost use Rattle.endpoint.specs.Lent.{endpoint_of};
ghost use Rattle.endpoint.specs.Places.{endpoint_at};

use super::lent::Name;
use super::text::ipn_name;

/// A name by its place in texts.
#[derive(Clone, Copy, Debug)]
pub enum Place {
    /// The null endpoint, `dtn:none`, wherever it is.
    Null,
    /// A service of a node, wherever it is.
    Ipn {
        /// The node's number.
        node: u64,
        /// The service's number.
        service: u64,
    },
    /// The service of a node whose two numbers these octets of the texts write, joined by a dot.
    Written {
        /// The place of the first.
        from: usize,
        /// How many there are.
        size: usize,
    },
    /// The dtn name whose scheme-specific part these octets of the texts are.
    Dtn {
        /// The place of the first.
        from: usize,
        /// How many there are.
        size: usize,
    },
}

impl Place {
    /// The endpoint at the place, its octets lent out of the texts.
    pub fn name(self, texts: &[u8]) -> Name<'_>
        ensures { endpoint_of result ≡ endpoint_at texts.now self }
    {
        match self {
            Place::Null => Name::Null,
            Place::Ipn { node, service } => Name::Ipn { node, service },
            Place::Written { from, size } => written(part(texts, from, size)),
            Place::Dtn { from, size } => Name::Dtn(part(texts, from, size)),
        }
    }
}

/// The service of a node whose two numbers a text writes; of another text the null endpoint.
fn written(text: &[u8]) -> Name<'_>
    ensures { endpoint_of result ≡ unwrap_or (ipn_named text.now) Null }
{
    match ipn_name(text) {
        Some(name) => name,
        None => Name::Null,
    }
}

/// So many octets from a place on, as far as they go.
fn part(texts: &[u8], from: usize, size: usize) -> &[u8]
    ensures { result.now ≡ take size (drop from texts.now) }
{
    let (_, rest) = texts.split_at(from.min(texts.len()));
    let (found, _) = rest.split_at(size.min(rest.len()));
    found
}
