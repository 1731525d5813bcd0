//! Endpoints of bundles: values of the schemes `dtn` and `ipn`, and their texts (RFC 9171, RFC 6260).
//!
//! [`Endpoint`] is a name that both bundle versions share. `from_text` reads its text and `to_text`
//! writes it; each endpoint has exactly one text. [`named`] reads a name that is given as two texts,
//! scheme and scheme-specific part, as a version 6 dictionary has it, and [`is_ssp`] and
//! [`ipn_named`] are its two halves for formats that spell the scheme as a number.
//!
//! Beside it stand the small values that all formats share: [`Listed`], [`Octets`] and [`Refs`], lists
//! that contracts see as lists, and [`Fragment`], where a fragment lies in the whole. A list of names may
//! be long and its names few, so [`Refs`] has of each name its [`Place`] in [`Texts`] that are shared.
//!
//! Schemes other than `dtn` and `ipn` are left out, and so is what a dtn name's parts mean.
#![tactic(auto)]

mod extent;
mod fault;
mod lent;
mod listed;
mod lists;
mod name;
mod numeral;
mod place;
mod place_list;
mod refs;
mod text;

pub use extent::Fragment;
pub use fault::EndpointFault;
pub use lent::Name;
pub use listed::Listed;
pub use lists::Octets;
pub use name::Endpoint;
pub use place::Place;
pub use place_list::PlaceList;
pub use refs::{Listing, Refs, Texts};
pub use text::{ipn_named, is_ssp, lend_named, named};
