//! Bundles as JSON texts, without a tree of values.
//!
//! `write6` and `write7` append the text of a bundle to a text, and a `Telling6` tells one of version 6
//! part by part out of its octets. The text is what `serde_json` writes of the object: no space, the
//! keys in alphabetical order. An endpoint is its text, and octets are hex in lower case.
//!
//! `serde_json` writes the object with its last block alone, each other block, and each reference. Octets
//! and references stay out of these texts, which are cut where they go in, so that no more than one of
//! them is kept.
#![tactic(auto)]

mod cut;
mod ipn;
mod list;
mod name;
mod shown;
mod telling6;
mod version6;
mod version7;
mod walk;

pub use telling6::Telling6;
pub use version6::write6;
pub use version7::write7;
