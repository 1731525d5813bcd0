//! Bundles of version 6: their octets, read and written (RFC 5050, RFC 6260).
//!
//! [`decode6`] reads the bundle at the front of some octets and says how many it took; [`judge6`]
//! says only that, and takes no memory. [`Reader6`] reads a stream of bundles in whatever pieces it
//! comes. Names are spelled as offsets into a dictionary, or, where that is empty, as numbers of the
//! scheme `ipn`. Octets that spell no bundle are refused at the first octet of the field that isn't
//! there as it should be, with the cause. [`encode6`] writes a legal bundle in its canonical spelling.
//! [`primary_judged`], [`head_judged`], [`name_judged`] and [`size_at`] judge a part of a bundle each,
//! for a judge that keeps no octets of it.
//!
//! The laws of the definitions are [`exactly_one`], [`only_legal`], [`canonical_spells`] and
//! [`cuts_alike`].
//!
//! The blocks end with the first that is marked as the last. Blocks of other types than the payload
//! are carried unread; custody, security and the age block have no meaning here.
#![tactic(auto)]

mod block;
mod bundle;
mod fault;
mod fields;
mod flags;
mod gathering;
mod judging;
mod laws;
mod names;
mod numbering;
mod pass;
mod primary;
mod reader;
mod reading;
mod writing;

pub use block::{Block6, Blocks6, Seen, size_at};
pub use bundle::Bundle6;
pub use fault::{Cause6, Fail6, Refused6};
pub use flags::{has_bit, without};
pub use judging::judge6;
pub use laws::{canonical_spells, cuts_alike, exactly_one, only_legal};
pub use pass::{Head, Texts, head_judged, name_judged, primary_judged};
pub use primary::Primary6;
pub use reader::{Fed6, Judged6, LONGEST, Reader6};
pub use reading::{MOST_OTHERS, decode6};
pub use writing::encode6;
