//! Bundles of version 7: their octets, read and written (RFC 9171).
//!
//! [`decode7`] reads the bundle at the front of some octets and says how many it took. Octets that
//! spell no bundle are refused at the first octet of the field that isn't there as it should be,
//! with the cause. [`judge7`] answers the same without the bundle, and takes no memory. [`Reader7`]
//! reads bundles out of a stream that comes in pieces. [`encode7`] writes a legal bundle: each has
//! one spelling, since heads are the shortest and only the outer array is without a length.
//! [`read_eid`] and [`write_eid`] do the same for an endpoint alone, and [`hop_of`], [`age_of`] and
//! [`previous_of`] read the bodies of the three extension blocks that are known here: hop count,
//! bundle age and previous node. [`start_judged`] and [`front_judged`] judge a part of a bundle each,
//! for a judge that keeps no octets of it.
//!
//! The payload is the last block, as the standard has it. A check of type 0, which is none, is
//! accepted on every block, the primary too (own rule). Security, administrative records and other
//! extension blocks are carried unread.
#![tactic(auto)]

mod block;
mod body;
mod bundle;
mod check;
mod eid;
mod fault;
mod fields;
mod judging;
mod laws;
mod pass;
mod primary;
mod reader;
mod reading;
mod seen;
mod writing;

pub use block::{Block7, Blocks7, Lead, is_single};
pub use body::{Hop, age_of, hop_of, is_body};
pub use bundle::Bundle7;
pub use eid::{previous_of, read_eid, write_eid};
pub use fault::{Cause7, EidFault, Fail7, Refused7};
pub use judging::judge7;
pub use laws::{cuts_alike, exactly_one, one_body, one_eid, one_spelling};
pub use pass::{Front, front_judged, start_judged};
pub use primary::Primary7;
pub use reader::{Fed7, Judged7, LONGEST, Reader7};
pub use reading::decode7;
pub use seen::{MOST_EXTENSIONS, Seen};
pub use writing::encode7;
