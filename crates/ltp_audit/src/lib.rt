//! The audit of a recorded exchange between two engines of the Licklider Transmission Protocol
//! (RFC 5326).
//!
//! An [`Audit`] is told each datagram that left one engine or came to it, and accepts it unless it
//! isn't a segment or breaks a rule: a claim or an acknowledgement of what never came, octets that
//! change, a segment that the other engine sends. What an engine does inside isn't looked at. The
//! rules are `specs/Rules.antt`, over the entries that were accepted before; `laws` has what it says
//! of a recording that they were.
//!
//! What later entries may speak of is kept and no more: the octets of red parts on pages of 64
//! places, which places have one as ranges, and serial numbers and cancels in ordered sets. A
//! session of one short checkpoint costs about 850 octets.
//!
//! A [`Recorder`] is an engine that keeps its own recording.
#![tactic(auto)]

mod audit;
mod entry;
mod fault;
pub mod laws;
mod marks;
mod page;
mod places;
mod recorder;
mod red_parts;

pub use audit::Audit;
pub use entry::Entry;
pub use fault::{AuditFault, Rule};
pub use recorder::Recorder;
