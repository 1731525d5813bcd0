//! Segments of the Licklider Transmission Protocol (RFC 5326), and what its machines share.
//!
//! A datagram is one segment. `decode` takes it apart without taking memory, and lends data and
//! claims out of it; what isn't one is refused at one place for one cause. Five writers make
//! the octets of a segment, with shortest numbers and no extensions, and `decode` reads them back.
//! The table of the fields is in docs/formats-ltp.md.
//!
//! `Policy` says how segments are cut and how long answers are waited for. `Step` and `Note` are
//! what a session answers to an event.
//!
//! Extensions are passed over unread. Which segment may come when is not known here.
#![tactic(auto)]

mod claims;
mod fault;
mod fields;
mod laws;
mod outs;
mod pieces;
mod policy;
mod reading;
mod reports;
mod segment;
mod session;
mod writing;

pub use claims::Claims;
pub use fault::{SegmentCause, SegmentFault};
pub use laws::{is_read_back, is_segment_or_refused};
pub use outs::Outs;
pub use policy::{Policy, PolicyFault};
pub use reading::decode;
pub use segment::{Claim, Content, PieceKind, Segment};
pub use session::{BLOCK_MAX, Green, Note, PieceView, ReportView, Step, greatest_block};
pub use writing::{write_ack, write_cancel, write_cancel_ack, write_piece, write_report};
