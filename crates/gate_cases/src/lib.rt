//! What the gateway decides about one block that was handed up at one of its faces.
//!
//! The old face speaks version 6 (RFC 5050), the new one version 7 (RFC 9171). [`judge`] says which of
//! seven cases a block is ([`GateCase`]), which blocks go on at the other face, and which status report
//! is asked for. It reads the block, translates the bundle, takes the step of one hop, and cuts it;
//! what it decides is a value, and nothing is sent here.
//!
//! The report is asked for without the counter that numbers it: [`AskedReport::spell`] gives its octets
//! once the gateway has one.
#![tactic(auto)]

mod asking;
mod case;
mod cause;
mod face;
mod hop;
mod judged;
mod judging;
mod laws;
mod names;
mod reading;
mod report;
mod sending;
mod spelling;

pub use asking::{asked6, asked7};
pub use case::{BLOCK_MAX, GateCase, NUMBERS, Room, SENDING_MAX, sending_limits};
pub use cause::BadCause;
pub use face::Face;
pub use hop::{has_no_hop_left, passage};
pub use judged::{Judged, Pieces};
pub use judging::judge;
pub use laws::{pieces_have_room, reports_live_a_day};
pub use names::is_any_over;
pub use reading::{read6, read7};
pub use report::{AskedReport, Creation, Statuses};
pub use sending::{all_fit, piece_count, piece_records, spelled};
