//! The command `receive`: it takes the datagrams of recorded LTP traffic (RFC 5326) as lines of hex, and
//! hands up each red part when it is whole, place by place the first octet that came. It sends no reports,
//! and so keeps nothing but what came and what it handed up.
//!
//! What octets settle of its answer is one definition, with a flag for whether the input ends after them
//! (`specs/Receive.antt`). [`Receive`] answers one line after the other, within the memory of the sessions
//! and of one line; [`KeepReceiving`] goes on after a line that is refused.
#![tactic(auto)]

mod keep_receiving;
mod laws;
mod line_content;
mod open_part;
mod part;
mod piece;
mod receive;
mod sessions;
mod table;
mod written_lines;

pub use keep_receiving::KeepReceiving;
pub use laws::{keep_receiving_changes_refusals_alone, red_part_is_front_of_block};
pub use receive::Receive;
