//! The file in which a gateway keeps over a stop what it has acknowledged.
//!
//! A file stands for what is kept ([`Kept`]): the blocks that were begun and haven't ended, marks of
//! peers' sessions about which a report went out, and for each face the numbers that may have been
//! used. It is eight octets and a list of records ([`Record`]), each after an open gate, up to a gate
//! that is closed; what follows that counts for nothing, so a torn write there does no harm. What each
//! record does is `specs/Keeping.antt`, and the table of its fields `specs/Table.antt`.
//!
//! [`read_kept`] reads a file, or says at which place and for which cause it is damaged.
//!
//! [`write_gated`] and [`write_behind_gate`] append the octets of records. [`closed_gate_ends`],
//! [`any_closed_gate_ends`] and [`open_gate_goes_on`] state what gates do: behind a closed one anything
//! may stand, and opening it makes the records behind it the next ones. [`write_file`] makes a file anew
//! of what is kept, and [`new_file_says_the_same`] states that it stands for that;
//! [`what_is_read_is_sound`] that whatever a file stands for may be written so.
//!
//! How records are committed, with which writes and syncs in which order, is not known here.
#![tactic(auto)]

mod fault;
mod fields;
mod kept;
mod laws;
mod reading;
mod record;
mod slots;
mod whole;
mod writing;

pub use fault::{JournalCause, JournalFault};
pub use kept::{Kept, MARKS_MAX, Mark, Pending};
pub use laws::{
    any_closed_gate_ends, closed_gate_ends, entries_add_up, gate_is_last, gate_moves_by_entries,
    new_file_is_below, new_file_says_the_same, open_gate_goes_on, records_are_read,
    records_leave_what_is_legal, records_may_follow_below, what_is_legal_is_sound,
    what_is_read_is_legal, what_is_read_is_sound,
};
pub use reading::read_kept;
pub use record::{How, Record};
pub use whole::write_file;
pub use writing::{write_behind_gate, write_gated, write_record};
