//! A drain of a path, from the old node over the gate to the new one: a path that stops losing has
//! room for all that its gate will begin, completes its sessions on both links, and ends.
//!
//! A drain is a list of clean events (`specs/Clean`): what is sent from its beginning on, on either
//! link, is delivered, once and in the order in which it was sent, and the clock moves to the
//! earliest of all deadlines where nothing is left to deliver.
//!
//! - [`room`]. A block that comes to a face of the gate goes on in pieces at the other face, and may ask
//!   for a report at its own. `specs/OnTheWay` counts them while the block is on its way: `will_begin`
//!   says how many sessions a face will begin at most. `specs/PathRoom` says what room there must be
//!   for them at each of the four engines, and [`room::room_is_kept`] that a drain keeps it, from event
//!   to event and within a step of the gate. `specs/Pieces` says what becomes of one block, in pieces
//!   and notes.
//! - [`completion`]. `specs/Hopeful` says when a drain completes all sessions and what it costs,
//!   `Completion` what it promises, and `Effects` how that shows. On each link an event of the path is
//!   a delivery of the oldest segment there, or a clock, or nothing; and then come the blocks that the
//!   gate submits. So the laws of drains of one link (`ltp_drain`) hold of both, with the sessions
//!   that the gate begins in the drain.
//! - [`whole_runs`]. What a drain promises together with the run before it, whatever happened then: a
//!   session that is open where the drain begins was begun and perhaps handed up before, and a block
//!   may have come to the gate before, whose case was noted then. `specs/Runs` has what holds of every
//!   run, `specs/Decided` says that whatever the gate begins is as it decided in that event, and
//!   `specs/WholeRun` has the promise.
//! - [`ends`]. Every drain ends, hopeful or not. `specs/Left` measures how much is left of one; each
//!   delivery lowers that, also where a block comes whole to the gate. So a drain ends, or its clock
//!   passes any moment. `specs/Drained` computes its events, and there are no others. `specs/Moments`
//!   says when timers are due: after the clock; and that a clock which is set to a moment before that
//!   shows it, and nothing else is done.
//!
//! Each law is the contract of a function that does nothing. [`examples`] are computed.
#![tactic(auto)]

pub mod completion;
pub mod ends;
pub mod examples;
pub mod room;
pub mod whole_runs;
