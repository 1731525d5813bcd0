//! What a gateway among other implementations knows of its journal while it runs, and the records of each of
//! its steps.
//!
//! A step's records are, in this order: `done` for each piece with an id of a block whose session ended;
//! `begun` for each piece that is added, under the next id, and none for a report; `mark` for each report that
//! goes out about a session of the peer that isn't handed up by then and isn't marked; `clear` for each marked
//! session that is handed up or that its sender cancelled (`specs/Records.antt`). Last in a half comes
//! `reserved` for each face whose engine's next number is above what is reserved. Marks and numbers are those
//! of [`gate_records`].
//!
//! A piece waits at its face from its `begun` until a block takes it, with those in front of it, to a session;
//! its `done` comes when that ends. A piece of an earlier run that is still pending is added again while there
//! is room: it has its id, and no record.
//!
//! A run begins with what is [`gate_records::recovered`], and [`Keeping::new`] takes it. In each half the
//! pieces of [`Keeping::next_kept`] are added as long as there is room; after each step of the gate comes
//! [`Keeping::step`], and after the last one [`Keeping::reserve`]. What [`Keeping::records`] lends is
//! committed before the half sends, and then [`Keeping::clear_records`] begins the next half.
//! [`Keeping::kept`] is what a file is made anew of. Where each piece is, [`Held`] knows.
//!
//! [`laws`] says what holds of the records.
#![tactic(auto)]

mod ending;
mod held;
mod keeping;
pub mod laws;
mod marking;
mod marks;
mod pending;
mod record;
mod recording;
mod said;
mod sending;
mod step;
mod to_add;
mod told;

pub use held::Held;
pub use keeping::Keeping;
pub use step::StepDone;
