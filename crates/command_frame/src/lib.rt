//! The frame of every command that reads: a task is told the octets as they come, and one driver
//! moves them.
//!
//! A command is what octets settle of its answer (`Settled` of `edge_traits`). Its `Task` is fed
//! octets and says what text they settle, and whether they end the run; it promises what the octets
//! still to come settle from there. `drive` reads into one buffer, feeds, writes what is settled,
//! and reads again. It holds the limit on the size of an input for all commands, and how a run
//! went (`Ran`) is proved here once.
//!
//! Octets may settle a text that is much longer than they are. A `PartTask` hands such a text on part
//! by part, and `drive_parts` writes each before the next. It promises word for word what `drive` does:
//! both run the one loop (`drive_by`), which leaves to the kind of task what is done with a piece and with
//! the end.
//!
//! A command that answers line by line gives a `LineStep`, which answers one line, or a
//! `PartLineStep`, which may leave the text of a line to be told in parts; `AtOnce` makes the first
//! the second. `PartLineReader` is the part task over it: it holds the numbers of lines, the limits
//! on them, and the last line's end. `drive_lines` runs it, and answers which limit was passed.
#![tactic(auto)]

mod at_once;
mod driver;
mod input_lines;
mod laws;
mod limits;
mod line_driver;
mod line_passed;
mod line_step;
mod part_driver;
mod part_line_step;
mod part_lines;
mod part_task;
mod task;
mod turned;

pub use at_once::AtOnce;
pub use driver::drive;
pub use laws::{earliest_place_decides_by_lines, earliest_place_decides_within};
pub use limits::{MOST_LINES, MOST_OCTETS};
pub use line_driver::{LinesEnded, drive_lines};
pub use line_passed::LinePassed;
pub use line_step::LineStep;
pub use part_driver::drive_parts;
pub use part_line_step::PartLineStep;
pub use part_lines::PartLineReader;
pub use part_task::{PartTask, Taken};
pub use task::Task;
pub use turned::Turned;
