//! The command `world`: a script of sends, deliveries and clocks on a whole path, replayed exactly.
//!
//! The first line of the input sets up a path: an old node, the gate and a new node, with a link
//! between each two. Each line after it is an event there: an end sends a bundle (`send`), one of all
//! datagrams that were ever sent comes to where it was sent (`deliver`), or time passes (`clock`). What
//! happens is written with the line. The last line may be `drain`: the path stops losing, until nothing
//! is left to do.
//!
//! The definition is `specs/World.antt`: the steps of a path of `path_laws` over the events, as lines,
//! and after them the events of a drain of `path_drain`. [`World`] is a `LineStep` of `command_frame`
//! over the path of `path_world`, which is answered line by line. [`laws::worlds_keep_headline`] says
//! what the `up` lines of a text are, each block whole, once in its session, and as it was sent; and
//! that a drain completes the sessions of a path that is hopeful and has room. [`write_effects`] and the
//! other writers are for whoever plays a script that isn't read.
#![tactic(auto)]

pub mod laws;
mod script;
mod telling;
mod world;
mod written_lines;

pub use world::World;
pub use written_lines::{write_effects, write_end, write_undelivered, write_unsent};
