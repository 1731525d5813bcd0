//! The command `serve`: a gateway between two links, driven in turns.
//!
//! A turn has a half for the old link and one for the new. In a half the clock is read, time passes at
//! the gate, the half's link is polled, and what comes arrives at the gate. What the gate does in each of
//! these steps is done before the next: its datagrams are sent, and then its lines are written, in one
//! piece. A poll or a send that fails is noted and ends nothing. All memory of a step is taken before it
//! sends anything, so that a run which ends for want of memory ends between two steps.
//!
//! Turns know nothing of gateways: they drive a [`TurnStep`] (`specs/Turns.antt`). [`serve_over`] drives a
//! gateway (`specs/Serve.antt`), and what happens to it is what the calls of the run say
//! (`specs/Events.antt`). Links and a clock go on in one way, of which they may tell something
//! (`specs/Outside.antt`); what is said of a run holds as they tell, and where they tell nothing too
//! (`specs/Tells.antt`).
//!
//! Links, clock and sink are driven as one thing, [`Edges`], which may tell what was done there so far as
//! one list (`specs/Deeds.antt`, `specs/Edges.antt`), as [`MemEdges`] does: so the order of a run is a
//! clause of [`serve_over`].
//! [`serve`] makes its call over two links, a clock and a sink that know nothing of each other. What these
//! tell says nothing of an order, so that `serve` makes that call, and nothing else, is in its body alone.
#![tactic(auto)]

mod apart;
mod edges;
pub mod laws;
mod mem_deeds;
mod mem_edges;
mod notes;
mod sending;
mod serving;
mod stop;
mod turn_step;
mod turning;
mod written_lines;

pub use edges::Edges;
pub use mem_deeds::MemDeed;
pub use mem_edges::MemEdges;
pub use serving::{serve, serve_over};
pub use stop::Stop;
pub use turn_step::{Effects, TurnStep};
pub use turning::drive_turns;
