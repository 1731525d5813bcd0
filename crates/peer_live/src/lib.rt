//! The gateway among other implementations at work: what does the parts of a half of a run.
//!
//! A [`LiveGate`] is set up by a file, and drives the gateway of `peer_gateway` through the halves of a
//! run, part by part, as `peer_parts` names them: it has the gateway, a face of `gate_face` on each side,
//! the sessions of its own and the log of `gate_events`. Datagrams that the gateway makes are moved into
//! the outbox of their face, or dropped, as the gateway says of each; what it tells becomes lines; and what
//! came, went and was lost is counted.
//!
//! Where a journal is kept, what each step did is handed to `peer_records` before its datagrams are moved,
//! so that the records of a half are there when it sends. A run that goes on from what earlier runs kept
//! first cancels the sessions of its peers that these had claimed in part, and adds the pieces that wait
//! as soon as there is room for them.
//!
//! Nothing outside is known here: who drives it reads the clocks, polls, commits, sends and writes.
#![tactic(auto)]

mod faces;
mod journal;
mod kept;
mod live;
mod marked;
mod moments;
mod opened;
mod recording;
mod resuming;
mod setup;
mod work;

pub use live::LiveGate;
pub use setup::used_up;
