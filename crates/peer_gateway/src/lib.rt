//! What a gateway among other implementations does.
//!
//! Such a gateway stands between two links as that of [`gateway_core`] does, with bounds and a memory for each
//! face that an operator sets. `specs/Keys.antt` has those; `peer_sessions`, what a face's sessions do;
//! `specs/Gate.antt`, a gate and what it tells; `specs/Going.antt`, how pieces wait until a session is free and
//! go in blocks; and `specs/Steps.antt`, the step: a datagram comes, time passes, or a piece is added that was
//! kept from an earlier run.
//!
//! Pieces go in order, each once ([`laws::pieces_in_order`]); what is ready waits only while all sessions are
//! taken ([`laws::complete_goes`], [`laws::ready_goes`]); no block that goes is refused
//! ([`laws::nothing_refused`]), and it needs no more octets than there was room for
//! ([`laws::heads_are_small`], [`laws::sized_for_any_stay`]). A datagram is put into its face's outbox when it is
//! made, or dropped: by what the outbox takes, and so that a face keeps at most half of its memory of what it sends
//! ([`laws::queued_is_put`]); and none of a block that begins is dropped for the latter ([`laws::firsts_are_put`]). A block of several bundles passes as they do in
//! blocks of their own ([`laws::rows_pass_in_turn`]), and an age is raised once ([`laws::age_raised_once`]).
//!
//! [`PeerGateway`] does the steps: it begins, a datagram comes ([`PeerGateway::arrive`]), time passes
//! ([`PeerGateway::tick`]), and a piece is added that was kept ([`PeerGateway::add_kept`]). What it answers is a
//! [`PeerAnswer`].
#![tactic(auto)]

mod answer;
mod carrying;
mod config;
mod faces;
mod gateway;
mod going;
pub mod laws;
mod moments;
mod parts;
mod passing;
mod pushing;
mod queue;
mod starting;
mod staying;
mod told;
mod waits;

pub use answer::PeerAnswer;
pub use config::PeerConfig;
pub use gateway::PeerGateway;
pub use moments::{FaceMoments, Moments};
pub use staying::stayed;
pub use told::{Added, BlockBegun, Outgoing, Remark, RemarkAt};
