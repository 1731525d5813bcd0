//! Both sides of an engine: the sessions that it began, and those that its peer began.

ghost use Rattle.std.specs.Prelude.{◌<◌, ◌^◌, None, Some, IfOk, OnErr};
ghost use Rattle.ltp_segment.specs.declared.session.TheConstants.{BLOCK_MAX};
ghost use Rattle.ltp_segment.specs.PolicyViews.{policy_value};
ghost use Rattle.ltp_segment.specs.Views.{content_value};
ghost use Rattle.ltp_session.specs.Table.{find};
ghost use Rattle.ltp_session.specs.Sender.{sender_answers};
ghost use Rattle.ltp_session.specs.Receiver.{receiver_answers};
ghost use Rattle.ltp_engine.specs.Tables.{table_of, AreLive};
ghost use Rattle.ltp_engine.specs.Sides.{SenderDoes, ReceiverDoes, IsFit};
ghost use Rattle.ltp_engine.specs.Inbound.{inbound_of, admission_in};
ghost use Rattle.ltp_engine.specs.Wants.{WantsSent, WantsReceived};

use crate::inbound::Inbound;
use crate::outbound::{Senders, cancel_came, cancelled, report};
use crate::terms::Terms;
use ltp_segment::{BLOCK_MAX, Content, PieceView, ReportView, Step};
use std::alloc::AllocError;

/// A segment came for a session that the engine began. One that isn't an answer has none.
pub(crate) fn to_sender(
    senders: &mut Senders,
    terms: Terms,
    n: u64,
    content: Content<'_>,
    now: u64,
) -> Result<Option<Step>, AllocError>
    requires live { AreLive terms.originator (policy_value terms.policy) senders.old.entries }
    requires legal { IsFit (content_value content) }
    requires moment { now < 2 ^ 62 }
    ensures does { IfOk result (SenderDoes terms.originator (policy_value terms.policy) n
        (sender_answers (policy_value terms.policy) (find n (table_of senders.old.entries))
        (content_value content.entry) now) senders.old.entries senders.new.entries) }
    ensures wanted { OnErr result (WantsSent (sender_answers (policy_value terms.policy)
        (find n (table_of senders.old.entries)) (content_value content.entry) now)) }
{
    match content {
        Content::Report {
            serial,
            checkpoint,
            upper,
            lower,
            claims,
        } => {
            let view = ReportView {
                serial,
                checkpoint,
                upper,
                lower,
                claims,
            };
            Ok(Some(report(senders, terms, n, view, now)?))
        }
        Content::SenderCancelAck => Ok(Some(cancel_came(senders, terms, n))),
        Content::ReceiverCancel { reason } => Ok(Some(cancelled(senders, terms, n, reason)?)),
        Content::Piece { .. } => Ok(None),
        Content::ReportAck { .. } => Ok(None),
        Content::SenderCancel { .. } => Ok(None),
        Content::ReceiverCancelAck => Ok(None),
    }
}

/// A segment came for a session that the peer began. One that isn't what a sender sends has no
/// answer.
pub(crate) fn to_receiver(
    inbound: &mut Inbound,
    terms: Terms,
    n: u64,
    content: Content<'_>,
    now: u64,
) -> Result<Option<(Option<u64>, Step)>, AllocError>
    requires live { AreLive terms.originator (policy_value terms.policy)
        inbound.old.receivers.entries }
    requires runs { inbound.old.closed.runs < 2 ^ 32 }
    requires legal { IsFit (content_value content) }
    requires moment { now < 2 ^ 62 }
    ensures does { IfOk result (ReceiverDoes terms.originator (policy_value terms.policy)
        terms.sessions n (receiver_answers (policy_value terms.policy)
        (admission_in (inbound_of inbound.old) BLOCK_MAX terms.history n)
        (find n (inbound_of inbound.old).receivers) (content_value content.entry) now)
        inbound.old inbound.new) }
    ensures wanted { OnErr result (WantsReceived (find n (inbound_of inbound.old).receivers)
        (receiver_answers (policy_value terms.policy)
        (admission_in (inbound_of inbound.old) BLOCK_MAX terms.history n)
        (find n (inbound_of inbound.old).receivers) (content_value content.entry) now)) }
{
    match content {
        Content::Piece {
            kind,
            service,
            offset,
            checkpoint,
            report,
            body,
        } => {
            let view = PieceView {
                kind,
                service,
                offset,
                checkpoint,
                report,
                body,
            };
            Ok(Some(inbound.piece(terms, n, &view, now)?))
        }
        Content::ReportAck { serial } => Ok(Some((None, inbound.acknowledged(terms, n, serial)?))),
        Content::SenderCancel { reason } => {
            Ok(Some((None, inbound.cancelled(terms, n, reason)?)))
        }
        Content::ReceiverCancelAck => Ok(Some((None, inbound.cancel_came(terms, n)?))),
        Content::Report { .. } => Ok(None),
        Content::SenderCancelAck => Ok(None),
        Content::ReceiverCancel { .. } => Ok(None),
    }
}
