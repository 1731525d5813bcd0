//! The audit of a recording.

ghost use Rattle.std.specs.Prelude.{◌≡◌, ◌≢◌, ℕ, ◌+◌, ◌^◌, ◌<◌, List, [], length, true, OnOk, OnErr};
ghost use Rattle.ltp_segment.specs.Kinds.{is_red, is_checkpoint};
ghost use Rattle.ltp_segment.specs.Values.{ContentValue, SegmentValue, PieceValue, a_piece};
ghost use Rattle.ltp_segment.specs.Views.{content_value, segment_value};
ghost use Rattle.ltp_segment.specs.Reading.{segment_of};
ghost use Rattle.ltp_engine.specs.Sides.{IsFit};
ghost use Rattle.ltp_audit.specs.Sides.{is_of_sender, is_sent_by, is_on_its_side};
ghost use Rattle.ltp_audit.specs.declared.entry.Entry.{Entry as Recorded};
ghost use Rattle.ltp_audit.specs.Recorded.{said_in};
ghost use Rattle.ltp_audit.specs.Rules.{breaks, broken_by, fault_of, claims_unseen, answers_unseen, acknowledges_unseen, differs, cancel_unseen};
ghost use Rattle.ltp_audit.specs.declared.fault.AuditFault.TheVariants as faults;
ghost use Rattle.ltp_audit.specs.Pages.{MarkedIf};
ghost use Rattle.ltp_audit.specs.Adding.{Adds, is_kept};
ghost use Rattle.ltp_audit.specs.Shows.{Shows, Keeps, KeepsToo};

use crate::fault::{AuditFault, Rule};
use crate::marks::{Marks, Names};
use crate::red_parts::RedParts;
use ltp_segment::{Content, PieceKind, Segment, SegmentFault, decode};
use ltp_session::SessionName;
use std::alloc::{AllocError, Global};

/// The judge of a recording: of what came to an engine and left it, it keeps what later entries may
/// speak of.
///
/// After want of memory the value may only be dropped.
#[derive(Debug, Drop)]
pub struct Audit {
    own: u64,
    peer: u64,
    red: RedParts,
    checkpoints: Marks,
    reports: Marks,
    sender_cancels: Names,
    receiver_cancels: Names,
}

impl Audit {
    /// The judge of what the engine with the number `own` exchanges with its peer. No entry was
    /// accepted yet. It takes no memory.
    pub fn new(alloc: Global, own: u64, peer: u64) -> Audit
        requires { own ≢ peer }
        ensures { Shows result own peer [] }
    {
        Audit {
            own,
            peer,
            red: RedParts::new(alloc),
            checkpoints: Marks::new(alloc),
            reports: Marks::new(alloc),
            sender_cancels: Names::new(alloc),
            receiver_cancels: Names::new(alloc),
        }
    }

    /// Accepts a datagram that left the engine or came to it, unless it isn't a segment or breaks a
    /// rule: then all is as before.
    pub fn add(&mut self, out: bool, datagram: &[u8]) -> Result<(), AuditFault>
        ensures { (own peer : ℕ) (history : List Recorded) → Shows self.old own peer history
            → Adds (Shows self.new own peer) own peer history
            (record { out = out; datagram = datagram.now }) result }
    {
        let segment = match decode(datagram) {
            Ok(segment) => segment,
            Err(fault) => return Err(form_of(fault)),
        };
        if let Some(rule) = self.broken_by(out, &segment) {
            return Err(AuditFault::Broken { rule });
        }
        match self.keep(&segment) {
            Ok(()) => Ok(()),
            Err(AllocError) => Err(AuditFault::Memory),
        }
    }

    /// Keeps of a segment what later ones may speak of.
    fn keep(&mut self, segment: &Segment<'_>) -> Result<(), AllocError>
        requires { IsFit (content_value segment.now.content) }
        ensures kept { OnOk result (KeepsToo self.old segment.now.originator segment.now.session
            (content_value segment.now.content) self.new) }
        ensures memory { OnErr result (is_kept (content_value segment.now.content) ≡ true) }
    {
        let name = SessionName {
            originator: segment.originator,
            number: segment.session,
        };
        match segment.content {
            Content::Piece {
                kind,
                offset,
                checkpoint,
                body,
                ..
            } => self.keep_piece(name, kind, offset, checkpoint, body),
            Content::Report { serial, .. } => self.reports.add(name, serial),
            Content::SenderCancel { .. } => self.sender_cancels.add(name),
            Content::ReceiverCancel { .. } => self.receiver_cancels.add(name),
            Content::ReportAck { .. } | Content::SenderCancelAck | Content::ReceiverCancelAck => {
                Ok(())
            }
        }
    }

    /// Keeps the octets of a red piece, and that it is a checkpoint, if it is.
    fn keep_piece(
        &mut self,
        name: SessionName,
        kind: PieceKind,
        offset: u64,
        checkpoint: u64,
        body: &[u8],
    ) -> Result<(), AllocError>
        requires { offset + length body.now < 2 ^ 64 }
        ensures kept { (piece : PieceValue) → piece.kind ≡ kind → piece.offset ≡ offset
            → piece.checkpoint ≡ checkpoint → piece.body ≡ body.now
            → OnOk result (KeepsToo self.old name.originator name.number (a_piece piece) self.new) }
        ensures memory { OnErr result (is_red kind ≡ true) }
    {
        if !kind.is_red() {
            return Ok(());
        }
        self.red.add(name, offset, body)?;
        mark_checkpoint(&mut self.checkpoints, kind, name, checkpoint)?;
        Ok(())
    }

    /// The first rule that a segment breaks.
    fn broken_by(&self, out: bool, segment: &Segment<'_>) -> Option<Rule>
        requires { IsFit (content_value segment.now.content) }
        ensures { (own peer : ℕ) (history : List Recorded) → Shows self.now own peer history
            → result ≡ broken_by (is_on_its_side own peer out (segment_value segment.now))
            (said_in own peer history segment.now.originator segment.now.session)
            (content_value segment.now.content) }
    {
        let name = SessionName {
            originator: segment.originator,
            number: segment.session,
        };
        if !self.is_on_its_side(out, segment) {
            Some(Rule::Side)
        } else if self.claims_unseen(name, &segment.content) {
            Some(Rule::ClaimUnseen)
        } else if self.answers_unseen(name, &segment.content) {
            Some(Rule::CheckpointUnseen)
        } else if self.acknowledges_unseen(name, &segment.content) {
            Some(Rule::AckUnseen)
        } else if self.differs(name, &segment.content) {
            Some(Rule::OctetsDiffer)
        } else if self.cancel_unseen(name, &segment.content) {
            Some(Rule::CancelUnseen)
        } else {
            None
        }
    }

    /// Whether a segment that left the engine, or came to it, does so.
    fn is_on_its_side(&self, out: bool, segment: &Segment<'_>) -> bool
        ensures { result ≡ is_on_its_side self.now.own self.now.peer out (segment_value segment.now) }
    {
        let is_own = segment.originator == self.own;
        let sent = if is_of_sender(&segment.content) {
            is_own
        } else {
            !is_own
        };
        (is_own || segment.originator == self.peer) && (if out { sent } else { !sent })
    }

    /// Whether a report claims octets that weren't seen.
    fn claims_unseen(&self, name: SessionName, content: &Content<'_>) -> bool
        requires { IsFit (content_value content.now) }
        ensures { (earlier : List ContentValue) → Keeps self.now name.originator name.number earlier
            → result ≡ claims_unseen earlier (content_value content.now) }
    {
        match content {
            Content::Report {
                upper,
                lower,
                claims,
                ..
            } => !self.red.has_all(name, *lower, *upper, *claims),
            _ => false,
        }
    }

    /// Whether a report answers a checkpoint that wasn't seen.
    fn answers_unseen(&self, name: SessionName, content: &Content<'_>) -> bool
        ensures { (earlier : List ContentValue) → Keeps self.now name.originator name.number earlier
            → result ≡ answers_unseen earlier (content_value content.now) }
    {
        match content {
            Content::Report { checkpoint, .. } => {
                *checkpoint != 0 && !self.checkpoints.has(name, *checkpoint)
            }
            _ => false,
        }
    }

    /// Whether a report is acknowledged that wasn't seen.
    fn acknowledges_unseen(&self, name: SessionName, content: &Content<'_>) -> bool
        ensures { (earlier : List ContentValue) → Keeps self.now name.originator name.number earlier
            → result ≡ acknowledges_unseen earlier (content_value content.now) }
    {
        match content {
            Content::ReportAck { serial } => !self.reports.has(name, *serial),
            _ => false,
        }
    }

    /// Whether a red piece has other octets than were seen.
    fn differs(&self, name: SessionName, content: &Content<'_>) -> bool
        requires { IsFit (content_value content.now) }
        ensures { (earlier : List ContentValue) → Keeps self.now name.originator name.number earlier
            → result ≡ differs earlier (content_value content.now) }
    {
        match content {
            Content::Piece {
                kind,
                offset,
                body,
                ..
            } => kind.is_red() && !self.red.agrees(name, *offset, body),
            _ => false,
        }
    }

    /// Whether a cancel is acknowledged that wasn't seen.
    fn cancel_unseen(&self, name: SessionName, content: &Content<'_>) -> bool
        ensures { (earlier : List ContentValue) → Keeps self.now name.originator name.number earlier
            → result ≡ cancel_unseen earlier (content_value content.now) }
    {
        match content {
            Content::SenderCancelAck => !self.sender_cancels.has(name),
            Content::ReceiverCancelAck => !self.receiver_cancels.has(name),
            _ => false,
        }
    }
}

/// The fault of a datagram that isn't a segment.
fn form_of(fault: SegmentFault) -> AuditFault
    ensures { result ≡ faults.Form fault.at fault.cause }
{
    AuditFault::Form {
        at: fault.at,
        cause: fault.cause,
    }
}

/// Whether the sender of a session sends this.
fn is_of_sender(content: &Content<'_>) -> bool
    ensures { result ≡ is_of_sender (content_value content.now) }
{
    match content {
        Content::Piece { .. }
        | Content::ReportAck { .. }
        | Content::SenderCancel { .. }
        | Content::ReceiverCancelAck => true,
        Content::Report { .. } | Content::SenderCancelAck | Content::ReceiverCancel { .. } => false,
    }
}

/// Marks the serial number of a checkpoint, if the piece is one.
fn mark_checkpoint(
    marks: &mut Marks,
    kind: PieceKind,
    name: SessionName,
    checkpoint: u64,
) -> Result<(), AllocError>
    ensures { OnOk result (MarkedIf (is_checkpoint kind) marks.old name.originator name.number
        checkpoint marks.new) }
{
    if !kind.is_checkpoint() {
        return Ok(());
    }
    marks.add(name, checkpoint)
}
