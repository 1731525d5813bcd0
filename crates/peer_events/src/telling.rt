//! What is told of a step, said in a log.

ghost use Rattle.std.specs.Prelude.{◌≡◌, ◌++◌, map, IfOk, IfSome, OnOk};
ghost use Rattle.gate_log.specs.Lines.{IsNamed};
ghost use Rattle.gate_log.specs.Subjects.{IsSubject};
ghost use Rattle.gate_events.specs.Log.{after_saying_all};
ghost use Rattle.peer_gateway.specs.Answers.{told_seen, begun_seen, remark_seen};
ghost use Rattle.peer_events.specs.Counts.{with_begun};
ghost use Rattle.peer_events.specs.Events as spec;
ghost use Rattle.peer_events.specs.Named.{AllNamed, HasTexts, IsNamedTold};
ghost use Rattle.peer_events.specs.Own.{IsNamedOwn, end_of, left_by, own_with};
ghost use Rattle.peer_events.specs.Said.{after_event};

use crate::own::{OwnBlock, OwnBlocks};
use crate::row::{Place, bundle_event, case_event, end_event, left_event};
use crate::session::{
    began_event, cancelled_event, failed_event, forgotten_event, green_event, link_event,
    sent_event, session_event,
};
use gate_cases::Face;
use gate_events::{Log, OpenSessions};
use gate_log::{BundleEvent, Event, LinkEvent, SessionEvent, Subject};
use gate_metrics::Counted;
use ltp_segment::Note;
use peer_gateway::{BlockBegun, Remark, RemarkAt};
use std::alloc::{AllocError, Global};

impl OwnBlocks {
    /// Says what is told of a step, in order, with the bundle that each is about. `begun` are the sessions
    /// that it began, in order, and `gateway` says which own sessions are open after it. The sessions that
    /// ended are own sessions no longer, and those that began are from here on.
    pub fn tell<O: OpenSessions>(
        &mut self,
        alloc: Global,
        told: &[RemarkAt],
        begun: &[BlockBegun],
        gateway: &O,
        log: &mut Log,
    ) -> Result<(), AllocError>
        requires named { AllNamed (map told_seen told.now) }
        ensures own { OnOk result (self.new ≡ spec.own_after_step (O.opened gateway.now)
            (map told_seen told.now) (map begun_seen begun.now) self.old) }
        // Those that began are counted first.
        ensures said { OnOk result (log.new ≡ after_saying_all
            (spec.events_of (O.opened gateway.now) self.old (map told_seen told.now))
            (with_begun (map begun_seen begun.now) log.old)) }
    {
        count_begun(begun, log);
        self.tell_all(alloc, told, gateway, log)?;
        self.begin_all(alloc, begun)
    }

    /// Says all that is told.
    fn tell_all<O: OpenSessions>(
        &mut self,
        alloc: Global,
        told: &[RemarkAt],
        gateway: &O,
        log: &mut Log,
    ) -> Result<(), AllocError>
        requires named { AllNamed (map told_seen told.now) }
        ensures own { OnOk result (self.new
            ≡ spec.own_left (O.opened gateway.now) self.old (map told_seen told.now)) }
        ensures said { OnOk result (log.new ≡ after_saying_all
            (spec.events_of (O.opened gateway.now) self.old (map told_seen told.now)) log.old) }
    {
        let none = None;
        let mut about = &none;
        'told: for at in told {
            self.tell_one(alloc, about, at, gateway, log)?;
            about = about_after(about, &at.remark);
        }
        Ok(())
    }

    /// Says what is told at a face. Where that is an own session's end, it is taken out.
    fn tell_one<O: OpenSessions>(
        &mut self,
        alloc: Global,
        about: &Option<Subject>,
        at: &RemarkAt,
        gateway: &O,
        log: &mut Log,
    ) -> Result<(), AllocError>
        requires named { IfSome about.now HasTexts }
        ensures own { OnOk result (self.new
            ≡ spec.own_after (O.opened gateway.now) (at.now).face (remark_seen (at.now).remark) self.old) }
        ensures said { OnOk result (log.new ≡ after_event
            (spec.event_of (O.opened gateway.now) self.old about.now (at.now).face (remark_seen (at.now).remark))
            log.old) }
    {
        match self.event_of(alloc, about, at, gateway)? {
            Some(event) => log.say(&event),
            None => Ok(()),
        }
    }

    /// The event of what is told. Where that is an own session's end, it is taken out.
    fn event_of<O: OpenSessions>(
        &mut self,
        alloc: Global,
        about: &Option<Subject>,
        at: &RemarkAt,
        gateway: &O,
    ) -> Result<Option<Event>, AllocError>
        requires named { IfSome about.now HasTexts }
        ensures event { IfOk result (λ event. event ≡ spec.event_of
            (O.opened gateway.now) self.old about.now (at.now).face (remark_seen (at.now).remark)) }
        ensures named { IfOk result (λ event. IfSome event IsNamed) }
        ensures own { OnOk result (self.new
            ≡ spec.own_after (O.opened gateway.now) (at.now).face (remark_seen (at.now).remark) self.old) }
    {
        let face = at.face;
        match &at.remark {
            Remark::Engine { note } => Ok(Some(self.engine_event(face, *note, gateway))),
            Remark::Forgotten { runs } => Ok(Some(forgotten_event(face, *runs))),
            Remark::Green { green } => Ok(Some(green_event(face, green))),
            Remark::Began {
                pieces,
                octets,
                session,
            } => Ok(Some(began_event(face, *session, *pieces, *octets))),
            Remark::Bundle { .. } => Ok(None),
            Remark::Case {
                index,
                session,
                case,
                pieces,
                first,
            } => {
                let at = Place::new(face, *session, *index);
                Ok(Some(case_event(alloc, at, about, *case, *pieces, *first)?))
            }
            Remark::Left {
                index,
                session,
                left,
            } => Ok(Some(left_event(alloc, Place::new(face, *session, *index), about, left)?)),
            Remark::Reported {
                index,
                session,
                report,
            } => {
                let what = BundleEvent::Reported { report: *report };
                Ok(Some(bundle_event(alloc, Place::new(face, *session, *index), about, what)?))
            }
            Remark::Unreported { index, session } => {
                let what = BundleEvent::Unreported;
                Ok(Some(bundle_event(alloc, Place::new(face, *session, *index), about, what)?))
            }
            Remark::End {
                index,
                session,
                end,
            } => Ok(Some(end_event(Place::new(face, *session, *index), *end))),
        }
    }

    /// The event of an engine's note.
    fn engine_event<O: OpenSessions>(&mut self, face: Face, note: Note, gateway: &O) -> Event
        ensures event { result ≡ spec.engine_event (O.opened gateway.now) self.old face note }
        ensures named { IsNamed result }
        ensures own { self.new ≡ spec.own_noted (O.opened gateway.now) face note self.old }
    {
        match note {
            Note::Sent { session } => {
                sent_event(face, session, self.end(face, session, gateway))
            }
            Note::Failed { session, reason } => {
                failed_event(face, session, reason, self.end(face, session, gateway))
            }
            Note::Cancelled { session, reason } => {
                cancelled_event(face, session, reason, self.end(face, session, gateway))
            }
            Note::Refused { session, service } => {
                session_event(face, session, SessionEvent::Refused { service })
            }
            Note::Evicted { session } => session_event(face, session, SessionEvent::Evicted),
            Note::BadBounds { session } => session_event(face, session, SessionEvent::BadBounds),
            Note::Closed { session } => session_event(face, session, SessionEvent::Closed),
            Note::HistoryFull { session } => {
                session_event(face, session, SessionEvent::HistoryFull)
            }
            Note::Stranger => link_event(face, LinkEvent::Stranger),
            Note::BadSegment { at, cause } => {
                link_event(face, LinkEvent::BadSegment { place: at, cause })
            }
        }
    }

    /// The end that a note with this number tells of, which is taken out.
    fn end<O: OpenSessions>(&mut self, face: Face, session: u64, gateway: &O) -> Option<OwnBlock>
        ensures end { result ≡ end_of (O.opened gateway.now) face session self.old }
        ensures named { IfSome result IsNamedOwn }
        ensures left { self.new ≡ left_by (O.opened gateway.now) face session self.old }
    {
        if gateway.is_open(face, session) {
            None
        } else {
            self.take(face, session)
        }
    }

    /// Sessions begin.
    fn begin_all(&mut self, alloc: Global, begun: &[BlockBegun]) -> Result<(), AllocError>
        ensures { OnOk result (self.new ≡ self.old ++ map own_with (map begun_seen begun.now)) }
    {
        'begun: for one in begun {
            self.push(OwnBlock::new(alloc, one)?)?;
        }
        Ok(())
    }
}

/// Counts sessions that began, each as one at its face.
#[tactic(auto, unfolding(crate::specs::Counts::begun_counted))]
fn count_begun(begun: &[BlockBegun], log: &mut Log)
    ensures { log.new ≡ with_begun (map begun_seen begun.now) log.old }
{
    'begun: for one in begun {
        log.count(one.face, Counted::Begun { sessions: 1 });
    }
}

/// The bundle that was named last, after something was told.
fn about_after<'a>(about: &'a Option<Subject>, remark: &'a Remark) -> &'a Option<Subject>
    requires about { IfSome about.now HasTexts }
    requires named { IsNamedTold (remark_seen remark.now) }
    ensures about { result.now ≡ spec.about_after (remark_seen remark.now) about.now }
    ensures named { IfSome result.now HasTexts }
{
    match remark {
        Remark::Bundle { subject } => subject,
        Remark::Engine { .. }
        | Remark::Forgotten { .. }
        | Remark::Green { .. }
        | Remark::Began { .. }
        | Remark::Case { .. }
        | Remark::Left { .. }
        | Remark::Reported { .. }
        | Remark::Unreported { .. }
        | Remark::End { .. } => about,
    }
}
