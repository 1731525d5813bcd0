//! What each event adds to the counters.

ghost use Rattle.std.specs.Prelude.{◌≡◌};
ghost use Rattle.gate_events.specs.Counts as spec;

use gate_cases::{Face, GateCase};
use gate_log::{BundleEvent, Event, LinkEvent, SessionEvent};
use gate_metrics::{Counted, Counters, Ended};

/// Counts an event.
pub(crate) fn count_event(counters: &mut Counters, event: &Event)
    ensures { counters.exit.now ≡ spec.event_counted event.now counters.entry.now }
{
    match event {
        Event::Start { .. }
        | Event::MetricsFailed
        | Event::LeftOut { .. }
        | Event::Waiting { .. } => {}
        Event::Link { face, what } => count(counters, *face, in_link(*what)),
        Event::Session { face, what, .. } => count(counters, *face, in_session(*what)),
        Event::Bundle { face, what, .. } | Event::InRow { face, what, .. } => {
            count(counters, *face, in_bundle(*what))
        }
    }
}

/// Counts what there is to count.
fn count(counters: &mut Counters, face: Face, what: Option<Counted>)
    ensures { counters.exit.now ≡ spec.counted_where face what counters.entry.now }
{
    if let Some(what) = what {
        counters.count(face, what);
    }
}

/// What an event of a link counts for.
fn in_link(what: LinkEvent) -> Option<Counted>
    ensures { result ≡ spec.link_counts what }
{
    match what {
        LinkEvent::PollFailed => Some(Counted::PollFailed),
        LinkEvent::OutboxFull { datagrams } => Some(Counted::Dropped { datagrams }),
        LinkEvent::ContactOpened { .. }
        | LinkEvent::ContactClosed { .. }
        | LinkEvent::Stranger
        | LinkEvent::BadSegment { .. }
        | LinkEvent::SendFailed { .. }
        | LinkEvent::Forgotten { .. } => None,
    }
}

/// What an event of a session counts for of which no bundle is known.
fn in_session(what: SessionEvent) -> Option<Counted>
    ensures { result ≡ spec.session_counts what }
{
    match what {
        SessionEvent::BadBundle { place, cause } | SessionEvent::BadEnd { place, cause, .. } => {
            Some(of_block(GateCase::BadBundle { at: place, cause }))
        }
        SessionEvent::Green { octets, .. } => Some(Counted::Green { octets }),
        SessionEvent::Began { .. }
        | SessionEvent::Failed { .. }
        | SessionEvent::Cancelled { .. }
        | SessionEvent::Refused { .. }
        | SessionEvent::Evicted
        | SessionEvent::BadBounds
        | SessionEvent::Closed
        | SessionEvent::HistoryFull => None,
    }
}

/// What an event of a block counts for.
fn in_bundle(what: BundleEvent) -> Option<Counted>
    ensures { result ≡ spec.bundle_counts what }
{
    match what {
        BundleEvent::Passed { .. } => Some(of_block(GateCase::Passed)),
        BundleEvent::Untranslated { cause } => Some(of_block(GateCase::Untranslated { cause })),
        BundleEvent::Expired => Some(of_block(GateCase::Expired)),
        BundleEvent::HopLimit => Some(of_block(GateCase::HopLimit)),
        BundleEvent::Storage => Some(of_block(GateCase::Storage)),
        BundleEvent::Sent { .. } => Some(Counted::Ended { how: Ended::Sent }),
        BundleEvent::Failed { .. } => Some(Counted::Ended { how: Ended::Failed }),
        BundleEvent::Cancelled { .. } => Some(Counted::Ended {
            how: Ended::Cancelled,
        }),
        BundleEvent::Resumed | BundleEvent::Reported { .. } | BundleEvent::Unreported => None,
    }
}

fn of_block(case: GateCase) -> Counted
    ensures { result ≡ Counted.Block case }
{
    Counted::Block { case }
}
