//! The lines of the log. The wanted lines are those of whole runs of an independent model; each is built
//! here by hand from what happened, and a bundle's from its octets.
ghost use Rattle.std.specs.Prelude.{IfOk, IfSome};
ghost use Rattle.gate_log.specs.Lines.{IsNamed};
ghost use Rattle.gate_log.specs.Subjects.{IsSubject};

use bundle6::Cause6;
use bundle7::Cause7;
use endpoint::Octets;
use gate_cases::{BadCause, Face};
use gate_log::{BundleEvent, Event, LinkEvent, SessionEvent, Subject, subject_of, write_line};
use ltp_segment::SegmentCause;
use std::alloc::Global;
use std::test::Fail;
use translate::Refused;

/// Moment 00:16:50 of 1 January 2000, and what a line of it begins with.
const AT: u64 = 1_010_000;

const FRONT: &str = "{\"at\":\"2000-01-01T00:16:50.000Z\"";

/// What a line ends with that has no bundle.
const NO_SUBJECT: &str = ",\"subject\":null}\n";

/// The line of an event.
pub(crate) fn line(alloc: Global, at: u64, event: &Event) -> Result<String, Fail>
    requires { IsNamed event.now }
{
    let mut text = String::new(alloc);
    write_line(&mut text, at, event)?;
    Ok(text)
}

/// Whether a text is exactly these parts, one after the other.
fn are_parts(text: &str, parts: &[&str]) -> bool {
    let mut rest = text;
    for part in parts {
        match rest.strip_prefix(*part) {
            Some(after) => rest = after,
            None => return false,
        }
    }
    rest.is_empty()
}

/// Whether the line of an event is exactly these parts, one after the other.
pub(crate) fn has(alloc: Global, at: u64, event: Event, parts: &[&str]) -> Result<bool, Fail>
    requires { IsNamed event }
{
    let text = line(alloc, at, &event)?;
    Ok(are_parts(text.as_str(), parts))
}

/// The bundle that is the front of a block in hex.
pub(crate) fn subject(alloc: Global, block: &str) -> Result<Option<Subject>, Fail>
    ensures { IfOk result (λ subject. IfSome subject IsSubject) }
{
    let octets = hex::decode(alloc, block.as_bytes())?;
    Ok(subject_of(alloc, octets.as_slice())?)
}

// ---- no bundle

/// A face's link, and its line after the moment.
const LINKS: &[(Face, LinkEvent, &str)] = &[
    (
        Face::New,
        LinkEvent::ContactOpened {
            rate: None,
            until: 1_015_000,
        },
        r#","event":"contact_opened","face":"new","rate":null,"until":"2000-01-01T00:16:55.000Z"}"#,
    ),
    (
        Face::Old,
        LinkEvent::ContactOpened {
            rate: Some(1_000_000_000),
            until: 1_786_875,
        },
        r#","event":"contact_opened","face":"old","rate":1000000000,"until":"2000-01-01T00:29:46.875Z"}"#,
    ),
    (
        Face::New,
        LinkEvent::ContactClosed {
            until: Some(1_200_000),
        },
        r#","event":"contact_closed","face":"new","until":"2000-01-01T00:20:00.000Z"}"#,
    ),
    (
        Face::New,
        LinkEvent::ContactClosed { until: None },
        r#","event":"contact_closed","face":"new","until":null}"#,
    ),
    (
        Face::Old,
        LinkEvent::Stranger,
        r#","event":"stranger","face":"old"}"#,
    ),
    (
        Face::Old,
        LinkEvent::BadSegment {
            place: 0,
            cause: SegmentCause::Version,
        },
        r#","cause":"Version","event":"bad_segment","face":"old","place":0}"#,
    ),
    (
        Face::Old,
        LinkEvent::BadSegment {
            place: 7,
            cause: SegmentCause::Truncated,
        },
        r#","cause":"Truncated","event":"bad_segment","face":"old","place":7}"#,
    ),
    (
        Face::Old,
        LinkEvent::PollFailed,
        r#","event":"poll_failed","face":"old"}"#,
    ),
    (
        Face::Old,
        LinkEvent::SendFailed { datagrams: 1 },
        r#","datagrams":1,"event":"send_failed","face":"old"}"#,
    ),
    (
        Face::New,
        LinkEvent::OutboxFull { datagrams: 6 },
        r#","datagrams":6,"event":"outbox_full","face":"new"}"#,
    ),
    (
        Face::Old,
        LinkEvent::Forgotten { runs: 2048 },
        r#","event":"forgotten","face":"old","runs":2048}"#,
    ),
];

#[test]
fn what_happens_to_a_link_has_its_line(rt: HostRuntime) -> Result<(), Fail> {
    for (face, what, rest) in LINKS {
        let event = Event::Link {
            face: *face,
            what: *what,
        };
        assert!(rt; has(rt.alloc(), AT, event, &[FRONT, rest, "\n"])?, "{rest}");
    }
    Ok(())
}

/// A session of which no bundle is known, and its line after the moment.
const SESSIONS: &[(Face, u64, SessionEvent, &str)] = &[
    (
        Face::Old,
        1,
        SessionEvent::BadBundle {
            place: 23,
            cause: BadCause::Trailing,
        },
        r#","cause":"Trailing","event":"bad_bundle","face":"old","place":23,"session":1}"#,
    ),
    (
        Face::Old,
        2_147_483_652,
        SessionEvent::BadBundle {
            place: 32,
            cause: BadCause::Six {
                cause: Cause6::PrimaryEnd,
            },
        },
        r#","cause":"PrimaryEnd","event":"bad_bundle","face":"old","place":32,"session":2147483652}"#,
    ),
    (
        Face::New,
        2,
        SessionEvent::BadBundle {
            place: 240,
            cause: BadCause::Seven { cause: Cause7::Crc },
        },
        r#","cause":"Crc","event":"bad_bundle","face":"new","place":240,"session":2}"#,
    ),
    (
        Face::New,
        7,
        SessionEvent::BadEnd {
            index: 2,
            place: 60,
            cause: BadCause::Seven {
                cause: Cause7::Truncated,
            },
        },
        r#","cause":"Truncated","event":"bad_bundle","face":"new","index":2,"place":60,"session":7}"#,
    ),
    (
        Face::New,
        1,
        SessionEvent::Began {
            bundles: 2,
            octets: 82,
        },
        r#","bundles":2,"event":"began","face":"new","octets":82,"session":1}"#,
    ),
    (
        Face::Old,
        9,
        SessionEvent::Green {
            last: true,
            octets: 1,
            offset: 0,
        },
        r#","event":"green","face":"old","last":true,"octets":1,"offset":0,"session":9}"#,
    ),
    (
        Face::Old,
        1,
        SessionEvent::Failed { reason: 2 },
        r#","event":"failed","face":"old","reason":2,"session":1,"side":"receiving"}"#,
    ),
    (
        Face::Old,
        1_672_246_781,
        SessionEvent::Cancelled { reason: 255 },
        r#","event":"cancelled","face":"old","reason":255,"session":1672246781,"side":"receiving"}"#,
    ),
    (
        Face::Old,
        272_810_112,
        SessionEvent::Refused { service: 9_999_999 },
        r#","event":"refused","face":"old","service":9999999,"session":272810112}"#,
    ),
    (
        Face::Old,
        1_876_441_354,
        SessionEvent::Evicted,
        r#","event":"evicted","face":"old","session":1876441354}"#,
    ),
    (
        Face::Old,
        28,
        SessionEvent::BadBounds,
        r#","event":"bad_bounds","face":"old","session":28}"#,
    ),
    (
        Face::New,
        2_147_483_648,
        SessionEvent::Closed,
        r#","event":"closed","face":"new","session":2147483648}"#,
    ),
    (
        Face::New,
        0,
        SessionEvent::HistoryFull,
        r#","event":"history_full","face":"new","session":0}"#,
    ),
    (
        Face::New,
        18_446_744_073_709_551_615,
        SessionEvent::Closed,
        r#","event":"closed","face":"new","session":18446744073709551615}"#,
    ),
];

#[test]
fn what_happens_in_a_session_has_its_line(rt: HostRuntime) -> Result<(), Fail> {
    for (face, session, what, rest) in SESSIONS {
        let event = Event::Session {
            face: *face,
            session: *session,
            what: *what,
        };
        assert!(rt; has(rt.alloc(), AT, event, &[FRONT, rest, "\n"])?, "{rest}");
    }
    Ok(())
}

/// The line of a start, that of a block that waits, and that of metrics which can't be shown.
const STARTED: &str = "{\"at\":\"2000-01-01T00:16:55.000Z\",\
\"event\":\"start\",\"first_session\":[4097,4098],\"marks\":2,\"pending\":1}\n";

const RESUMED: &str = "{\"at\":\"2000-01-01T00:00:00.000Z\",\
\"event\":\"resumed\",\"face\":\"new\",\"subject\":null}\n";

const FAILED: &str = "{\"at\":\"9999-12-31T23:59:59.999Z\",\"event\":\"metrics_failed\"}\n";

#[test]
fn the_run_has_its_lines(rt: HostRuntime) -> Result<(), Fail> {
    let start = Event::Start {
        old: 4097,
        new: 4098,
        marks: 2,
        pending: 1,
    };
    assert!(rt; has(rt.alloc(), 1_015_000, start, &[STARTED])?);
    let waiting = Event::Waiting {
        face: Face::New,
        subject: None,
    };
    assert!(rt; has(rt.alloc(), 0, waiting, &[RESUMED])?);
    assert!(rt;
        has(
            rt.alloc(),
            252_455_616_000_000,
            Event::MetricsFailed,
            &[FAILED]
        )?
    );
    Ok(())
}

// ---- bundles

/// The bundle of the model's rows, in version 6, and what a line says of it.
const B6: &str = "0681100d02010101000000008768053c00010803616263";

const S6: &str =
    r#"{"creation":[1000,5],"destination":"ipn:2.1","fragment":null,"payload":3,"source":"ipn:1.1","version":6}"#;

/// The same in version 7.
const B7: &str =
    "9f8907000182028202018202820101820100821a000f42450019ea5b425a46850101000043616263ff";

const S7: &str =
    r#"{"creation":[1000005,0],"destination":"ipn:2.1","fragment":null,"payload":3,"source":"ipn:1.1","version":7}"#;

/// What happens to a bundle in session 1, and its line between the moment and the subject.
const EVENTS: &[(Face, BundleEvent, &str)] = &[
    (
        Face::New,
        BundleEvent::Resumed,
        r#","event":"resumed","face":"new","session":1"#,
    ),
    (
        Face::Old,
        BundleEvent::Passed {
            first: Some(1_262_740_484),
            pieces: 60,
        },
        r#","event":"passed","face":"old","first":1262740484,"pieces":60,"session":1"#,
    ),
    (
        Face::Old,
        BundleEvent::Passed {
            first: None,
            pieces: 1,
        },
        r#","event":"passed","face":"old","pieces":1,"session":1"#,
    ),
    (
        Face::Old,
        BundleEvent::Untranslated {
            cause: Refused::CustodyAsked,
        },
        r#","cause":"CustodyAsked","event":"untranslated","face":"old","session":1"#,
    ),
    (
        Face::New,
        BundleEvent::Untranslated {
            cause: Refused::WrapBad,
        },
        r#","cause":"WrapBad","event":"untranslated","face":"new","session":1"#,
    ),
    (
        Face::Old,
        BundleEvent::Expired,
        r#","event":"expired","face":"old","session":1"#,
    ),
    (
        Face::New,
        BundleEvent::HopLimit,
        r#","event":"hop_limit","face":"new","session":1"#,
    ),
    (
        Face::Old,
        BundleEvent::Storage,
        r#","event":"storage","face":"old","session":1"#,
    ),
    (
        Face::Old,
        BundleEvent::Reported {
            report: Some(16382),
        },
        r#","event":"reported","face":"old","report":16382,"session":1"#,
    ),
    (
        Face::New,
        BundleEvent::Reported { report: None },
        r#","event":"reported","face":"new","session":1"#,
    ),
    (
        Face::Old,
        BundleEvent::Unreported,
        r#","event":"unreported","face":"old","session":1"#,
    ),
    (
        Face::New,
        BundleEvent::Sent { bundles: None },
        r#","event":"sent","face":"new","session":1"#,
    ),
    (
        Face::New,
        BundleEvent::Sent { bundles: Some(2) },
        r#","bundles":2,"event":"sent","face":"new","session":1"#,
    ),
    (
        Face::Old,
        BundleEvent::Failed {
            bundles: None,
            reason: 2,
        },
        r#","event":"failed","face":"old","reason":2,"session":1,"side":"sending""#,
    ),
    (
        Face::Old,
        BundleEvent::Cancelled {
            bundles: None,
            reason: 3,
        },
        r#","event":"cancelled","face":"old","reason":3,"session":1,"side":"sending""#,
    ),
    (
        Face::New,
        BundleEvent::Cancelled {
            bundles: Some(3),
            reason: 4,
        },
        r#","bundles":3,"event":"cancelled","face":"new","reason":4,"session":1,"side":"sending""#,
    ),
];

/// What happens to the second bundle of a block in session 7, and its line between the moment and the
/// subject.
const ROWS: &[(BundleEvent, &str)] = &[
    (
        BundleEvent::Passed {
            first: Some(2),
            pieces: 1,
        },
        r#","event":"passed","face":"old","first":2,"index":2,"pieces":1,"session":7"#,
    ),
    (
        BundleEvent::Passed {
            first: None,
            pieces: 1,
        },
        r#","event":"passed","face":"old","index":2,"pieces":1,"session":7"#,
    ),
    (
        BundleEvent::Storage,
        r#","event":"storage","face":"old","index":2,"session":7"#,
    ),
    (
        BundleEvent::Reported { report: Some(1) },
        r#","event":"reported","face":"old","index":2,"report":1,"session":7"#,
    ),
    (
        BundleEvent::Untranslated {
            cause: Refused::CustodyAsked,
        },
        r#","cause":"CustodyAsked","event":"untranslated","face":"old","index":2,"session":7"#,
    ),
];

#[test]
fn what_happens_to_a_bundle_of_several_has_its_line(rt: HostRuntime) -> Result<(), Fail> {
    for (what, middle) in ROWS {
        let event = Event::InRow {
            face: Face::Old,
            session: 7,
            index: 2,
            subject: None,
            what: *what,
        };
        let parts = [FRONT, middle, NO_SUBJECT];
        assert!(rt; has(rt.alloc(), AT, event, &parts)?, "{middle}");
    }
    Ok(())
}

/// The types of the blocks that are left out, the bundle's place in its block, whether a residue was due, and
/// the line between the moment and the subject.
const LEFT: &[(&[u8], Option<u64>, bool, &str)] = &[
    (
        &[19],
        None,
        true,
        r#","blocks":[19],"event":"left_out","face":"old","residue":true,"session":7"#,
    ),
    (
        &[],
        Some(2),
        true,
        r#","blocks":[],"event":"left_out","face":"old","index":2,"residue":true,"session":7"#,
    ),
    (
        &[7, 255, 1],
        None,
        false,
        r#","blocks":[7,255,1],"event":"left_out","face":"old","residue":false,"session":7"#,
    ),
];

#[test]
fn what_is_left_out_has_its_line(rt: HostRuntime) -> Result<(), Fail> {
    for (blocks, index, residue, middle) in LEFT {
        let event = Event::LeftOut {
            face: Face::Old,
            session: 7,
            index: *index,
            subject: None,
            blocks: Octets::from_slice(rt.alloc(), blocks)?,
            residue: *residue,
        };
        let parts = [FRONT, middle, NO_SUBJECT];
        assert!(rt; has(rt.alloc(), AT, event, &parts)?, "{middle}");
    }
    Ok(())
}

#[test]
fn what_happens_to_a_bundle_has_its_line(rt: HostRuntime) -> Result<(), Fail> {
    for (face, what, middle) in EVENTS {
        for (block, shown) in [(B6, S6), (B7, S7), ("", "null"), ("0781", "null")] {
            let event = Event::Bundle {
                face: *face,
                session: 1,
                subject: subject(rt.alloc(), block)?,
                what: *what,
            };
            let parts = [FRONT, middle, ",\"subject\":", shown, "}\n"];
            assert!(rt; has(rt.alloc(), AT, event, &parts)?, "{middle}");
        }
    }
    Ok(())
}
