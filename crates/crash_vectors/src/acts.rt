//! What comes to a run of which calls fail, and what it makes, by names and as text.

use gate_cases::Face;
use std::alloc::AllocError;

/// What a poll gives.
#[derive(Clone, Copy)]
pub(crate) enum Given {
    /// Nothing is there.
    Nothing,
    /// A bundle, in session 1 of the face's node.
    Bundle,
    /// The node's report on all of the bundle that went to it.
    Report,
}

/// The datagram that a poll of a face gives, in hex.
pub(crate) fn given_at(face: Face, given: Given) -> Option<&'static str> {
    match (face, given) {
        (_, Given::Nothing) => None,
        (Face::Old, Given::Bundle) => Some(
            "0301010001001702000681100d02010101000000008768053c00010803616263",
        ),
        (Face::Old, Given::Report) => Some("0802010002021700010017"),
        (Face::New, Given::Bundle) => Some(
            "0304010001002902009f8907000182028202018202820101820100821a000f42450019ea5b425a46850101000043616263ff",
        ),
        (Face::New, Given::Report) => Some("0803010002022900010029"),
    }
}

/// A datagram of the gateway.
#[derive(Clone, Copy)]
pub(crate) enum Goes {
    /// To the old node: the report on its bundle.
    OldReport,
    /// To the old node: the new node's bundle in version 6.
    Back,
    /// To the old node: the answer to its report.
    OldAnswer,
    /// To the new node: the report on its bundle.
    NewReport,
    /// To the new node: the old node's bundle in version 7.
    Passes,
    /// To the new node: the answer to its report.
    NewAnswer,
}

/// The face at which a datagram goes, and its octets in hex.
fn text_of_datagram(goes: Goes) -> &'static str {
    match goes {
        Goes::OldReport => "old 0801010002021700010017",
        Goes::Back => "old 0302010001001702000681100d02010101000000008768053c00010803616263",
        Goes::OldAnswer => "old 0902010002",
        Goes::NewReport => "new 0804010002022900010029",
        Goes::Passes => {
            "new 0303010001002902009f8907000182028202018202820101820100821a000f42450019ea5b425a46850101000043616263ff"
        }
        Goes::NewAnswer => "new 0903010002",
    }
}

/// A line of the log.
#[derive(Clone, Copy)]
pub(crate) enum Line {
    /// The run begins.
    Start,
    /// The old node's bundle passed.
    OldPassed,
    /// The new node's bundle passed.
    NewPassed,
    /// All of the bundle that went to the old node was claimed.
    OldSent,
    /// All of the bundle that went to the new node was claimed.
    NewSent,
    /// A poll failed at the old face.
    OldPoll,
    /// A poll failed at the new face.
    NewPoll,
    /// A send failed at the old face.
    OldSend,
    /// A send failed at the new face.
    NewSend,
    /// The metrics couldn't be put in place.
    Metrics,
}

/// A line after its moment.
fn text_of_line(line: Line) -> &'static str {
    match line {
        Line::Start => r#""event":"start","first_session":[1,1],"marks":0,"pending":0}"#,
        Line::OldPassed => {
            r#""event":"passed","face":"old","first":1,"pieces":1,"session":1,"subject":{"creation":[1000,5],"destination":"ipn:2.1","fragment":null,"payload":3,"source":"ipn:1.1","version":6}}"#
        }
        Line::NewPassed => {
            r#""event":"passed","face":"new","first":1,"pieces":1,"session":1,"subject":{"creation":[1000005,0],"destination":"ipn:2.1","fragment":null,"payload":3,"source":"ipn:1.1","version":7}}"#
        }
        Line::OldSent => {
            r#""event":"sent","face":"old","session":1,"subject":{"creation":[1000,5],"destination":"ipn:2.1","fragment":null,"payload":3,"source":"ipn:1.1","version":6}}"#
        }
        Line::NewSent => {
            r#""event":"sent","face":"new","session":1,"subject":{"creation":[1000005,0],"destination":"ipn:2.1","fragment":null,"payload":3,"source":"ipn:1.1","version":7}}"#
        }
        Line::OldPoll => r#""event":"poll_failed","face":"old"}"#,
        Line::NewPoll => r#""event":"poll_failed","face":"new"}"#,
        Line::OldSend => r#""datagrams":1,"event":"send_failed","face":"old"}"#,
        Line::NewSend => r#""datagrams":1,"event":"send_failed","face":"new"}"#,
        Line::Metrics => r#""event":"metrics_failed"}"#,
    }
}

/// What a run makes.
#[derive(Clone, Copy)]
pub(crate) enum Act {
    /// The journal's file is made anew.
    Anew,
    /// Records are committed to the journal.
    Kept,
    /// A datagram is sent.
    Sent(Goes),
    /// A send of a datagram failed.
    Lost(Goes),
    /// A line is written.
    Says(Line),
    /// The metrics are put in place.
    Shown,
}

/// Adds an act, as `crate::failing` tells it.
pub(crate) fn push_act(text: &mut String, act: Act) -> Result<(), AllocError> {
    match act {
        Act::Anew => text.push_str("installed\n"),
        Act::Kept => text.push_str("committed\n"),
        Act::Sent(goes) => push_line(text, "sent ", text_of_datagram(goes)),
        Act::Lost(goes) => push_line(text, "lost ", text_of_datagram(goes)),
        Act::Says(line) => push_line(
            text,
            r#"{"at":"2000-01-01T00:16:50.000Z","#,
            text_of_line(line),
        ),
        Act::Shown => text.push_str("shown\n"),
    }
}

/// Adds a line of two parts.
fn push_line(text: &mut String, front: &str, rest: &str) -> Result<(), AllocError> {
    text.push_str(front)?;
    text.push_str(rest)?;
    text.push_str("\n")
}
