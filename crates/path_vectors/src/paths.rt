//! Paths that stop losing, event by event.
//!
//! What is wanted stands in the vectors of the command `world`, where there is one; and of each event
//! apart it is what `tools/gateway_model.py` says, which shares no code with this crate.

use crate::stories::{Event, Story, goes};
use std::test::Fail;

/// Moments are below this one.
const MOMENTS: u64 = 1 << 62;

/// A bundle of version 6, with a payload of 3 octets. It must not be cut.
const WHOLE: &str = "0681100d02010101000000008768053c00010803616263";

/// The same, but that it may be cut.
const LOOSE: &str = "0681000d02010101000000008768053c00010803616263";

/// The one segment of the bundle is lost, and comes again once its timer is due. A clock before that does
/// nothing, and a drained path has no event left.
const LOST: &Story = &Story {
    limit: 10,
    cut: 65_536,
    start: 1_010_000,
    rows: &[
        (
            Event::Send(WHOLE),
            "sent 0 o>g.o 0301010001001702000681100d02010101000000008768053c00010803616263\n",
        ),
        (Event::Clock(1_015_000), ""),
        (
            Event::Drain,
            "event\n\
             sent 1 o>g.o 0301010001001702000681100d02010101000000008768053c00010803616263\n\
             event\n\
             sent 2 g.o>o 0801010002021700010017\n\
             sent 3 g.n>n 0303010001002902009f8907000182028202018202820101820100821a000f42450019ea5b425a46850101000043616263ff\n\
             up g.o 1 0681100d02010101000000008768053c00010803616263\n\
             note g.o Passed 1 1\n\
             event\n\
             sent 4 o>g.o 0901010002\n\
             note o Sent 1\n\
             event\n\
             sent 5 n>g.n 0803010002022900010029\n\
             up n 1 9f8907000182028202018202820101820100821a000f42450019ea5b425a46850101000043616263ff\n\
             event\n\
             event\n\
             sent 6 g.n>n 0903010002\n\
             note g.n Sent 1\n\
             event\n\
             events 7\n",
        ),
        (Event::Drain, "events 0\n"),
    ],
    now: 1_020_000,
    sent: 7,
    octets: 146,
    deadline: None,
};

#[test]
fn a_lost_bundle_is_drained_through(rt: HostRuntime) -> Result<(), Fail> {
    goes(rt.alloc(), LOST)
}

/// The segment was sent as often as it may be: the session is given up, and the cancel and the
/// acknowledgement of it come.
const SPENT: &Story = &Story {
    limit: 2,
    cut: 65_536,
    start: 1_010_000,
    rows: &[
        (
            Event::Send(WHOLE),
            "sent 0 o>g.o 0301010001001702000681100d02010101000000008768053c00010803616263\n",
        ),
        (
            Event::Clock(1_020_000),
            "sent 1 o>g.o 0301010001001702000681100d02010101000000008768053c00010803616263\n",
        ),
        (
            Event::Drain,
            "event\n\
             sent 2 o>g.o 0c01010002\n\
             note o Failed 1 2\n\
             event\n\
             sent 3 g.o>o 0d010100\n\
             event\n\
             events 3\n",
        ),
    ],
    now: 1_030_000,
    sent: 4,
    octets: 73,
    deadline: None,
};

#[test]
fn a_spent_sender_fails_in_a_drain(rt: HostRuntime) -> Result<(), Fail> {
    goes(rt.alloc(), SPENT)
}

/// The acknowledgement of the report is lost: the report comes again at its deadline, and its
/// acknowledgement comes.
const UNACKNOWLEDGED: &Story = &Story {
    limit: 10,
    cut: 65_536,
    start: 1_010_000,
    rows: &[
        (
            Event::Send(WHOLE),
            "sent 0 o>g.o 0301010001001702000681100d02010101000000008768053c00010803616263\n",
        ),
        (
            Event::Deliver(0),
            "sent 1 g.o>o 0801010002021700010017\n\
             sent 2 g.n>n 0303010001002902009f8907000182028202018202820101820100821a000f42450019ea5b425a46850101000043616263ff\n\
             up g.o 1 0681100d02010101000000008768053c00010803616263\n\
             note g.o Passed 1 1\n",
        ),
        (
            Event::Deliver(1),
            "sent 3 o>g.o 0901010002\n\
             note o Sent 1\n",
        ),
        (
            Event::Deliver(2),
            "sent 4 n>g.n 0803010002022900010029\n\
             up n 1 9f8907000182028202018202820101820100821a000f42450019ea5b425a46850101000043616263ff\n",
        ),
        (
            Event::Deliver(4),
            "sent 5 g.n>n 0903010002\n\
             note g.n Sent 1\n",
        ),
        (Event::Deliver(5), ""),
        (
            Event::Drain,
            "event\n\
             sent 6 g.o>o 0801010002021700010017\n\
             event\n\
             sent 7 o>g.o 0901010002\n\
             event\n\
             events 3\n",
        ),
    ],
    now: 1_020_000,
    sent: 8,
    octets: 130,
    deadline: None,
};

#[test]
fn a_report_that_was_not_acknowledged_comes_again(rt: HostRuntime) -> Result<(), Fail> {
    goes(rt.alloc(), UNACKNOWLEDGED)
}

/// The gate cuts the payload in two, and the new node joins both pieces.
const CUT: &Story = &Story {
    limit: 10,
    cut: 2,
    start: 1_010_000,
    rows: &[
        (
            Event::Send(LOOSE),
            "sent 0 o>g.o 0301010001001702000681000d02010101000000008768053c00010803616263\n",
        ),
        (
            Event::Drain,
            "event\n\
             sent 1 o>g.o 0301010001001702000681000d02010101000000008768053c00010803616263\n\
             event\n\
             sent 2 g.o>o 0801010002021700010017\n\
             sent 3 g.n>n 0303010001004602009f8b07010182028202018202820101820100821a000f42450019ea5b0003426fb08518c0020100554236374781000864746e3a6e6f6e650000000000008501010000426162ff\n\
             sent 4 g.n>n 0303020001004503009f8b07010182028202018202820101820100821a000f42450019ea5b02034279388518c0020100554236374781000864746e3a6e6f6e6500000000000085010100004163ff\n\
             up g.o 1 0681000d02010101000000008768053c00010803616263\n\
             note g.o Passed 1 2\n\
             event\n\
             sent 5 o>g.o 0901010002\n\
             note o Sent 1\n\
             event\n\
             sent 6 n>g.n 0803010002024600010046\n\
             up n 1 9f8b07010182028202018202820101820100821a000f42450019ea5b0003426fb08518c0020100554236374781000864746e3a6e6f6e650000000000008501010000426162ff\n\
             join n Waiting\n\
             event\n\
             sent 7 n>g.n 0803020003034500010045\n\
             up n 2 9f8b07010182028202018202820101820100821a000f42450019ea5b02034279388518c0020100554236374781000864746e3a6e6f6e6500000000000085010100004163ff\n\
             join n Whole 9f8907000182028202018202820101820100821a000f42450019ea5b425a468518c0020100554236374781000864746e3a6e6f6e65000000000000850101000043616263ff\n\
             event\n\
             event\n\
             sent 8 g.n>n 0903010002\n\
             note g.n Sent 1\n\
             event\n\
             sent 9 g.n>n 0903020003\n\
             note g.n Sent 2\n\
             event\n\
             event\n\
             events 10\n",
        ),
    ],
    now: 1_020_000,
    sent: 10,
    octets: 269,
    deadline: None,
};

#[test]
fn a_bundle_is_cut_and_joined_in_a_drain(rt: HostRuntime) -> Result<(), Fail> {
    goes(rt.alloc(), CUT)
}

/// Nothing was sent.
const SILENT: &Story = &Story {
    limit: 10,
    cut: 65_536,
    start: 1_010_000,
    rows: &[(Event::Drain, "events 0\n")],
    now: 1_010_000,
    sent: 0,
    octets: 0,
    deadline: None,
};

#[test]
fn a_path_on_which_nothing_was_sent_has_no_event(rt: HostRuntime) -> Result<(), Fail> {
    goes(rt.alloc(), SILENT)
}

/// A deadline that the clock can't be set to. The world stays as it was.
const TOO_LATE: &Story = &Story {
    limit: 10,
    cut: 65_536,
    start: MOMENTS - 10_000,
    rows: &[
        (
            Event::Send(WHOLE),
            "sent 0 o>g.o 0301010001001702000681100d02010101000000008768053c00010803616263\n",
        ),
        (Event::Drain, "TooLate\n"),
        (Event::Drain, "TooLate\n"),
    ],
    now: MOMENTS - 10_000,
    sent: 1,
    octets: 32,
    deadline: Some(MOMENTS),
};

#[test]
fn a_deadline_of_two_to_the_62_is_too_late(rt: HostRuntime) -> Result<(), Fail> {
    goes(rt.alloc(), TOO_LATE)
}
