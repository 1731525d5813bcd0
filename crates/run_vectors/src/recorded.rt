//! Recorded bundles: what is said of them, and calls that fail.

use crate::runs::{octets, surely, with_faults};
use bundle_runs::{Cause, Command, bundles};
use bundle6::Cause6;
use bundle7::Cause7;
use edge_traits::{MemSink, MemSource, Status};
use std::alloc::Global;
use std::test::Fail;

/// A bundle of version 6, from ipn:1.1 to ipn:2.1 with the payload `abc`.
const SIX: &str = "0681100d02010101000000008768053c00010803616263";

/// Octets, what `check` writes, and how it ends.
const CHECKED: &[(&str, &str, Status)] = &[
    ("", "", Status::Done),
    (SIX, "6 23\n", Status::Done),
    (
        "0681100d02010101000000008768053c000108036162",
        "refused 1 20 Truncated\n",
        Status::Refused,
    ),
    (
        "0681100d020101010000000087",
        "refused 1 12 Truncated\n",
        Status::Refused,
    ),
    (
        "0681100e02010101000000008768053c00010803616263",
        "refused 1 17 PrimaryEnd\n",
        Status::Refused,
    ),
    (
        "0681100d02010101000000008768053c01010803616263",
        "refused 1 17 Names\n",
        Status::Refused,
    ),
    (
        "0681100d02010101000000008768053c00020803616263",
        "refused 1 18 NoPayload\n",
        Status::Refused,
    ),
    (
        "0681100d02010101000000008768053c000108036162630681100d02010101000000008768053c00010803616263",
        "6 23\n6 23\n",
        Status::Done,
    ),
    // From dtn://a/x to dtn://b/y.
    (
        "068110220004000a001000108768053c1564746e002f2f622f79002f2f612f78006e6f6e6500010803616263",
        "6 44\n",
        Status::Done,
    ),
    (
        "9f8907000182028202018202820101820100821a00",
        "refused 1 19 Truncated\n",
        Status::Refused,
    ),
    (
        "9f8907000182028202018202820101820100821a000f42450019ea5b425a",
        "refused 1 29 Truncated\n",
        Status::Refused,
    ),
    (
        "9f8907000182028202018202820101820100821a000f42450019ea5b425a47850101000043616263ff",
        "refused 1 29 Crc\n",
        Status::Refused,
    ),
    (
        "9f890718000182028202018202820101820100821a000f42450019ea5b425a46850101000043616263ff",
        "refused 1 3 Number\n",
        Status::Refused,
    ),
    (
        "9f8907000182028202018202820101820100821a000f42450019ea5b425a46850101000043616263",
        "refused 1 40 Truncated\n",
        Status::Refused,
    ),
    (
        "9f8907000182028202018202820101820100821a000f42450019ea5b425a4685010100004361626300",
        "refused 1 40 Break\n",
        Status::Refused,
    ),
    (
        "0681100d02010101000000008768053c000108036162639f8907000182028202018202820101820100821a000f42450019ea5b425a46850101000043616263ff",
        "6 23\n7 41\n",
        Status::Done,
    ),
    // A hop count with a CRC-32C of which one octet is changed.
    (
        "9f8907000182028202018202820101820100821a000f42450019ea5b425a46860a0210024582181e181d44fb77970f",
        "refused 1 43 Crc\n",
        Status::Refused,
    ),
    // The name of an endpoint: its head, and its octets.
    (
        "9f890700018201790400",
        "refused 1 10 Truncated\n",
        Status::Refused,
    ),
    ("9f89070001820160", "refused 1 8 Eid\n", Status::Refused),
    ("07", "refused 1 0 Version\n", Status::Refused),
];

#[test]
fn bundles_are_checked(rt: HostRuntime) -> Result<(), Fail> {
    for &(text, output, status) in CHECKED {
        let input = octets(rt.alloc(), text)?;
        assert!(rt;
            surely(rt.alloc(), &["check"], &input, output, status)?,
            "{text}"
        );
    }
    Ok(())
}

/// Octets, and what `show` writes.
const SHOWN: &[(&str, &str)] = &[
    ("", ""),
    (
        SIX,
        "{\"blocks\":[{\"body\":\"616263\",\"flags\":0,\"kind\":1,\"refs\":[]}],\"creation\":[1000,5],\"custodian\":\"dtn:none\",\"destination\":\"ipn:2.1\",\"flags\":144,\"fragment\":null,\"lifetime\":60,\"report_to\":\"dtn:none\",\"source\":\"ipn:1.1\",\"version\":6}\n",
    ),
    (
        "9f8907000182028202018202820101820100821a000f42450019ea5b425a46850101000043616263ff",
        "{\"blocks\":[{\"body\":\"616263\",\"crc\":0,\"flags\":0,\"kind\":1,\"number\":1}],\"crc\":1,\"creation\":[1000005,0],\"destination\":\"ipn:2.1\",\"flags\":0,\"fragment\":null,\"lifetime\":59995,\"report_to\":\"dtn:none\",\"source\":\"ipn:1.1\",\"version\":7}\n",
    ),
];

#[test]
fn bundles_are_shown(rt: HostRuntime) -> Result<(), Fail> {
    for &(text, output) in SHOWN {
        let input = octets(rt.alloc(), text)?;
        assert!(rt;
            surely(rt.alloc(), &["show"], &input, output, Status::Done)?,
            "{text}"
        );
    }
    Ok(())
}

/// Words, octets, what is written, and how it ends.
const IN_PIECES: &[(&[&str], &str, &str, Status)] = &[
    (
        &["cut", "2"],
        SIX,
        "0681110f02010101000000008768053c0000030108026162\n0681110f02010101000000008768053c00020301080163\n",
        Status::Done,
    ),
    (
        &["cut", "2"],
        "0681140d02010101000000008768053c00010803616263",
        "refused 1 MustNot\n",
        Status::Refused,
    ),
    (
        &["join"],
        "0681110f02010101000000008768053c000203010801630681110f02010101000000008768053c0000030108026162",
        "Waiting\nWhole 0681100d02010101000000008768053c00010803616263\n",
        Status::Done,
    ),
    (
        &["join"],
        "0681110f02010101000000008768053c000203010801630681110f02010101000000008768053c00020301080163",
        "Waiting\nRepeat\n",
        Status::Done,
    ),
    (&["join"], SIX, "NotFragment\n", Status::Done),
    (&["cut", "0"], SIX, "", Status::Usage),
];

#[test]
fn bundles_are_cut_and_joined(rt: HostRuntime) -> Result<(), Fail> {
    for &(words, text, output, status) in IN_PIECES {
        let input = octets(rt.alloc(), text)?;
        assert!(rt;
            surely(rt.alloc(), words, &input, output, status)?,
            "{text}"
        );
    }
    Ok(())
}

/// Two bundles, each as [`SIX`].
const TWO: &str =
    "0681100d02010101000000008768053c000108036162630681100d02010101000000008768053c00010803616263";

/// Both in version 7.
const TWO_CONVERTED: &str = "\
9f8907000182028202018202820101820100821a000f42450019ea5b425a46850101000043616263ff
9f8907000182028202018202820101820100821a000f42450019ea5b425a46850101000043616263ff
";

#[test]
fn what_was_read_before_a_failed_read_is_converted(rt: HostRuntime) -> Result<(), Fail> {
    let input = octets(rt.alloc(), TWO)?;
    assert!(rt;
        with_faults(
            rt.alloc(),
            &["convert"],
            &input,
            (&[false, true], &[]),
            TWO_CONVERTED,
            Status::ReadFault
        )?
    );
    Ok(())
}

/// Whether a run over a source and a sink, of which the first call may fail, ends so and writes
/// nothing.
fn ends_with(alloc: Global, read: bool, write: bool, status: Status) -> Result<bool, Fail> {
    let mut source = MemSource::new(alloc, &octets(alloc, SIX)?, &[read])?;
    let mut sink = MemSink::new(alloc, 100, &[write])?;
    let ended = bundles(alloc, Command::Check, &mut source, &mut sink);
    Ok(ended == status && sink.octets().is_empty())
}

#[test]
fn a_failed_call_ends_the_run(rt: HostRuntime) -> Result<(), Fail> {
    assert!(rt;
        ends_with(rt.alloc(), true, false, Status::ReadFault)?,
        "read"
    );
    assert!(rt;
        ends_with(rt.alloc(), false, true, Status::WriteFault)?,
        "write"
    );
    Ok(())
}

#[test]
fn a_bundle_of_another_version_has_a_word(rt: HostRuntime) {
    assert!(rt; Cause::Version.word() == "Version");
    assert!(rt; Cause::Six(Cause6::PrimaryEnd).word() == "PrimaryEnd");
    assert!(rt; Cause::Seven(Cause7::Break).word() == "Break");
}
