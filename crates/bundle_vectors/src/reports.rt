//! Status reports of both versions: bodies, refusals, and how they pair off.

ghost use Rattle.std.specs.Prelude.{IfOk};
ghost use Rattle.bundle_meaning.specs.Reports.{IsReport};
ghost use Rattle.status_reports.specs.Legal.{IsReport6, IsReport7};

use crate::rows::{is, octets};
use bundle_meaning::Report;
use status_reports::{
    AdminFault, PairFault, Report6, Report7, lend6, lend7, read6, read7, shared_from6,
    shared_from7, shared_with_rests, view6, view7, write6, write7,
};
use std::alloc::Global;
use std::test::Fail;

/// A body of version 6, the statuses that have no time, the parts of its times below one
/// millisecond, and the body of version 7 that says the same.
type Row = (&'static str, u8, [u32; 4], &'static str);

const PAIRS: &[Row] = &[
    // delivered at second 1000 and 999,999,999 ns
    (
        "100800876883dceb937f8768050769706e3a312e31",
        0,
        [0, 0, 999_999, 0],
        "8201848481f481f482f51a000f462781f4008202820101821a000f424500",
    ),
    // received
    (
        "1001008768008768050769706e3a312e31",
        0,
        [0, 0, 0, 0],
        "8201848482f51a000f424081f481f481f4008202820101821a000f424500",
    ),
    // forwarded
    (
        "1004008768bd84408768050769706e3a312e31",
        0,
        [0, 0, 0, 0],
        "8201848481f482f51a000f424181f481f4008202820101821a000f424500",
    ),
    // delivered
    (
        "1008008768018768050769706e3a312e31",
        0,
        [0, 0, 1, 0],
        "8201848481f481f482f51a000f424081f4008202820101821a000f424500",
    ),
    // deleted, lifetime expired
    (
        "1010018824bd843f8768050769706e3a312e31",
        0,
        [0, 0, 0, 999_999],
        "8201848481f481f481f482f51a00102ca0018202820101821a000f424500",
    ),
    // all four, with four times
    (
        "101dff010102fa89020381b78d430481f492048768050769706e3a312e31",
        0,
        [1, 2, 3, 4],
        "8201848482f51903e882f51907d282f5190bbb82f5190fa418ff8202820101821a000f424500",
    ),
    // all four, none with a time
    (
        "101d0000000000000000008768050769706e3a312e31",
        29,
        [0, 0, 0, 0],
        "8201848481f581f581f581f5008202820101821a000f424500",
    ),
    // all four at the first moment of the year 2000
    (
        "101d0000000000000000008768050769706e3a312e31",
        0,
        [0, 0, 0, 0],
        "8201848482f50082f50082f50082f500008202820101821a000f424500",
    ),
    // received with a time, delivered without
    (
        "10090087680500008768050769706e3a312e31",
        8,
        [5, 0, 0, 0],
        "8201848482f51a000f424081f481f581f4008202820101821a000f424500",
    ),
    // no status at all
    (
        "1000008768050769706e3a312e31",
        0,
        [0, 0, 0, 0],
        "8201848481f481f481f481f4008202820101821a000f424500",
    ),
    // a fragment's
    (
        "11080002018768008768050769706e3a312e31",
        0,
        [0, 0, 0, 0],
        "8201868481f481f482f51a000f424081f4008202820101821a000f4245000201",
    ),
    // a fragment's, with the largest numbers
    (
        "11080081ffffffffffffffff7f81ffffffffffffffff7f8768008768050769706e3a312e31",
        0,
        [0, 0, 0, 0],
        "8201868481f481f482f51a000f424081f4008202820101821a000f4245001bffffffffffffffff1bffffffffffffffff",
    ),
    // the last time that version 7 has
    (
        "100100a0e2a6f4de9acf6f82a5ddd37f8768050769706e3a312e31",
        0,
        [999_999, 0, 0, 0],
        "8201848482f51bffffffffffffffff81f481f481f4008202820101821a000f424500",
    ),
    // the last name that version 7 has
    (
        "100000a0e2a6f4de9acf6f84670769706e3a312e31",
        0,
        [0, 0, 0, 0],
        "8201848481f481f481f481f4008202820101821bffffffffffffffff00",
    ),
    // the last name that version 6 has
    (
        "1000000081ffffffffffffffff7f0769706e3a312e31",
        0,
        [0, 0, 0, 0],
        "8201848481f481f481f481f4008202820101821902671b004189374bc6a7ef",
    ),
    // nobody's subject
    (
        "1000008768050864746e3a6e6f6e65",
        0,
        [0, 0, 0, 0],
        "8201848481f481f481f481f400820100821a000f424500",
    ),
    // a subject of the scheme dtn
    (
        "1000068768050964746e3a2f2f612f78",
        0,
        [0, 0, 0, 0],
        "8201848481f481f481f481f4068201652f2f612f78821a000f424500",
    ),
    // a subject with the largest ipn numbers
    (
        "1000008768052d69706e3a31383434363734343037333730393535313631352e3138343436373434303733373039353531363135",
        0,
        [0, 0, 0, 0],
        "8201848481f481f481f481f4008202821bffffffffffffffff1bffffffffffffffff821a000f424500",
    ),
];

/// The report of version 6 that a body says.
fn six(alloc: Global, text: &str) -> Result<Report6, Fail>
    ensures { IfOk result IsReport6 }
{
    let body = octets(alloc, text)?;
    Ok(read6(alloc, &body)?)
}

/// The report of version 7 that a body says.
fn seven(alloc: Global, text: &str) -> Result<Report7, Fail>
    ensures { IfOk result IsReport7 }
{
    let body = octets(alloc, text)?;
    Ok(read7(alloc, &body)?)
}

/// Whether version 6 says this in that body, with these statuses that have no time.
fn says6(alloc: Global, shared: &Report, no_time: u8, text: &str) -> Result<bool, Fail>
    requires { IsReport shared.now }
{
    let report = view6(alloc, shared)?;
    let written = write6(alloc, &report)?;
    Ok(report.takes(no_time) && is(alloc, &written, text)?)
}

/// Whether version 7 says this in that body.
fn says7(alloc: Global, shared: &Report, text: &str) -> Result<bool, Fail>
    requires { IsReport shared.now }
{
    let report = view7(alloc, shared)?;
    let written = write7(alloc, &report)?;
    is(alloc, &written, text)
}

/// Whether the body of version 6 becomes that of version 7, with these parts below one millisecond.
fn is_there(alloc: Global, row: &Row) -> Result<bool, Fail> {
    let (old, no_time, rests, new) = *row;
    let old = six(alloc, old)?;
    if !old.takes(no_time) {
        return Ok(false);
    }
    let shared = shared_from6(alloc, &old, no_time)?;
    Ok(shared.rests == rests && says7(alloc, &shared, new)?)
}

/// Whether the body of version 7 becomes that of version 6, where these parts are kept.
fn is_back(alloc: Global, row: &Row) -> Result<bool, Fail> {
    let (old, no_time, rests, new) = *row;
    let new = seven(alloc, new)?;
    if !new.takes(&rests) {
        return Ok(false);
    }
    let shared = shared_with_rests(alloc, &new, rests)?;
    says6(alloc, &shared, no_time, old)
}

#[test]
fn reports_pair_off(rt: HostRuntime) -> Result<(), Fail> {
    for row in PAIRS {
        assert!(rt; is_there(rt.alloc(), row)?, "{}", row.0);
        assert!(rt; is_back(rt.alloc(), row)?, "{}", row.3);
    }
    Ok(())
}

/// Whether each front of a body of version 6 is refused.
fn cuts6_are_refused(alloc: Global, text: &str) -> Result<bool, Fail> {
    let body = octets(alloc, text)?;
    for cut in 0..body.len() {
        if lend6(&body[..cut]).err() != Some(AdminFault::BadAdmin) {
            return Ok(false);
        }
    }
    Ok(true)
}

/// Whether each front of a body of version 7 is refused.
fn cuts7_are_refused(alloc: Global, text: &str) -> Result<bool, Fail> {
    let body = octets(alloc, text)?;
    for cut in 0..body.len() {
        if lend7(&body[..cut]).err() != Some(AdminFault::BadAdmin) {
            return Ok(false);
        }
    }
    Ok(true)
}

/// Each body is cut at each length.
#[test]
fn a_report_that_ends_early_is_refused(rt: HostRuntime) -> Result<(), Fail> {
    for row in PAIRS {
        assert!(rt; cuts6_are_refused(rt.alloc(), row.0)?, "{}", row.0);
        assert!(rt; cuts7_are_refused(rt.alloc(), row.3)?, "{}", row.3);
    }
    Ok(())
}

/// Bodies of version 6 that are no status report, and why.
const REFUSED6: &[(&str, AdminFault)] = &[
    // an empty body
    ("", AdminFault::BadAdmin),
    // custody signals, whatever follows
    ("20", AdminFault::CustodySignal),
    ("2f02", AdminFault::CustodySignal),
    // types that aren't known
    ("30", AdminFault::AdminUnknown),
    ("00", AdminFault::AdminUnknown),
    ("f1", AdminFault::AdminUnknown),
    // flags that aren't known come before the statuses
    ("12", AdminFault::BadAdmin),
    ("1f02", AdminFault::BadAdmin),
    // no statuses
    ("10", AdminFault::BadAdmin),
    ("11", AdminFault::BadAdmin),
    // custody accepted, whatever else is set
    ("1002", AdminFault::CustodyReport),
    ("11ff", AdminFault::CustodyReport),
    // statuses that aren't known
    ("1020", AdminFault::BadAdmin),
    ("1040", AdminFault::BadAdmin),
    ("1080", AdminFault::BadAdmin),
    // an octet too many
    ("1000008768050769706e3a312e3100", AdminFault::BadAdmin),
    // a number with an octet more than it needs
    ("100000808768050769706e3a312e31", AdminFault::BadAdmin),
    // a whole second of nanoseconds
    (
        "100800876883dceb94008768050769706e3a312e31",
        AdminFault::BadAdmin,
    ),
    // a number of 2^64
    (
        "1000008280808080808080808000050769706e3a312e31",
        AdminFault::BadAdmin,
    ),
    // no endpoint
    ("1000008768050869706e3a30312e31", AdminFault::BadAdmin),
    ("100000876805046e6f6e65", AdminFault::BadAdmin),
    ("10000087680500", AdminFault::BadAdmin),
    // a fragment's report without the fragment
    ("1100008768050769706e3a312e31", AdminFault::BadAdmin),
];

/// Bodies of version 7 that are no status report, and why.
const REFUSED7: &[(&str, AdminFault)] = &[
    // an empty body
    ("", AdminFault::BadAdmin),
    // types that aren't known, whatever follows
    ("8202", AdminFault::AdminUnknown),
    ("820280", AdminFault::AdminUnknown),
    ("8200", AdminFault::AdminUnknown),
    ("821bffffffffffffffff", AdminFault::AdminUnknown),
    // no report
    ("820180", AdminFault::BadAdmin),
    // a type with an octet more than it needs
    ("82180280", AdminFault::BadAdmin),
    // other kinds and other counts
    ("82", AdminFault::BadAdmin),
    ("8102", AdminFault::BadAdmin),
    ("8302", AdminFault::BadAdmin),
    ("9f02ff", AdminFault::BadAdmin),
    ("8241", AdminFault::BadAdmin),
    ("a202", AdminFault::BadAdmin),
    // an octet too many
    (
        "8201848481f481f481f481f4008202820101821a000f42450000",
        AdminFault::BadAdmin,
    ),
    // five items
    (
        "8201858481f481f481f481f4008202820101821a000f42450000",
        AdminFault::BadAdmin,
    ),
    // six items without a fragment
    (
        "8201868481f481f481f481f4008202820101821a000f424500",
        AdminFault::BadAdmin,
    ),
    // three statuses
    (
        "8201848381f481f481f4008202820101821a000f424500",
        AdminFault::BadAdmin,
    ),
    // a status that isn't set and has a time
    (
        "8201848482f41a000f424081f481f481f4008202820101821a000f424500",
        AdminFault::BadAdmin,
    ),
    // a status of three items and of none
    (
        "8201848483f5000081f481f481f4008202820101821a000f424500",
        AdminFault::BadAdmin,
    ),
    (
        "820184848081f481f481f4008202820101821a000f424500",
        AdminFault::BadAdmin,
    ),
    // a status that is null
    (
        "8201848481f681f481f481f4008202820101821a000f424500",
        AdminFault::BadAdmin,
    ),
    // reason 256
    (
        "8201848481f481f481f481f41901008202820101821a000f424500",
        AdminFault::BadAdmin,
    ),
    // reason 0 in two octets
    (
        "8201848481f481f481f481f418008202820101821a000f424500",
        AdminFault::BadAdmin,
    ),
    // no endpoint
    (
        "8201848481f481f481f481f400820101821a000f424500",
        AdminFault::BadAdmin,
    ),
    (
        "8201848481f481f481f481f400820160821a000f424500",
        AdminFault::BadAdmin,
    ),
    (
        "8201848481f481f481f481f4008201646e6f6e65821a000f424500",
        AdminFault::BadAdmin,
    ),
    // a timestamp that isn't an array of two
    (
        "8201848481f481f481f481f4008202820101831a000f42450000",
        AdminFault::BadAdmin,
    ),
    // a time with octets more than it needs
    (
        "8201848481f481f481f481f4008202820101821b00000000000f424500",
        AdminFault::BadAdmin,
    ),
];

/// Whether a body of version 6 is refused for this, lent and owned.
fn is_refused6(alloc: Global, text: &str, fault: AdminFault) -> Result<bool, Fail> {
    let body = octets(alloc, text)?;
    Ok(lend6(&body).err() == Some(fault) && read6(alloc, &body).err() == Some(fault))
}

/// Whether a body of version 7 is refused for this, lent and owned.
fn is_refused7(alloc: Global, text: &str, fault: AdminFault) -> Result<bool, Fail> {
    let body = octets(alloc, text)?;
    Ok(lend7(&body).err() == Some(fault) && read7(alloc, &body).err() == Some(fault))
}

#[test]
fn other_bodies_are_refused_by_name(rt: HostRuntime) -> Result<(), Fail> {
    for &(text, fault) in REFUSED6 {
        assert!(rt; is_refused6(rt.alloc(), text, fault)?, "{text}");
    }
    for &(text, fault) in REFUSED7 {
        assert!(rt; is_refused7(rt.alloc(), text, fault)?, "{text}");
    }
    Ok(())
}

/// Reports of version 6 with a time, or a subject's name, past the last that version 7 has.
const ALONE6: &[&str] = &[
    "100100a0e2a6f4de9acf6f82a5ddd4008768050769706e3a312e31",
    "10100081ffffffffffffffff7f008768050769706e3a312e31",
    "100000a0e2a6f4de9acf6f84680769706e3a312e31",
];

/// Reports of version 7 with a subject's name past the last that version 6 has.
const ALONE7: &[&str] = &[
    "8201848481f481f481f481f4008202820101821902681b004189374bc6a7ef",
    "8201848481f581f581f581f500820282010182001bffffffffffffffff",
];

/// Whether a report of version 6 has no counterpart.
fn is_alone6(alloc: Global, text: &str) -> Result<bool, Fail> {
    let report = six(alloc, text)?;
    if !report.takes(0) {
        return Ok(!report.has_counterpart());
    }
    let refused = shared_from6(alloc, &report, 0).err();
    Ok(!report.has_counterpart() && refused == Some(PairFault::NoCounterpart))
}

/// Whether a report of version 7 has no counterpart.
fn is_alone7(alloc: Global, text: &str) -> Result<bool, Fail> {
    let report = seven(alloc, text)?;
    let refused = shared_from7(alloc, &report).err();
    Ok(!report.has_counterpart() && refused == Some(PairFault::NoCounterpart))
}

#[test]
fn a_report_without_counterpart_is_refused(rt: HostRuntime) -> Result<(), Fail> {
    for &text in ALONE6 {
        assert!(rt; is_alone6(rt.alloc(), text)?, "{text}");
    }
    for &text in ALONE7 {
        assert!(rt; is_alone7(rt.alloc(), text)?, "{text}");
    }
    Ok(())
}

/// Masks, and whether a report has them that was received with a time and delivered without: of others a
/// status isn't set, is custody, or has a time.
const MASKS: [(u8, bool); 9] = [
    (0, true),
    (8, true),
    (1, false),
    (2, false),
    (4, false),
    (9, false),
    (12, false),
    (16, false),
    (32, false),
];

/// Parts of times, and whether the same report has them: of others one is a whole millisecond, or has no
/// time.
const PARTS: [([u32; 4], bool); 4] = [
    ([999_999, 0, 0, 0], true),
    ([1_000_000, 0, 0, 0], false),
    ([0, 1, 0, 0], false),
    ([0, 0, 1, 0], false),
];

/// Whether a report takes the masks that it has, and no others.
fn takes_masks(report: &Report6) -> bool {
    for (mask, takes) in MASKS {
        if report.takes(mask) != takes {
            return false;
        }
    }
    true
}

/// Whether a report takes the parts that it has, and no others.
fn takes_parts(report: &Report7) -> bool {
    for (parts, takes) in PARTS {
        if report.takes(&parts) != takes {
            return false;
        }
    }
    true
}

#[test]
fn details_stand_only_where_they_can(rt: HostRuntime) -> Result<(), Fail> {
    let old = six(rt.alloc(), "10090087680500008768050769706e3a312e31")?;
    assert!(rt; takes_masks(&old));
    let text = "8201848482f51a000f424081f481f581f4008202820101821a000f424500";
    let new = seven(rt.alloc(), text)?;
    assert!(rt; takes_parts(&new));
    Ok(())
}

/// A body with as many letters between two parts.
fn with_letters(alloc: Global, front: &str, count: usize, back: &str) -> Result<Vec<u8>, Fail> {
    let mut body = octets(alloc, front)?;
    for _ in 0..count {
        body.push(b'a')?;
    }
    body.extend_from_slice(&octets(alloc, back)?)?;
    Ok(body)
}

/// Whether a body of version 6 is read, and written again so.
fn is_written6(alloc: Global, body: &[u8]) -> Result<bool, Fail> {
    let report = read6(alloc, body)?;
    Ok(write6(alloc, &report)?.as_slice() == body)
}

/// Whether a body of version 7 is read, and written again so.
fn is_written7(alloc: Global, body: &[u8]) -> Result<bool, Fail> {
    let report = read7(alloc, body)?;
    Ok(write7(alloc, &report)?.as_slice() == body)
}

/// Whether a source of version 6 has at most 1,023 octets.
fn sources6_end(alloc: Global) -> Result<bool, Fail> {
    let last = with_letters(alloc, "100000876805880364746e3a", 1023, "")?;
    let longer = with_letters(alloc, "100000876805880464746e3a", 1024, "")?;
    let refused = lend6(&longer).err() == Some(AdminFault::BadAdmin);
    Ok(is_written6(alloc, &last)? && refused)
}

/// The fronts of bodies of version 7 whose sources have 1,023 octets and one more, and what follows these.
const FRONT: &str = "8201848481f481f481f481f40082017903ff";

const LONGER_FRONT: &str = "8201848481f481f481f481f4008201790400";

const BACK: &str = "821a000f424500";

/// Whether a source of version 7 has at most 1,023 octets.
fn sources7_end(alloc: Global) -> Result<bool, Fail> {
    let last = with_letters(alloc, FRONT, 1023, BACK)?;
    let longer = with_letters(alloc, LONGER_FRONT, 1024, BACK)?;
    let refused = lend7(&longer).err() == Some(AdminFault::BadAdmin);
    Ok(is_written7(alloc, &last)? && refused)
}

#[test]
fn a_source_has_at_most_1023_octets(rt: HostRuntime) -> Result<(), Fail> {
    assert!(rt; sources6_end(rt.alloc())?);
    assert!(rt; sources7_end(rt.alloc())?);
    Ok(())
}
