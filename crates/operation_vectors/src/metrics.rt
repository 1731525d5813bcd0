//! The metrics: the model's text of a run, to the octet, and texts of other states, which are held
//! against the rules of the text format as a scraper's own check does: a family's help, its type and its
//! samples in this order, no family and no sample twice, names that say their types.

use gate_cases::{BadCause, Face, GateCase};
use gate_metrics::{Counted, Counters, Ended, FaceGauges, Gauges, LinkGauge, write_metrics};
use std::alloc::Global;
use std::test::Fail;
use translate::Refused;

/// A bundle passed from the old face to the new one, whose link is closed for 40.5 seconds.
const SHOWN: &[&str] = &[
    "# HELP fimdahol_blocks_total Blocks that came whole, by what became of them.",
    "# TYPE fimdahol_blocks_total counter",
    r#"fimdahol_blocks_total{face="old",case="passed"} 1"#,
    r#"fimdahol_blocks_total{face="old",case="bad_bundle"} 0"#,
    r#"fimdahol_blocks_total{face="old",case="untranslated"} 0"#,
    r#"fimdahol_blocks_total{face="old",case="expired"} 0"#,
    r#"fimdahol_blocks_total{face="old",case="hop_limit"} 0"#,
    r#"fimdahol_blocks_total{face="old",case="storage"} 0"#,
    r#"fimdahol_blocks_total{face="new",case="passed"} 0"#,
    r#"fimdahol_blocks_total{face="new",case="bad_bundle"} 0"#,
    r#"fimdahol_blocks_total{face="new",case="untranslated"} 0"#,
    r#"fimdahol_blocks_total{face="new",case="expired"} 0"#,
    r#"fimdahol_blocks_total{face="new",case="hop_limit"} 0"#,
    r#"fimdahol_blocks_total{face="new",case="storage"} 0"#,
    "# HELP fimdahol_datagrams_received_total Datagrams that came.",
    "# TYPE fimdahol_datagrams_received_total counter",
    r#"fimdahol_datagrams_received_total{face="old"} 1"#,
    r#"fimdahol_datagrams_received_total{face="new"} 0"#,
    "# HELP fimdahol_received_bytes_total Octets of the datagrams that came.",
    "# TYPE fimdahol_received_bytes_total counter",
    r#"fimdahol_received_bytes_total{face="old"} 32"#,
    r#"fimdahol_received_bytes_total{face="new"} 0"#,
    "# HELP fimdahol_datagrams_sent_total Datagrams that went.",
    "# TYPE fimdahol_datagrams_sent_total counter",
    r#"fimdahol_datagrams_sent_total{face="old"} 1"#,
    r#"fimdahol_datagrams_sent_total{face="new"} 0"#,
    "# HELP fimdahol_sent_bytes_total Octets of the datagrams that went.",
    "# TYPE fimdahol_sent_bytes_total counter",
    r#"fimdahol_sent_bytes_total{face="old"} 11"#,
    r#"fimdahol_sent_bytes_total{face="new"} 0"#,
    "# HELP fimdahol_datagrams_dropped_total Datagrams for which the outbox had no room.",
    "# TYPE fimdahol_datagrams_dropped_total counter",
    r#"fimdahol_datagrams_dropped_total{face="old"} 0"#,
    r#"fimdahol_datagrams_dropped_total{face="new"} 0"#,
    "# HELP fimdahol_sessions_begun_total Sending sessions that began.",
    "# TYPE fimdahol_sessions_begun_total counter",
    r#"fimdahol_sessions_begun_total{face="old"} 0"#,
    r#"fimdahol_sessions_begun_total{face="new"} 1"#,
    "# HELP fimdahol_sessions_ended_total Sending sessions that ended, by how.",
    "# TYPE fimdahol_sessions_ended_total counter",
    r#"fimdahol_sessions_ended_total{face="old",how="sent"} 0"#,
    r#"fimdahol_sessions_ended_total{face="old",how="failed"} 0"#,
    r#"fimdahol_sessions_ended_total{face="old",how="cancelled"} 0"#,
    r#"fimdahol_sessions_ended_total{face="new",how="sent"} 0"#,
    r#"fimdahol_sessions_ended_total{face="new",how="failed"} 0"#,
    r#"fimdahol_sessions_ended_total{face="new",how="cancelled"} 0"#,
    "# HELP fimdahol_poll_failures_total Polls that failed.",
    "# TYPE fimdahol_poll_failures_total counter",
    r#"fimdahol_poll_failures_total{face="old"} 0"#,
    r#"fimdahol_poll_failures_total{face="new"} 0"#,
    "# HELP fimdahol_send_failures_total Sends that failed.",
    "# TYPE fimdahol_send_failures_total counter",
    r#"fimdahol_send_failures_total{face="old"} 0"#,
    r#"fimdahol_send_failures_total{face="new"} 0"#,
    "# HELP fimdahol_sending_sessions Sending sessions that are kept.",
    "# TYPE fimdahol_sending_sessions gauge",
    r#"fimdahol_sending_sessions{face="old"} 0"#,
    r#"fimdahol_sending_sessions{face="new"} 1"#,
    "# HELP fimdahol_receiving_sessions Receiving sessions that are kept.",
    "# TYPE fimdahol_receiving_sessions gauge",
    r#"fimdahol_receiving_sessions{face="old"} 1"#,
    r#"fimdahol_receiving_sessions{face="new"} 0"#,
    "# HELP fimdahol_outbox_datagrams Datagrams that wait.",
    "# TYPE fimdahol_outbox_datagrams gauge",
    r#"fimdahol_outbox_datagrams{face="old"} 0"#,
    r#"fimdahol_outbox_datagrams{face="new"} 1"#,
    "# HELP fimdahol_outbox_bytes Octets of the datagrams that wait.",
    "# TYPE fimdahol_outbox_bytes gauge",
    r#"fimdahol_outbox_bytes{face="old"} 0"#,
    r#"fimdahol_outbox_bytes{face="new"} 50"#,
    "# HELP fimdahol_link_open 1 where the link is open.",
    "# TYPE fimdahol_link_open gauge",
    r#"fimdahol_link_open{face="old"} 1"#,
    r#"fimdahol_link_open{face="new"} 0"#,
    "# HELP fimdahol_next_contact_seconds Seconds until the link opens; 0 where it is open.",
    "# TYPE fimdahol_next_contact_seconds gauge",
    r#"fimdahol_next_contact_seconds{face="old"} 0.000"#,
    r#"fimdahol_next_contact_seconds{face="new"} 40.500"#,
    "# HELP fimdahol_journal_pending_pieces Pieces in the journal that haven't ended.",
    "# TYPE fimdahol_journal_pending_pieces gauge",
    "fimdahol_journal_pending_pieces 0",
];

/// The metrics' text.
fn shown(alloc: Global, counters: &Counters, gauges: &Gauges) -> Result<String, Fail> {
    let mut text = String::new(alloc);
    write_metrics(&mut text, counters, gauges)?;
    Ok(text)
}

/// Whether a text is exactly these lines.
fn are_lines(text: &str, lines: &[&str]) -> bool {
    let mut rest = text;
    for line in lines {
        match rest.strip_prefix(*line) {
            Some(after) => match after.strip_prefix("\n") {
                Some(more) => rest = more,
                None => return false,
            },
            None => return false,
        }
    }
    rest.is_empty()
}

/// Nothing is kept and nothing waits.
fn idle(link: LinkGauge) -> FaceGauges {
    FaceGauges {
        sending_sessions: 0,
        receiving_sessions: 0,
        outbox_datagrams: 0,
        outbox_octets: 0,
        link,
    }
}

#[test]
fn a_run_has_its_text(rt: HostRuntime) -> Result<(), Fail> {
    let mut counters = Counters::new();
    counters.count(Face::Old, Counted::Received { octets: 32 });
    counters.count(
        Face::Old,
        Counted::Block {
            case: GateCase::Passed,
        },
    );
    counters.count(Face::New, Counted::Begun { sessions: 1 });
    counters.count(Face::Old, Counted::Sent { octets: 11 });
    let gauges = Gauges {
        old: FaceGauges {
            receiving_sessions: 1,
            ..idle(LinkGauge::Open)
        },
        new: FaceGauges {
            sending_sessions: 1,
            outbox_datagrams: 1,
            outbox_octets: 50,
            ..idle(LinkGauge::Opens { after: 40_500 })
        },
        pending_pieces: 0,
    };
    let text = shown(rt.alloc(), &counters, &gauges)?;
    assert!(rt; are_lines(text.as_str(), SHOWN));
    assert!(rt; keeps_rules(rt.alloc(), text.as_str())?);
    Ok(())
}

// ---- the rules of the format

/// What was read of a text: the family that the last line belongs to.
#[derive(Clone, Copy)]
struct Family<'a> {
    name: &'a str,
    kind: &'a str,
}

/// Whether it is a name.
fn is_name(name: &str) -> bool {
    !name.is_empty()
        && name
            .bytes()
            .all(|octet| octet == b'_' || octet.is_ascii_lowercase())
}

/// Whether it is a number.
fn is_number(text: &str) -> bool {
    !text.is_empty()
        && text
            .bytes()
            .all(|octet| octet == b'.' || octet.is_ascii_digit())
}

/// The family that a line of help begins.
fn helped(rest: &str) -> Option<Family<'_>> {
    let (name, help) = rest.split_once(' ')?;
    let named = is_name(name) && !help.is_empty();
    named.then_some(Family { name, kind: "" })
}

/// The family after the line of its type.
fn typed<'a>(family: Family<'a>, rest: &'a str) -> Option<Family<'a>> {
    let (name, kind) = rest.split_once(' ')?;
    let counts = name.ends_with("_total");
    let typed = kind == "counter" && counts || kind == "gauge" && !counts;
    let first = name == family.name && family.kind.is_empty();
    (typed && first).then_some(Family { name, kind })
}

/// The family after a sample.
fn sampled<'a>(family: Family<'a>, line: &str) -> Option<Family<'a>> {
    let (sample, number) = line.split_once(' ')?;
    let labels = sample.strip_prefix(family.name)?;
    let labelled = labels.is_empty() || labels.starts_with("{") && labels.ends_with("}");
    (labelled && is_number(number) && !family.kind.is_empty()).then_some(family)
}

/// The family after a line; or none where the line breaks a rule.
fn after<'a>(family: Family<'a>, line: &'a str) -> Option<Family<'a>> {
    if let Some(rest) = line.strip_prefix("# HELP ") {
        return helped(rest);
    }
    if let Some(rest) = line.strip_prefix("# TYPE ") {
        return typed(family, rest);
    }
    sampled(family, line)
}

/// The name and labels of a sample, which no other has.
fn sample(line: &str) -> Option<&str> {
    if line.starts_with("#") {
        return None;
    }
    Some(line.split_once(' ')?.0)
}

/// The name of the family that a line begins.
fn begun(line: &str) -> Option<&str> {
    Some(line.strip_prefix("# HELP ")?.split_once(' ')?.0)
}

/// Whether a name that a line has, where it has one, isn't among these. It is from then on.
fn is_new<'a>(names: &mut Vec<&'a str>, name: Option<&'a str>) -> Result<bool, Fail> {
    let Some(name) = name else {
        return Ok(true);
    };
    if names.contains(&name) {
        return Ok(false);
    }
    names.push(name)?;
    Ok(true)
}

/// Whether a text keeps the rules.
fn keeps_rules(alloc: Global, text: &str) -> Result<bool, Fail> {
    let mut family = Family { name: "", kind: "" };
    let mut names: Vec<&str> = Vec::new(alloc);
    let mut samples: Vec<&str> = Vec::new(alloc);
    for line in text.lines() {
        match after(family, line) {
            Some(next) => family = next,
            None => return Ok(false),
        }
        if !is_new(&mut names, begun(line))? || !is_new(&mut samples, sample(line))? {
            return Ok(false);
        }
    }
    Ok(text.ends_with("\n"))
}

/// Texts that break a rule each.
const BROKEN: &[&str] = &[
    "a_total 1\n",
    "# TYPE a_total counter\na_total 1\n",
    "# HELP a_total A.\na_total 1\n",
    "# HELP a_total A.\n# TYPE b_total counter\nb_total 1\n",
    "# HELP a A.\n# TYPE a counter\na{x=\"y\"} 1\n",
    "# HELP a_total A.\n# TYPE a_total gauge\na_total{x=\"y\"} 1\n",
    "# HELP a_total A.\n# TYPE a_total counter\na_total{x=\"y\"} 1\na_total{x=\"y\"} 2\n",
    "# HELP a_total A.\n# TYPE a_total counter\na_total{x=\"y\"} one\n",
    "# HELP a_total A.\n# TYPE a_total counter\na_total{x=\"y\"} 1",
];

#[test]
fn the_rules_tell_broken_texts(rt: HostRuntime) -> Result<(), Fail> {
    for text in BROKEN {
        assert!(rt; !keeps_rules(rt.alloc(), text)?, "{text}");
    }
    Ok(())
}

/// Things that happen, each at both faces.
const THINGS: &[Counted] = &[
    Counted::Block {
        case: GateCase::Passed,
    },
    Counted::Block {
        case: GateCase::BadBundle {
            at: 0,
            cause: BadCause::Trailing,
        },
    },
    Counted::Block {
        case: GateCase::Untranslated {
            cause: Refused::WrapBad,
        },
    },
    Counted::Block {
        case: GateCase::Expired,
    },
    Counted::Block {
        case: GateCase::HopLimit,
    },
    Counted::Block {
        case: GateCase::Storage,
    },
    Counted::Received { octets: u64::MAX },
    Counted::Received { octets: 1 },
    Counted::Sent { octets: 65_507 },
    Counted::Dropped { datagrams: 6 },
    Counted::Begun { sessions: 2 },
    Counted::Ended { how: Ended::Sent },
    Counted::Ended { how: Ended::Failed },
    Counted::Ended {
        how: Ended::Cancelled,
    },
    Counted::PollFailed,
    Counted::SendFailed,
    Counted::SendFailed,
];

/// Lines of the text after these, with the new face's link closed for good.
const LINES: &[&str] = &[
    "fimdahol_blocks_total{face=\"new\",case=\"storage\"} 1",
    "fimdahol_blocks_total{face=\"old\",case=\"bad_bundle\"} 1",
    "fimdahol_datagrams_received_total{face=\"old\"} 2",
    "fimdahol_received_bytes_total{face=\"new\"} 18446744073709551615",
    "fimdahol_sent_bytes_total{face=\"old\"} 65507",
    "fimdahol_datagrams_dropped_total{face=\"new\"} 6",
    "fimdahol_sessions_begun_total{face=\"old\"} 2",
    "fimdahol_sessions_ended_total{face=\"new\",how=\"cancelled\"} 1",
    "fimdahol_poll_failures_total{face=\"old\"} 1",
    "fimdahol_send_failures_total{face=\"new\"} 2",
    "fimdahol_link_open{face=\"old\"} 0",
    "fimdahol_link_open{face=\"new\"} 0",
    "fimdahol_next_contact_seconds{face=\"old\"} 86400.007",
    "fimdahol_journal_pending_pieces 65",
];

#[test]
fn all_that_is_counted_stands_there(rt: HostRuntime) -> Result<(), Fail> {
    let mut counters = Counters::new();
    for what in THINGS {
        counters.count(Face::Old, *what);
        counters.count(Face::New, *what);
    }
    let gauges = Gauges {
        old: idle(LinkGauge::Opens { after: 86_400_007 }),
        new: idle(LinkGauge::Closed),
        pending_pieces: 65,
    };
    let text = shown(rt.alloc(), &counters, &gauges)?;
    assert!(rt; keeps_rules(rt.alloc(), text.as_str())?);
    for wanted in LINES {
        assert!(rt; text.lines().any(|line| line == *wanted), "{wanted}");
    }
    assert!(rt; !text.contains("next_contact_seconds{face=\"new\"}"));
    Ok(())
}
