//! The text of the metrics.

ghost use Rattle.std.specs.Prelude.{◌≡◌, ◌++◌, codes, flat_map, OnOk};
ghost use Rattle.std.specs.Fmt.{decimal};
ghost use Rattle.std.specs.String.{string_bytes};
ghost use Rattle.gate_cases.specs.declared.face.Face.TheVariants as faces;
ghost use Rattle.gate_metrics.specs.Text as spec;

use crate::counters::{BlockCounters, Counters, EndCounters};
use crate::gauges::{Gauges, LinkGauge};
use gate_cases::Face;
use std::alloc::AllocError;

/// Appends the text of the metrics. Where memory runs out, a part of it may stand there.
pub fn write_metrics(
    text: &mut String,
    counters: &Counters,
    gauges: &Gauges,
) -> Result<(), AllocError>
    ensures { OnOk result (string_bytes text.new
        ≡ string_bytes text.old ++ spec.metrics_text counters.now gauges.now) }
{
    push_traffic(text, counters)?;
    push_troubles(text, counters)?;
    push_kept(text, gauges)?;
    push_links(text, gauges.old.link, gauges.new.link)?;
    push_pending(text, gauges.pending_pieces)
}

/// Appends the text of the metrics of a gateway among other implementations, at whose faces pieces of so
/// many octets wait to be sent.
pub fn write_peer_metrics(
    text: &mut String,
    counters: &Counters,
    gauges: &Gauges,
    old_gathered: u64,
    new_gathered: u64,
) -> Result<(), AllocError>
    ensures { OnOk result (string_bytes text.new ≡ string_bytes text.old
        ++ spec.peer_text counters.now gauges.now old_gathered new_gathered) }
{
    write_metrics(text, counters, gauges)?;
    push_beside(text, counters, old_gathered, new_gathered)
}

// ---- the families

/// Appends what is counted of blocks and of datagrams that came or went.
fn push_traffic(text: &mut String, counters: &Counters) -> Result<(), AllocError>
    ensures { OnOk result (string_bytes text.new
        ≡ string_bytes text.old ++ flat_map spec.family_text (spec.traffic counters.now)) }
{
    let (old, new) = (&counters.old, &counters.new);
    push_blocks(text, &old.blocks, &new.blocks)?;
    push_counter(
        text,
        "datagrams_received_total",
        "Datagrams that came.",
        old.datagrams_received,
        new.datagrams_received,
    )?;
    push_counter(
        text,
        "received_bytes_total",
        "Octets of the datagrams that came.",
        old.octets_received,
        new.octets_received,
    )?;
    push_counter(
        text,
        "datagrams_sent_total",
        "Datagrams that went.",
        old.datagrams_sent,
        new.datagrams_sent,
    )?;
    push_counter(
        text,
        "sent_bytes_total",
        "Octets of the datagrams that went.",
        old.octets_sent,
        new.octets_sent,
    )
}

/// Appends what is counted of sessions, and of what was lost here.
fn push_troubles(text: &mut String, counters: &Counters) -> Result<(), AllocError>
    ensures { OnOk result (string_bytes text.new
        ≡ string_bytes text.old ++ flat_map spec.family_text (spec.troubles counters.now)) }
{
    let (old, new) = (&counters.old, &counters.new);
    push_counter(
        text,
        "datagrams_dropped_total",
        "Datagrams for which the outbox had no room.",
        old.datagrams_dropped,
        new.datagrams_dropped,
    )?;
    push_counter(
        text,
        "sessions_begun_total",
        "Sending sessions that began.",
        old.sessions_begun,
        new.sessions_begun,
    )?;
    push_ends(text, &old.sessions_ended, &new.sessions_ended)?;
    push_counter(
        text,
        "poll_failures_total",
        "Polls that failed.",
        old.polls_failed,
        new.polls_failed,
    )?;
    push_counter(
        text,
        "send_failures_total",
        "Sends that failed.",
        old.sends_failed,
        new.sends_failed,
    )
}

/// Appends what is told of datagrams from elsewhere, of green data, and of pieces that wait.
fn push_beside(
    text: &mut String,
    counters: &Counters,
    old_gathered: u64,
    new_gathered: u64,
) -> Result<(), AllocError>
    ensures { OnOk result (string_bytes text.new ≡ string_bytes text.old
        ++ flat_map spec.family_text (spec.beside counters.now old_gathered new_gathered)) }
{
    push_counter(
        text,
        "foreign_datagrams_total",
        "Datagrams from elsewhere that were dropped.",
        counters.old.foreign_datagrams,
        counters.new.foreign_datagrams,
    )?;
    push_counter(
        text,
        "green_bytes_total",
        "Octets of green data that came.",
        counters.old.green_octets,
        counters.new.green_octets,
    )?;
    push_gauge(
        text,
        "gathered_bytes",
        "Octets of the pieces that wait to be sent.",
        old_gathered,
        new_gathered,
    )
}

/// Appends how many sessions are kept, and what waits.
fn push_kept(text: &mut String, gauges: &Gauges) -> Result<(), AllocError>
    ensures { OnOk result (string_bytes text.new
        ≡ string_bytes text.old ++ flat_map spec.family_text (spec.kept gauges.now)) }
{
    let (old, new) = (&gauges.old, &gauges.new);
    push_gauge(
        text,
        "sending_sessions",
        "Sending sessions that are kept.",
        old.sending_sessions,
        new.sending_sessions,
    )?;
    push_gauge(
        text,
        "receiving_sessions",
        "Receiving sessions that are kept.",
        old.receiving_sessions,
        new.receiving_sessions,
    )?;
    push_gauge(
        text,
        "outbox_datagrams",
        "Datagrams that wait.",
        old.outbox_datagrams,
        new.outbox_datagrams,
    )?;
    push_gauge(
        text,
        "outbox_bytes",
        "Octets of the datagrams that wait.",
        old.outbox_octets,
        new.outbox_octets,
    )
}

/// Appends when the links are open.
fn push_links(text: &mut String, old: LinkGauge, new: LinkGauge) -> Result<(), AllocError>
    ensures { OnOk result (string_bytes text.new
        ≡ string_bytes text.old ++ flat_map spec.family_text (spec.links old new)) }
{
    let help = "1 where the link is open.";
    push_gauge(text, "link_open", help, is_open(old), is_open(new))?;
    push_openings(text, old, new)
}

#[tactic(auto, unfolding(crate::specs::Text::family_text))]
fn push_blocks(
    text: &mut String,
    old: &BlockCounters,
    new: &BlockCounters,
) -> Result<(), AllocError>
    ensures { OnOk result (string_bytes text.new ≡ string_bytes text.old ++ spec.family_text
        (spec.counter (codes "blocks_total") (codes "Blocks that came whole, by what became of them.")
        (spec.by_case faces.Old old.now ++ spec.by_case faces.New new.now))) }
{
    let help = "Blocks that came whole, by what became of them.";
    push_head(text, "blocks_total", help, "counter")?;
    push_cases(text, Face::Old, old)?;
    push_cases(text, Face::New, new)
}

fn push_cases(text: &mut String, face: Face, blocks: &BlockCounters) -> Result<(), AllocError>
    ensures { OnOk result (string_bytes text.new ≡ string_bytes text.old
        ++ flat_map (spec.sample_text (codes "blocks_total")) (spec.by_case face blocks.now)) }
{
    push_by(text, "blocks_total", face, "case", "passed", blocks.passed)?;
    push_by(
        text,
        "blocks_total",
        face,
        "case",
        "bad_bundle",
        blocks.bad_bundle,
    )?;
    push_by(
        text,
        "blocks_total",
        face,
        "case",
        "untranslated",
        blocks.untranslated,
    )?;
    push_by(
        text,
        "blocks_total",
        face,
        "case",
        "expired",
        blocks.expired,
    )?;
    push_by(
        text,
        "blocks_total",
        face,
        "case",
        "hop_limit",
        blocks.hop_limit,
    )?;
    push_by(
        text,
        "blocks_total",
        face,
        "case",
        "storage",
        blocks.storage,
    )
}

#[tactic(auto, unfolding(crate::specs::Text::family_text))]
fn push_ends(text: &mut String, old: &EndCounters, new: &EndCounters) -> Result<(), AllocError>
    ensures { OnOk result (string_bytes text.new ≡ string_bytes text.old ++ spec.family_text
        (spec.counter (codes "sessions_ended_total") (codes "Sending sessions that ended, by how.")
        (spec.by_end faces.Old old.now ++ spec.by_end faces.New new.now))) }
{
    let help = "Sending sessions that ended, by how.";
    push_head(text, "sessions_ended_total", help, "counter")?;
    push_ways(text, Face::Old, old)?;
    push_ways(text, Face::New, new)
}

fn push_ways(text: &mut String, face: Face, ends: &EndCounters) -> Result<(), AllocError>
    ensures { OnOk result (string_bytes text.new ≡ string_bytes text.old
        ++ flat_map (spec.sample_text (codes "sessions_ended_total")) (spec.by_end face ends.now)) }
{
    push_by(text, "sessions_ended_total", face, "how", "sent", ends.sent)?;
    push_by(
        text,
        "sessions_ended_total",
        face,
        "how",
        "failed",
        ends.failed,
    )?;
    push_by(
        text,
        "sessions_ended_total",
        face,
        "how",
        "cancelled",
        ends.cancelled,
    )
}

#[tactic(auto, unfolding(crate::specs::Text::family_text))]
fn push_openings(text: &mut String, old: LinkGauge, new: LinkGauge) -> Result<(), AllocError>
    ensures { OnOk result (string_bytes text.new ≡ string_bytes text.old ++ spec.family_text
        (spec.gauge (codes "next_contact_seconds")
        (codes "Seconds until the link opens; 0 where it is open.")
        (spec.opening faces.Old old ++ spec.opening faces.New new))) }
{
    let help = "Seconds until the link opens; 0 where it is open.";
    push_head(text, "next_contact_seconds", help, "gauge")?;
    push_opening(text, Face::Old, old)?;
    push_opening(text, Face::New, new)
}

/// Nothing where the link is closed for good.
fn push_opening(text: &mut String, face: Face, link: LinkGauge) -> Result<(), AllocError>
    ensures { OnOk result (string_bytes text.new ≡ string_bytes text.old
        ++ flat_map (spec.sample_text (codes "next_contact_seconds")) (spec.opening face link)) }
{
    match link {
        LinkGauge::Open => push_seconds(text, face, 0),
        LinkGauge::Opens { after } => push_seconds(text, face, after),
        LinkGauge::Closed => Ok(()),
    }
}

#[tactic(auto, unfolding(crate::specs::Text::family_text))]
fn push_pending(text: &mut String, number: u64) -> Result<(), AllocError>
    ensures { OnOk result (string_bytes text.new
        ≡ string_bytes text.old ++ flat_map spec.family_text (spec.journal number)) }
{
    let help = "Pieces in the journal that haven't ended.";
    push_head(text, "journal_pending_pieces", help, "gauge")?;
    push_alone(text, "journal_pending_pieces", number)
}

/// Appends a family of counters, one of each face.
#[tactic(auto, unfolding(crate::specs::Text::family_text))]
fn push_counter(
    text: &mut String,
    name: &str,
    help: &str,
    old: u64,
    new: u64,
) -> Result<(), AllocError>
    ensures { OnOk result (string_bytes text.new ≡ string_bytes text.old
        ++ spec.family_text (spec.counter name.now help.now (spec.by_face old new))) }
{
    push_head(text, name, help, "counter")?;
    push_sample(text, name, Face::Old, old)?;
    push_sample(text, name, Face::New, new)
}

/// Appends a family of gauges, one of each face.
#[tactic(auto, unfolding(crate::specs::Text::family_text))]
fn push_gauge(
    text: &mut String,
    name: &str,
    help: &str,
    old: u64,
    new: u64,
) -> Result<(), AllocError>
    ensures { OnOk result (string_bytes text.new ≡ string_bytes text.old
        ++ spec.family_text (spec.gauge name.now help.now (spec.by_face old new))) }
{
    push_head(text, name, help, "gauge")?;
    push_sample(text, name, Face::Old, old)?;
    push_sample(text, name, Face::New, new)
}

// ---- the lines

/// Appends a family's help and type.
#[tactic(auto, unfolding(crate::specs::Text::head_text))]
fn push_head(text: &mut String, name: &str, help: &str, kind: &str) -> Result<(), AllocError>
    ensures { OnOk result (string_bytes text.new
        ≡ string_bytes text.old ++ spec.head_text name.now help.now kind.now) }
{
    write!(
        text,
        "# HELP fimdahol_{name} {help}\n# TYPE fimdahol_{name} {kind}\n"
    )
}

/// Appends a sample without labels.
#[tactic(auto, unfolding(crate::specs::Text::sample_text))]
fn push_alone(text: &mut String, name: &str, number: u64) -> Result<(), AllocError>
    ensures { OnOk result (string_bytes text.new
        ≡ string_bytes text.old ++ spec.sample_text name.now (spec.alone number)) }
{
    write!(text, "fimdahol_{name} {number}\n")
}

/// Appends a sample of a face.
#[tactic(auto, unfolding(crate::specs::Text::sample_text))]
fn push_sample(text: &mut String, name: &str, face: Face, number: u64) -> Result<(), AllocError>
    ensures { OnOk result (string_bytes text.new
        ≡ string_bytes text.old ++ spec.sample_text name.now (spec.at face (decimal number))) }
{
    let face = word(face);
    write!(text, "fimdahol_{name}{{face=\"{face}\"}} {number}\n")
}

/// Appends a sample of a face, and of a case there or of a way to end.
#[tactic(auto, unfolding(crate::specs::Text::sample_text))]
fn push_by(
    text: &mut String,
    name: &str,
    face: Face,
    key: &str,
    value: &str,
    number: u64,
) -> Result<(), AllocError>
    ensures { OnOk result (string_bytes text.new ≡ string_bytes text.old
        ++ spec.sample_text name.now (spec.at_by face key.now value.now number)) }
{
    let face = word(face);
    write!(
        text,
        "fimdahol_{name}{{face=\"{face}\",{key}=\"{value}\"}} {number}\n"
    )
}

/// Appends a sample of a face that has three digits after the point.
#[tactic(auto, unfolding(crate::specs::Text::sample_text))]
fn push_parted(
    text: &mut String,
    name: &str,
    face: Face,
    whole: u64,
    part: (u64, u64, u64),
) -> Result<(), AllocError>
    ensures { OnOk result (string_bytes text.new
        ≡ string_bytes text.old ++ spec.sample_text name.now (spec.at face (decimal whole
        ++ (codes "." ++ (decimal part.0 ++ (decimal part.1 ++ decimal part.2)))))) }
{
    let face = word(face);
    let (tenths, hundredths, last) = part;
    write!(
        text,
        "fimdahol_{name}{{face=\"{face}\"}} {whole}.{tenths}{hundredths}{last}\n"
    )
}

/// Appends in how many milliseconds the link of a face opens, in seconds.
fn push_seconds(text: &mut String, face: Face, ms: u64) -> Result<(), AllocError>
    ensures { OnOk result (string_bytes text.new ≡ string_bytes text.old
        ++ spec.sample_text (codes "next_contact_seconds") (spec.at face (spec.seconds ms))) }
{
    let part = ms % 1000;
    let digits = (part / 10 / 10 % 10, part / 10 % 10, part % 10);
    push_parted(text, "next_contact_seconds", face, ms / 1000, digits)
}

/// A face, as a label names it.
fn word(face: Face) -> &'static str
    ensures { result.now ≡ spec.face_word face }
{
    match face {
        Face::Old => "old",
        Face::New => "new",
    }
}

/// 1 where the link is open, and else 0.
fn is_open(link: LinkGauge) -> u64
    ensures { result ≡ spec.is_open link }
{
    match link {
        LinkGauge::Open => 1,
        LinkGauge::Opens { .. } | LinkGauge::Closed => 0,
    }
}
