//! The first reason to refuse a document, without memory.

ghost use Rattle.std.specs.Prelude.{◌≡◌, Some, option_map, option_and_then};
ghost use Rattle.toml.specs.Data.{as_table};
ghost use Rattle.toml.specs.View.{view, table_view, items_view};
ghost use Rattle.gate_config.specs.declared.fault.Refusal.TheVariants as refusals;
ghost use Rattle.gate_config.specs.Lent.{seen, told};
ghost use Rattle.gate_config.specs.Refusals as refused;
ghost use Rattle.gate_config.specs.Meaning as spec;

use crate::fault::{Flaw, Wanted, Within};
use crate::keys::{CONTACT_KEYS, FILE_KEYS, Key, Kind, Section};
use crate::values::{at, contacts_at, fits, moment_at, number_at, text_at};
use toml::{Table, Value};

/// The type of a residue where no key says another.
const RESIDUE: u64 = 192;

/// The type of a wrap where no key says another.
const WRAP: u64 = 193;

/// The first reason to refuse a document, if there is one.
#[tactic(auto, unfolding(crate::specs::Meaning::refusal_of))]
pub(crate) fn judge(document: &Value) -> Result<(), Flaw<'_>>
    ensures { told result ≡ spec.refusal_of (Some (view document.now)) }
{
    judge_table(Within::File, &FILE_KEYS, Some(document))?;
    let gateway = section_of(Section::Gateway, document);
    let within = Within::Table(Section::Gateway);
    judge_table(within, Section::Gateway.keys(), gateway)?;
    judge_face(Section::Old, section_of(Section::Old, document))?;
    judge_face(Section::New, section_of(Section::New, document))?;
    judge_blocks(section_of(Section::New, document))?;
    let same = same_text(
        text_at(Key::Journal, gateway),
        text_at(Key::Metrics, gateway),
    );
    refuse_if(same, within, Key::Metrics, Wanted::OtherPath)
}

/// The table of a section, where the document has one.
pub(crate) fn section_of<'a>(section: Section, document: &'a Value) -> Option<&'a Value>
    ensures { seen result ≡ spec.section_of section (Some (view document.now)) }
{
    at(section.key(), Some(document))
}

#[tactic(auto, unfolding(crate::specs::Meaning::table_refusal))]
fn judge_table<'a>(within: Within, known: &[Key], place: Option<&'a Value>) -> Result<(), Flaw<'a>>
    ensures { told result ≡ spec.table_refusal within known.now (seen place.entry) }
{
    judge_unknown(within, known, place)?;
    judge_kinds(within, known, place)
}

fn judge_unknown<'a>(
    within: Within,
    known: &[Key],
    place: Option<&'a Value>,
) -> Result<(), Flaw<'a>>
    ensures { told result ≡ spec.unknown_in within known.now (seen place.entry) }
{
    match unknown_key(known, place) {
        Some(key) => Err(Flaw::NoKey { within, key }),
        None => Ok(()),
    }
}

fn unknown_key<'a>(known: &[Key], place: Option<&'a Value>) -> Option<&'a str>
    ensures { option_map (λ key. key.now) result ≡ option_and_then (spec.first_unknown known.now)
        (option_and_then as_table (seen place.entry)) }
{
    first_unknown(known, place?.as_table()?)
}

/// The first key, in the order of a table's keys, that isn't known.
fn first_unknown<'a>(known: &[Key], table: &'a Table) -> Option<&'a str>
    ensures { option_map (λ key. key.now) result
        ≡ spec.first_unknown known.now (table_view table.now) }
{
    'keys: for (key, _) in table.iter() {
        if !is_known(known, key.as_str()) {
            return Some(key.as_str());
        }
    }
    None
}

fn is_known(known: &[Key], name: &str) -> bool
    ensures { result ≡ spec.is_known known.now name.now }
{
    known.iter().any(|key| key.name() == name)
}

/// The first of the keys, in their order, at which not stands what its kind wants.
fn judge_kinds<'a>(within: Within, known: &[Key], place: Option<&'a Value>) -> Result<(), Flaw<'a>>
    ensures { told result ≡ spec.first_misfit within known.now (seen place.entry) }
{
    'keys: for key in known {
        let kind = key.kind();
        if !fits(kind, at(*key, place)) {
            return Err(Flaw::Wrong {
                within,
                key: *key,
                wanted: wanted_of(kind),
            });
        }
    }
    Ok(())
}

fn wanted_of(kind: Kind) -> Wanted
    ensures { result ≡ refused.wanted_of kind }
{
    match kind {
        Kind::Table => Wanted::Table,
        Kind::Endpoint => Wanted::Endpoint,
        Kind::Address => Wanted::Address,
        Kind::Path => Wanted::Path,
        Kind::Whole { low, high } => Wanted::Whole { low, high },
        Kind::Accept => Wanted::Accept,
        Kind::Age => Wanted::Age,
        Kind::ForeignBlocks => Wanted::ForeignBlocks,
        Kind::Contacts => Wanted::Tables,
        Kind::Moment => Wanted::Moment,
    }
}

#[tactic(auto, unfolding(crate::specs::Meaning::face_refusal))]
fn judge_face<'a>(face: Section, place: Option<&'a Value>) -> Result<(), Flaw<'a>>
    ensures { told result ≡ spec.face_refusal face (seen place.entry) }
{
    let within = Within::Table(face);
    judge_table(within, face.keys(), place)?;
    let short = cap_in(face, place) < number_in(face, Key::TimeoutMs, place);
    refuse_if(short, within, Key::CapMs, Wanted::NotBelowTimeout)?;
    judge_contacts(face, contacts_at(place))?;
    let same = number_in(face, Key::Engine, place) == number_in(face, Key::PeerEngine, place);
    refuse_if(same, within, Key::PeerEngine, Wanted::OtherNumber)
}

/// The types of the gateway's own blocks: with others than these some block would have one type among
/// the gateway's own bundles and another on the wire, and no way back.
#[tactic(auto, unfolding(crate::specs::Meaning::blocks_refusal))]
fn judge_blocks<'a>(place: Option<&'a Value>) -> Result<(), Flaw<'a>>
    ensures { told result ≡ spec.blocks_refusal (seen place.entry) }
{
    let within = Within::Table(Section::New);
    let residue = number_in(Section::New, Key::ResidueBlock, place);
    let wrap = number_in(Section::New, Key::WrapBlock, place);
    refuse_if(residue == WRAP, within, Key::ResidueBlock, Wanted::NotWrap)?;
    let taken = wrap == RESIDUE || wrap == residue;
    refuse_if(taken, within, Key::WrapBlock, Wanted::NotResidue)
}

/// The contacts of a face in order, each with the end of the one before.
fn judge_contacts<'a>(face: Section, values: &'a [Value]) -> Result<(), Flaw<'a>>
    ensures { told result ≡ spec.contacts_refusal face 0 0 (items_view values.now) }
{
    let mut before = 0;
    'values: for index in 0..values.len() {
        let value = &values[index];
        match judge_contact(Within::Contact { face, index }, before, value) {
            Ok(()) => before = moment_at(Key::To, Some(value)),
            Err(flaw) => return Err(flaw),
        }
    }
    Ok(())
}

#[tactic(auto, unfolding(crate::specs::Meaning::contact_refusal))]
fn judge_contact<'a>(within: Within, before: u64, value: &'a Value) -> Result<(), Flaw<'a>>
    ensures { told result ≡ spec.contact_refusal within before (view value.now) }
{
    judge_table(within, &CONTACT_KEYS, Some(value))?;
    let from = moment_at(Key::From, Some(value));
    let to = moment_at(Key::To, Some(value));
    refuse_if(!(from < to), within, Key::To, Wanted::AfterFrom)?;
    refuse_if(from < before, within, Key::From, Wanted::NotBeforeEnd)
}

/// The number at a key, or the key's default.
pub(crate) fn number_in(section: Section, key: Key, place: Option<&Value>) -> u64
    ensures { result ≡ spec.number_in section key (seen place.entry) }
{
    number_at(key, place).unwrap_or(key.default_in(section))
}

/// The greatest timeout. Where it is left out it isn't below the first.
pub(crate) fn cap_in(section: Section, place: Option<&Value>) -> u64
    ensures { result ≡ spec.cap_in section (seen place.entry) }
{
    let least = number_in(section, Key::TimeoutMs, place);
    let cap = Key::CapMs.default_in(section).max(least);
    number_at(Key::CapMs, place).unwrap_or(cap)
}

fn same_text(one: Option<&str>, other: Option<&str>) -> bool
    ensures { result ≡ spec.same_text (option_map (λ t. t.now) one.entry)
        (option_map (λ t. t.now) other.entry) }
{
    match (one, other) {
        (Some(one), Some(other)) => one == other,
        _ => false,
    }
}

fn refuse_if<'a>(test: bool, within: Within, key: Key, wanted: Wanted) -> Result<(), Flaw<'a>>
    ensures { told result ≡ spec.refuse_if test (refusals.Wrong within key wanted) }
{
    if test {
        Err(Flaw::Wrong {
            within,
            key,
            wanted,
        })
    } else {
        Ok(())
    }
}
