//! What stands at a key of a table, and whether it is of the key's kind.

ghost use Rattle.std.specs.Prelude.{◌≡◌, ◌==◌, Some, option_map};
ghost use Rattle.std.specs.List.{list_any};
ghost use Rattle.std.specs.Option.{ok_or};
ghost use Rattle.endpoint.specs.declared.fault.EndpointFault.TheVariants as endpoints;
ghost use Rattle.endpoint.specs.Reading.{read_text, dtn_named, ipn_named};
ghost use Rattle.toml.specs.View.{view, array_view, items_view};
ghost use Rattle.gate_config.specs.Lent.{seen};
ghost use Rattle.gate_config.specs.Values as spec;

use crate::keys::{Key, Kind};
use endpoint::Endpoint;
use toml::Value;
use toml::value::Array;

/// What stands at a key of a table.
pub(crate) fn at<'a>(key: Key, place: Option<&'a Value>) -> Option<&'a Value>
    ensures { seen result ≡ spec.at key (seen place.entry) }
{
    place?.get(key.name())
}

/// The whole number at a key.
pub(crate) fn number_at(key: Key, place: Option<&Value>) -> Option<u64>
    ensures { result ≡ spec.number_at key (seen place.entry) }
{
    whole_of(at(key, place)?)
}

fn whole_of(value: &Value) -> Option<u64>
    ensures { result ≡ spec.whole_of (view value.now) }
{
    u64::try_from(value.as_integer()?).ok()
}

/// The text at a key.
pub(crate) fn text_at<'a>(key: Key, place: Option<&'a Value>) -> Option<&'a str>
    ensures { option_map (λ text. text.now) result ≡ spec.text_at key (seen place.entry) }
{
    at(key, place)?.as_str()
}

/// The moment at a key, or 0 where there is none.
pub(crate) fn moment_at(key: Key, place: Option<&Value>) -> u64
    ensures { result ≡ spec.moment_at key (seen place.entry) }
{
    at(key, place).and_then(moment_in).unwrap_or(0)
}

fn moment_in(value: &Value) -> Option<u64>
    ensures { result ≡ spec.moment_in (view value.now) }
{
    moment_text::moment_of(value.as_datetime()?)
}

/// The values of the list of contacts, where there is one.
pub(crate) fn contacts_at<'a>(place: Option<&'a Value>) -> &'a [Value]
    ensures { items_view result.now ≡ spec.contacts_at (seen place.entry) }
{
    match at(Key::Contact, place) {
        Some(Value::Array(values)) => values.as_slice(),
        _ => &[],
    }
}

/// What stands at a key, or nothing, is as its kind wants it.
#[tactic(auto, unfolding(crate::specs::Values::fits))]
pub(crate) fn fits(kind: Kind, value: Option<&Value>) -> bool
    ensures { result ≡ spec.fits kind (seen value.entry) }
{
    match value {
        Some(value) => is_of(kind, value),
        None => may_lack(kind),
    }
}

fn may_lack(kind: Kind) -> bool
    ensures { result ≡ spec.may_lack kind }
{
    matches!(
        kind,
        Kind::Path
            | Kind::Accept
            | Kind::Age
            | Kind::ForeignBlocks
            | Kind::Whole { .. }
            | Kind::Contacts
    )
}

#[tactic(auto, unfolding(crate::specs::Values::is_of))]
fn is_of(kind: Kind, value: &Value) -> bool
    ensures { result ≡ spec.is_of kind (view value.now) }
{
    match kind {
        Kind::Table => is_table(value),
        Kind::Endpoint => is_endpoint(value.as_str()),
        Kind::Address => is_text(64, value.as_str()),
        Kind::Path => is_text(4096, value.as_str()),
        Kind::Accept => is_either("address", "port", value.as_str()),
        Kind::Age => is_either("raise", "keep", value.as_str()),
        Kind::ForeignBlocks => is_either("wrap", "drop", value.as_str()),
        Kind::Whole { low, high } => is_whole(low, high, whole_of(value)),
        Kind::Contacts => is_contacts(value.as_array()),
        Kind::Moment => moment_in(value).is_some(),
    }
}

fn is_either(one: &str, other: &str, text: Option<&str>) -> bool
    ensures { result ≡ spec.is_either one.now other.now (option_map (λ t. t.now) text.entry) }
{
    match text {
        Some(text) => text == one || text == other,
        None => false,
    }
}

fn is_table(value: &Value) -> bool
    ensures { result ≡ spec.is_table (view value.now) }
{
    value.is_table()
}

fn is_whole(low: u64, high: u64, number: Option<u64>) -> bool
    ensures { result ≡ spec.is_whole low high number }
{
    match number {
        Some(number) => low <= number && number <= high,
        None => false,
    }
}

fn is_text(most: usize, text: Option<&str>) -> bool
    ensures { result ≡ spec.is_text most (option_map (λ t. t.now) text.entry) }
{
    match text {
        Some(text) => 1 <= text.len() && text.len() <= most && !has_zero(text.as_bytes()),
        None => false,
    }
}

fn has_zero(octets: &[u8]) -> bool
    ensures { result ≡ list_any (λ octet. octet == 0) octets.now }
{
    octets.iter().any(|octet| *octet == 0)
}

fn is_endpoint(text: Option<&str>) -> bool
    ensures { result ≡ spec.is_endpoint (option_map (λ t. t.now) text.entry) }
{
    match text {
        Some(text) => names_one(text.as_bytes()),
        None => false,
    }
}

/// The text names an endpoint other than the null endpoint. It takes no memory.
#[tactic(auto, unfolding(endpoint::specs::Reading::read_text))]
fn names_one(text: &[u8]) -> bool
    ensures { result ≡ spec.is_named (read_text text.now) }
{
    if let Some(ssp) = text.strip_prefix(b"dtn:".as_slice()) {
        return names_dtn(ssp);
    }
    if let Some(ssp) = text.strip_prefix(b"ipn:".as_slice()) {
        return names_ipn(ssp);
    }
    false
}

fn names_dtn(ssp: &[u8]) -> bool
    ensures { result ≡ spec.is_named (ok_or (dtn_named ssp.now) endpoints.Ssp) }
{
    if ssp == b"none".as_slice() {
        return false;
    }
    endpoint::is_ssp(ssp)
}

fn names_ipn(ssp: &[u8]) -> bool
    ensures { result ≡ spec.is_named (ok_or (ipn_named ssp.now) endpoints.Number) }
{
    match endpoint::ipn_named(ssp) {
        Some(Endpoint::Null) => false,
        Some(_) => true,
        None => false,
    }
}

fn is_contacts(values: Option<&Array>) -> bool
    ensures { result ≡ spec.is_contacts (option_map (λ v. array_view v.now) values.entry) }
{
    match values {
        Some(values) => are_contacts(values.as_slice()),
        None => false,
    }
}

fn are_contacts(values: &[Value]) -> bool
    ensures { result ≡ spec.is_contacts (Some (items_view values.now)) }
{
    is_count(values.len()) && all_tables(values)
}

fn is_count(count: usize) -> bool
    ensures { result ≡ spec.is_within 1 4096 count }
{
    1 <= count && count <= 4096
}

fn all_tables(values: &[Value]) -> bool
    ensures { result ≡ spec.all_tables (items_view values.now) }
{
    'values: for value in values {
        if !is_table(value) {
            return false;
        }
    }
    true
}
