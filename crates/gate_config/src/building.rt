//! The values of a document, with octets of their own.

ghost use Rattle.std.specs.Prelude.{◌≡◌, Some, None, IfOk, option_map, unwrap_or, []};
ghost use Rattle.endpoint.specs.Reading.{read_text};
ghost use Rattle.toml.specs.View.{view, items_view};
ghost use Rattle.gate_config.specs.Lent.{seen};
ghost use Rattle.gate_config.specs.Values as values;
ghost use Rattle.gate_config.specs.Meaning as spec;

use crate::file::{
    Accept, Age, BlocksConfig, Contact, Contacts, FaceConfig, ForeignBlocks, GateFile,
    GatewayConfig,
};
use crate::judging::{cap_in, number_in, section_of};
use crate::keys::{Key, Section};
use crate::values::{contacts_at, moment_at, number_at, text_at};
use endpoint::{Endpoint, EndpointFault, Octets};
use std::alloc::{AllocError, Global};
use toml::Value;

/// The values of a document that isn't refused.
pub(crate) fn build(alloc: Global, document: &Value) -> Result<GateFile, AllocError>
    ensures { IfOk result (λ file. file ≡ spec.file_of (Some (view document.now))) }
{
    Ok(GateFile {
        gateway: gateway_of(alloc, section_of(Section::Gateway, document))?,
        old: face_of(alloc, Section::Old, section_of(Section::Old, document))?,
        new: face_of(alloc, Section::New, section_of(Section::New, document))?,
        blocks: blocks_of(section_of(Section::New, document)),
    })
}

fn gateway_of(alloc: Global, place: Option<&Value>) -> Result<GatewayConfig, AllocError>
    ensures { IfOk result (λ config. config ≡ spec.gateway_of (seen place.entry)) }
{
    Ok(GatewayConfig {
        endpoint: endpoint_of(alloc, text_at(Key::Endpoint, place).unwrap_or(""))?,
        cut: number_in(Section::Gateway, Key::Cut, place),
        age: age_of(text_at(Key::Age, place)),
        journal: owned(alloc, text_at(Key::Journal, place))?,
        metrics: owned(alloc, text_at(Key::Metrics, place))?,
    })
}

fn endpoint_of(alloc: Global, text: &str) -> Result<Endpoint, AllocError>
    ensures { IfOk result (λ endpoint. endpoint ≡ spec.endpoint_or_null (read_text text.now)) }
{
    match Endpoint::from_text(alloc, text.as_bytes()) {
        Ok(endpoint) => Ok(endpoint),
        Err(EndpointFault::Memory) => Err(AllocError),
        Err(_) => Ok(Endpoint::Null),
    }
}

fn owned(alloc: Global, text: Option<&str>) -> Result<Option<Octets>, AllocError>
    ensures { IfOk result (λ octets. octets ≡ option_map (λ t. t.now) text.entry) }
{
    match text {
        Some(text) => Ok(Some(Octets::from_slice(alloc, text.as_bytes())?)),
        None => Ok(None),
    }
}

fn octets_at(alloc: Global, key: Key, place: Option<&Value>) -> Result<Octets, AllocError>
    ensures { IfOk result (λ octets.
        octets ≡ unwrap_or (values.text_at key (seen place.entry)) []) }
{
    Octets::from_slice(alloc, text_at(key, place).unwrap_or("").as_bytes())
}

fn face_of(alloc: Global, face: Section, place: Option<&Value>) -> Result<FaceConfig, AllocError>
    ensures { IfOk result (λ config. config ≡ spec.face_of face (seen place.entry)) }
{
    Ok(FaceConfig {
        bind: octets_at(alloc, Key::Bind, place)?,
        peer: octets_at(alloc, Key::Peer, place)?,
        engine: number_in(face, Key::Engine, place),
        peer_engine: number_in(face, Key::PeerEngine, place),
        segment: number_in(face, Key::Segment, place),
        timeout_ms: number_in(face, Key::TimeoutMs, place),
        limit: number_in(face, Key::Limit, place),
        cap_ms: cap_in(face, place),
        first_session: number_at(Key::FirstSession, place),
        rate: number_at(Key::Rate, place),
        outbox: number_in(face, Key::Outbox, place),
        accept: accept_of(text_at(Key::Accept, place)),
        sessions: number_in(face, Key::Sessions, place),
        memory: number_in(face, Key::Memory, place),
        aggregate: number_in(face, Key::Aggregate, place),
        aggregate_ms: number_in(face, Key::AggregateMs, place),
        remember: number_in(face, Key::Remember, place),
        remember_ms: number_in(face, Key::RememberMs, place),
        contacts: contacts_of(alloc, contacts_at(place))?,
    })
}

fn accept_of(text: Option<&str>) -> Accept
    ensures { result ≡ spec.accept_of (option_map (λ t. t.now) text.entry) }
{
    match text {
        Some("port") => Accept::Port,
        _ => Accept::Address,
    }
}

fn age_of(text: Option<&str>) -> Age
    ensures { result ≡ spec.age_of (option_map (λ t. t.now) text.entry) }
{
    match text {
        Some("keep") => Age::Keep,
        _ => Age::Raise,
    }
}

fn blocks_of(place: Option<&Value>) -> BlocksConfig
    ensures { result ≡ spec.blocks_of (seen place.entry) }
{
    BlocksConfig {
        residue_block: number_in(Section::New, Key::ResidueBlock, place),
        wrap_block: number_in(Section::New, Key::WrapBlock, place),
        foreign_blocks: foreign_of(text_at(Key::ForeignBlocks, place)),
    }
}

fn foreign_of(text: Option<&str>) -> ForeignBlocks
    ensures { result ≡ spec.foreign_of (option_map (λ t. t.now) text.entry) }
{
    match text {
        Some("drop") => ForeignBlocks::Drop,
        _ => ForeignBlocks::Wrap,
    }
}

fn contacts_of(alloc: Global, values: &[Value]) -> Result<Contacts, AllocError>
    ensures { IfOk result (λ contacts. contacts ≡ spec.contacts_of (items_view values.now)) }
{
    let mut contacts = Vec::with_capacity(alloc, values.len())?;
    'values: for value in values {
        contacts.push(contact_of(value))?;
    }
    Ok(Contacts::from_vec(contacts))
}

fn contact_of(value: &Value) -> Contact
    ensures { result ≡ spec.contact_of (view value.now) }
{
    Contact {
        from: moment_at(Key::From, Some(value)),
        to: moment_at(Key::To, Some(value)),
        rate: number_at(Key::Rate, Some(value)),
    }
}
