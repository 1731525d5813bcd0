//! What a file means, as a file that says all of it.

ghost use Rattle.std.specs.Prelude.{◌≡◌, ◌++◌, IfOk, OnOk, option_map};
ghost use Rattle.gate_config.specs.Shown as spec;

use crate::file::{BlocksConfig, Contact, FaceConfig, GateFile, GatewayConfig};
use crate::keys::{Key, Section};
use crate::output::{push_count, push_text, push_value};
use endpoint::Octets;
use std::alloc::{AllocError, Global};

/// What a file means, as a file that says all of it: each key in the order of the keys, the
/// defaults too, but no key that stands for nothing, and no number of a first session that isn't
/// set. Memory is wanted for the text.
pub fn show(alloc: Global, file: &GateFile) -> Result<Octets, AllocError>
    ensures { IfOk result (λ text. text ≡ spec.shown file.now) }
{
    let mut text = Vec::new(alloc);
    push_file(alloc, &mut text, file)?;
    Ok(Octets::from_vec(text))
}

#[tactic(auto, unfolding(crate::specs::Shown::shown))]
fn push_file(alloc: Global, text: &mut Vec<u8>, file: &GateFile) -> Result<(), AllocError>
    ensures { OnOk result (text.new.items ≡ text.old.items ++ spec.shown file.now) }
{
    push_gateway(alloc, text, &file.gateway)?;
    push_face(text, Section::Old, &file.old, None)?;
    push_face(text, Section::New, &file.new, Some(file.blocks))
}

#[tactic(auto, unfolding(crate::specs::Shown::gateway_shown))]
fn push_gateway(
    alloc: Global,
    text: &mut Vec<u8>,
    gateway: &GatewayConfig,
) -> Result<(), AllocError>
    ensures { OnOk result (text.new.items ≡ text.old.items ++ spec.gateway_shown gateway.now) }
{
    text.extend_from_slice(b"[gateway]\n")?;
    let endpoint = gateway.endpoint.to_text(alloc)?;
    push_text(text, Key::Endpoint, endpoint.as_slice())?;
    push_count(text, Key::Cut, gateway.cut)?;
    push_text(text, Key::Age, gateway.age.word().as_bytes())?;
    push_text_if(text, Key::Journal, &gateway.journal)?;
    push_text_if(text, Key::Metrics, &gateway.metrics)
}

fn push_text_if(text: &mut Vec<u8>, key: Key, octets: &Option<Octets>) -> Result<(), AllocError>
    ensures { OnOk result (text.new.items ≡ text.old.items ++ spec.text_if key octets.now) }
{
    match octets {
        Some(octets) => push_text(text, key, octets.as_slice()),
        None => Ok(()),
    }
}

fn push_count_if(text: &mut Vec<u8>, key: Key, number: Option<u64>) -> Result<(), AllocError>
    ensures { OnOk result (text.new.items ≡ text.old.items ++ spec.number_if key number) }
{
    match number {
        Some(number) => push_count(text, key, number),
        None => Ok(()),
    }
}

#[tactic(auto, unfolding(crate::specs::Shown::face_shown))]
fn push_face(
    text: &mut Vec<u8>,
    face: Section,
    config: &FaceConfig,
    blocks: Option<BlocksConfig>,
) -> Result<(), AllocError>
    ensures { OnOk result (text.new.items
        ≡ text.old.items ++ spec.face_shown face config.now blocks) }
{
    push_header(text, face)?;
    push_text(text, Key::Bind, config.bind.as_slice())?;
    push_text(text, Key::Peer, config.peer.as_slice())?;
    push_settings(text, config, blocks)?;
    push_contacts(text, face, config.contacts.as_slice())
}

#[tactic(auto, unfolding(crate::specs::Shown::face_header))]
fn push_header(text: &mut Vec<u8>, face: Section) -> Result<(), AllocError>
    ensures { OnOk result (text.new.items ≡ text.old.items ++ spec.face_header face) }
{
    text.extend_from_slice(b"\n[")?;
    text.extend_from_slice(face.key().name().as_bytes())?;
    text.extend_from_slice(b"]\n")
}

#[tactic(auto, unfolding(crate::specs::Shown::settings_shown))]
fn push_settings(
    text: &mut Vec<u8>,
    config: &FaceConfig,
    blocks: Option<BlocksConfig>,
) -> Result<(), AllocError>
    ensures { OnOk result (text.new.items ≡ text.old.items ++ spec.settings_shown config.now blocks) }
{
    push_timers(text, config)?;
    push_rates(text, config)?;
    push_bounds(text, config)?;
    push_blocks_if(text, blocks)
}

#[tactic(auto, unfolding(crate::specs::Shown::timers_shown))]
fn push_timers(text: &mut Vec<u8>, config: &FaceConfig) -> Result<(), AllocError>
    ensures { OnOk result (text.new.items ≡ text.old.items ++ spec.timers_shown config.now) }
{
    push_count(text, Key::Engine, config.engine)?;
    push_count(text, Key::PeerEngine, config.peer_engine)?;
    push_count(text, Key::Segment, config.segment)?;
    push_count(text, Key::TimeoutMs, config.timeout_ms)?;
    push_count(text, Key::Limit, config.limit)?;
    push_count(text, Key::CapMs, config.cap_ms)
}

#[tactic(auto, unfolding(crate::specs::Shown::rates_shown))]
fn push_rates(text: &mut Vec<u8>, config: &FaceConfig) -> Result<(), AllocError>
    ensures { OnOk result (text.new.items ≡ text.old.items ++ spec.rates_shown config.now) }
{
    push_count_if(text, Key::FirstSession, config.first_session)?;
    push_count_if(text, Key::Rate, config.rate)?;
    push_count(text, Key::Outbox, config.outbox)?;
    push_text(text, Key::Accept, config.accept.word().as_bytes())
}

#[tactic(auto, unfolding(crate::specs::Shown::bounds_shown))]
fn push_bounds(text: &mut Vec<u8>, config: &FaceConfig) -> Result<(), AllocError>
    ensures { OnOk result (text.new.items ≡ text.old.items ++ spec.bounds_shown config.now) }
{
    push_count(text, Key::Sessions, config.sessions)?;
    push_count(text, Key::Memory, config.memory)?;
    push_count(text, Key::Aggregate, config.aggregate)?;
    push_count(text, Key::AggregateMs, config.aggregate_ms)?;
    push_count(text, Key::Remember, config.remember)?;
    push_count(text, Key::RememberMs, config.remember_ms)
}

fn push_blocks_if(text: &mut Vec<u8>, blocks: Option<BlocksConfig>) -> Result<(), AllocError>
    ensures { OnOk result (text.new.items ≡ text.old.items ++ spec.blocks_if blocks) }
{
    match blocks {
        Some(blocks) => push_blocks(text, blocks),
        None => Ok(()),
    }
}

#[tactic(auto, unfolding(crate::specs::Shown::blocks_shown))]
fn push_blocks(text: &mut Vec<u8>, blocks: BlocksConfig) -> Result<(), AllocError>
    ensures { OnOk result (text.new.items ≡ text.old.items ++ spec.blocks_shown blocks) }
{
    push_count(text, Key::ResidueBlock, blocks.residue_block)?;
    push_count(text, Key::WrapBlock, blocks.wrap_block)?;
    push_text(
        text,
        Key::ForeignBlocks,
        blocks.foreign_blocks.word().as_bytes(),
    )
}

fn push_contacts(text: &mut Vec<u8>, face: Section, contacts: &[Contact]) -> Result<(), AllocError>
    ensures { OnOk result (text.new.items
        ≡ text.old.items ++ spec.contacts_shown face contacts.now) }
{
    'contacts: for contact in contacts {
        push_contact(text, face, *contact)?;
    }
    Ok(())
}

#[tactic(auto, unfolding(crate::specs::Shown::contact_shown))]
fn push_contact(text: &mut Vec<u8>, face: Section, contact: Contact) -> Result<(), AllocError>
    ensures { OnOk result (text.new.items ≡ text.old.items ++ spec.contact_shown face contact) }
{
    push_contact_header(text, face)?;
    push_value(text, Key::From, &moment_text::spell(contact.from))?;
    push_value(text, Key::To, &moment_text::spell(contact.to))?;
    push_count_if(text, Key::Rate, contact.rate)
}

#[tactic(auto, unfolding(crate::specs::Shown::contact_header))]
fn push_contact_header(text: &mut Vec<u8>, face: Section) -> Result<(), AllocError>
    ensures { OnOk result (text.new.items ≡ text.old.items ++ spec.contact_header face) }
{
    text.extend_from_slice(b"\n[[")?;
    text.extend_from_slice(face.key().name().as_bytes())?;
    text.extend_from_slice(b".contact]]\n")
}
