//! Endpoints by their texts.
ghost use Rattle.std.specs.Prelude.{◌≡◌, ◌++◌, codes, false, IfOk, OnOk};
ghost use Rattle.std.specs.List.{All, position};
ghost use Rattle.std.specs.Option.{option_map};
ghost use Rattle.std.specs.String.{string_bytes};
ghost use Rattle.bundle6.specs.Names.{is_nul, text_at, numbered};
ghost use Rattle.endpoint.specs.Endpoints.{IsEndpoint, text_of};
ghost use Rattle.bundle_json.specs.Json.{name};
ghost use Rattle.bundle_json.specs.Commas.{with_commas};
ghost use Rattle.bundle_json.specs.Frames.{said};
ghost use Rattle.bundle_json.specs.Laid.{Names, AreVisible, pair_of};

use crate::list::Shown;
use crate::shown::write_name;
use crate::walk::Pair;
use endpoint::{Endpoint, Refs};
use std::alloc::{AllocError, Global};
use std::str;

impl Shown for Endpoint {
    ghost json = { name };

    ghost HasText = { IsEndpoint };

    fn show(&self, text: &mut String) -> Result<(), AllocError> {
        let name = name_of(*text.allocator(), self)?;
        write_name(text, &name)
    }
}

/// Writes the items of an array of names, with commas between them.
pub(crate) fn write_names(text: &mut String, refs: &Refs) -> Result<(), AllocError>
    requires { All IsEndpoint refs.now }
    ensures { OnOk result (string_bytes text.new ≡ string_bytes text.old ++ with_commas name false refs.now) }
{
    let mut comma = "";
    'names: for at in 0..refs.len() {
        text.push_str(comma)?;
        let endpoint = refs.get(at).owned(*text.allocator())?;
        endpoint.show(text)?;
        comma = ",";
    }
    Ok(())
}

/// An endpoint's text. That of two numbers is spelled where it is sent, and takes no memory.
#[derive(Drop)]
pub(crate) enum Spelled {
    Null,
    Ipn { node: u64, service: u64 },
    Text(String),
}

/// An endpoint's text.
pub(crate) fn name_of(alloc: Global, endpoint: &Endpoint) -> Result<Spelled, AllocError>
    requires { IsEndpoint endpoint.now }
    ensures { IfOk result (λ name. said name ≡ text_of endpoint.now) }
{
    match endpoint {
        Endpoint::Null => Ok(Spelled::Null),
        Endpoint::Ipn { node, service } => Ok(Spelled::Ipn {
            node: *node,
            service: *service,
        }),
        Endpoint::Dtn(ssp) => joined(alloc, b"dtn", ssp.as_slice()),
    }
}

/// The text of the endpoint that two numbers name; another where they name none.
pub(crate) fn named(alloc: Global, dictionary: &[u8], pair: Pair) -> Result<Spelled, AllocError>
    ensures { (endpoint : Endpoint) → Names dictionary.now pair endpoint
        → IfOk result (λ name. said name ≡ text_of endpoint) }
{
    if dictionary.is_empty() {
        return name_of(alloc, &numbered(pair));
    }
    match text_in(dictionary, pair.scheme) {
        Some(scheme) => match text_in(dictionary, pair.ssp) {
            Some(ssp) => joined(alloc, scheme, ssp),
            None => Ok(Spelled::Null),
        },
        None => Ok(Spelled::Null),
    }
}

/// The endpoint of two numbers, without a dictionary.
fn numbered(pair: Pair) -> Endpoint
    ensures is { result ≡ numbered (pair_of pair) }
    ensures legal { IsEndpoint result }
{
    match (pair.scheme, pair.ssp) {
        (0, 0) => Endpoint::Null,
        (node, service) => Endpoint::Ipn { node, service },
    }
}

/// A scheme and a scheme-specific part of visible octets, with the colon between them.
fn joined(alloc: Global, scheme: &[u8], ssp: &[u8]) -> Result<Spelled, AllocError>
    ensures { AreVisible scheme.now → AreVisible ssp.now
        → IfOk result (λ name. said name ≡ scheme.now ++ (codes ":" ++ ssp.now)) }
{
    let room = scheme.len().saturating_add(ssp.len()).saturating_add(1);
    let mut name = String::with_capacity(alloc, room)?;
    name.push_str(visible(scheme))?;
    name.push_str(":")?;
    name.push_str(visible(ssp))?;
    Ok(Spelled::Text(name))
}

/// Visible octets as text.
fn visible(octets: &[u8]) -> &str
    ensures { AreVisible octets.now → result.now ≡ octets.now }
{
    match str::from_utf8(octets) {
        Ok(text) => text,
        Err(_) => "",
    }
}

#[tactic(auto, unfolding(bundle6::specs::Names::text_at, bundle6::specs::Names::up_to_nul))]
/// The text of the dictionary at an offset, up to the next NUL.
fn text_in(dictionary: &[u8], offset: u64) -> Option<&[u8]>
    ensures { option_map (λ lent. lent.now) result ≡ text_at dictionary.now offset }
{
    if dictionary.len() as u64 <= offset {
        return None;
    }
    let (_, rest) = dictionary.split_at(offset as usize);
    match nul_in(rest) {
        Some(end) => Some(&rest[..end]),
        None => None,
    }
}

/// The place of the first NUL.
fn nul_in(text: &[u8]) -> Option<usize>
    ensures { result ≡ position is_nul text.now }
{
    text.iter().position(|octet| *octet == 0)
}
