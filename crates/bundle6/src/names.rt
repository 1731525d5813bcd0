//! Names, as two numbers each.

ghost use Rattle.std.specs.Prelude.{◌≡◌, ◌≤◌, ℕ, List, length, option_map, IfOk};
ghost use Rattle.endpoint.specs.Places.{endpoint_at};
ghost use Rattle.std.specs.List.{position, list_all};
ghost use Rattle.endpoint.specs.Endpoints.{is_ssp, is_visible};
ghost use Rattle.wire_fields.specs.Reading.{read};
ghost use Rattle.wire_fields.specs.Gives.{Gives, IsOn};
ghost use Rattle.bundle6.specs.Cause.{refusal, refused_at, fault_named};
ghost use Rattle.endpoint.specs.Lent.{endpoint_of};
ghost use Rattle.bundle6.specs.Names.{is_nul, Shows, text_at, numbered, place_named, resolve, Resolves, ResolvesAll};
ghost use Rattle.bundle6.specs.Table.{offsets, four_names, dictionary};

use crate::fault::{Cause6, Fail6, Refused6};
use crate::fields::{number, octets};
use endpoint::{Endpoint, Name, Place, lend_named};
use memchr::memchr;
use std::alloc::{AllocError, Global};

/// A name: two offsets into the dictionary, or where that is empty the numbers of node and service.
#[derive(Clone, Copy)]
pub(crate) struct Offsets {
    /// The place of the scheme's name.
    pub(crate) scheme: u64,
    /// The place of the scheme-specific part.
    pub(crate) ssp: u64,
}

/// The four names of a primary block, unresolved.
#[derive(Clone, Copy)]
pub(crate) struct Pairs {
    pub(crate) destination: Offsets,
    pub(crate) source: Offsets,
    pub(crate) report_to: Offsets,
    pub(crate) custodian: Offsets,
}

/// The four names of a primary block.
#[derive(Drop)]
pub(crate) struct Named {
    pub(crate) destination: Endpoint,
    pub(crate) source: Endpoint,
    pub(crate) report_to: Endpoint,
    pub(crate) custodian: Endpoint,
}

/// Why two numbers name no endpoint.
#[derive(Clone, Copy)]
pub(crate) enum Unresolved {
    /// The dictionary has no name there.
    Unknown,
    /// Memory ran out.
    Memory,
}

impl Unresolved {
    /// The fault of the field at a place whose numbers name no endpoint.
    pub(crate) fn refused(self, at: usize, cause: Cause6) -> Fail6
        ensures { result ≡ fault_named self at cause }
    {
        match self {
            Unresolved::Unknown => Fail6::Refused { at, cause },
            Unresolved::Memory => Fail6::Memory,
        }
    }
}

impl From<AllocError> for Unresolved {
    ghost use Rattle.std.specs.Prelude.{◌≡◌};
    ghost use Rattle.bundle6.specs.declared.names.Unresolved.{Unresolved};
    ghost use Rattle.bundle6.specs.declared.names.Unresolved.TheVariants as reasons;

    ghost from_gives = { λ _ reason. reason ≡ reasons.Memory };

    fn from(_: AllocError) -> Unresolved {
        Unresolved::Memory
    }
}

/// The most octets of a text that can name something; a scheme or a scheme-specific part that is
/// longer names nothing.
const LONGEST_TEXT: usize = 1023;

/// Two numbers.
#[inline(always)]
#[tactic(auto, unfolding(crate::specs::Table::offsets))]
pub(crate) fn offsets_at(text: &[u8], at: usize) -> Result<(Offsets, usize), Refused6>
    requires { at ≤ length text.now }
    ensures within { IfOk result (λ x. IsOn at text.now x.1) }
    ensures exact { Gives (λ pair. pair) refused_at result (read offsets text.now at) }
{
    let (scheme, at) = number(text, at)?;
    let (ssp, at) = number(text, at)?;
    Ok((Offsets { scheme, ssp }, at))
}

/// Destination, source, report-to and custodian.
#[inline(always)]
#[tactic(auto, unfolding(crate::specs::Table::four_names))]
pub(crate) fn four_names_at(text: &[u8], at: usize) -> Result<(Pairs, usize), Refused6>
    requires { at ≤ length text.now }
    ensures within { IfOk result (λ x. IsOn at text.now x.1) }
    ensures exact { Gives (λ pairs. pairs) refused_at result (read four_names text.now at) }
{
    let (destination, at) = offsets_at(text, at)?;
    let (source, at) = offsets_at(text, at)?;
    let (report_to, at) = offsets_at(text, at)?;
    let (custodian, at) = offsets_at(text, at)?;
    let pairs = Pairs {
        destination,
        source,
        report_to,
        custodian,
    };
    Ok((pairs, at))
}

/// How many octets most texts have at most.
const SHORT: usize = 16;

/// The place of the first NUL. Of a text that isn't short the octets are looked at many at a time.
#[inline(always)]
fn nul_in(text: &[u8]) -> Option<usize>
    ensures { result ≡ position is_nul text.now }
{
    match near_nul(&text[..text.len().min(SHORT)]) {
        Some(end) => Some(end),
        None => far_nul(text),
    }
}

/// The same, many octets at a time.
#[inline(never)]
fn far_nul(text: &[u8]) -> Option<usize>
    ensures { result ≡ position is_nul text.now }
{
    memchr(0, text)
}

/// The same, octet by octet.
#[inline(always)]
fn near_nul(text: &[u8]) -> Option<usize>
    ensures { result ≡ position is_nul text.now }
{
    text.iter().position(|octet| *octet == 0)
}

/// The text of the dictionary at an offset, up to the next NUL. The NUL of a text that is too long to
/// name something isn't looked for.
pub(crate) fn text_in(dictionary: &[u8], offset: u64) -> Option<&[u8]>
    ensures { Shows result (text_at dictionary.now offset) }
{
    if dictionary.len() as u64 <= offset {
        return None;
    }
    let (_, rest) = dictionary.split_at(offset as usize);
    let near = &rest[..rest.len().min(LONGEST_TEXT + 1)];
    match nul_in(near) {
        Some(end) => Some(&near[..end]),
        None => None,
    }
}

/// Whether a dtn name may have this scheme-specific part, as [`endpoint::is_ssp`] has it. A bundle may
/// refer to a long one again and again, so its octets are looked at many at a time.
#[tactic(auto, unfolding(endpoint::specs::Endpoints::is_ssp))]
pub(crate) fn is_ssp(ssp: &[u8]) -> bool
    ensures { result ≡ is_ssp ssp.now }
{
    !ssp.is_empty() && ssp.len() <= LONGEST_TEXT && are_visible(ssp) && ssp != b"none".as_slice()
}

/// Whether each octet is one from `!` to `~`. It doesn't end with the first that is none, so that many
/// are looked at in one step of the processor.
fn are_visible(octets: &[u8]) -> bool
    ensures { result ≡ list_all is_visible octets.now }
{
    let mut all = true;
    'looking: for octet in octets {
        all = is_visible(*octet) & all;
    }
    all
}

/// Whether an octet is one from `!` to `~`.
#[inline(always)]
fn is_visible(octet: u8) -> bool
    ensures { result ≡ is_visible octet }
{
    (33 <= octet) & (octet <= 126)
}

/// The place in the dictionary of the endpoint that two numbers name, if they name one. It takes no
/// memory.
#[tactic(auto, unfolding(crate::specs::Names::resolve))]
pub(crate) fn place_in(dictionary: &[u8], pair: Offsets) -> Option<Place>
    ensures { option_map (endpoint_at dictionary.now) result ≡ resolve dictionary.now pair }
{
    if dictionary.is_empty() {
        return Some(place_numbered(pair));
    }
    let scheme = text_in(dictionary, pair.scheme)?;
    let ssp = text_in(dictionary, pair.ssp)?;
    let name = lend_named(scheme, ssp)?;
    Some(place_named(name, pair.ssp as usize, ssp.len()))
}

/// The place of an endpoint whose scheme-specific part has so many octets from there on.
fn place_named(name: Name<'_>, from: usize, size: usize) -> Place
    ensures { result ≡ place_named (endpoint_of name.entry) from size }
{
    match name {
        Name::Null => Place::Null,
        Name::Ipn { .. } => Place::Written { from, size },
        Name::Dtn(_) => Place::Dtn { from, size },
    }
}

/// The place of the endpoint of two numbers, without a dictionary.
fn place_numbered(pair: Offsets) -> Place
    ensures { (texts : List ℕ) → endpoint_at texts result ≡ numbered pair }
{
    match (pair.scheme, pair.ssp) {
        (0, 0) => Place::Null,
        (node, service) => Place::Ipn { node, service },
    }
}

/// The endpoint that two numbers name.
fn resolve(alloc: Global, dictionary: &[u8], pair: Offsets) -> Result<Endpoint, Unresolved>
    ensures { Resolves dictionary.now pair result }
{
    match place_in(dictionary, pair) {
        Some(place) => Ok(place.name(dictionary).owned(alloc)?),
        None => Err(Unresolved::Unknown),
    }
}

/// The four endpoints.
fn four_named(alloc: Global, dictionary: &[u8], pairs: Pairs) -> Result<Named, Unresolved>
    ensures { ResolvesAll dictionary.now pairs result }
{
    let destination = resolve(alloc, dictionary, pairs.destination)?;
    let source = resolve(alloc, dictionary, pairs.source)?;
    let report_to = resolve(alloc, dictionary, pairs.report_to)?;
    let custodian = resolve(alloc, dictionary, pairs.custodian)?;
    Ok(Named {
        destination,
        source,
        report_to,
        custodian,
    })
}

/// The dictionary, and the four endpoints that it names.
#[tactic(auto, unfolding(crate::specs::Table::dictionary))]
pub(crate) fn dictionary_at(
    alloc: Global,
    text: &[u8],
    at: usize,
    pairs: Pairs,
) -> Result<((Named, &[u8]), usize), Fail6>
    requires { at ≤ length text.now }
    ensures within { IfOk result (λ x. IsOn at text.now x.1) }
    ensures exact { Gives (λ found. (found.0, found.1.now)) refusal result
        (read (dictionary pairs) text.now at) }
{
    let (size, at) = number(text, at)?;
    let (dictionary, after) = octets(text, at, size)?;
    match four_named(alloc, dictionary, pairs) {
        Ok(names) => Ok(((names, dictionary), after)),
        Err(unresolved) => Err(unresolved.refused(at, Cause6::Names)),
    }
}
