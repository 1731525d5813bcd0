//! The octets of a piece after a stay.

ghost use Rattle.std.specs.Prelude.{◌≡◌, true, false, Some, if◌then◌else◌, IfOk};
ghost use Rattle.wire_fields.specs.Reading.{IsOctets};
ghost use Rattle.bundle6.specs.Legal.{IsLegal};
ghost use Rattle.bundle7.specs.Legal.{IsLegal7};
ghost use Rattle.translate.specs.Sound.{IsSound};
ghost use Rattle.gate_cases.specs.Blocks.{arrival6, arrival7};
ghost use Rattle.gate_cases.specs.Faces.{fits_at};
ghost use Rattle.bundle_age.specs.Raised.{raised_by, has_age};
ghost use Rattle.peer_cases.specs.Arrivals.{came_as};
ghost use Rattle.peer_cases.specs.Pieces.{wire_octets};
ghost use Rattle.peer_cases.specs.Rows.{came_in};
ghost use Rattle.peer_gateway.specs.Going.{raised_octets, stayed_octets, stayed_size};

use block_types::{relabel6, relabel7};
use bundle_age::{has_age, raised};
use bundle_meaning::Full;
use bundle6::{Bundle6, Fail6, decode6};
use bundle7::{Bundle7, Fail7, decode7};
use endpoint::Octets;
use gate_cases::{Face, read6, read7};
use peer_cases::{PeerSettings, wire_octets};
use std::alloc::{AllocError, Global};

/// The octets of a piece that goes at a face after a stay of so many milliseconds: with its age raised, where
/// ages are raised and it reads as a bundle that has one. Else they are those that it has, moved and not
/// copied, and memory is wanted only to read them.
pub fn stayed(
    alloc: Global,
    settings: PeerSettings,
    face: Face,
    octets: Octets,
    stay: u64,
) -> Result<Octets, AllocError>
    ensures { IfOk result (λ out. out ≡ stayed_octets settings face stay octets) }
{
    if !settings.raises {
        return Ok(octets);
    }
    match face {
        Face::Old => stayed_old(alloc, settings, octets, stay),
        Face::New => stayed_new(alloc, settings, octets, stay),
    }
}

/// The same at the old face, where ages are raised.
fn stayed_old(
    alloc: Global,
    settings: PeerSettings,
    octets: Octets,
    stay: u64,
) -> Result<Octets, AllocError>
    ensures { IfOk result (λ out. out
        ≡ raised_octets settings Face.Old stay octets (came_in settings Face.Old octets)) }
{
    match decode6(alloc, octets.as_slice()) {
        Ok((bundle, _)) => {
            let bundle = relabel6(alloc, settings.types, bundle);
            raised6(alloc, settings, &bundle, octets, stay)
        }
        Err(Fail6::Memory) => Err(AllocError),
        Err(Fail6::Refused { .. }) => Ok(octets),
    }
}

/// The same at the new face, where ages are raised.
fn stayed_new(
    alloc: Global,
    settings: PeerSettings,
    octets: Octets,
    stay: u64,
) -> Result<Octets, AllocError>
    ensures { IfOk result (λ out. out
        ≡ raised_octets settings Face.New stay octets (came_in settings Face.New octets)) }
{
    match decode7(alloc, octets.as_slice()) {
        Ok((bundle, _)) => {
            let bundle = relabel7(settings.types, bundle);
            raised7(alloc, settings, &bundle, octets, stay)
        }
        Err(Fail7::Memory) => Err(AllocError),
        Err(Fail7::Refused { .. }) => Ok(octets),
    }
}

/// The octets of a piece that reads as a version 6 bundle with the gateway's own types.
fn raised6(
    alloc: Global,
    settings: PeerSettings,
    bundle: &Bundle6,
    octets: Octets,
    stay: u64,
) -> Result<Octets, AllocError>
    requires legal { IsLegal bundle.now }
    ensures { IfOk result (λ out. out
        ≡ raised_octets settings Face.Old stay octets (Some (came_as settings.bare (arrival6 bundle.now)))) }
{
    match read6(alloc, bundle)? {
        Ok(full) => raised_full(alloc, settings, Face::Old, full, octets, stay),
        Err(_) => Ok(octets),
    }
}

/// The octets of a piece that reads as a version 7 bundle with the gateway's own types.
fn raised7(
    alloc: Global,
    settings: PeerSettings,
    bundle: &Bundle7,
    octets: Octets,
    stay: u64,
) -> Result<Octets, AllocError>
    requires legal { IsLegal7 bundle.now }
    ensures { IfOk result (λ out. out
        ≡ raised_octets settings Face.New stay octets (Some (came_as false (arrival7 bundle.now)))) }
{
    match read7(alloc, bundle)? {
        Ok(full) => raised_full(alloc, settings, Face::New, full, octets, stay),
        Err(_) => Ok(octets),
    }
}

/// The octets of a piece that reads as a record.
fn raised_full(
    alloc: Global,
    settings: PeerSettings,
    face: Face,
    full: Full,
    octets: Octets,
    stay: u64,
) -> Result<Octets, AllocError>
    requires sound { IsSound full }
    requires fits { fits_at face full ≡ true }
    ensures { IfOk result (λ out. out
        ≡ (if has_age full then wire_octets settings face (raised_by stay full) else octets)) }
{
    if !has_age(&full) {
        return Ok(octets);
    }
    let full = raised(alloc, full, stay)?;
    wire_octets(alloc, settings, face, &full)
}

/// How many octets a piece has at a face after the longest stay that can be said.
pub(crate) fn stayed_size(
    alloc: Global,
    settings: PeerSettings,
    face: Face,
    octets: &Octets,
) -> Result<u64, AllocError>
    ensures { IfOk result (λ size. size ≡ stayed_size settings face octets.now) }
{
    if !settings.raises {
        return Ok(octets.len() as u64);
    }
    let longest = stayed(alloc, settings, face, octets.copy(alloc)?, u64::MAX)?;
    Ok(longest.len() as u64)
}

/// Says that octets are below 256.
pub(crate) fn are_octets(octets: &[u8])
    ensures { IsOctets octets.now }
{}
