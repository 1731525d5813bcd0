//! The octets of a record's bundle on the wire of a face.

ghost use Rattle.std.specs.Prelude.{◌≡◌, ◌<◌, ◌^◌, true, length, IfOk};
ghost use Rattle.translate.specs.Sound.{IsSound};
ghost use Rattle.gate_cases.specs.Faces.{fits_at};
ghost use Rattle.peer_cases.specs.Pieces.{wire_octets, greatest_size};

use crate::settings::PeerSettings;
use block_types::{relabel6, relabel7};
use bundle_age::{has_age, raised};
use bundle_meaning::Full;
use bundle6::encode6;
use bundle7::encode7;
use endpoint::Octets;
use gate_cases::Face;
use std::alloc::{AllocError, Global};
use translate::{sized6, view6, view6_is_legal, view7};

/// The octets of the bundle that stands for a record, in the version of the face, with the types of the
/// wire.
pub fn wire_octets(
    alloc: Global,
    settings: PeerSettings,
    to: Face,
    full: &Full,
) -> Result<Octets, AllocError>
    requires sound { IsSound full.now }
    requires fits { fits_at to full.now ≡ true }
    ensures { IfOk result (λ octets. octets ≡ wire_octets settings to full.now) }
{
    match to {
        Face::Old => octets_old(alloc, settings, full),
        Face::New => octets_new(alloc, settings, full),
    }
}

/// The octets of its version 6 bundle.
#[tactic(auto, unfolding(crate::specs::Pieces::wire_octets))]
fn octets_old(alloc: Global, settings: PeerSettings, full: &Full) -> Result<Octets, AllocError>
    requires sound { IsSound full.now }
    requires fits { fits_at Face.Old full.now ≡ true }
    ensures { IfOk result (λ octets. octets ≡ wire_octets settings Face.Old full.now) }
{
    match view6(alloc, full) {
        Ok(bundle) => {
            sized6(bundle.blocks.as_slice());
            view6_is_legal();
            encode6(alloc, &relabel6(alloc, settings.types, bundle))
        }
        Err(_) => Err(AllocError),
    }
}

/// The octets of its version 7 bundle.
#[tactic(auto, unfolding(crate::specs::Pieces::wire_octets))]
fn octets_new(alloc: Global, settings: PeerSettings, full: &Full) -> Result<Octets, AllocError>
    requires sound { IsSound full.now }
    requires fits { fits_at Face.New full.now ≡ true }
    ensures { IfOk result (λ octets. octets ≡ wire_octets settings Face.New full.now) }
{
    match view7(alloc, full) {
        Ok(bundle) => encode7(alloc, &relabel7(settings.types, bundle)),
        Err(_) => Err(AllocError),
    }
}

/// How many octets a record's bundle may have when it goes, where it has so many now. Memory is wanted only
/// where an age is raised.
pub(crate) fn greatest_size(
    alloc: Global,
    settings: PeerSettings,
    to: Face,
    full: Full,
    size: usize,
) -> Result<u64, AllocError>
    requires sound { IsSound full }
    requires fits { fits_at to full ≡ true }
    requires size { size ≡ length (wire_octets settings to full) }
    ensures { IfOk result (λ greatest. greatest ≡ greatest_size settings to full) }
{
    if !settings.raises || !has_age(&full) {
        return Ok(size as u64);
    }
    let oldest = raised(alloc, full, u64::MAX)?;
    Ok(wire_octets(alloc, settings, to, &oldest)?.len() as u64)
}
