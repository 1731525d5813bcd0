//! The fragment that a block is, where it is one.

ghost use Rattle.std.specs.Prelude.{◌≡◌, IfOk, IfSome};
ghost use Rattle.bundle6.specs.Legal.{IsLegal};
ghost use Rattle.bundle7.specs.Legal.{IsLegal7};
ghost use Rattle.translate.specs.Sound.{IsSound};
ghost use Rattle.gate_cases.specs.Blocks.{arrival6, arrival7, one, found_at};
ghost use Rattle.gate_cases.specs.Faces.{fits_at};
ghost use Rattle.path_laws.specs.Path.{fragment_found};
ghost use Rattle.path_world.specs.Ties.{IsTaken, fragment_for};

use bundle_meaning::Full;
use bundle6::{Bundle6, Fail6, decode6};
use bundle7::{Bundle7, Fail7, decode7};
use gate_cases::{Face, spelled};
use std::alloc::{AllocError, Global};
use translate::{Refused, from6, from7};

/// The record of a block that is exactly one bundle of a face's version, which can be translated
/// and is a fragment.
pub(crate) fn fragment_in(
    alloc: Global,
    face: Face,
    block: &[u8],
) -> Result<Option<Full>, AllocError>
    ensures exact { IfOk result (λ found.
        found ≡ fragment_found face (found_at face block.now)) }
    ensures taken { IfOk result (λ found. IfSome found (IsTaken face)) }
{
    match face {
        Face::Old => fragment_old(alloc, block),
        Face::New => fragment_new(alloc, block),
    }
}

/// The same at the old face.
fn fragment_old(alloc: Global, block: &[u8]) -> Result<Option<Full>, AllocError>
    ensures exact { IfOk result (λ found.
        found ≡ fragment_found Face.Old (found_at Face.Old block.now)) }
    ensures taken { IfOk result (λ found. IfSome found (IsTaken Face.Old)) }
{
    match decode6(alloc, block) {
        Ok((bundle, end)) if end == block.len() => read_old(alloc, &bundle),
        Ok(_) => Ok(None),
        Err(Fail6::Refused { .. }) => Ok(None),
        Err(Fail6::Memory) => Err(AllocError),
    }
}

/// The same at the new face.
fn fragment_new(alloc: Global, block: &[u8]) -> Result<Option<Full>, AllocError>
    ensures exact { IfOk result (λ found.
        found ≡ fragment_found Face.New (found_at Face.New block.now)) }
    ensures taken { IfOk result (λ found. IfSome found (IsTaken Face.New)) }
{
    match decode7(alloc, block) {
        Ok((bundle, end)) if end == block.len() => read_new(alloc, &bundle),
        Ok(_) => Ok(None),
        Err(Fail7::Refused { .. }) => Ok(None),
        Err(Fail7::Memory) => Err(AllocError),
    }
}

/// The record of a version 6 bundle that can be translated and is a fragment.
fn read_old(alloc: Global, bundle: &Bundle6) -> Result<Option<Full>, AllocError>
    requires { IsLegal bundle.now }
    ensures exact { IfOk result (λ found.
        found ≡ fragment_found Face.Old (one (arrival6 bundle.now))) }
    ensures taken { IfOk result (λ found. IfSome found (IsTaken Face.Old)) }
{
    match from6(alloc, bundle) {
        Ok(full) => fragment_of(alloc, Face::New, full),
        Err(Refused::Memory) => Err(AllocError),
        Err(_) => Ok(None),
    }
}

/// The record of a version 7 bundle that can be translated and is a fragment.
fn read_new(alloc: Global, bundle: &Bundle7) -> Result<Option<Full>, AllocError>
    requires { IsLegal7 bundle.now }
    ensures exact { IfOk result (λ found.
        found ≡ fragment_found Face.New (one (arrival7 bundle.now))) }
    ensures taken { IfOk result (λ found. IfSome found (IsTaken Face.New)) }
{
    match from7(alloc, bundle) {
        Ok(full) => fragment_of(alloc, Face::Old, full),
        Err(Refused::Memory) => Err(AllocError),
        Err(_) => Ok(None),
    }
}

/// The record, where it is a fragment and there is room for its blocks at the other face.
fn fragment_of(alloc: Global, to: Face, full: Full) -> Result<Option<Full>, AllocError>
    requires { IsSound full }
    ensures { IfOk result (λ found. found ≡ fragment_for to full) }
{
    if full.shared.fragment.is_some() && spelled(alloc, to, &full)?.is_some() {
        Ok(Some(full))
    } else {
        Ok(None)
    }
}
