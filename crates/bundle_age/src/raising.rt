//! Records whose age is raised.

ghost use Rattle.std.specs.Prelude.{◌≡◌, ◌==◌, ◌^◌, ◌<◌, true, map, if◌then◌else◌, IfOk, OnOk, OnErr};
ghost use Rattle.std.specs.List.{list_any};
ghost use Rattle.bundle7.specs.Body.{bundle_age};
ghost use Rattle.translate.specs.Sound.{IsSound};
ghost use Rattle.bundle_age.specs.Raised.{age_in, age_octets, age_after, octets_after, body_after, raised_block, raised_ext, raised_by, is_age, has_age};

use bundle_meaning::{Block7Like, Ext, Exts, Full};
use bundle7::age_of;
use cbor_lite::write_uint;
use endpoint::Octets;
use std::alloc::{AllocError, Global};
use std::mem;

/// The block type of a bundle age.
const BUNDLE_AGE: u64 = 7;

/// The record with its age raised by so many milliseconds, up to the greatest number; a record without an
/// age stays what it is. Memory is wanted only for the octets of an age.
#[tactic(auto, unfolding(crate::specs::Raised::raised_by))]
pub fn raised(alloc: Global, full: Full, stay: u64) -> Result<Full, AllocError>
    ensures exact { IfOk result (λ raised. raised ≡ raised_by stay full) }
    ensures sound { IsSound full → IfOk result IsSound }

    // Memory is wanted only where there is an age.
    ensures wanted { OnErr result (has_age full ≡ true) }
{
    if !has_age(&full) {
        return Ok(full);
    }
    let Full {
        shared,
        extra6,
        extra7,
        exts,
    } = full;
    Ok(Full {
        shared,
        extra6,
        extra7,
        exts: raised_exts(alloc, exts, stay)?,
    })
}

/// Whether a record has an age.
pub fn has_age(full: &Full) -> bool
    ensures { result ≡ has_age full.now }
{
    full.exts.as_slice().iter().any(|ext| is_age(ext))
}

/// Whether it is an age.
fn is_age(ext: &Ext) -> bool
    ensures { result ≡ is_age ext.now }
{
    match ext {
        Ext::Six(_) => false,
        Ext::Seven(block) => block.kind == BUNDLE_AGE,
    }
}

/// The extension blocks, with each age raised.
fn raised_exts(alloc: Global, exts: Exts, stay: u64) -> Result<Exts, AllocError>
    ensures { IfOk result (λ raised. raised ≡ map (raised_ext stay) exts) }
{
    let mut items = exts.into_vec();
    raise_all(alloc, &mut items, stay)?;
    Ok(Exts::from_vec(items))
}

/// Raises each age.
fn raise_all(alloc: Global, exts: &mut [Ext], stay: u64) -> Result<(), AllocError>
    ensures { OnOk result (exts.new ≡ map (raised_ext stay) exts.old) }
{
    'raising: for ext in exts.iter_mut() {
        raise(alloc, ext, stay)?;
    }
    Ok(())
}

/// Raises the age, if it is one.
fn raise(alloc: Global, ext: &mut Ext, stay: u64) -> Result<(), AllocError>
    ensures { OnOk result (ext.new ≡ raised_ext stay ext.old) }
{
    match ext {
        Ext::Six(_) => Ok(()),
        Ext::Seven(block) => raise_block(alloc, block, stay),
    }
}

/// Raises the age that a version 7 block is, if it is one.
fn raise_block(alloc: Global, block: &mut Block7Like, stay: u64) -> Result<(), AllocError>
    ensures { OnOk result (block.new ≡ raised_block stay block.old) }
{
    if block.kind == BUNDLE_AGE {
        let body = mem::replace(&mut block.body, Octets::new(alloc));
        block.body = octets_after(alloc, body, stay)?;
    }
    Ok(())
}

/// The octets of an age after a stay; octets that are none stay as they are.
fn octets_after(alloc: Global, octets: Octets, stay: u64) -> Result<Octets, AllocError>
    ensures { IfOk result (λ after. after ≡ octets_after stay (age_in octets) octets) }
{
    match age_in(octets.as_slice()) {
        None => Ok(octets),
        Some(age) => age_octets(alloc, age.saturating_add(stay)),
    }
}

/// The age that octets are.
fn age_in(octets: &[u8]) -> Option<u64>
    ensures { result ≡ age_in octets.now }
{
    age_of(octets)
}

/// The octets that an age is.
fn age_octets(alloc: Global, age: u64) -> Result<Octets, AllocError>
    ensures { IfOk result (λ octets. octets ≡ age_octets age) }
{
    let mut out = Vec::new(alloc);
    write_uint(age, &mut out)?;
    Ok(Octets::from_vec(out))
}
