//! `cut` of a bundle.

ghost use Rattle.std.specs.Prelude.{◌≡◌, ◌<◌, None, IfOk, OnErr};
ghost use Rattle.bundle6.specs.Legal.{IsLegal};
ghost use Rattle.bundle7.specs.Legal.{IsLegal7};
ghost use Rattle.translate.specs.Refusals.{first_that_holds};
ghost use Rattle.translate.specs.Reading6.{refusals6};
ghost use Rattle.translate.specs.Reading7.{refusals7};
ghost use Rattle.fragment_lines.specs.Lines.{octets_old, octets_new, Owes};
ghost use Rattle.fragment_lines.specs.Cut.{cut6, cut7, cut_as};
ghost use Rattle.fragment_lines.specs.Writable.{HasRoom6, HasRoom7};

use crate::reading::{read6, read7};
use crate::telling::Telling;
use crate::turned_down::TurnedDown;
use bundle_meaning::Full;
use bundle6::Bundle6;
use bundle7::Bundle7;
use fragments::Cutter;
use std::alloc::{AllocError, Global};

/// The pieces of a version 6 bundle, a line each: version 6 bundles with so many octets of its payload,
/// the last with those that are left. A payload of no more octets isn't cut, and the one line is the
/// bundle's normal form. Or it says why the bundle is turned down, before any piece is made.
///
/// The bundle is let go once its record is read.
pub fn cut6(
    alloc: Global,
    bundle: Bundle6,
    size: u64,
) -> Result<Result<Telling, TurnedDown>, AllocError>
    requires some { 0 < size }
    requires legal { IsLegal bundle }
    ensures said { IfOk result (Owes (cut6 size bundle) tt) }

    // Memory is wanted only where the bundle reads as a record.
    ensures memory { OnErr result (first_that_holds (refusals6 bundle) ≡ None) }
{
    match read6(alloc, bundle)? {
        Ok(full) => Ok(lines6(full, size)),
        Err(cause) => Ok(Err(TurnedDown::Untranslated(cause))),
    }
}

/// The pieces of a version 7 bundle in the same way, as version 7 bundles.
pub fn cut7(
    alloc: Global,
    bundle: Bundle7,
    size: u64,
) -> Result<Result<Telling, TurnedDown>, AllocError>
    requires some { 0 < size }
    requires legal { IsLegal7 bundle }
    ensures said { IfOk result (Owes (cut7 size bundle) tt) }

    // Memory is wanted only where the bundle reads as a record.
    ensures memory { OnErr result (first_that_holds (refusals7 bundle) ≡ None) }
{
    match read7(alloc, bundle)? {
        Ok(full) => Ok(lines7(full, size)),
        Err(cause) => Ok(Err(TurnedDown::Untranslated(cause))),
    }
}

/// The lines of a record's pieces as version 6 bundles. No memory is wanted yet.
fn lines6(full: Full, size: u64) -> Result<Telling, TurnedDown>
    requires some { 0 < size }
    requires room { HasRoom6 full }
    ensures { Owes (cut_as octets_old size full) tt result }
{
    match Cutter::new(full, size) {
        Some(cutter) => Ok(Telling::pieces6(cutter)),
        None => Err(TurnedDown::MustNot),
    }
}

/// The lines of a record's pieces as version 7 bundles. No memory is wanted yet.
fn lines7(full: Full, size: u64) -> Result<Telling, TurnedDown>
    requires some { 0 < size }
    requires room { HasRoom7 full }
    ensures { Owes (cut_as octets_new size full) tt result }
{
    match Cutter::new(full, size) {
        Some(cutter) => Ok(Telling::pieces7(cutter)),
        None => Err(TurnedDown::MustNot),
    }
}
