//! The record that a bundle stands for.

ghost use Rattle.std.specs.Prelude.{◌≡◌, None, IfOk, OnErr};
ghost use Rattle.bundle6.specs.Legal.{IsLegal};
ghost use Rattle.bundle7.specs.Legal.{IsLegal7};
ghost use Rattle.translate.specs.Refusals.{first_that_holds};
ghost use Rattle.translate.specs.Reading6.{refusals6, full6_of};
ghost use Rattle.translate.specs.Reading7.{refusals7, full7_of};
ghost use Rattle.translate.specs.Sound.{IsSound};
ghost use Rattle.gate_cases.specs.Sending.{Reads};

use bundle_meaning::Full;
use bundle6::Bundle6;
use bundle7::Bundle7;
use std::alloc::{AllocError, Global};
use translate::{Refused, from6, from7};

/// The record of a version 6 bundle, or why it isn't translated. Memory is wanted only where it is.
pub fn read6(alloc: Global, bundle: &Bundle6) -> Result<Result<Full, Refused>, AllocError>
    requires { IsLegal bundle.now }
    ensures exact { IfOk result (Reads (first_that_holds (refusals6 bundle.now)) (full6_of bundle.now)) }
    ensures memory { OnErr result (first_that_holds (refusals6 bundle.now) ≡ None) }
    ensures sound { IfOk result (λ read. IfOk read IsSound) }
{
    match from6(alloc, bundle) {
        Ok(full) => Ok(Ok(full)),
        Err(Refused::Memory) => Err(AllocError),
        Err(cause) => Ok(Err(cause)),
    }
}

/// The record of a version 7 bundle, or why it isn't translated. Memory is wanted only where it is.
pub fn read7(alloc: Global, bundle: &Bundle7) -> Result<Result<Full, Refused>, AllocError>
    requires { IsLegal7 bundle.now }
    ensures exact { IfOk result (Reads (first_that_holds (refusals7 bundle.now)) (full7_of bundle.now)) }
    ensures memory { OnErr result (first_that_holds (refusals7 bundle.now) ≡ None) }
    ensures sound { IfOk result (λ read. IfOk read IsSound) }
{
    match from7(alloc, bundle) {
        Ok(full) => Ok(Ok(full)),
        Err(Refused::Memory) => Err(AllocError),
        Err(cause) => Ok(Err(cause)),
    }
}
