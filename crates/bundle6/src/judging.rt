//! Judging octets: how far they spell a bundle, or where not. It takes no memory.

ghost use Rattle.std.specs.Prelude.{ℕ, ◌≡◌, ◌-◌, ◌≤◌, ◌<◌, ◌^◌, List, ◌++◌, length, take, Ok, IfOk, IfErr, IsErrAnd};
ghost use Rattle.wire_fields.specs.Refusal.{Stop};
ghost use Rattle.wire_fields.specs.Reading.{read, IsSettled};
ghost use Rattle.wire_fields.specs.Gives.{Judges};
ghost use Rattle.bundle6.specs.declared.bundle.Bundle6.{Bundle6};
ghost use Rattle.bundle6.specs.Cause.{why, stop_of};
ghost use Rattle.bundle6.specs.Table.{bundle};
ghost use Rattle.bundle6.specs.Legal.{Spells6, Refusal6};

use crate::fault::{Cause6, Refused6};
use crate::pass::Pass;
use crate::reading::MOST_OTHERS;

/// How many octets the bundle at the front of some octets takes. More may follow. It takes no memory,
/// whatever the octets say.
///
/// A refusal names the first octet of the first field that isn't there as it should be, and the cause.
pub fn judge6(bytes: &[u8]) -> Result<usize, Refused6>
    // So many octets spell a legal bundle.
    ensures found { IfOk result (λ k. (b : Bundle6)
        × (k ≤ length bytes.now) × Spells6 b (take k bytes.now)) }

    // What is spelled is found.
    ensures only { (b : Bundle6) (k : ℕ) → k ≤ length bytes.now → Spells6 b (take k bytes.now)
        → result ≡ Ok k }

    // What is refused has this refusal.
    ensures refused { IfErr result (λ e. Refusal6 bytes.now e.at (why e.cause)) }

    // What has a refusal is refused with it.
    ensures refuses { (at : ℕ) (reason : Stop Cause6) → Refusal6 bytes.now at reason
        → IsErrAnd result (λ e. (e.at ≡ at) × (why e.cause ≡ reason)) }

    // An end, or a refusal other than the end of the input, stays however the octets go on.
    ensures stays { (more : List ℕ) → IsSettled (read (bundle 64) bytes.now 0)
        → Judges stop_of result (read (bundle 64) (bytes.now ++ more) 0) }
    ensures exact { Judges stop_of result (read (bundle 64) bytes.now 0) }
{
    end_judged(bytes, MOST_OTHERS)
}

/// The end of the bundle, with at most so many blocks of another type than the payload.
pub(crate) fn end_judged(text: &[u8], most: u64) -> Result<usize, Refused6>
    requires { most < 2 ^ 64 - 1 }
    ensures { Judges stop_of result (read (bundle most) text.now 0) }
{
    match Pass::START.run(text, most) {
        (pass, None) => Ok(pass.at),
        (_, Some(refused)) => Err(refused),
    }
}
