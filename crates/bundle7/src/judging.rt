//! Judging octets: whether they spell a bundle, and where not. It takes no memory.

ghost use Rattle.std.specs.Prelude.{◌≡◌, ◌≤◌, [], ℕ, length, take, Ok, IfOk, IfErr, IsErrAnd};
ghost use Rattle.wire_fields.specs.Refusal.{Stop};
ghost use Rattle.wire_fields.specs.Reading.{read};
ghost use Rattle.wire_fields.specs.Gives.{IsOn, Judges};
ghost use Rattle.bundle7.specs.declared.fault.Cause7.{Cause7 as Causes};
ghost use Rattle.bundle7.specs.declared.bundle.Bundle7.{Bundle7};
ghost use Rattle.bundle7.specs.Cause.{why, stop_of};
ghost use Rattle.bundle7.specs.Table.{blocks, bundle};
ghost use Rattle.bundle7.specs.Legal.{Spells7, Refusal7};

use crate::block::{PAYLOAD, block_at};
use crate::check::Checks;
use crate::fault::{Cause7, Refused7};
use crate::fields::mark;
use crate::primary::primary_at;
use crate::reading::{BREAK, OPEN};
use crate::seen::{MOST_EXTENSIONS, Seen};
use endpoint::Fragment;

/// How many octets the bundle at the front of some octets has. More may follow.
///
/// It answers as `decode7` does, and takes no memory. A refusal names the first octet of the first
/// field that isn't there as it should be, and the cause.
pub fn judge7(bytes: &[u8]) -> Result<usize, Refused7>
    // So many octets spell a bundle.
    ensures found { IfOk result (λ k.
        (b : Bundle7) × (k ≤ length bytes.now) × Spells7 b (take k bytes.now)) }

    // What spells a bundle is found.
    ensures only { (b : Bundle7) (k : ℕ) → k ≤ length bytes.now → Spells7 b (take k bytes.now)
        → result ≡ Ok k }

    // What is refused has this refusal.
    ensures refused { IfErr result (λ e. Refusal7 bytes.now e.at (why e.cause)) }

    // What has a refusal is refused with it.
    ensures refuses { (at : ℕ) (reason : Stop Causes) → Refusal7 bytes.now at reason
        → IsErrAnd result (λ e. (e.at ≡ at) × (why e.cause ≡ reason)) }

    // All of this is one function of the octets.
    ensures exact { Judges stop_of result (read (bundle 64) bytes.now 0) }
{
    bundle_judged(bytes, 0, MOST_EXTENSIONS)
}

/// Where the bundle at a place ends, which has at most so many extension blocks.
#[tactic(auto, unfolding(crate::specs::Table::bundle))]
pub(crate) fn bundle_judged(text: &[u8], at: usize, most: u64) -> Result<usize, Refused7>
    requires place { at ≤ length text.now }
    requires few { most ≤ 64 }
    ensures exact { Judges stop_of result (read (bundle most) text.now at) }
{
    let (_, at) = mark(text, at, OPEN, Cause7::Start)?;
    let (primary, at) = primary_at(text, at, Checks::Untested)?;
    let at = blocks_judged(text, at, primary.fragment, most)?;
    let (_, end) = mark(text, at, BREAK, Cause7::Break)?;
    Ok(end)
}

/// Where the blocks at a place end: extension blocks, of which at most so many may stand here, and the
/// payload block.
fn blocks_judged(
    text: &[u8],
    at: usize,
    fragment: Option<Fragment>,
    most: u64,
) -> Result<usize, Refused7>
    requires place { at ≤ length text.now }
    requires few { most ≤ 64 }
    ensures within { IfOk result (IsOn at text.now) }
    ensures exact { Judges stop_of result (read (blocks fragment most []) text.now at) }
{
    let mut seen = Seen::none();
    let mut next = at;
    'extensions: for i in 0..most {
        let (block, after) = block_at(text, next, fragment, most - i, &seen, Checks::Untested)?;
        next = after;
        if block.lead.kind == PAYLOAD {
            return Ok(next);
        }
        seen.push(block.lead.kind, block.lead.number);
    }
    let (_, end) = block_at(text, next, fragment, 0, &seen, Checks::Untested)?;
    Ok(end)
}
