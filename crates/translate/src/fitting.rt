//! Whether a translation has at most 64 extension blocks, decided before memory is taken.

ghost use Rattle.std.specs.Prelude.{◌≡◌, ◌≤◌, ◌+◌, not, length};
ghost use Rattle.wire_fields.specs.Whole.{read_whole};
ghost use Rattle.bundle_meaning.specs.declared.fault.BlockFault.TheVariants.{Bad};
ghost use Rattle.bundle_meaning.specs.Expiry.{slack_of};
ghost use Rattle.bundle_meaning.specs.Wrap.{wrap_old, wrap_new};
ghost use Rattle.translate.specs.View6.{needs_residue6, fits6};
ghost use Rattle.translate.specs.View7.{is_default6, needs_residue7, fits7};
ghost use Rattle.translate.specs.Reading6.{held7, ext6_of, exts_in6, shared6_of, extra6_of, full6_of};
ghost use Rattle.translate.specs.Reading7.{held6, ext7_of, exts_in7, shared7_of, full7_of};

use crate::private::is_wrap;
use crate::reading6::{PAYLOAD, around_payload, is_residue6, own, payload, payload_flags};
use crate::reading7::{default_flags6, extra7, is_residue7};
use crate::report6::has_no_rest6;
use crate::report7::no_time7;
use crate::writing6::{BLOCK_COMMON, COMMON, MOST, is_same7};
use bundle_meaning::{Extra7, lend_wrap_new, lend_wrap_old};
use bundle6::{Block6, Bundle6};
use bundle7::{Block7, Bundle7};

/// Whether the version 7 bundle that a version 6 one becomes has at most 64 extension blocks.
pub(crate) fn fits_new(bundle: &Bundle6) -> bool
    ensures { result ≡ fits7 (full6_of bundle.now) }
{
    let count = count6(bundle.blocks.as_slice());
    if needs_new(bundle) {
        count < MOST
    } else {
        count <= MOST
    }
}

/// Whether the version 6 bundle that a version 7 one becomes has at most 64 blocks besides the payload.
pub(crate) fn fits_old(bundle: &Bundle7) -> bool
    ensures { result ≡ fits6 (full7_of bundle.now) }
{
    let count = count7(bundle.exts.as_slice());
    if needs_old(bundle) {
        count < MOST
    } else {
        count <= MOST
    }
}

/// For how many extension blocks some blocks stand.
fn count6(blocks: &[Block6]) -> usize
    ensures { result ≡ length (exts_in6 blocks.now) }
{
    let mut count = 0;
    'counting: for block in blocks {
        count += stands_for6(block);
    }
    count
}

/// For how many extension blocks a block stands: for one, or for none.
fn stands_for6(block: &Block6) -> usize
    ensures count { result ≡ length (ext6_of block.now) }
    ensures one { result ≤ 1 }
{
    let body = block.body.as_slice();
    if block.kind == PAYLOAD || is_residue6(block) {
        0
    } else if is_wrap(u64::from(block.kind), body) {
        holds7(body)
    } else {
        1
    }
}

/// How many blocks a wrap's octets hold.
fn holds7(wrap: &[u8]) -> usize
    ensures count { result ≡ length (held7 (read_whole (wrap_old (length wrap.now)) Bad wrap.now)) }
    ensures one { result ≤ 1 }
{
    match lend_wrap_old(wrap) {
        Ok(_) => 1,
        Err(_) => 0,
    }
}

/// For how many extension blocks some blocks stand.
fn count7(blocks: &[Block7]) -> usize
    ensures { result ≡ length (exts_in7 blocks.now) }
{
    let mut count = 0;
    'counting: for block in blocks {
        count += stands_for7(block);
    }
    count
}

/// For how many extension blocks a block stands: for one, or for none.
fn stands_for7(block: &Block7) -> usize
    ensures count { result ≡ length (ext7_of block.now) }
    ensures one { result ≤ 1 }
{
    let body = block.body.as_slice();
    if is_residue7(block) {
        0
    } else if is_wrap(block.kind, body) {
        holds6(body)
    } else {
        1
    }
}

/// How many blocks a wrap's octets hold.
fn holds6(wrap: &[u8]) -> usize
    ensures count { result ≡ length (held6 (read_whole (wrap_new (length wrap.now)) Bad wrap.now)) }
    ensures one { result ≤ 1 }
{
    match lend_wrap_new(wrap) {
        Ok(_) => 1,
        Err(_) => 0,
    }
}

/// Whether a version 7 bundle needs a residue for what a version 6 one says.
fn needs_new(bundle: &Bundle6) -> bool
    ensures { result ≡ needs_residue7 (full6_of bundle.now) }
{
    !says_default6(bundle) || !has_no_rest6(bundle)
}

/// Whether a bundle says nothing that only version 6 has but its default.
fn says_default6(bundle: &Bundle6) -> bool
    ensures { result ≡ is_default6 (shared6_of bundle.now) (extra6_of bundle.now) }
{
    let primary = &bundle.primary;
    let blocks = bundle.blocks.as_slice();
    let (_, after) = around_payload(blocks);
    own(primary.flags, COMMON) == default_flags6(&primary.destination)
        && primary.custodian.is_null()
        && own(payload_flags(payload(blocks)), BLOCK_COMMON) == 0
        && count6(after) == 0
}

/// Whether a version 6 bundle needs a residue for what a version 7 one says.
fn needs_old(bundle: &Bundle7) -> bool
    ensures { result ≡ needs_residue6 (full7_of bundle.now) }
{
    let default = Extra7 {
        flags: 0,
        crc: 1,
        payload_crc: 0,
        payload_flags: 0,
    };
    !is_same7(&extra7(bundle), &default) || slack7(bundle) != 0 || no_time7(bundle) != 0
}

/// How many milliseconds after a bundle expires the second is over.
fn slack7(bundle: &Bundle7) -> u128
    ensures { result ≡ slack_of (shared7_of bundle.now) }
{
    let expiry = u128::from(bundle.primary.millis) + u128::from(bundle.primary.lifetime);
    1000 * ((expiry + 999) / 1000) - expiry
}
