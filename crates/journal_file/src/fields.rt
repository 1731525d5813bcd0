//! Single fields at a place of a journal: the value and the place after it, or the refusal.

ghost use Rattle.std.specs.Prelude.{◌≡◌, ◌+◌, ◌<◌, ◌≤◌, length, IfOk};
ghost use Rattle.wire_fields.specs.Refusal.{because};
ghost use Rattle.wire_fields.specs.Reading.{read};
ghost use Rattle.wire_fields.specs.Words.{any_octet, any_octets};
ghost use Rattle.wire_fields.specs.Gives.{Gives, IsOn};
ghost use Rattle.journal_file.specs.Table.{face_of, how_of, face, how, is_shortest, number, new_id, pending_id, record_kind, check_of, check};
ghost use Rattle.journal_file.specs.Ties.{why, refused};

use crate::fault::{Damage, JournalCause};
use crate::record::How;
use crate::slots::Book;
use gate_cases::Face;
use wire_fields::{number_at, octet_at, octets_at};

/// An octet. It is there, or the file ends; the cause is only named.
pub(crate) fn octet(text: &[u8], at: usize, cause: JournalCause) -> Result<(u8, usize), Damage>
    requires place { at ≤ length text.now }
    requires cause { why cause ≡ because cause }
    ensures within { IfOk result (λ x. IsOn at text.now x.1) }
    ensures one { IfOk result (λ x. x.1 ≡ at + 1) }
    ensures exact { Gives (λ n. n) refused result (read (any_octet cause) text.now at) }
{
    match octet_at(text, at) {
        Ok(found) => Ok(found),
        Err(miss) => Err(cause.missed(at, miss)),
    }
}

/// So many octets, lent.
pub(crate) fn octets(
    text: &[u8],
    at: usize,
    count: u64,
    cause: JournalCause,
) -> Result<(&[u8], usize), Damage>
    requires place { at ≤ length text.now }
    requires cause { why cause ≡ because cause }
    ensures within { IfOk result (λ x. IsOn at text.now x.1) }
    ensures exact { Gives (λ lent. lent.now) refused result (read (any_octets count cause) text.now at) }
{
    match octets_at(text, at, count) {
        Ok(found) => Ok(found),
        Err(miss) => Err(cause.missed(at, miss)),
    }
}

/// A face.
#[tactic(auto, unfolding(crate::specs::Table::face))]
pub(crate) fn face(text: &[u8], at: usize) -> Result<(Face, usize), Damage>
    requires { at ≤ length text.now }
    ensures within { IfOk result (λ x. IsOn at text.now x.1) }
    ensures exact { Gives (λ f. f) refused result (read face text.now at) }
{
    let (octet, after) = octet(text, at, JournalCause::Face)?;
    if octet >= 2 {
        return Err(JournalCause::Face.at(at));
    }
    Ok((face_of(octet), after))
}

/// How a session ended.
#[tactic(auto, unfolding(crate::specs::Table::how))]
pub(crate) fn how(text: &[u8], at: usize) -> Result<(How, usize), Damage>
    requires { at ≤ length text.now }
    ensures within { IfOk result (λ x. IsOn at text.now x.1) }
    ensures exact { Gives (λ h. h) refused result (read how text.now at) }
{
    let (octet, after) = octet(text, at, JournalCause::How)?;
    if octet == 0 || octet >= 4 {
        return Err(JournalCause::How.at(at));
    }
    Ok((how_of(octet), after))
}

/// A record's kind.
pub(crate) fn record_kind(text: &[u8], at: usize) -> Result<(u8, usize), Damage>
    requires { at ≤ length text.now }
    ensures within { IfOk result (λ x. IsOn at text.now x.1) }
    ensures exact { Gives (λ n. n) refused result (read record_kind text.now at) }
{
    let (octet, after) = octet(text, at, JournalCause::Kind)?;
    if octet == 0 || octet >= 7 {
        return Err(JournalCause::Kind.at(at));
    }
    Ok((octet, after))
}

/// A number.
#[tactic(auto, unfolding(crate::specs::Table::number_where, crate::specs::Table::sized_number))]
pub(crate) fn number(text: &[u8], at: usize) -> Result<(u64, usize), Damage>
    requires { at ≤ length text.now }
    ensures within { IfOk result (λ x. IsOn at text.now x.1) }
    ensures exact { Gives (λ n. n) refused result (read number text.now at) }
{
    match number_at(text, at) {
        Ok((value, after)) => {
            if !is_shortest(value, &text[at..after]) {
                return Err(JournalCause::Number.at(at));
            }
            Ok((value, after))
        }
        Err(miss) => Err(JournalCause::Number.missed(at, miss)),
    }
}

/// An id above all earlier ones.
#[tactic(auto, unfolding(crate::specs::Table::number_where, crate::specs::Table::sized_number))]
pub(crate) fn new_id(text: &[u8], at: usize, greatest: u64) -> Result<(u64, usize), Damage>
    requires { at ≤ length text.now }
    ensures within { IfOk result (λ x. IsOn at text.now x.1) }
    ensures above { IfOk result (λ x. greatest < x.0) }
    ensures exact { Gives (λ n. n) refused result (read (new_id greatest) text.now at) }
{
    match number_at(text, at) {
        Ok((value, after)) => {
            if !is_shortest(value, &text[at..after]) {
                return Err(JournalCause::Number.at(at));
            }
            if greatest >= value {
                return Err(JournalCause::Id.at(at));
            }
            Ok((value, after))
        }
        Err(miss) => Err(JournalCause::Number.missed(at, miss)),
    }
}

/// An id that is pending.
#[tactic(auto, unfolding(crate::specs::Table::number_where, crate::specs::Table::sized_number))]
pub(crate) fn pending_id(text: &[u8], at: usize, book: &Book) -> Result<(u64, usize), Damage>
    requires { at ≤ length text.now }
    ensures within { IfOk result (λ x. IsOn at text.now x.1) }
    ensures exact { Gives (λ n. n) refused result (read (pending_id book.now.pending) text.now at) }
{
    match number_at(text, at) {
        Ok((value, after)) => {
            if !is_shortest(value, &text[at..after]) {
                return Err(JournalCause::Number.at(at));
            }
            if !book.is_pending(value) {
                return Err(JournalCause::Id.at(at));
            }
            Ok((value, after))
        }
        Err(miss) => Err(JournalCause::Number.missed(at, miss)),
    }
}

/// The check of a record's octets.
#[tactic(auto, unfolding(crate::specs::Table::check))]
pub(crate) fn check<'a>(
    text: &'a [u8],
    at: usize,
    block: &[u8],
) -> Result<(&'a [u8], usize), Damage>
    requires { at ≤ length text.now }
    ensures within { IfOk result (λ x. IsOn at text.now x.1) }
    ensures exact { Gives (λ lent. lent.now) refused result (read (check block.now) text.now at) }
{
    let (four, after) = octets(text, at, 4, JournalCause::Crc)?;
    if four != check_of(block).as_slice() {
        return Err(JournalCause::Crc.at(at));
    }
    Ok((four, after))
}

/// The check of octets: CRC-32C, in network order.
pub(crate) fn check_of(octets: &[u8]) -> [u8; 4]
    ensures { result ≡ check_of octets.now }
{
    crc_fields::crc32c(octets).to_be_bytes()
}

/// Whether octets that spell a number are the fewest that do.
fn is_shortest(value: u64, octets: &[u8]) -> bool
    ensures { result ≡ is_shortest (value, length octets.now) }
{
    octets.len() == sdnv::len(value)
}

fn face_of(octet: u8) -> Face
    ensures { result ≡ face_of octet }
{
    if octet == 0 { Face::Old } else { Face::New }
}

fn how_of(octet: u8) -> How
    ensures { result ≡ how_of octet }
{
    match octet {
        1 => How::Sent,
        2 => How::Failed,
        _ => How::Cancelled,
    }
}
