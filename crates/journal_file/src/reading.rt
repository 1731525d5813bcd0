//! Reading a journal's file.

ghost use Rattle.std.specs.Prelude.{◌≡◌, ◌<◌, ◌≤◌, ◌==◌, not, ℕ, length, take, Ok, Err, IfOk, IfErr, IfSome};
ghost use Rattle.wire_fields.specs.Refusal.{Stop};
ghost use Rattle.wire_fields.specs.Reading.{read};
ghost use Rattle.wire_fields.specs.Gives.{Gives, GivesWhole, IsOn};
ghost use Rattle.journal_file.specs.Values.{KeptValue, nothing_kept};
ghost use Rattle.journal_file.specs.Table.{begun_fields, done_fields, mark_fields, clear_fields, reserved_fields, dated_fields, fields_of, entry, records};
ghost use Rattle.journal_file.specs.File.{Reads, IsDamaged, read_file, opening};
ghost use Rattle.journal_file.specs.Anew.{IsSound};
ghost use Rattle.journal_file.specs.Legal.{IsLegal};
ghost use Rattle.journal_file.specs.Wants.{HasToKeep};
ghost use Rattle.journal_file.specs.Ties.{refusal, refused, kept_of, record_of};
ghost use Rattle.journal_file.specs.Rising.{IsAbove};

use crate::fault::{Damage, JournalCause, JournalFault};
use crate::fields::{check, face, how, new_id, number, octet, octets, pending_id, record_kind};
use crate::kept::{Kept, Mark};
use crate::record::Record;
use crate::slots::Book;
use std::alloc::Global;

/// The first octets of each journal.
pub(crate) const OPENING: [u8; 8] = *b"fimjrnl1";

/// What a gate holds that is open. Another octet is a closed one.
pub(crate) const OPEN: u8 = 1;

/// Reads what a journal's file says is kept. No octets at all are nothing kept, and what follows the
/// closed gate isn't looked at. A file that is damaged is refused at the first place that isn't as it
/// should be; where memory for what is kept runs out before that place is reached, the answer is
/// `Memory`.
pub fn read_kept(alloc: Global, file: &[u8]) -> Result<Kept, JournalFault>
    // What is read is what the file stands for.
    ensures found { IfOk result (λ kept. Reads file.now (kept_of kept)) }
    // What a file stands for is read, unless memory runs out.
    ensures only { (k : KeptValue) → Reads file.now k → GivesWhole kept_of refusal result (Ok k) }
    // What is refused is damaged there.
    ensures refused { IfErr result (λ e. IfSome (refusal e) (λ s. IsDamaged file.now s.0 s.1)) }
    // What is damaged is refused there, unless memory runs out.
    ensures refuses { (at : ℕ) (s : Stop JournalCause) → IsDamaged file.now at s
        → GivesWhole kept_of refusal result (Err (at, s)) }
    // What is read is legal, and may be written anew.
    ensures legal { IfOk result (λ kept. IsLegal (kept_of kept)) }
    ensures sound { IfOk result (λ kept. IsSound (kept_of kept)) }
    // Memory is wanted only where a block or a mark is to be kept.
    ensures memory { result ≡ Err JournalFault.Memory → HasToKeep file.now }
{
    read_all(alloc, file)
}

#[tactic(auto, unfolding(crate::specs::File::read_file))]
fn read_all(alloc: Global, file: &[u8]) -> Result<Kept, JournalFault>
    ensures exact { GivesWhole kept_of refusal result (read_file file.now) }
    ensures memory { result ≡ Err JournalFault.Memory → HasToKeep file.now }
{
    if file.is_empty() {
        return Ok(Kept::new(alloc));
    }
    if !file.starts_with(&OPENING) {
        return Err(JournalFault::from(JournalCause::Start.at(0)));
    }
    let (kept, _) = read_records(alloc, file, OPENING.len())?;
    Ok(kept)
}

/// All records from a place on, up to the closed gate.
fn read_records(alloc: Global, text: &[u8], at: usize) -> Result<(Kept, usize), JournalFault>
    requires place { at ≤ length text.now }
    requires behind { 0 < at }
    requires start { take at text.now ≡ opening }
    ensures exact { Gives kept_of refusal result (read (records (length text.now) nothing_kept) text.now at) }
    ensures memory { result ≡ Err JournalFault.Memory → HasToKeep text.now }
{
    let mut book = Book::new(alloc);
    let mut after = at;
    'records: while after < text.len() {
        let (gate, next) = octet(text, after, JournalCause::Kind)?;
        if is_closed(gate) {
            let kept = book.close(alloc)?;
            return Ok((kept, next));
        }
        let (record, next) = read_record(text, next, &book)?;
        book.take(alloc, &record)?;
        after = next;
    }
    Err(JournalFault::from(JournalCause::Truncated.at(after)))
}

/// Whether a gate is closed: it holds another octet than that of an open one.
fn is_closed(gate: u8) -> bool
    ensures { result ≡ not (gate == 1) }
{
    gate != OPEN
}

/// A record with its check.
#[tactic(auto, unfolding(crate::specs::Table::entry))]
fn read_record<'a>(text: &'a [u8], at: usize, book: &Book) -> Result<(Record<'a>, usize), Damage>
    requires { at ≤ length text.now }
    ensures within { IfOk result (λ x. IsOn at text.now x.1) }
    ensures above { IfOk result (λ x. IsAbove book.now.greatest (record_of x.0)) }
    ensures exact { Gives record_of refused result (read (entry book.now) text.now at) }
{
    let (kind, after) = record_kind(text, at)?;
    let (record, after) = read_fields(text, after, kind, book)?;
    let (_, end) = check(text, after, &text[at..after])?;
    Ok((record, end))
}

/// What follows a record's kind.
#[tactic(auto, unfolding(crate::specs::Table::fields_of))]
fn read_fields<'a>(
    text: &'a [u8],
    at: usize,
    kind: u8,
    book: &Book,
) -> Result<(Record<'a>, usize), Damage>
    requires { at ≤ length text.now }
    ensures within { IfOk result (λ x. IsOn at text.now x.1) }
    ensures above { IfOk result (λ x. IsAbove book.now.greatest (record_of x.0)) }
    ensures exact { Gives record_of refused result (read (fields_of kind book.now) text.now at) }
{
    match kind {
        1 => read_begun(text, at, book.greatest()),
        2 => read_done(text, at, book),
        3 => read_mark(text, at),
        4 => read_clear(text, at),
        5 => read_reserved(text, at),
        _ => read_dated(text, at, book.greatest()),
    }
}

#[tactic(auto, unfolding(crate::specs::Table::begun_fields))]
fn read_begun<'a>(text: &'a [u8], at: usize, greatest: u64) -> Result<(Record<'a>, usize), Damage>
    requires { at ≤ length text.now }
    ensures within { IfOk result (λ x. IsOn at text.now x.1) }
    ensures above { IfOk result (λ x. IsAbove greatest (record_of x.0)) }
    ensures exact { Gives record_of refused result (read (begun_fields greatest) text.now at) }
{
    let (id, at) = new_id(text, at, greatest)?;
    let (face, at) = face(text, at)?;
    let (size, at) = number(text, at)?;
    let (block, at) = octets(text, at, size, JournalCause::Number)?;
    Ok((
        Record::Begun {
            id,
            face,
            came: None,
            block,
        },
        at,
    ))
}

#[tactic(auto, unfolding(crate::specs::Table::done_fields))]
fn read_done<'a>(text: &'a [u8], at: usize, book: &Book) -> Result<(Record<'a>, usize), Damage>
    requires { at ≤ length text.now }
    ensures within { IfOk result (λ x. IsOn at text.now x.1) }
    ensures above { IfOk result (λ x. (n : ℕ) → IsAbove n (record_of x.0)) }
    ensures exact { Gives record_of refused result (read (done_fields book.now.pending) text.now at) }
{
    let (id, at) = pending_id(text, at, book)?;
    let (how, at) = how(text, at)?;
    Ok((Record::Done { id, how }, at))
}

#[tactic(auto, unfolding(crate::specs::Table::mark_fields))]
fn read_mark<'a>(text: &'a [u8], at: usize) -> Result<(Record<'a>, usize), Damage>
    requires { at ≤ length text.now }
    ensures within { IfOk result (λ x. IsOn at text.now x.1) }
    ensures above { IfOk result (λ x. (n : ℕ) → IsAbove n (record_of x.0)) }
    ensures exact { Gives record_of refused result (read mark_fields text.now at) }
{
    let (face, at) = face(text, at)?;
    let (session, at) = number(text, at)?;
    let (when, at) = number(text, at)?;
    Ok((
        Record::Marked(Mark {
            face,
            session,
            when,
        }),
        at,
    ))
}

#[tactic(auto, unfolding(crate::specs::Table::clear_fields))]
fn read_clear<'a>(text: &'a [u8], at: usize) -> Result<(Record<'a>, usize), Damage>
    requires { at ≤ length text.now }
    ensures within { IfOk result (λ x. IsOn at text.now x.1) }
    ensures above { IfOk result (λ x. (n : ℕ) → IsAbove n (record_of x.0)) }
    ensures exact { Gives record_of refused result (read clear_fields text.now at) }
{
    let (face, at) = face(text, at)?;
    let (session, at) = number(text, at)?;
    Ok((Record::Clear { face, session }, at))
}

#[tactic(auto, unfolding(crate::specs::Table::reserved_fields))]
fn read_reserved<'a>(text: &'a [u8], at: usize) -> Result<(Record<'a>, usize), Damage>
    requires { at ≤ length text.now }
    ensures within { IfOk result (λ x. IsOn at text.now x.1) }
    ensures above { IfOk result (λ x. (n : ℕ) → IsAbove n (record_of x.0)) }
    ensures exact { Gives record_of refused result (read reserved_fields text.now at) }
{
    let (face, at) = face(text, at)?;
    let (number, at) = number(text, at)?;
    Ok((Record::Reserved { face, number }, at))
}

#[tactic(auto, unfolding(crate::specs::Table::dated_fields))]
fn read_dated<'a>(text: &'a [u8], at: usize, greatest: u64) -> Result<(Record<'a>, usize), Damage>
    requires { at ≤ length text.now }
    ensures within { IfOk result (λ x. IsOn at text.now x.1) }
    ensures above { IfOk result (λ x. IsAbove greatest (record_of x.0)) }
    ensures exact { Gives record_of refused result (read (dated_fields greatest) text.now at) }
{
    let (id, at) = new_id(text, at, greatest)?;
    let (face, at) = face(text, at)?;
    let (came, at) = number(text, at)?;
    let (size, at) = number(text, at)?;
    let (block, at) = octets(text, at, size, JournalCause::Number)?;
    Ok((
        Record::Begun {
            id,
            face,
            came: Some(came),
            block,
        },
        at,
    ))
}
