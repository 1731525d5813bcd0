//! What is kept, and what a record does to it.

ghost use Rattle.std.specs.Prelude.{◌≡◌, ◌++◌, ◌∷◌, ◌==◌, true, IfOk, OnOk, OnErr, length};
ghost use Rattle.std.specs.List.{position_or_len};
ghost use Rattle.journal_file.specs.Values.{nothing_kept, a_begun, a_reserved};
ghost use Rattle.journal_file.specs.Keeping.{octet_of, same_face, has_id, is_of, is_about, marks_of, bounded, marks_with, without_first, greater, kept_with};
ghost use Rattle.journal_file.specs.Ties.{kept_of, record_of, takes_memory};

use crate::record::Record;
use endpoint::Octets;
use gate_cases::Face;
use std::alloc::{AllocError, Global};

/// The most marks of a face. One more lets the first of them go.
pub const MARKS_MAX: usize = 1024;

/// A block that was begun and hasn't ended.
#[derive(Debug, Drop)]
pub struct Pending {
    /// Its id, by which its end is told. Ids rise from block to block.
    pub id: u64,
    /// The face at which it was begun.
    pub face: Face,
    /// When its octets came, in milliseconds since 2000, where its record says it. An age that they have
    /// is to be raised by how long they stayed since then.
    pub came: Option<u64>,
    /// Its octets.
    pub block: Octets,
}

/// A session of a peer about which a report went out before it was handed up.
#[derive(Clone, Copy, Debug, PartialEq, Eq)]
pub struct Mark {
    /// The face at which the session came.
    pub face: Face,
    /// The session's number.
    pub session: u64,
    /// When the report went out, in milliseconds since 2000.
    pub when: u64,
}

/// What a gateway keeps over a stop.
#[derive(Debug, Drop)]
pub struct Kept {
    /// The blocks that were begun and haven't ended, in the order of their ids.
    pub pending: Vec<Pending>,
    /// The marks, the eldest first.
    pub marks: Vec<Mark>,
    /// Below this number the old face begins no session any more.
    pub old_reserved: u64,
    /// The same of the new face.
    pub new_reserved: u64,
    /// The greatest id that was given.
    pub greatest: u64,
}

impl Kept {
    /// Nothing is kept. It takes no memory.
    pub fn new(alloc: Global) -> Kept
        ensures { kept_of result ≡ nothing_kept }
    {
        Kept {
            pending: Vec::new(alloc),
            marks: Vec::new(alloc),
            old_reserved: 0,
            new_reserved: 0,
            greatest: 0,
        }
    }

    /// Does what a record says.
    #[tactic(auto, unfolding(crate::specs::Keeping::kept_with))]
    pub fn take(&mut self, alloc: Global, said: &Record) -> Result<(), AllocError>
        ensures ok { OnOk result (kept_of self.new ≡ kept_with (kept_of self.old) (record_of said.now)) }
        // Memory is wanted only for a block that is begun, and for a mark.
        ensures memory { OnErr result (takes_memory (record_of said.now) ≡ true) }
    {
        match said {
            Record::Begun {
                id,
                face,
                came,
                block,
            } => {
                let block = Octets::from_slice(alloc, block)?;
                self.begin(Pending {
                    id: *id,
                    face: *face,
                    came: *came,
                    block,
                })
            }
            Record::Done { id, .. } => {
                end(&mut self.pending, *id);
                Ok(())
            }
            Record::Marked(mark) => add_mark(&mut self.marks, *mark, MARKS_MAX),
            Record::Clear { face, session } => {
                drop_mark(&mut self.marks, *face, *session);
                Ok(())
            }
            Record::Reserved { face, number } => {
                self.reserve(*face, *number);
                Ok(())
            }
        }
    }

    #[tactic(auto, unfolding(crate::specs::Keeping::kept_with))]
    fn begin(&mut self, pending: Pending) -> Result<(), AllocError>
        ensures ok { OnOk result (kept_of self.new ≡ kept_with (kept_of self.old) (a_begun pending)) }
    {
        let id = pending.id;
        self.pending.push(pending)?;
        self.greatest = id;
        Ok(())
    }

    #[tactic(auto, unfolding(crate::specs::Keeping::kept_with))]
    fn reserve(&mut self, face: Face, number: u64)
        ensures { kept_of self.new ≡ kept_with (kept_of self.old) (a_reserved face number) }
    {
        match face {
            Face::Old => self.old_reserved = greater(self.old_reserved, number),
            Face::New => self.new_reserved = greater(self.new_reserved, number),
        }
    }
}

fn greater(one: u64, other: u64) -> u64
    ensures { result ≡ greater one other }
{
    if one < other { other } else { one }
}

/// The octet that names a face.
pub(crate) fn octet_of(face: Face) -> u8
    ensures { result ≡ octet_of face }
{
    match face {
        Face::Old => 0,
        Face::New => 1,
    }
}

fn same_face(one: Face, other: Face) -> bool
    ensures { result ≡ same_face one other }
{
    octet_of(one) == octet_of(other)
}

// ---- pending blocks

/// The place of an id, or how many are pending.
fn place_of(pending: &[Pending], id: u64) -> usize
    ensures { result ≡ position_or_len (has_id id) pending.now }
{
    'looking: for at in 0..pending.len() {
        if pending[at].id == id {
            return at;
        }
    }
    pending.len()
}

/// The block of an id is pending no longer.
fn end(pending: &mut Vec<Pending>, id: u64)
    ensures { pending.new.items ≡ without_first (has_id id) pending.old.items }
{
    let at = place_of(pending.as_slice(), id);
    if at < pending.as_slice().len() {
        pending.remove(at);
    }
}

// ---- marks

fn is_about(mark: Mark, face: Face, session: u64) -> bool
    ensures { result ≡ is_about face session mark }
{
    same_face(mark.face, face) && mark.session == session
}

/// The place of a session's mark, or how many marks there are.
fn place_about(marks: &[Mark], face: Face, session: u64) -> usize
    ensures { result ≡ position_or_len (is_about face session) marks.now }
{
    'looking: for at in 0..marks.len() {
        if is_about(marks[at], face, session) {
            return at;
        }
    }
    marks.len()
}

/// The place of the first mark of a face, or how many marks there are.
fn place_at(marks: &[Mark], face: Face) -> usize
    ensures { result ≡ position_or_len (is_of face) marks.now }
{
    'looking: for at in 0..marks.len() {
        if same_face(marks[at].face, face) {
            return at;
        }
    }
    marks.len()
}

/// How many marks a face has.
fn count_of(marks: &[Mark], face: Face) -> usize
    ensures { result ≡ marks_of face marks.now }
{
    let mut count = 0;
    'counting: for mark in marks {
        if same_face(mark.face, face) {
            count += 1;
        }
    }
    count
}

/// The mark of a session leaves, if it is there.
fn drop_mark(marks: &mut Vec<Mark>, face: Face, session: u64)
    ensures { marks.new.items ≡ without_first (is_about face session) marks.old.items }
{
    let at = place_about(marks.as_slice(), face, session);
    if at < marks.as_slice().len() {
        marks.remove(at);
    }
}

/// The first mark of a face leaves, if there is one.
fn drop_first(marks: &mut Vec<Mark>, face: Face)
    ensures { marks.new.items ≡ without_first (is_of face) marks.old.items }
{
    let at = place_at(marks.as_slice(), face);
    if at < marks.as_slice().len() {
        marks.remove(at);
    }
}

/// Of more than so many marks of a face the first leaves.
fn bound(marks: &mut Vec<Mark>, face: Face, most: usize)
    ensures { marks.new.items ≡ bounded most face marks.old.items }
{
    if count_of(marks.as_slice(), face) > most {
        drop_first(marks, face);
    }
}

/// A mark goes to the end, and an older one of its session leaves.
#[tactic(auto, unfolding(crate::specs::Keeping::marks_with))]
fn add_mark(marks: &mut Vec<Mark>, mark: Mark, most: usize) -> Result<(), AllocError>
    ensures ok { OnOk result (marks.new.items ≡ marks_with most mark marks.old.items) }
{
    drop_mark(marks, mark.face, mark.session);
    marks.push(mark)?;
    bound(marks, mark.face, most);
    Ok(())
}
