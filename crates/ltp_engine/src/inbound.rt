//! The receiving side of an engine: its sessions, their order and the closed numbers.

ghost use Rattle.std.specs.Prelude.{◌≡◌, ℕ, ◌<◌, ◌≤◌, ◌^◌, ◌∷◌, [], None, Some, false, length};
ghost use Rattle.std.specs.Prelude.{IfOk, OnOk, OnErr};
ghost use Rattle.std.specs.Prelude.{◌+◌, ◌++◌, nat_eq, nat_le, true, if◌then◌else◌};
ghost use Rattle.std.specs.List.{AllByRecursion};
ghost use Rattle.std.specs.Map.{keys_of, remove_entry};
ghost use Rattle.indexmap.specs.IndexMap.{insert_entry, IsUnique};
ghost use Rattle.ltp_segment.specs.declared.session.Note.TheVariants as notes;
ghost use Rattle.ltp_segment.specs.declared.session.TheConstants.{BLOCK_MAX};
ghost use Rattle.ltp_segment.specs.Kinds.{is_red};
ghost use Rattle.ltp_segment.specs.Values.{a_receiver_cancel};
ghost use Rattle.ltp_segment.specs.Policy.{PolicyValue};
ghost use Rattle.ltp_segment.specs.PolicyViews.{policy_value};
ghost use Rattle.ltp_segment.specs.Views.{piece_value};
ghost use Rattle.ltp_session.specs.Cells.{stop_of, is_no_part};
ghost use Rattle.ltp_session.specs.Table.{find};
ghost use Rattle.ltp_session.specs.Receiver.{on_report_ack, on_sender_cancel};
ghost use Rattle.ltp_session.specs.Receiver.{on_receiver_cancel_ack, on_piece, first_piece};
ghost use Rattle.ltp_session.specs.Receiver.{piece_step, fresh, green_of};
ghost use Rattle.ltp_session.specs.Receiver.{on_receiver_tick, receiver_deadline};
ghost use Rattle.ltp_session.specs.Step.{unreachable};
ghost use Rattle.ltp_session.specs.Engine.{tick_segments, tick_remarks, least_deadline};
ghost use Rattle.ltp_session.specs.Engine.{longest_untouched};
ghost use Rattle.ltp_session.specs.Views.{datagrams_of, green_view};
ghost use Rattle.ltp_engine.specs.Bounds.{ReceivesAtMost};
ghost use Rattle.ltp_engine.specs.Notes.{is_taken};
ghost use Rattle.ltp_engine.specs.Sessions.{is_handed_up, is_receiving, IsTouchOrder, cells_in};
ghost use Rattle.ltp_engine.specs.Tables.{table_of, AreLive, by_number, is_ended};
ghost use Rattle.ltp_engine.specs.Closed.{all_closed};
ghost use Rattle.ltp_receiver.specs.Quiet.{IsQuietStep};
ghost use Rattle.ltp_engine.specs.Inbound.{moved, Turns};
ghost use Rattle.ltp_engine.specs.Wants.{WantsNext};
ghost use Rattle.ltp_engine.specs.Ticks.{receiver_ticked, with_ticks};

use crate::closed::Closed;
use crate::deadlines::earlier;
use crate::effects::Effects;
use crate::held::Held;
use crate::terms::Terms;
use crate::touched::{Receivers, touch};
use endpoint::Octets;
use indexmap::IndexMap;
use ltp_receiver::Receiver;
use ltp_segment::{BLOCK_MAX, Green, Note, Outs, PieceView, Step, write_cancel, write_cancel_ack};
use ltp_session::UNREACHABLE;
use std::alloc::{AllocError, Global};

/// The client service that there is.
const SERVICE: u64 = 1;

/// The receiving side.
#[derive(Debug, Drop)]
pub(crate) struct Inbound {
    /// The sessions by their numbers, in the order in which they were touched.
    pub receivers: Receivers,
    /// The numbers of those that are over.
    pub closed: Closed,
}

impl Inbound {
    ghost use Rattle.ltp_engine.specs.Values.{nothing_received};
    ghost use Rattle.ltp_engine.specs.Inbound.{inbound_of, Keeps, closed_if, Receives};
    ghost use Rattle.ltp_engine.specs.Inbound.{Takes, TakesNext, evicted_in, with_room, admission_in};
    ghost use Rattle.ltp_engine.specs.Inbound.{ticked_in};
    ghost use Rattle.ltp_engine.specs.Elsewhere.{released};

    /// Nothing was received. It takes no memory.
    pub fn new(alloc: Global) -> Inbound
        ensures { (peer : ℕ) (policy : PolicyValue) → Keeps peer policy result nothing_received }
    {
        Inbound {
            receivers: IndexMap::new(alloc),
            closed: Closed::new(alloc),
        }
    }

    /// Puts a session in its place after a step: it may be over, or have been touched.
    fn finish(&mut self, n: u64, over: bool, touches: bool) -> Result<(), AllocError>
        requires { self.old.closed.runs < 2 ^ 32 }
        ensures receivers { OnOk result (self.new.receivers.entries
            ≡ moved n over touches self.old.receivers.entries) }
        ensures closed { OnOk result (self.new.closed ≡ closed_if n over self.old.closed) }
        ensures wanted { OnErr result (over ≡ true) }
    {
        if over {
            self.receivers.shift_remove(&n);
            return self.closed.close(n);
        }
        if touches {
            touch(&mut self.receivers, n);
        }
        Ok(())
    }

    /// The acknowledgement of a report came for a session, which is touched by it.
    pub fn acknowledged(&mut self, terms: Terms, n: u64, serial: u64) -> Result<Step, AllocError>
        requires live { AreLive terms.originator (policy_value terms.policy)
            self.old.receivers.entries }
        requires runs { self.old.closed.runs < 2 ^ 32 }
        ensures does { IfOk result (Receives terms.originator (policy_value terms.policy) n
            (on_report_ack (find n (inbound_of self.old).receivers) serial)
            self.old self.new) }
        ensures wanted { OnErr result (IsQuietStep (find n (inbound_of self.old).receivers)
            (on_report_ack (find n (inbound_of self.old).receivers) serial) → ⊥) }
    {
        let answer = Step::sending(Outs::new(terms.alloc));
        let Some(receiver) = self.receivers.get_mut(&n) else {
            return Ok(answer);
        };
        receiver.acknowledged(serial);
        let over = receiver.is_over();
        self.finish(n, over, true)?;
        Ok(answer)
    }

    /// The acknowledgement of a cancel came for a session.
    pub fn cancel_came(&mut self, terms: Terms, n: u64) -> Result<Step, AllocError>
        requires live { AreLive terms.originator (policy_value terms.policy)
            self.old.receivers.entries }
        requires runs { self.old.closed.runs < 2 ^ 32 }
        ensures does { IfOk result (Receives terms.originator (policy_value terms.policy) n
            (on_receiver_cancel_ack (find n (inbound_of self.old).receivers))
            self.old self.new) }
        ensures wanted { OnErr result (IsQuietStep (find n (inbound_of self.old).receivers)
            (on_receiver_cancel_ack (find n (inbound_of self.old).receivers)) → ⊥) }
    {
        let answer = Step::sending(Outs::new(terms.alloc));
        let Some(receiver) = self.receivers.get_mut(&n) else {
            return Ok(answer);
        };
        receiver.cancel_acknowledged();
        let over = receiver.is_over();
        self.finish(n, over, false)?;
        Ok(answer)
    }

    /// The sender's cancel came for a session: it is acknowledged, and the session is over.
    pub fn cancelled(&mut self, terms: Terms, n: u64, reason: u8) -> Result<Step, AllocError>
        requires live { AreLive terms.originator (policy_value terms.policy)
            self.old.receivers.entries }
        requires runs { self.old.closed.runs < 2 ^ 32 }
        ensures does { IfOk result (Receives terms.originator (policy_value terms.policy) n
            (on_sender_cancel (find n (inbound_of self.old).receivers) reason)
            self.old self.new) }
        ensures wanted { OnErr result (IsQuietStep (find n (inbound_of self.old).receivers)
            (on_sender_cancel (find n (inbound_of self.old).receivers) reason) → ⊥) }
    {
        let mut out = Outs::new(terms.alloc);
        out.push(write_cancel_ack(terms.alloc, terms.originator, n, true)?)?;
        // The contract of `len` tells that no number stands twice.
        let _kept = self.receivers.len();
        if !self.receivers.contains_key(&n) {
            return Ok(Step::sending(out));
        }
        self.finish(n, true, false)?;
        Ok(Step::noting(out, Note::Cancelled { session: n, reason }))
    }

    /// How many sessions are kept.
    pub fn len(&self, terms: &Terms) -> usize
        requires { AreLive terms.now.originator (policy_value terms.now.policy)
            self.now.receivers.entries }
        ensures { result ≡ length (inbound_of self.now).receivers }
    {
        let _ = terms;
        self.receivers.len()
    }

    /// Whether a session is kept, and its red part was handed up.
    pub fn is_handed_up(&self, terms: &Terms, n: u64) -> bool
        requires { AreLive terms.now.originator (policy_value terms.now.policy)
            self.now.receivers.entries }
        ensures { result ≡ is_handed_up n (inbound_of self.now).receivers }
    {
        let _ = terms;
        // The contract of `len` tells that no number stands twice.
        let _kept = self.receivers.len();
        match self.receivers.get(&n) {
            None => false,
            Some(receiver) => receiver.is_handed_up(),
        }
    }

    /// Whether a session is kept.
    pub fn is_receiving(&self, terms: &Terms, n: u64) -> bool
        requires { AreLive terms.now.originator (policy_value terms.now.policy)
            self.now.receivers.entries }
        ensures { result ≡ is_receiving n (inbound_of self.now).receivers }
    {
        let _ = terms;
        self.receivers.contains_key(&n)
    }

    /// The session that nothing touched for the longest time.
    pub fn longest_untouched(&self, terms: &Terms) -> Option<u64>
        requires { AreLive terms.now.originator (policy_value terms.now.policy)
            self.now.receivers.entries }
        ensures first { result ≡ longest_untouched (inbound_of self.now).touched
            (inbound_of self.now).receivers }
        ensures order { IsTouchOrder (inbound_of self.now).touched
            (inbound_of self.now).receivers }
    {
        let _ = terms;
        // The contract of `len` tells that no number stands twice.
        let _kept = self.receivers.len();
        match self.receivers.first() {
            None => None,
            Some((n, _session)) => Some(*n),
        }
    }

    /// How many red octets are kept of all sessions.
    pub fn octets(&self, terms: &Terms) -> u64
        requires live { AreLive terms.now.originator (policy_value terms.now.policy)
            self.now.receivers.entries }
        requires few { length (inbound_of self.now).receivers < 2 ^ 32 }
        requires received { AllByRecursion (ReceivesAtMost BLOCK_MAX) (inbound_of self.now).receivers }
        ensures { result ≡ cells_in (inbound_of self.now).receivers }
    {
        let _ = terms;
        // The contract of `len` tells that no number stands twice.
        let _kept = self.receivers.len();
        let mut octets = 0;
        'sessions: for receiver in self.receivers.values() {
            octets += receiver.octets();
        }
        octets
    }

    /// A session is kept no more, and its number isn't closed by that.
    pub fn release(&mut self, terms: &Terms, n: u64)
        requires { AreLive terms.now.originator (policy_value terms.now.policy)
            self.old.receivers.entries }
        ensures { Keeps terms.now.originator (policy_value terms.now.policy) self.new
            (released n (inbound_of self.old)) }
    {
        let _ = terms;
        // The contract of `len` tells that no number stands twice.
        let _kept = self.receivers.len();
        self.receivers.shift_remove(&n);
    }

    /// Whether there is no room for a new session in the record of earlier ones.
    fn is_full(&self, terms: &Terms) -> bool
        requires live { AreLive terms.now.originator (policy_value terms.now.policy)
            self.now.receivers.entries }
        requires runs { self.now.closed.runs < 2 ^ 32 }
        ensures { result ≡ nat_le terms.now.history
            (self.now.closed.runs + length (inbound_of self.now).receivers) }
    {
        self.closed.runs() + self.receivers.len() as u64 >= u64::from(terms.history)
    }

    /// Makes room for another session: where as many are kept as may be, the longest untouched one
    /// is over.
    fn make_room(&mut self, terms: Terms) -> Result<Option<u64>, AllocError>
        requires live { AreLive terms.originator (policy_value terms.policy)
            self.old.receivers.entries }
        requires runs { self.old.closed.runs < 2 ^ 32 }
        ensures gone { IfOk result (λ gone. gone ≡ evicted_in terms.sessions
            (inbound_of self.old)) }
        ensures next { IfOk result (λ gone. Keeps terms.originator (policy_value terms.policy)
            self.new (with_room (inbound_of self.old) gone)) }
    {
        let most = terms.sessions as usize;
        if self.receivers.len() < most {
            return Ok(None);
        }
        let Some((gone, _session)) = self.receivers.shift_remove_index(0) else {
            return Ok(None);
        };
        self.closed.close(gone)?;
        Ok(Some(gone))
    }

    /// A session is kept from now on. It was touched last.
    fn open(&mut self, alloc: Global, n: u64, receiver: Receiver) -> Result<(), AllocError>
        ensures receivers { OnOk result (self.new.receivers.entries
            ≡ insert_entry nat_eq self.old.receivers.entries n receiver) }
        ensures closed { OnOk result (self.new.closed ≡ self.old.closed) }
        ensures unique { IsUnique nat_eq self.old.receivers }
    {
        let _kept = self.receivers.len();
        let held = Held::new(alloc, receiver)?;
        if self.receivers.insert(n, held).is_err() {
            return Err(AllocError);
        }
        Ok(())
    }

    /// A red piece came for a new session, which opens.
    fn begin(
        &mut self,
        terms: Terms,
        n: u64,
        piece: &PieceView<'_>,
        now: u64,
    ) -> Result<(Option<u64>, Step), AllocError>
        requires live { AreLive terms.originator (policy_value terms.policy)
            self.old.receivers.entries }
        requires runs { self.old.closed.runs < 2 ^ 32 }
        requires some { 0 < length piece.now.body.now }
        requires fits { stop_of piece.now.offset piece.now.body.now ≤ BLOCK_MAX }
        requires moment { now < 2 ^ 62 }
        requires red { is_red piece.now.kind ≡ true }
        requires absent { find n (inbound_of self.old).receivers ≡ None }
        ensures takes { IfOk result (Takes terms.originator (policy_value terms.policy) terms.sessions n
            (piece_step (policy_value terms.policy) (fresh n) (piece_value piece.now) now)
            self.old self.new) }
        ensures wanted { OnErr result (IsQuietStep None
            (piece_step (policy_value terms.policy) (fresh n) (piece_value piece.now) now) → ⊥) }
    {
        let Terms {
            alloc,
            originator,
            policy,
            ..
        } = terms;
        let mut receiver = Receiver::new(alloc, originator, n, &policy);
        let step = receiver.piece(piece, now)?;
        let gone = self.make_room(terms)?;
        self.open(alloc, n, receiver)?;
        Ok((gone, step))
    }

    /// A piece came for a session that isn't kept.
    fn first_piece(
        &mut self,
        terms: Terms,
        n: u64,
        piece: &PieceView<'_>,
        now: u64,
    ) -> Result<(Option<u64>, Step), AllocError>
        requires live { AreLive terms.originator (policy_value terms.policy)
            self.old.receivers.entries }
        requires runs { self.old.closed.runs < 2 ^ 32 }
        requires some { 0 < length piece.now.body.now }
        requires fits { stop_of piece.now.offset piece.now.body.now ≤ BLOCK_MAX }
        requires moment { now < 2 ^ 62 }
        requires absent { find n (inbound_of self.old).receivers ≡ None }
        ensures takes { IfOk result (Takes terms.originator (policy_value terms.policy) terms.sessions n
            (first_piece (policy_value terms.policy)
            (admission_in (inbound_of self.old) BLOCK_MAX terms.history n)
            (piece_value piece.now) now) self.old self.new) }
        ensures wanted { OnErr result (IsQuietStep None
            (first_piece (policy_value terms.policy)
            (admission_in (inbound_of self.old) BLOCK_MAX terms.history n)
            (piece_value piece.now) now) → ⊥) }
    {
        let alloc = terms.alloc;
        if !piece.kind.is_red() {
            return Ok((None, handing_up(alloc, n, piece)?));
        }
        if self.closed.has(n) {
            return Ok((
                None,
                Step::noting(Outs::new(alloc), Note::Closed { session: n }),
            ));
        }
        if self.is_full(&terms) {
            return Ok((
                None,
                Step::noting(Outs::new(alloc), Note::HistoryFull { session: n }),
            ));
        }
        self.begin(terms, n, piece, now)
    }

    /// A piece came for a session that is kept.
    fn next_piece(
        &mut self,
        terms: Terms,
        n: u64,
        piece: &PieceView<'_>,
        now: u64,
    ) -> Result<Option<Step>, AllocError>
        requires live { AreLive terms.originator (policy_value terms.policy)
            self.old.receivers.entries }
        requires runs { self.old.closed.runs < 2 ^ 32 }
        requires some { 0 < length piece.now.body.now }
        requires fits { stop_of piece.now.offset piece.now.body.now ≤ BLOCK_MAX }
        requires moment { now < 2 ^ 62 }
        ensures takes { IfOk result (TakesNext terms.originator (policy_value terms.policy) n
            (piece_value piece.now) now self.old self.new) }
        ensures wanted { OnErr result (WantsNext (policy_value terms.policy)
            (piece_value piece.now) now (find n (inbound_of self.old).receivers)) }
    {
        let Some(receiver) = self.receivers.get_mut(&n) else {
            return Ok(None);
        };
        if receiver.is_cancelling() {
            let answer = Step::noting(Outs::new(terms.alloc), Note::Closed { session: n });
            return Ok(Some(answer));
        }
        let step = receiver.piece(piece, now)?;
        let over = receiver.is_over();
        let taken = is_taken(&step.note);
        self.finish(n, over, taken)?;
        Ok(Some(step))
    }

    /// A piece came.
    pub fn piece(
        &mut self,
        terms: Terms,
        n: u64,
        piece: &PieceView<'_>,
        now: u64,
    ) -> Result<(Option<u64>, Step), AllocError>
        requires live { AreLive terms.originator (policy_value terms.policy)
            self.old.receivers.entries }
        requires runs { self.old.closed.runs < 2 ^ 32 }
        requires range { stop_of piece.now.offset piece.now.body.now < 2 ^ 64 }
        requires moment { now < 2 ^ 62 }
        ensures takes { IfOk result (Takes terms.originator (policy_value terms.policy) terms.sessions n
            (on_piece (policy_value terms.policy)
            (admission_in (inbound_of self.old) BLOCK_MAX terms.history n)
            (find n (inbound_of self.old).receivers) (piece_value piece.now) now)
            self.old self.new) }
        ensures wanted { OnErr result (IsQuietStep (find n (inbound_of self.old).receivers)
            (on_piece (policy_value terms.policy)
            (admission_in (inbound_of self.old) BLOCK_MAX terms.history n)
            (find n (inbound_of self.old).receivers) (piece_value piece.now) now) → ⊥) }
    {
        let alloc = terms.alloc;
        if piece.service != SERVICE {
            return Ok((None, refusing(terms, n, piece.service)?));
        }
        if is_no_part(piece) {
            return Ok((
                None,
                Step::noting(Outs::new(alloc), Note::BadBounds { session: n }),
            ));
        }
        match self.next_piece(terms, n, piece, now)? {
            Some(step) => Ok((None, step)),
            None => self.first_piece(terms, n, piece, now),
        }
    }

    /// The numbers of the sessions, in ascending order.
    fn numbers(&self, terms: Terms) -> Result<Vec<u64>, AllocError>
        requires { AreLive terms.originator (policy_value terms.policy)
            self.now.receivers.entries }
        ensures { IfOk result (λ numbers.
            numbers.items ≡ keys_of (inbound_of self.now).receivers) }
    {
        let mut numbers: Vec<u64> = self.receivers.keys().copied().collect(terms.alloc)?;
        numbers.sort_unstable();
        Ok(numbers)
    }

    /// Time has passed for all sessions, in ascending order. Those that are over are closed.
    pub fn tick(&mut self, terms: Terms, now: u64, effects: Effects) -> Result<Effects, AllocError>
        requires live { AreLive terms.originator (policy_value terms.policy)
            self.old.receivers.entries }
        requires runs { self.old.closed.runs + length (inbound_of self.old).receivers < 2 ^ 32 }
        requires moment { now < 2 ^ 62 }
        ensures next { OnOk result (Keeps terms.originator (policy_value terms.policy) self.new
            (ticked_in (policy_value terms.policy) now (inbound_of self.old))) }
        ensures effects { IfOk result (λ told. told ≡ with_ticks effects
            (tick_segments (receiver_ticked (policy_value terms.policy) now) terms.originator
            (inbound_of self.old).receivers)
            (tick_remarks (receiver_ticked (policy_value terms.policy) now)
            (inbound_of self.old).receivers)) }
    {
        let mut told = effects;
        let mut ended = Vec::new(terms.alloc);
        'sessions: for n in self.numbers(terms)? {
            let (step, over) = tick_one(&mut self.receivers, terms, n, now)?;
            told = told.add(terms.alloc, step)?;
            add_ended(&mut ended, n, over)?;
        }
        self.close_all(ended)?;
        Ok(told)
    }

    /// The sessions of these numbers are over.
    fn close_all(&mut self, mut ended: Vec<u64>) -> Result<(), AllocError>
        requires { self.old.closed.runs + length ended.items < 2 ^ 32 }
        ensures receivers { OnOk result (self.new.receivers.entries
            ≡ self.old.receivers.entries) }
        ensures closed { OnOk result
            (self.new.closed ≡ all_closed ended.items self.old.closed) }
    {
        'closing: while let Some(n) = ended.pop() {
            self.closed.close(n)?;
        }
        Ok(())
    }

    /// The least deadline.
    pub fn next_deadline(&self, terms: Terms) -> Option<u64>
        requires { AreLive terms.originator (policy_value terms.policy)
            self.now.receivers.entries }
        ensures { result ≡ least_deadline receiver_deadline (inbound_of self.now).receivers }
    {
        // The contract of `len` tells that no number stands twice.
        let _kept = self.receivers.len();
        let mut least = None;
        'sessions: for receiver in self.receivers.values() {
            least = earlier(least, receiver.deadline());
        }
        least
    }
}

/// Adds the number of a session that is over.
fn add_ended(ended: &mut Vec<u64>, n: u64, over: bool) -> Result<(), AllocError>
    ensures { OnOk result (ended.new.items ≡ ended.old.items ++ (if over then n ∷ [] else [])) }
{
    if over {
        ended.push(n)?;
    }
    Ok(())
}

/// Time has passed for a session. Answers whether it is over besides.
fn tick_one(
    receivers: &mut Receivers,
    terms: Terms,
    n: u64,
    now: u64,
) -> Result<(Step, bool), AllocError>
    requires live { AreLive terms.originator (policy_value terms.policy) receivers.old.entries }
    requires moment { now < 2 ^ 62 }
    ensures did { IfOk result (λ told. Turns terms.originator (policy_value terms.policy) n
        (on_receiver_tick (policy_value terms.policy)
        (find n (by_number (table_of receivers.old.entries))) now)
        receivers.old.entries receivers.new.entries told.0) }
    ensures over { IfOk result (λ told. told.1 ≡ is_ended
        (on_receiver_tick (policy_value terms.policy)
        (find n (by_number (table_of receivers.old.entries))) now).next) }
{
    let Some(receiver) = receivers.get_mut(&n) else {
        return Ok((Step::sending(Outs::new(terms.alloc)), false));
    };
    let step = receiver.tick(now)?;
    let over = receiver.is_over();
    sweep(receivers, n, over);
    Ok((step, over))
}

/// Takes a session out where it is over.
fn sweep(receivers: &mut Receivers, n: u64, over: bool)
    ensures { receivers.new.entries ≡ moved n over false receivers.old.entries }
{
    if over {
        receivers.shift_remove(&n);
    }
}

/// Whether a session took a piece: it notes one that doesn't fit its block.
fn is_taken(note: &Option<Note>) -> bool
    ensures { result ≡ is_taken note.now }
{
    !matches!(note, Some(Note::BadBounds { .. }))
}

/// Whether a piece can't be one of any block: it is empty, or stops past the greatest block.
fn is_no_part(piece: &PieceView<'_>) -> bool
    requires { stop_of piece.now.offset piece.now.body.now < 2 ^ 64 }
    ensures { result ≡ is_no_part BLOCK_MAX piece.now.offset piece.now.body.now }
{
    piece.body.is_empty() || piece.offset + piece.body.len() as u64 > BLOCK_MAX
}

/// A block for a client service that isn't there is refused.
fn refusing(terms: Terms, n: u64, service: u64) -> Result<Step, AllocError>
    ensures { IfOk result (λ step. step ≡ record {
      out = datagrams_of (record { originator = terms.originator; number = n })
          (a_receiver_cancel unreachable ∷ []);
      up = None;
      green = None;
      note = Some (notes.Refused n service);
    }) }
{
    let mut out = Outs::new(terms.alloc);
    let reason = UNREACHABLE;
    out.push(write_cancel(terms.alloc, terms.originator, n, false, reason)?)?;
    Ok(Step::noting(
        out,
        Note::Refused {
            session: n,
            service,
        },
    ))
}

/// Green data for a session that isn't kept is handed up as it is.
fn handing_up(alloc: Global, n: u64, piece: &PieceView<'_>) -> Result<Step, AllocError>
    ensures { IfOk result (λ step. step ≡ record {
      out = [];
      up = None;
      green = Some (green_view n (green_of (piece_value piece.now)));
      note = None;
    }) }
{
    let green = Green {
        session: n,
        offset: piece.offset,
        last: piece.kind.ends_block(),
        body: Octets::from_slice(alloc, piece.body)?,
    };
    Ok(Step {
        out: Outs::new(alloc),
        up: None,
        green: Some(green),
        note: None,
    })
}
