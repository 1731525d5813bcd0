//! The sessions that an engine began, by their numbers.

ghost use Rattle.std.specs.Prelude.{◌≡◌, ◌<◌, ◌^◌, ◌∷◌, [], None, false, IfOk, OnOk, OnErr};
ghost use Rattle.ltp_segment.specs.Legal.{IsReport};
ghost use Rattle.ltp_segment.specs.PolicyViews.{policy_value};
ghost use Rattle.ltp_segment.specs.Values.{a_report_ack, a_receiver_cancel_ack};
ghost use Rattle.ltp_segment.specs.Views.{report_value};
ghost use Rattle.std.specs.BTreeMap.{keys, IsOrdered};
ghost use Rattle.std.specs.Ordering.{nat_cmp};
ghost use Rattle.ltp_session.specs.Step.{Sends};
ghost use Rattle.ltp_session.specs.Table.{find, ticked};
ghost use Rattle.ltp_session.specs.Engine.{tick_segments, tick_remarks, least_deadline};
ghost use Rattle.ltp_session.specs.Sender.{on_report, on_receiver_cancel, on_sender_cancel_ack};
ghost use Rattle.ltp_session.specs.Sender.{on_sender_tick, sender_deadline};
ghost use Rattle.ltp_session.specs.Views.{datagrams_of};
ghost use Rattle.ltp_engine.specs.Sessions.{is_open};
ghost use Rattle.ltp_engine.specs.Tables.{table_of, live_all, AreLive, Does, swept, with_begun};
ghost use Rattle.ltp_engine.specs.Ticks.{sender_change, sender_ticked, with_ticks};

use crate::deadlines::earlier;
use crate::effects::Effects;
use crate::terms::Terms;
use ltp_segment::{Outs, ReportView, Step, write_ack, write_cancel_ack};
use ltp_sender::Sender;
use std::alloc::AllocError;
use std::collections::BTreeMap;

/// Sending sessions by their numbers. None of them is over.
pub(crate) type Senders = BTreeMap<u64, Sender>;

/// The acknowledgement of a report for a session that isn't kept.
fn acknowledged(terms: Terms, n: u64, serial: u64) -> Result<Step, AllocError>
    ensures { IfOk result (λ step. step ≡ record {
      out = datagrams_of (record { originator = terms.originator; number = n })
          (a_report_ack serial ∷ []);
      up = None;
      green = None;
      note = None;
    }) }
{
    let mut out = Outs::new(terms.alloc);
    out.push(write_ack(terms.alloc, terms.originator, n, serial)?)?;
    Ok(Step::sending(out))
}

/// The acknowledgement of a receiver's cancel for a session that isn't kept.
fn cancel_acknowledged(terms: Terms, n: u64) -> Result<Step, AllocError>
    ensures { IfOk result (λ step. step ≡ record {
      out = datagrams_of (record { originator = terms.originator; number = n })
          (a_receiver_cancel_ack ∷ []);
      up = None;
      green = None;
      note = None;
    }) }
{
    let mut out = Outs::new(terms.alloc);
    out.push(write_cancel_ack(terms.alloc, terms.originator, n, false)?)?;
    Ok(Step::sending(out))
}

/// A session that begins is kept, where it isn't over at once.
pub(crate) fn keep(senders: &mut Senders, n: u64, sender: Sender) -> Result<(), AllocError>
    requires { sender.spent ≡ false }
    ensures { OnOk result (senders.new.entries ≡ with_begun n sender senders.old.entries) }
{
    if sender.is_over() {
        return Ok(());
    }
    if senders.insert(n, sender).is_err() {
        return Err(AllocError);
    }
    Ok(())
}

/// Takes a session out where it is over.
fn sweep(senders: &mut Senders, n: u64, over: bool)
    ensures { senders.new.entries ≡ swept n over senders.old.entries }
{
    if over {
        senders.remove(&n);
    }
}

/// A report came for a session.
pub(crate) fn report(
    senders: &mut Senders,
    terms: Terms,
    n: u64,
    report: ReportView<'_>,
    now: u64,
) -> Result<Step, AllocError>
    requires live { AreLive terms.originator (policy_value terms.policy) senders.old.entries }
    requires legal { IsReport (report_value report) }
    requires moment { now < 2 ^ 62 }
    ensures does { IfOk result (Does terms.originator (policy_value terms.policy) n
        (on_report (policy_value terms.policy) (find n (table_of senders.old.entries))
        (report_value report.entry) now) senders.old.entries senders.new.entries) }
    ensures wanted { OnErr result (Sends (on_report (policy_value terms.policy)
        (find n (table_of senders.old.entries)) (report_value report.entry) now)) }
{
    let Some(sender) = senders.get_mut(&n) else {
        return acknowledged(terms, n, report.serial);
    };
    let step = sender.report(report, now)?;
    let over = sender.is_over();
    sweep(senders, n, over);
    Ok(step)
}

/// The receiver's cancel came for a session.
pub(crate) fn cancelled(
    senders: &mut Senders,
    terms: Terms,
    n: u64,
    reason: u8,
) -> Result<Step, AllocError>
    requires live { AreLive terms.originator (policy_value terms.policy) senders.old.entries }
    ensures does { IfOk result (Does terms.originator (policy_value terms.policy) n
        (on_receiver_cancel (find n (table_of senders.old.entries)) reason)
        senders.old.entries senders.new.entries) }
    ensures wanted { OnErr result
        (Sends (on_receiver_cancel (find n (table_of senders.old.entries)) reason)) }
{
    let Some(sender) = senders.get_mut(&n) else {
        return cancel_acknowledged(terms, n);
    };
    let step = sender.cancelled(reason)?;
    let over = sender.is_over();
    sweep(senders, n, over);
    Ok(step)
}

/// The acknowledgement of a cancel came for a session.
pub(crate) fn cancel_came(senders: &mut Senders, terms: Terms, n: u64) -> Step
    requires live { AreLive terms.originator (policy_value terms.policy) senders.old.entries }
    ensures { Does terms.originator (policy_value terms.policy) n
        (on_sender_cancel_ack (find n (table_of senders.old.entries)))
        senders.old.entries senders.new.entries result }
{
    let Some(sender) = senders.get_mut(&n) else {
        return Step::sending(Outs::new(terms.alloc));
    };
    sender.cancel_acknowledged();
    let over = sender.is_over();
    sweep(senders, n, over);
    Step::sending(Outs::new(terms.alloc))
}

/// Time has passed for a session.
pub(crate) fn tick_one(
    senders: &mut Senders,
    terms: Terms,
    n: u64,
    now: u64,
) -> Result<Step, AllocError>
    requires live { AreLive terms.originator (policy_value terms.policy) senders.old.entries }
    requires moment { now < 2 ^ 62 }
    ensures ordered { IsOrdered nat_cmp senders.old }
    ensures did { IfOk result (Does terms.originator (policy_value terms.policy) n
        (on_sender_tick (policy_value terms.policy) (find n (table_of senders.old.entries)) now)
        senders.old.entries senders.new.entries) }
{
    let Some(sender) = senders.get_mut(&n) else {
        return Ok(Step::sending(Outs::new(terms.alloc)));
    };
    let step = sender.tick(now)?;
    let over = sender.is_over();
    sweep(senders, n, over);
    Ok(step)
}

/// The numbers of the sessions, in ascending order.
fn numbers(terms: Terms, senders: &Senders) -> Result<Vec<u64>, AllocError>
    ensures { IfOk result (λ numbers. numbers.items ≡ keys senders.now) }
{
    senders.keys().copied().collect(terms.alloc)
}

/// Time has passed for all sessions, in ascending order.
pub(crate) fn tick(
    senders: &mut Senders,
    terms: Terms,
    now: u64,
    effects: Effects,
) -> Result<Effects, AllocError>
    requires live { AreLive terms.originator (policy_value terms.policy) senders.old.entries }
    requires moment { now < 2 ^ 62 }
    ensures next { OnOk result (senders.new.entries
        ≡ live_all terms.originator (policy_value terms.policy)
        (ticked (sender_change (policy_value terms.policy) now)
        (table_of senders.old.entries))) }
    ensures effects { IfOk result (λ told. told ≡ with_ticks effects
        (tick_segments (sender_ticked (policy_value terms.policy) now) terms.originator
        (table_of senders.old.entries))
        (tick_remarks (sender_ticked (policy_value terms.policy) now)
        (table_of senders.old.entries))) }
{
    let mut told = effects;
    'sessions: for n in numbers(terms, senders)? {
        let step = tick_one(senders, terms, n, now)?;
        told = told.add(terms.alloc, step)?;
    }
    Ok(told)
}

/// Whether a session is open: kept, and not cancelling.
pub(crate) fn is_open(senders: &Senders, terms: Terms, n: u64) -> bool
    requires { AreLive terms.originator (policy_value terms.policy) senders.now.entries }
    ensures { result ≡ is_open n (table_of senders.now.entries) }
{
    let _ = terms;
    match senders.get(&n) {
        None => false,
        Some(sender) => sender.is_open(),
    }
}

/// The least deadline.
pub(crate) fn next_deadline(senders: &Senders, terms: Terms) -> Option<u64>
    requires { AreLive terms.originator (policy_value terms.policy) senders.now.entries }
    ensures { result ≡ least_deadline sender_deadline (table_of senders.now.entries) }
{
    let mut least = None;
    'sessions: for sender in senders.values() {
        least = earlier(least, sender.deadline());
    }
    least
}
