//! What a run of a path and a drain after it have done.

ghost use Rattle.path_drain.specs.Arrival.{WhatPassesArrives};
ghost use Rattle.path_drain.specs.CarriedOut.{DecisionsAreCarriedOut};
ghost use Rattle.path_drain.specs.Decided.{BegunAreDecided};
ghost use Rattle.path_drain.specs.Runs.{CaseNotesStandInRuns, CasesAreNotedInRuns};
ghost use Rattle.path_drain.specs.Runs.{HandedUpInRuns, RunsGoOn};
ghost use Rattle.path_drain.specs.WholeRun.{WholeRunsComplete};

/// Where a run goes on, what it begins, hands up and notes is added to what it did before.
pub fn runs_go_on()
    ensures { RunsGoOn }
{}

/// A receiver that is kept where a run led to, and has handed its block up, did so in an event of the
/// run.
pub fn handed_up_in_runs()
    ensures { HandedUpInRuns }
{}

/// Each block that a run hands up at the gate has its case noted by the same event, as the gate
/// decided then: by the clock, and by the room at its other face.
pub fn cases_are_noted_in_runs()
    ensures { CasesAreNotedInRuns }
{}

/// So that note stands among those of the run.
pub fn case_notes_stand_in_runs()
    ensures { CaseNotesStandInRuns }
{}

/// Each piece and each report that a run begins at the gate is begun by the event that handed its
/// bundle up: a piece as the gate decided then, and a report as it was asked for then, with the
/// clock's moment and the counter's number.
pub fn begun_are_decided()
    ensures { BegunAreDecided }
{}

/// What the gate decides about a block it does, with the event that hands the block up and notes its
/// case: each piece of a bundle that passes begins a session at the other face, and a report that is
/// noted as made begins one at the face at which its subject came. No piece is refused there, whatever
/// happened before; and no report, where the gate's name has a text and the subject is of octets.
pub fn decisions_are_carried_out()
    ensures { DecisionsAreCarriedOut }
{}

/// Whatever happened on a path, sent, delivered, lost, repeated or late: where it is hopeful and has
/// room, and the clean events of a drain follow until none is left, these are no more than the
/// sessions cost. Each session that was open at its sender is noted as sent, and so is each that is
/// begun meanwhile; the whole block of each was handed up across its link, in the drain or before.
/// Each block that ever came whole to the gate has its case noted with it, as the gate decided then.
/// No timer runs at the end.
pub fn whole_runs_complete()
    ensures { WholeRunsComplete }
{}

/// Where a drain completes its sessions, each piece of a bundle that comes whole to the gate in it, and
/// passes, is handed up whole at the other end in it.
pub fn what_passes_arrives()
    ensures { WhatPassesArrives }
{}
