//! What holds of the journal over each run. Each law is the contract of a function that does
//! nothing but cite laws of one step.

ghost use Rattle.peer_journal_laws.specs.Keeps.{KeepsBeforeItSends, NumbersAreKept};
ghost use Rattle.peer_journal_laws.specs.Marks.{MarksAreKept};
ghost use Rattle.peer_journal_laws.specs.Pieces.{EarlierAreKept, EndedAreGone, HeldOnceInRuns};
ghost use Rattle.peer_journal_laws.specs.Pieces.{PiecesAreKept};
ghost use Rattle.peer_journal_laws.specs.Steps.{StepsInTurn};
ghost use Rattle.peer_journal_laws.specs.Stops.{HasAllAtDatagrams};
ghost use Rattle.peer_journal_laws.specs.Resumes.{AddsAgainInOrder, AddsAgainOnce, AddsWhileRoomInRuns};
ghost use Rattle.peer_journal_laws.specs.Resumes.{ResumesWhatIsKept};

/// In each half of a run, at each datagram that goes out, sent or lost, what the acts so far say is
/// kept is what the run knows after all steps of that half, whatever they say of the greatest id.
pub fn keeps_before_it_sends()
    ensures { KeepsBeforeItSends }
{}

/// After all steps of a half the number of a face's next session isn't above what is reserved, so
/// each number that was given is below that when a datagram goes out.
pub fn numbers_are_kept()
    ensures { NumbersAreKept }
{
    peer_records::laws::numbers_are_reserved();
}

/// The steps of a run are all that changes what it knows of its journal, but for the numbers that
/// each half reserves: what is known before each step is what is known after the one before it.
pub fn steps_are_in_turn()
    ensures { StepsInTurn }
{}

/// Each piece that a step of a run adds is pending under an id of its own, and stays so until a
/// step with which the session of its block ended. So does each that was pending when the run
/// began.
pub fn pieces_are_kept()
    ensures added { PiecesAreKept }
    ensures earlier { EarlierAreKept }
{
    peer_records::laws::pieces_are_pending();
}

/// After each step of a run an id waits at one face, or is in one session, or neither, and while it
/// does its piece is pending: no piece is in two blocks. What earlier runs kept is legal, as what is
/// read of a journal is.
pub fn held_once()
    ensures { HeldOnceInRuns }
{}

/// Once the session of a piece's block has ended with a step of a run, the piece is pending no
/// longer, whatever comes after it. What earlier runs kept is legal, as what is read of a journal
/// is.
pub fn ended_are_gone()
    ensures { EndedAreGone }
{}

/// What a half of a run adds of earlier runs are pieces that are pending, each once in the half.
/// Nothing is recorded with that, and the same is kept.
pub fn resumes_what_is_kept()
    ensures { ResumesWhatIsKept }
{}

/// In each half of a run pieces of earlier runs are added until there is no room for the next one.
/// What earlier runs kept is legal, as what is read of a journal is.
pub fn adds_while_room()
    ensures { AddsWhileRoomInRuns }
{}

/// At each face a run adds the pieces that earlier runs kept in the order of their ids, each once,
/// and what it hasn't added is still to be. What earlier runs kept is legal, as what is read of a
/// journal is.
pub fn adds_again_once()
    ensures in_order { AddsAgainInOrder }
    ensures once { AddsAgainOnce }
{}

/// A session of the peer on which a report went out before it was handed up is marked, until a step
/// with which it was over, or 1,024 later marks of its face.
pub fn marks_are_kept()
    ensures { MarksAreKept }
{
    peer_records::laws::report_is_marked();
    gate_records::laws::mark_stays();
    peer_records::laws::only_over_is_cleared();
}

/// So whenever the gateway stops: at each datagram that goes out in a run with a journal, what the
/// acts so far say is kept has each piece that was added, by this run or an earlier one, and whose
/// session hasn't ended; the marks; and the numbers that were given.
pub fn has_all_at_datagrams()
    ensures { HasAllAtDatagrams }
{
    peer_records::laws::pieces_are_pending();
    peer_records::laws::report_is_marked();
    gate_records::laws::mark_stays();
    peer_records::laws::only_over_is_cleared();
    peer_records::laws::numbers_are_reserved();
}
