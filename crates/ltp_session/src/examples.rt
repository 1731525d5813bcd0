//! Short runs of the definitions, computed. A definition that changes one of them is seen on the
//! day when it does.

ghost use Rattle.std.specs.Prelude.{◌≡◌, ◌∷◌, [], true, false, None, Some};
ghost use Rattle.ltp_segment.specs.declared.segment.PieceKind.TheVariants as kinds;
ghost use Rattle.ltp_segment.specs.declared.session.Note.TheVariants as notes;
ghost use Rattle.ltp_segment.specs.Values.{a_report_ack, a_sender_cancel, a_receiver_cancel, a_sender_cancel_ack};
ghost use Rattle.ltp_session.specs.Cells.{filled};
ghost use Rattle.ltp_session.specs.Claims.{report_within, claims_below};
ghost use Rattle.ltp_session.specs.Step.{StepValue, note_closed, note_history_full};
ghost use Rattle.ltp_session.specs.Sender.{report_step};
ghost use Rattle.ltp_session.specs.Receiver.{on_piece};
ghost use Rattle.ltp_session.specs.World.{first_end, second_end, submit, deliver, clock};
ghost use Rattle.ltp_session.specs.Examples.{policy, piece_value, piece, claim, report_value, report, late_segment, world_after, contents_sent, comes, ticks_at, effects_of, engine_after, effects, opens, all_notes, sending_with};

/// The middle one of three segments comes late. Its place is reported open, and it alone is sent
/// again; the red part is handed up as it comes, and all is over once the next report is
/// acknowledged.
pub fn a_late_segment_is_sent_again()
    ensures { contents_sent (world_after late_segment)
        ≡ piece kinds.Red 0 0 0 (7 ∷ 8 ∷ [])
        ∷ piece kinds.Red 2 0 0 (9 ∷ 10 ∷ [])
        ∷ piece kinds.RedEndBlock 4 2 0 (11 ∷ [])
        ∷ report 2 2 5 (claim 0 2 ∷ claim 4 1 ∷ [])
        ∷ a_report_ack 2
        ∷ piece kinds.RedCheckpoint 2 3 2 (9 ∷ 10 ∷ [])
        ∷ report 3 3 5 (claim 0 5 ∷ [])
        ∷ a_report_ack 3
        ∷ [] }
{}

/// After that run the sender keeps nothing, and the receiver has closed the number.
pub fn a_claimed_session_is_over()
    ensures senders { (world_after late_segment).engines.0.senders ≡ [] }
    ensures receivers { (world_after late_segment).engines.1.receivers ≡ [] }
    ensures closed { (world_after late_segment).engines.1.closed ≡ 1 ∷ [] }
{}

/// A report that names another checkpoint than the current one is acknowledged and begins no round.
pub fn another_checkpoint_begins_no_round()
    ensures { (report_step policy (sending_with 2) (report_value 2 9 3 (claim 0 2 ∷ [])) 0).out
        ≡ a_report_ack 2 ∷ [] }
{}

/// A session that has used up its serial numbers is given up with reason 4.
pub fn the_last_serial_ends_the_rounds()
    ensures { (report_step policy (sending_with 4294967295)
        (report_value 2 4294967295 3 (claim 0 2 ∷ [])) 0).out
        ≡ a_report_ack 2 ∷ a_sender_cancel 4 ∷ [] }
{}

/// Nothing arrives: the checkpoint is sent again at 10, and given up at 25 with reason 2.
pub fn waits_grow_up_to_the_cap()
    ensures { contents_sent (world_after (submit first_end (7 ∷ 8 ∷ []) 2
        ∷ clock 9 ∷ clock 10 ∷ clock 24 ∷ clock 25 ∷ deliver 2 ∷ deliver 3 ∷ clock 40 ∷ []))
        ≡ piece kinds.RedEndBlock 0 2 0 (7 ∷ 8 ∷ [])
        ∷ piece kinds.RedEndBlock 0 2 0 (7 ∷ 8 ∷ [])
        ∷ a_sender_cancel 2
        ∷ a_sender_cancel_ack
        ∷ [] }
{}

/// A block of two parts: the red part ends with a checkpoint, the block with the last green piece.
pub fn green_pieces_follow_the_red_part()
    ensures { contents_sent (world_after (submit first_end (7 ∷ 8 ∷ 9 ∷ 10 ∷ []) 1 ∷ []))
        ≡ piece kinds.RedEnd 0 2 0 (7 ∷ [])
        ∷ piece kinds.Green 1 0 0 (8 ∷ 9 ∷ [])
        ∷ piece kinds.GreenEndBlock 3 0 0 (10 ∷ [])
        ∷ [] }
{}

/// A red part of one piece is reported and handed up, reported again as long as nothing answers,
/// and closed by the acknowledgement.
pub fn a_whole_part_is_handed_up_once()
    ensures { effects_of (comes 7 (piece kinds.RedEndBlock 0 3 0 (97 ∷ 98 ∷ 99 ∷ []))
        ∷ ticks_at 9 ∷ ticks_at 10 ∷ comes 7 (a_report_ack 8)
        ∷ comes 7 (piece kinds.RedEndBlock 0 3 0 (97 ∷ 98 ∷ 99 ∷ [])) ∷ [])
        ≡ effects 7 (report 8 3 3 (claim 0 3 ∷ []) ∷ []) ((97 ∷ 98 ∷ 99 ∷ []) ∷ []) []
        ∷ effects 7 [] [] []
        ∷ effects 7 (report 8 3 3 (claim 0 3 ∷ []) ∷ []) [] []
        ∷ effects 7 [] [] []
        ∷ effects 7 [] [] (notes.Closed 7 ∷ [])
        ∷ [] }
{}

/// The red part can't end below an octet that came, nor green data begin there.
pub fn bounds_and_colours_are_tested()
    ensures { effects_of (comes 7 (piece kinds.Red 0 0 0 (97 ∷ 98 ∷ 99 ∷ []))
        ∷ comes 7 (piece kinds.RedEnd 0 8 0 (97 ∷ 98 ∷ []))
        ∷ comes 7 (piece kinds.Green 1 0 0 (98 ∷ [])) ∷ [])
        ≡ effects 7 [] [] []
        ∷ effects 7 [] [] (notes.BadBounds 7 ∷ [])
        ∷ effects 7 (a_receiver_cancel 3 ∷ []) [] (notes.Failed 7 3 ∷ [])
        ∷ [] }
{}

/// The first octet that comes for a place stays.
pub fn the_first_octet_stays()
    ensures { filled (filled [] 0 (1 ∷ 2 ∷ 3 ∷ [])) 2 (8 ∷ 9 ∷ [])
        ≡ Some 1 ∷ Some 2 ∷ Some 3 ∷ Some 9 ∷ [] }
{}

/// A report that may make two claims reaches its bound with two, and is cut with the third.
pub fn claims_are_cut_after_the_last()
    ensures two { report_within 2 8 3 5 (claims_below 5 (Some 1 ∷ None ∷ Some 3 ∷ []))
        ≡ report_value 8 3 5 (claim 0 1 ∷ claim 2 1 ∷ []) }
    ensures three { report_within 2 8 3 5
        (claims_below 5 (Some 1 ∷ None ∷ Some 3 ∷ None ∷ Some 5 ∷ []))
        ≡ report_value 8 3 3 (claim 0 1 ∷ claim 2 1 ∷ []) }
{}

/// Octets past the upper bound are not claimed.
pub fn claims_end_at_the_bound()
    ensures { claims_below 2 (Some 1 ∷ Some 2 ∷ Some 3 ∷ []) ≡ claim 0 2 ∷ [] }
{}

/// The 65th session takes the place of the one longest untouched.
pub fn the_65th_session_evicts_the_first()
    ensures { all_notes (effects_of (opens 1 65)) ≡ notes.Evicted 1 ∷ [] }
{}

/// A closed number is told before a record that is full.
pub fn closed_comes_before_full()
    ensures closed { (on_piece policy
        (record { session = 7; most = 100; closed = true; full = true })
        None (piece_value kinds.Red 0 0 0 (97 ∷ [])) 0).note ≡ Some note_closed }
    ensures full { (on_piece policy
        (record { session = 7; most = 100; closed = false; full = true })
        None (piece_value kinds.Red 0 0 0 (97 ∷ [])) 0).note ≡ Some note_history_full }
{}
