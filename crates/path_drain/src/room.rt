//! What holds of the room on a path.

ghost use Rattle.path_drain.specs.Owing.{OwedHavePlace, RoomStarts, SubmitsAreOwed};
ghost use Rattle.path_drain.specs.Pieces.{CasesAreNoted, PassageKeepsPieces, PathNotesCases};
ghost use Rattle.path_drain.specs.Pieces.{PiecesAreCounted, StorageIsOfLength};
ghost use Rattle.path_drain.specs.RoomKept.{NodesSendRed, RoomIsKept};

/// A hop changes no record's number of pieces.
pub fn a_hop_keeps_the_number_of_pieces()
    ensures { PassageKeepsPieces }
{}

/// A block that goes on becomes as many pieces as it was counted for while it was on its way, and
/// any other none.
pub fn pieces_are_counted()
    ensures { PiecesAreCounted }
{}

/// Where the other face has a session for each piece, a bundle is stopped for want of storage only
/// since a piece of it is longer than a session carries.
pub fn storage_is_of_length()
    ensures { StorageIsOfLength }
{}

/// Each block that a face hands up has its case noted in the same step.
pub fn cases_are_noted()
    ensures { CasesAreNoted }
{}

/// So it is with each event of a path, whatever state it is in.
pub fn path_notes_cases()
    ensures { PathNotesCases }
{}

/// Whatever happens on a path, the nodes send every block all red.
pub fn nodes_send_red()
    ensures { NodesSendRed }
{}

/// A path with room, and with 64 session numbers left at each face, has room for all that it will
/// begin.
pub fn room_starts()
    ensures { RoomStarts }
{}

/// A block whose session was counted is refused neither for want of a place nor of a number, where
/// the face sends 64 sessions at once, or more.
pub fn owed_have_place()
    ensures { OwedHavePlace }
{}

/// Each block that the gate submits takes the place that was counted for it.
pub fn submits_are_owed()
    ensures { SubmitsAreOwed }
{}

/// In a drain each event leaves room for all that is still on its way. Each link has room after
/// each block that the gate submits; no session is closed to make room, and none finds the record
/// of closed numbers full; storage is short only for a piece that is too long; and a report that
/// is asked for isn't made only while the clock shows less than a second, or once its numbers are
/// spent.
pub fn room_is_kept()
    ensures { RoomIsKept }
{}
