//! The parts of a half of a run among other implementations.

ghost use Rattle.std.specs.Prelude.{◌≡◌, ◌++◌, ◌<◌, ◌^◌, ℕ, ◌==◌, [], not, Some, length, map, flat_map, option_map, IfOk, IfSome, OnErr, OnOk};
ghost use Rattle.std.specs.String.{string_bytes};
ghost use Rattle.gate_log.specs.declared.event.Event.TheVariants as events;
ghost use Rattle.gate_log.specs.Lines.{line_of};
ghost use Rattle.outbox.specs.Outbox.{next_of};
ghost use Rattle.gate_face.specs.Halves.{taking};
ghost use Rattle.peer_half.specs.Standing.{Standing, doing_at, face_of, wall_of};
ghost use Rattle.peer_half.specs.Parts as parts;
ghost use Rattle.peer_half.specs.Journals.{anew_in, is_large, kept_in};
ghost use Rattle.journal_file.specs.Length.{entries_length, gate_of};
ghost use Rattle.peer_half.specs.Journals.{past_commit, records_in};
ghost use Rattle.journal_file.specs.Ties.{kept_of, record_of};
ghost use Rattle.peer_parts.specs.Quiet.{NothingKept, NothingLost, NothingRecorded, NothingSaid};

use endpoint::Octets;
use gate_cases::Face;
use journal_file::{Kept, Record};
use outbox::Reading;
use std::alloc::AllocError;

/// A gateway at work among other implementations, driven part by part through the halves of a run. After want
/// of memory each part that may want some answers with that again. Till then, memory is wanted only where
/// `specs/Quiet.antt` doesn't say that there is nothing to do.
pub trait HalfParts {
    // It stands for a run of the definition that stands so.
    ghost Shows: { Self → Standing → Type 0 };

    /// The clocks are read, and the wall clock shows less than 2^62. Memory is wanted only where a line is
    /// said.
    fn read(&mut self, reading: Reading) -> Result<(), AllocError>
        requires { reading.wall < 2 ^ 62 }
        ensures after { OnOk result ((s : Standing)
            → Shows self.old s → Shows self.new (parts.reads reading s)) }
        ensures wanted { OnErr result ((s : Standing)
            → Shows self.old s → NothingSaid reading s → ⊥) };

    /// Pieces of earlier runs are added, as long as there is room for them. Memory is wanted only where one
    /// is still to be added.
    fn resume(&mut self) -> Result<(), AllocError>
        ensures after { OnOk result ((s : Standing)
            → Shows self.old s → Shows self.new (parts.resumes s)) }
        ensures wanted { OnErr result ((s : Standing) → Shows self.old s → NothingKept s → ⊥) };

    /// Time passes.
    fn tick(&mut self) -> Result<(), AllocError>
        ensures { OnOk result ((s : Standing)
            → Shows self.old s → Shows self.new (parts.ticks s)) };

    /// A datagram comes at a face.
    fn arrive(&mut self, face: Face, datagram: &[u8]) -> Result<(), AllocError>
        ensures { OnOk result ((s : Standing)
            → Shows self.old s → Shows self.new (parts.arrives face datagram.now s)) };

    /// The last poll of the half failed.
    fn poll_failed(&mut self, face: Face) -> Result<(), AllocError>
        ensures { OnOk result ((s : Standing)
            → Shows self.old s → Shows self.new (parts.fails_polling face s)) };

    /// So many datagrams from elsewhere were dropped at a face by the polls of the half. It takes no memory.
    fn foreign(&mut self, face: Face, datagrams: u64)
        ensures { (s : Standing)
            → Shows self.old s → Shows self.new (parts.drops_foreign face datagrams s) };

    /// The last records of the half: session numbers are reserved. Without a journal there are none. Memory is
    /// wanted only where there is a record.
    fn reserve(&mut self) -> Result<(), AllocError>
        ensures after { OnOk result ((s : Standing)
            → Shows self.old s → Shows self.new (parts.reserves s)) }
        ensures wanted { OnErr result ((s : Standing) → Shows self.old s → NothingRecorded s → ⊥) };

    /// Whether there are records of the half that are to be committed. It takes no memory.
    fn has_records(&self) -> bool
        ensures { (s : Standing)
            → Shows self.now s → result ≡ not (length (records_in s.journal) == 0) };

    /// The records of the half that are to be committed, in their order. Memory is wanted only where there
    /// are some.
    fn records(&self) -> Result<Vec<Record<'_>>, AllocError>
        ensures those { IfOk result (λ records. (s : Standing)
            → Shows self.now s → map record_of records.items ≡ records_in s.journal) }
        ensures wanted { OnErr result ((s : Standing)
            → Shows self.now s → records_in s.journal ≡ [] → ⊥) };

    /// They were committed, and the gate of the journal's file moved on by so many octets. It takes no
    /// memory.
    fn committed(&mut self, octets: usize)
        ensures { (s : Standing) → Shows self.old s → octets ≡ entries_length (records_in s.journal)
            → Shows self.new (record s { journal = past_commit s.journal }) };

    /// Whether the journal's file is to be made anew in this half. It takes no memory.
    fn is_large(&self) -> bool
        ensures { (s : Standing) → Shows self.now s → result ≡ is_large s.journal };

    /// What the journal keeps, where one is kept. It takes no memory.
    fn kept(&self) -> Option<&Kept>
        ensures { (s : Standing)
            → Shows self.now s → option_map (λ kept. kept_of kept.now) result ≡ kept_in s.journal };

    /// The journal's file was made anew of that, and its gate stands at this place. It takes no memory.
    fn installed(&mut self, place: usize)
        ensures { (s : Standing) → Shows self.old s → IfSome (kept_in s.journal) (λ kept. place ≡ gate_of kept)
            → Shows self.new (record s { journal = anew_in s.journal }) };

    /// How many datagrams wait at a face.
    fn waiting(&self, face: Face) -> usize
        ensures { (s : Standing)
            → Shows self.now s → result ≡ length ((face_of face s).outbox).waiting };

    /// Takes out the datagram that may go next at a face, if one may. It takes no memory.
    fn next(&mut self, face: Face) -> Option<Octets>
        ensures next { (s : Standing)
            → Shows self.old s → result ≡ next_of (face_of face s).outbox }
        ensures after { (s : Standing)
            → Shows self.old s → Shows self.new (doing_at face taking s) };

    /// A datagram that was taken out went, or its send failed. It takes no memory.
    fn gone(&mut self, face: Face, datagram: &Octets, failed: bool)
        ensures { (s : Standing)
            → Shows self.old s → Shows self.new (parts.goes face failed datagram.now s) };

    /// Both faces have sent: what went wrong there in this half is told. Memory is wanted only where something
    /// did.
    fn end_sending(&mut self) -> Result<(), AllocError>
        ensures after { OnOk result ((s : Standing)
            → Shows self.old s → Shows self.new (parts.ends_sending s)) }
        ensures wanted { OnErr result ((s : Standing) → Shows self.old s → NothingLost s → ⊥) };

    /// The lines of this half, end to end.
    fn text(&self) -> &str
        ensures { (s : Standing)
            → Shows self.now s → result.now ≡ flat_map (line_of (wall_of s)) s.said };

    /// Whether the metrics are to be written in this half. It takes no memory.
    fn is_due(&self) -> bool
        ensures { (s : Standing)
            → Shows self.now s → result ≡ parts.is_due s.shown (wall_of s) };

    /// Appends the text of the metrics, and remembers when it was written. Where memory runs out, a
    /// part of it may stand there.
    fn write_metrics(&mut self, text: &mut String) -> Result<(), AllocError>
        ensures after { OnOk result ((s : Standing)
            → Shows self.old s → Shows self.new (record s { shown = Some (wall_of s) })) }
        ensures text { OnOk result ((s : Standing) → Shows self.old s → string_bytes text.new
            ≡ string_bytes text.old ++ parts.text_in s) };

    /// Appends the line that says that the metrics couldn't be put in place. Where memory runs out, a
    /// part of it may stand there.
    fn write_metrics_failed(&self, text: &mut String) -> Result<(), AllocError>
        ensures { OnOk result ((s : Standing) → Shows self.now s → string_bytes text.new
            ≡ string_bytes text.old ++ line_of (wall_of s) events.MetricsFailed) };
}
