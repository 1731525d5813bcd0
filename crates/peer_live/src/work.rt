//! The gateway at work, while memory lasts.

ghost use Rattle.std.specs.Prelude.{◌≡◌, ◌==◌, ◌<◌, ◌^◌, ◌++◌, [], true, not, map, option_map, IfOk, IfSome, OnErr, OnOk, None, Some, flat_map, length};
ghost use Rattle.std.specs.String.{string_bytes};
ghost use Rattle.gate_log.specs.declared.event.Event.TheVariants as events;
ghost use Rattle.gate_log.specs.Lines.{line_of};
ghost use Rattle.gate_face.specs.Contacts.{told_at};
ghost use Rattle.gate_face.specs.Halves.{taking};
ghost use Rattle.outbox.specs.Outbox.{next_of};
ghost use Rattle.journal_file.specs.Length.{entries_length, gate_of};
ghost use Rattle.journal_file.specs.Ties.{kept_of, record_of};
ghost use Rattle.peer_events.specs.Named.{AllNamed};
ghost use Rattle.peer_half.specs.Setup.{IsRunnable, used_up};
ghost use Rattle.peer_half.specs.Journals.{anew_in, is_large, kept_in, past_commit, records_in};
ghost use Rattle.peer_half.specs.Standing.{Standing, doing_at, face_of, saying, starts_empty, wall_of};
ghost use Rattle.peer_half.specs.Starts.{cancels_in, starts_at};
ghost use Rattle.peer_half.specs.Parts as parts;
ghost use Rattle.peer_parts.specs.Quiet.{NothingLost, NothingRecorded, NothingSaid};

use crate::journal::Journal;
use crate::kept::Kept;
use crate::marked::marked_at;
use crate::moments::same;
use crate::recording;
use crate::setup::{config_of, journal_of};
use endpoint::Octets;
use gate_cases::Face;
use gate_config::GateFile;
use gate_log::{Event, LinkEvent, write_line};
use gate_metrics::{Counted, FaceGauges, Gauges, write_peer_metrics};
use journal_file::{Kept as JournalKept, Record};
use outbox::Reading;
use peer_gateway::{Moments, PeerAnswer, PeerGateway};
use peer_records::StepDone;
use std::alloc::{AllocError, Global};

/// The metrics are written again after so many milliseconds.
const BETWEEN_METRICS: u64 = 10_000;

/// A gateway at work, while memory lasts.
#[derive(Debug, Drop)]
pub(crate) struct Work {
    pub alloc: Global,
    pub gate: PeerGateway,
    /// The moments of this half.
    pub moments: Moments,
    pub kept: Kept,
    /// What is known of the journal, where one is kept.
    pub journal: Option<Journal>,
    /// The numbers of the first sessions.
    old_first: u64,
    new_first: u64,
    /// Whether the line `start` was said.
    started: bool,
    /// What the wall clock showed when the metrics were written last.
    shown: Option<u64>,
}

impl Work {
    ghost use Rattle.peer_live.specs.Shows.{Does, IsWhole, ShowsWork, reads_clocks, records, sends_out, settles};

    // ---- before the first half

    /// Before the first half, at whose reading the wall clock shows this. The sessions that earlier runs had
    /// claimed in part are cancelled.
    pub fn new(
        alloc: Global,
        file: &GateFile,
        kept: Option<JournalKept>,
        wall: u64,
    ) -> Result<Work, AllocError>
        requires runnable { IsRunnable file.now }
        requires left { used_up file.now (option_map kept_of kept) wall ≡ None }
        requires small { wall < 2 ^ 62 }
        ensures whole { IfOk result IsWhole }
        ensures shows { IfOk result (λ work.
            ShowsWork work (starts_at file.now (option_map kept_of kept) wall)) }
    {
        let begun = Work::empty(alloc, file, kept, wall)?;
        let (mut work, cancels) = begun;
        work.send(cancels)?;
        Ok(work)
    }

    /// The same before anything is sent, with the cancels that are to be.
    fn empty(
        alloc: Global,
        file: &GateFile,
        kept: Option<JournalKept>,
        wall: u64,
    ) -> Result<(Work, PeerAnswer), AllocError>
        requires runnable { IsRunnable file.now }
        requires left { used_up file.now (option_map kept_of kept) wall ≡ None }
        requires small { wall < 2 ^ 62 }
        ensures whole { IfOk result (λ r. IsWhole r.0) }
        ensures shows { IfOk result (λ r.
            ShowsWork r.0 (starts_empty file.now (option_map kept_of kept) wall)) }
        ensures cancels { IfOk result (λ r.
            r.1 ≡ cancels_in (starts_empty file.now (option_map kept_of kept) wall)) }
    {
        let config = config_of(alloc, file, &kept, wall)?;
        let (old_first, new_first) = (config.old.first_session, config.new.first_session);
        let journal = journal_of(alloc, file, kept, wall)?;
        let old_marks = marked_at(alloc, &journal, Face::Old)?;
        let new_marks = marked_at(alloc, &journal, Face::New)?;
        let moments = same(wall);
        let (gate, cancels) = PeerGateway::new(
            alloc,
            config,
            old_marks.as_slice(),
            new_marks.as_slice(),
            moments,
        )?;
        let kept = Kept::new(alloc, file, wall)?;
        let work = Work {
            alloc,
            gate,
            moments,
            kept,
            journal,
            old_first,
            new_first,
            started: false,
            shown: None,
        };
        Ok((work, cancels))
    }

    /// Each datagram that the gateway made is put or dropped, as it says.
    fn send(&mut self, answer: PeerAnswer) -> Result<(), AllocError>
        requires { IsWhole self.old }
        ensures { OnOk result (Does self.old self.new (sends_out answer)) }
    {
        self.kept.put_all(self.alloc, answer)
    }

    // ---- a half

    /// The clocks are read. Memory is wanted only where a line is said.
    pub fn read(&mut self, reading: Reading) -> Result<(), AllocError>
        requires whole { IsWhole self.old }
        requires small { reading.wall < 2 ^ 62 }
        ensures after { OnOk result (Does self.old self.new (parts.reads reading)) }
        ensures wanted { OnErr result ((s : Standing) → ShowsWork self.old s → NothingSaid reading s → ⊥) }
    {
        self.read_clocks(reading)?;
        self.start()
    }

    /// The clocks are read, and what there is to tell of the contacts is said.
    fn read_clocks(&mut self, reading: Reading) -> Result<(), AllocError>
        requires whole { IsWhole self.old }
        requires small { reading.wall < 2 ^ 62 }
        ensures after { OnOk result (Does self.old self.new (reads_clocks reading)) }
        ensures started { self.new.started ≡ self.old.started }
        ensures wanted { OnErr result (told_at ((self.old).kept.faces.0).outbox reading ≡ None
            → told_at ((self.old).kept.faces.1).outbox reading ≡ None → ⊥) }
    {
        let of_faces = self.kept.read(reading)?;
        let (old, new) = of_faces;
        let wall = reading.wall;
        self.moments = Moments { wall, old, new };
        Ok(())
    }

    /// The line `start`, in the first half. Memory is wanted only there.
    fn start(&mut self) -> Result<(), AllocError>
        requires { IsWhole self.old }
        ensures after { OnOk result (Does self.old self.new parts.starting) }
        ensures wanted { OnErr result (self.old.started ≡ true → ⊥) }
    {
        if self.started {
            return Ok(());
        }
        self.started = true;
        self.kept.say(&Event::Start {
            old: self.old_first,
            new: self.new_first,
            marks: recording::marks(&self.journal) as u64,
            pending: recording::pending(&self.journal) as u64,
        })
    }

    /// Time passes.
    pub fn tick(&mut self) -> Result<(), AllocError>
        requires { IsWhole self.old }
        ensures { OnOk result (Does self.old self.new parts.ticks) }
    {
        let octets = self.kept.octets();
        let answer = self.gate.tick(self.moments, octets)?;
        self.settle(None, answer)
    }

    /// A datagram comes at a face.
    pub fn arrive(&mut self, face: Face, datagram: &[u8]) -> Result<(), AllocError>
        requires { IsWhole self.old }
        ensures { OnOk result (Does self.old self.new (parts.arrives face datagram.now)) }
    {
        let received = datagram.len() as u64;
        self.kept
            .count(face, Counted::Received { octets: received });
        let octets = self.kept.octets();
        let answer = self.gate.arrive(face, datagram, self.moments, octets)?;
        self.settle(None, answer)
    }

    /// What a step of the gateway answered is recorded, and then done. It was to add the piece of an
    /// earlier run with this id, or not.
    pub fn settle(&mut self, again: Option<u64>, answer: PeerAnswer) -> Result<(), AllocError>
        requires whole { IsWhole self.old }
        requires named { AllNamed answer.told }
        ensures { OnOk result (self.new ≡ settles again answer self.old) }
    {
        self.record(again, &answer)?;
        self.kept.tell(self.alloc, answer, &self.gate)
    }

    /// What a step of the gateway answered is recorded, where a journal is kept.
    fn record(&mut self, again: Option<u64>, answer: &PeerAnswer) -> Result<(), AllocError>
        requires { IsWhole self.old }
        ensures { OnOk result (self.new ≡ records again answer.now self.old) }
    {
        let step = StepDone {
            wall: self.moments.wall,
            own: self.kept.own.as_slice(),
            answer,
            again,
        };
        recording::record(self.alloc, &mut self.journal, &step, &self.gate)
    }

    /// The last poll of the half failed.
    pub fn poll_failed(&mut self, face: Face) -> Result<(), AllocError>
        requires { IsWhole self.old }
        ensures { OnOk result (Does self.old self.new (parts.fails_polling face)) }
    {
        let what = LinkEvent::PollFailed;
        self.kept.say(&Event::Link { face, what })
    }

    /// So many datagrams from elsewhere were dropped at a face by the polls of the half.
    pub fn foreign(&mut self, face: Face, datagrams: u64)
        ensures { IsWhole self.old → Does self.old self.new (parts.drops_foreign face datagrams) }
    {
        self.kept.count(face, Counted::Foreign { datagrams });
    }

    // ---- the journal

    /// The last records of the half: session numbers are reserved. Memory is wanted only where there is a record.
    pub fn reserve(&mut self) -> Result<(), AllocError>
        requires { IsWhole self.old }
        ensures after { OnOk result (Does self.old self.new parts.reserves) }
        ensures wanted { OnErr result ((s : Standing) → ShowsWork self.old s → NothingRecorded s → ⊥) }
    {
        let old = self.gate.next_session(Face::Old);
        let new = self.gate.next_session(Face::New);
        recording::reserve(self.alloc, &mut self.journal, old, new)
    }

    /// Whether there are records that are to be committed.
    pub fn has_records(&self) -> bool
        ensures { (s : Standing)
            → ShowsWork self.now s → result ≡ not (length (records_in s.journal) == 0) }
    {
        recording::has_records(&self.journal)
    }

    /// The records that are to be committed. Memory is wanted only where there are some.
    pub fn records(&self) -> Result<Vec<Record<'_>>, AllocError>
        ensures those { IfOk result (λ records. (s : Standing)
            → ShowsWork self.now s → map record_of records.items ≡ records_in s.journal) }
        ensures wanted { OnErr result ((s : Standing)
            → ShowsWork self.now s → records_in s.journal ≡ [] → ⊥) }
    {
        recording::records(self.alloc, &self.journal)
    }

    /// They were committed, and take so many octets.
    pub fn committed(&mut self, octets: usize)
        ensures whole { IsWhole self.old → IsWhole self.new }
        ensures goes { (s : Standing) → ShowsWork self.old s
            → octets ≡ entries_length (records_in s.journal)
            → ShowsWork self.new (record s { journal = past_commit s.journal }) }
    {
        recording::committed(&mut self.journal, octets);
    }

    /// Whether the journal's file is to be made anew.
    pub fn is_large(&self) -> bool
        ensures { (s : Standing) → ShowsWork self.now s → result ≡ is_large s.journal }
    {
        recording::is_large(&self.journal)
    }

    /// What the journal keeps, where one is kept.
    pub fn kept(&self) -> Option<&JournalKept>
        ensures { (s : Standing) → ShowsWork self.now s
            → option_map (λ kept. kept_of kept.now) result ≡ kept_in s.journal }
    {
        recording::kept(&self.journal)
    }

    /// The journal's file was made anew, and its gate stands there.
    pub fn installed(&mut self, place: usize)
        ensures whole { IsWhole self.old → IsWhole self.new }
        ensures goes { (s : Standing) → ShowsWork self.old s
            → IfSome (kept_in s.journal) (λ kept. place ≡ gate_of kept)
            → ShowsWork self.new (record s { journal = anew_in s.journal }) }
    {
        recording::installed(&mut self.journal, place);
    }

    // ---- a face sends

    /// How many datagrams wait at a face.
    pub fn waiting(&self, face: Face) -> usize
        ensures { (s : Standing)
            → ShowsWork self.now s → result ≡ length ((face_of face s).outbox).waiting }
    {
        self.kept.faces.at(face).outbox().len()
    }

    /// Takes out the datagram that may go next at a face, if one may.
    pub fn next(&mut self, face: Face) -> Option<Octets>
        ensures next { (s : Standing)
            → ShowsWork self.old s → result ≡ next_of (face_of face s).outbox }
        ensures after { IsWhole self.old → Does self.old self.new (doing_at face taking) }
    {
        self.kept.next(face)
    }

    /// A datagram that was taken out went, or its send failed.
    pub fn gone(&mut self, face: Face, datagram: &Octets, failed: bool)
        ensures { IsWhole self.old → Does self.old self.new (parts.goes face failed datagram.now) }
    {
        if failed {
            self.kept.lose(face);
        } else {
            let octets = datagram.len() as u64;
            self.kept.count(face, Counted::Sent { octets });
        }
    }

    /// Both faces have sent: what went wrong there in this half is told. Memory is wanted only where something did.
    pub fn end_sending(&mut self) -> Result<(), AllocError>
        requires { IsWhole self.old }
        ensures after { OnOk result (Does self.old self.new parts.ends_sending) }
        ensures wanted { OnErr result ((s : Standing) → ShowsWork self.old s → NothingLost s → ⊥) }
    {
        self.kept.say_troubles(Face::Old)?;
        self.kept.say_troubles(Face::New)
    }

    // ---- what is written

    /// The lines of this half, end to end.
    pub fn text(&self) -> &str
        ensures { (s : Standing)
            → ShowsWork self.now s → result.now ≡ flat_map (line_of (wall_of s)) s.said }
    {
        self.kept.log.text()
    }

    /// Whether the metrics are to be written in this half.
    pub fn is_due(&self) -> bool
        ensures { (s : Standing)
            → ShowsWork self.now s → result ≡ parts.is_due s.shown (wall_of s) }
    {
        match self.shown {
            Some(last) => self.moments.wall.saturating_sub(last) >= BETWEEN_METRICS,
            None => true,
        }
    }

    /// Appends the text of the metrics, and remembers when it was written.
    pub fn write_metrics(&mut self, text: &mut String) -> Result<(), AllocError>
        requires { IsWhole self.old }
        ensures after { OnOk result (Does self.old self.new
            (λ s. record s { shown = Some (wall_of s) })) }
        ensures text { OnOk result ((s : Standing) → ShowsWork self.old s → string_bytes text.new
            ≡ string_bytes text.old ++ parts.text_in s) }
    {
        let gauges = self.gauges();
        let old = self.gate.gathered(Face::Old);
        let new = self.gate.gathered(Face::New);
        write_peer_metrics(text, self.kept.log.counters(), &gauges, old, new)?;
        self.shown = Some(self.moments.wall);
        Ok(())
    }

    /// How things stand.
    fn gauges(&self) -> Gauges
        requires { IsWhole self.now }
        ensures { (s : Standing) → ShowsWork self.now s → result ≡ parts.gauges_in s }
    {
        Gauges {
            old: self.gauges_at(Face::Old),
            new: self.gauges_at(Face::New),
            pending_pieces: recording::pending(&self.journal) as u64,
        }
    }

    /// How things stand at a face.
    fn gauges_at(&self, face: Face) -> FaceGauges
        requires { IsWhole self.now }
        ensures { (s : Standing) → ShowsWork self.now s → result ≡ parts.face_gauges face s }
    {
        let run = self.kept.faces.at(face);
        FaceGauges {
            sending_sessions: self.gate.sending(face),
            receiving_sessions: self.gate.receiving(face),
            outbox_datagrams: run.outbox().len() as u64,
            outbox_octets: run.outbox().octets(),
            link: run.link(self.moments.wall),
        }
    }

    /// Appends the line that says that the metrics couldn't be put in place.
    pub fn write_metrics_failed(&self, text: &mut String) -> Result<(), AllocError>
        ensures { OnOk result ((s : Standing) → ShowsWork self.now s → string_bytes text.new
            ≡ string_bytes text.old ++ line_of (wall_of s) events.MetricsFailed) }
    {
        write_line(text, self.moments.wall, &Event::MetricsFailed)
    }
}
