//! Paths on which room is counted, from which a drain completes, and whole runs of them, computed.

ghost use Rattle.std.specs.Prelude.{◌+◌, ◌∷◌, ◌≡◌, ◌≤◌, None, Ok, Some, [], length, ℕ};
ghost use Rattle.path_laws.specs.Path.{PathSetup, clock_shows, note_from, path_run, path_setup};
ghost use Rattle.path_laws.specs.Path.{starts_path};
ghost use Rattle.path_drain.specs.PathRoom.{PathRoom};
ghost use Rattle.endpoint.specs.declared.name.Endpoint.{Endpoint};
ghost use Rattle.gate_cases.specs.declared.face.Face.TheVariants as faces;
ghost use Rattle.ltp_session.specs.Examples.{policy};
ghost use Rattle.path_drain.specs.OnTheWay.{piece_count};
ghost use Rattle.path_drain.specs.Clean.{AreCleanOnPathFrom, path_clean_event, path_passed};
ghost use Rattle.path_drain.specs.Completion.{IsPathReady};
ghost use Rattle.path_drain.specs.ReadyExamples.{path_that_sent};
ghost use Rattle.path_drain.specs.Hopeful.{path_cost};
ghost use Rattle.bundle6.specs.declared.fault.Cause6.TheVariants as six;
ghost use Rattle.ltp_segment.specs.declared.session.Note.TheVariants as notes;
ghost use Rattle.gate_cases.specs.declared.cause.BadCause.TheVariants.{Six};
ghost use Rattle.gateway_core.specs.declared.note.GateNote.TheVariants as gate_notes;
ghost use Rattle.path_laws.specs.declared.places.Place.TheVariants as places;
ghost use Rattle.path_laws.specs.declared.places.PathEnd.TheVariants as ends;
ghost use Rattle.path_laws.specs.Log.{a_piece, begun_in, ups_in};
ghost use Rattle.ltp_segment.specs.Policy.{policy_of};
ghost use Rattle.path_drain.specs.Effects.{notes_in};
ghost use Rattle.path_drain.specs.BundleExamples.{bundle_drained, bundle_lost, bundle_policy};
ghost use Rattle.path_drain.specs.BundleExamples.{bundle_setup, bundle_start, drains_bundle};
ghost use Rattle.path_drain.specs.BundleExamples.{new_bundle, old_bundle, sends_bundle};
ghost use Rattle.path_drain.specs.DrainedExamples.{drains_one_block, drains_one_report};
ghost use Rattle.path_drain.specs.DrainedExamples.{hands_up_no_bundle, sends_no_bundle};
ghost use Rattle.path_drain.specs.Runs.{run_path, run_ups};
ghost use Rattle.path_drain.specs.WholeRun.{IsRunComplete};

/// A path on which nothing was sent has room.
pub fn a_path_begins_with_room()
    ensures { (s : PathSetup) (now : ℕ) → PathRoom s (starts_path s now) }
{}

/// A path on which nothing was sent is ready. It costs nothing, and has no clean event.
pub fn a_silent_path_is_ready()
    ensures ready { (gate : Endpoint) (cut now : ℕ)
        → IsPathReady (path_setup gate policy cut) (starts_path (path_setup gate policy cut) now) }
    ensures cost { (gate : Endpoint) (cut now : ℕ)
        → path_cost (path_setup gate policy cut) (starts_path (path_setup gate policy cut) now)
        (starts_path (path_setup gate policy cut) now) ≡ 0 }
    ensures none { (gate : Endpoint) (cut now : ℕ)
        → path_clean_event (starts_path (path_setup gate policy cut) now) 0 ≡ None }
{}

/// The old node sent a block of two octets, which is one segment, and it is lost. The path is ready
/// if the gate has places for the block's pieces. The session costs 17, and the first clean event is
/// the clock's, at the moment when the segment is sent again.
pub fn a_path_that_sent_a_block_is_ready()
    ensures ready { (gate : Endpoint) (cut now x y : ℕ)
        → piece_count faces.Old cut (x ∷ y ∷ []) ≤ 64
        → IsPathReady (path_setup gate policy cut) (path_that_sent gate cut now (x ∷ y ∷ [])) }
    ensures cost { (gate : Endpoint) (cut now x y : ℕ)
        → path_cost (path_setup gate policy cut) (path_that_sent gate cut now (x ∷ y ∷ []))
        (path_that_sent gate cut now (x ∷ y ∷ [])) ≡ 17 }
    ensures lost { (gate : Endpoint) (cut now x y : ℕ)
        → path_clean_event (path_that_sent gate cut now (x ∷ y ∷ [])) 1
        ≡ Some (clock_shows (now + 10)) }
{}

/// On a path on which nothing was sent a drain has no event, and completes all that there is.
pub fn a_silent_run_is_complete()
    ensures { (gate : Endpoint) (cut now : ℕ)
        → IsRunComplete (path_setup gate policy cut) now [] [] }
{}

/// The old node sent two octets, which are no bundle, and they are lost. Four events drain the path.
/// What comes at the gate's old face is the whole block; the face notes that it is none of its
/// bundles, and the node that the block was sent.
pub fn a_lost_block_is_drained()
    ensures clean { (gate : Endpoint) (cut : ℕ)
        → AreCleanOnPathFrom (path_setup gate policy cut)
        (run_path (path_setup gate policy cut) 0 sends_no_bundle) drains_one_block }
    ensures over { (gate : Endpoint) (cut : ℕ)
        → path_clean_event (path_run (path_setup gate policy cut)
        (run_path (path_setup gate policy cut) 0 sends_no_bundle) drains_one_block)
        (path_passed
        (length (run_path (path_setup gate policy cut) 0 sends_no_bundle).sent) drains_one_block)
        ≡ None }
    ensures noted { (gate : Endpoint) (cut : ℕ)
        → notes_in (path_setup gate policy cut)
        (run_path (path_setup gate policy cut) 0 sends_no_bundle) drains_one_block
        ≡ record { place = places.OldFace; note = gate_notes.BadBundle 1 0 (Six six.Version) }
        ∷ note_from places.OldNode (notes.Sent 1) ∷ [] }
    ensures complete { (gate : Endpoint) (cut : ℕ)
        → IsRunComplete (path_setup gate policy cut) 0 sends_no_bundle drains_one_block }
{}

/// The block came, and the gate noted then that it is no bundle; but the report on it is lost. So the
/// node still waits as the drain begins, and its block is handed up in none of the six events.
pub fn a_block_that_came_is_drained()
    ensures clean { (gate : Endpoint) (cut : ℕ)
        → AreCleanOnPathFrom (path_setup gate policy cut)
        (run_path (path_setup gate policy cut) 0 hands_up_no_bundle) drains_one_report }
    ensures over { (gate : Endpoint) (cut : ℕ)
        → path_clean_event (path_run (path_setup gate policy cut)
        (run_path (path_setup gate policy cut) 0 hands_up_no_bundle) drains_one_report)
        (path_passed
        (length (run_path (path_setup gate policy cut) 0 hands_up_no_bundle).sent)
        drains_one_report) ≡ None }
    ensures noted { (gate : Endpoint) (cut : ℕ)
        → notes_in (path_setup gate policy cut)
        (run_path (path_setup gate policy cut) 0 hands_up_no_bundle) drains_one_report
        ≡ note_from places.OldNode (notes.Sent 1) ∷ [] }
    ensures none_since { (gate : Endpoint) (cut : ℕ)
        → ups_in (path_setup gate policy cut)
        (run_path (path_setup gate policy cut) 0 hands_up_no_bundle) drains_one_report ≡ [] }
    ensures before { (gate : Endpoint) (cut : ℕ)
        → run_ups (path_setup gate policy cut) 0 hands_up_no_bundle
        ≡ record { place = places.OldFace; session = 1; body = 7 ∷ 8 ∷ [] } ∷ [] }
    ensures complete { (gate : Endpoint) (cut : ℕ)
        → IsRunComplete (path_setup gate policy cut) 0 hands_up_no_bundle drains_one_report }
{}

/// The policy is one that a script can give. The old node sent a bundle of version 6 in one segment,
/// which is lost. The path is ready, and seven events drain it: the gate notes that the bundle
/// passes, and begins one session for it at its new face; the new node is handed the bundle in
/// version 7; and both senders note that their blocks were sent.
pub fn a_bundle_is_drained()
    ensures policy { policy_of 1024 10000 10 10000 ≡ Ok bundle_policy }
    ensures ready { IsPathReady bundle_setup bundle_lost }
    ensures clean { AreCleanOnPathFrom bundle_setup bundle_lost drains_bundle }
    ensures over { path_clean_event bundle_drained
        (path_passed (length bundle_lost.sent) drains_bundle) ≡ None }
    ensures noted { notes_in bundle_setup bundle_lost drains_bundle
        ≡ record { place = places.OldFace; note = gate_notes.Passed 1 1 }
        ∷ note_from places.OldNode (notes.Sent 1) ∷ note_from places.NewFace (notes.Sent 1) ∷ [] }
    ensures begins { begun_in bundle_setup bundle_lost drains_bundle
        ≡ record {
          place = places.NewFace;
          session = 1;
          block = new_bundle;
          origin = a_piece ends.Old 1 0;
        } ∷ [] }
    ensures comes { ups_in bundle_setup bundle_lost drains_bundle
        ≡ record { place = places.OldFace; session = 1; body = old_bundle }
        ∷ record { place = places.NewNode; session = 1; body = new_bundle } ∷ [] }
    ensures complete { IsRunComplete bundle_setup bundle_start sends_bundle drains_bundle }
{}
