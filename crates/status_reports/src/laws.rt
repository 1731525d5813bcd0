//! Laws of reports. Each function does nothing: its contract is the law.

ghost use Rattle.std.specs.Prelude.{◌≡◌, ℕ, List, [], true};
ghost use Rattle.wire_fields.specs.Format.{Spells};
ghost use Rattle.wire_fields.specs.Reading.{IsOctets};
ghost use Rattle.bundle_meaning.specs.declared.report.Report.{Report};
ghost use Rattle.bundle_meaning.specs.Reports.{no_time, IsReport};
ghost use Rattle.status_reports.specs.declared.report6.Report6.{Report6};
ghost use Rattle.status_reports.specs.declared.report7.Report7.{Report7};
ghost use Rattle.status_reports.specs.Table6.{report6};
ghost use Rattle.status_reports.specs.Table7.{report7};
ghost use Rattle.status_reports.specs.Legal.{IsReport6, IsReport7};
ghost use Rattle.status_reports.specs.Spelling.{report6_octets, report7_octets};
ghost use Rattle.status_reports.specs.Pairing.{takes, shared_of6, report6_of, Pair6, shared_of7, report7_of, Pair7};

/// A layout spells exactly the legal reports, and each by one text.
pub fn one_spelling()
    ensures old { (report : Report6) → IsReport6 report
        → Spells report6 [] (report6_octets report) report }
    ensures old_only { (body : List ℕ) (report : Report6) → IsOctets body
        → Spells report6 [] body report → IsReport6 report × (body ≡ report6_octets report) }
    ensures new { (report : Report7) → IsReport7 report
        → Spells report7 [] (report7_octets report) report }
    ensures new_only { (body : List ℕ) (report : Report7)
        → Spells report7 [] body report → IsReport7 report × (body ≡ report7_octets report) }
{}

/// With what one version has no place for kept, the way there and back gives the same report.
pub fn reports_pair_off()
    ensures from6 { (old : Report6) (bare : ℕ) → IsReport6 old
        → takes old.status old.times bare ≡ true → Pair6 old bare (shared_of6 old bare) }
    ensures to6 { (shared : Report) → IsReport shared
        → Pair6 (report6_of shared) (no_time shared.stamps) shared }
    ensures from7 { (new : Report7) (rests : List ℕ) → Pair7 new rests (shared_of7 new rests) }
    ensures to7 { (shared : Report) → Pair7 (report7_of shared) shared.rests shared }
{}
