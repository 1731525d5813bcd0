//! Committing the records of a half to the journal, and making its file anew.

ghost use Rattle.std.specs.Prelude.{◌≡◌, IfOk, option_map};
ghost use Rattle.peer_half.specs.Standing.{Standing};
ghost use Rattle.peer_half.specs.Journals.{kept_in, records_in};
ghost use Rattle.journal_file.specs.Length.{entries_length, gate_of};
ghost use Rattle.peer_half.specs.Parts.{commits_those, installs_those};
ghost use Rattle.gate_run.specs.Course.{Point};
ghost use Rattle.gate_run.specs.Stages.{IsAt, Goes, Did, StopsWriting, StopsStoring};
ghost use Rattle.gate_run.specs.Stages.{commits_over, makes_anew_over, installs_over};

use crate::stop::Stop;
use gate_edges::Outside;
use peer_parts::HalfParts;

/// Commits the records of a half, where there are some. How many octets they take in the journal.
fn commit_records<T: HalfParts, O: Outside>(parts: &T, outside: &mut O) -> Result<usize, Stop>
    ensures octets { (s : Standing) → T.Shows parts.now s
        → IfOk result (λ octets. octets ≡ entries_length (records_in s.journal)) }
    ensures ahead { O.ahead outside.new ≡ O.ahead outside.old }
    ensures made { (s : Standing) → T.Shows parts.now s
        → Did (commits_those (records_in s.journal)) result (O.made outside.old) (O.made outside.new) }
    ensures writes { StopsWriting result (O.writes outside.old) (O.writes outside.new) }
    ensures stores { StopsStoring result (O.stores outside.old) (O.stores outside.new) }
{
    if !parts.has_records() {
        return Ok(0);
    }
    let records = parts.records()?;
    match outside.commit(records.as_slice()) {
        Ok(octets) => Ok(octets),
        Err(fault) => Err(Stop::of_store(fault)),
    }
}

/// Commits the records of a half: nothing was sent yet.
pub fn commit<T: HalfParts, O: Outside>(parts: &mut T, outside: &mut O) -> Result<(), Stop>
    ensures goes { (p : Point) → IsAt (T.Shows parts.old) (O.ahead outside.old) p
        → Goes (T.Shows parts.new) (commits_over p) result (O.ahead outside.new)
        (O.made outside.old) (O.made outside.new) }
    ensures writes { StopsWriting result (O.writes outside.old) (O.writes outside.new) }
    ensures stores { StopsStoring result (O.stores outside.old) (O.stores outside.new) }
{
    parts.reserve()?;
    let octets = commit_records(parts, outside)?;
    parts.committed(octets);
    Ok(())
}

/// Makes the journal's file anew of what is kept, where a journal is kept. The place of its gate.
fn install_kept<T: HalfParts, O: Outside>(parts: &T, outside: &mut O) -> Result<Option<usize>, Stop>
    ensures place { (s : Standing) → T.Shows parts.now s
        → IfOk result (λ place. place ≡ option_map gate_of (kept_in s.journal)) }
    ensures ahead { O.ahead outside.new ≡ O.ahead outside.old }
    ensures made { (s : Standing) → T.Shows parts.now s
        → Did (installs_those (kept_in s.journal)) result (O.made outside.old) (O.made outside.new) }
    ensures writes { StopsWriting result (O.writes outside.old) (O.writes outside.new) }
    ensures stores { StopsStoring result (O.stores outside.old) (O.stores outside.new) }
{
    let Some(kept) = parts.kept() else {
        return Ok(None);
    };
    match outside.install(kept) {
        Ok(place) => Ok(Some(place)),
        Err(fault) => Err(Stop::of_store(fault)),
    }
}

/// Makes the journal's file anew, where a journal is kept.
pub fn make_anew<T: HalfParts, O: Outside>(parts: &mut T, outside: &mut O) -> Result<(), Stop>
    ensures goes { (p : Point) → IsAt (T.Shows parts.old) (O.ahead outside.old) p
        → Goes (T.Shows parts.new) (makes_anew_over p) result (O.ahead outside.new)
        (O.made outside.old) (O.made outside.new) }
    ensures writes { StopsWriting result (O.writes outside.old) (O.writes outside.new) }
    ensures stores { StopsStoring result (O.stores outside.old) (O.stores outside.new) }
{
    let place = install_kept(parts, outside)?;
    if let Some(place) = place {
        parts.installed(place);
    }
    Ok(())
}

/// Makes the journal's file anew, where it is large.
pub fn install_large<T: HalfParts, O: Outside>(parts: &mut T, outside: &mut O) -> Result<(), Stop>
    ensures goes { (p : Point) → IsAt (T.Shows parts.old) (O.ahead outside.old) p
        → Goes (T.Shows parts.new) (installs_over p) result (O.ahead outside.new)
        (O.made outside.old) (O.made outside.new) }
    ensures writes { StopsWriting result (O.writes outside.old) (O.writes outside.new) }
    ensures stores { StopsStoring result (O.stores outside.old) (O.stores outside.new) }
{
    if parts.is_large() {
        return make_anew(parts, outside);
    }
    Ok(())
}
