//! What a half ends with: writing its lines, and showing the metrics.

ghost use Rattle.std.specs.Prelude.{◌≡◌, ◌++◌, Some, flat_map, false};
ghost use Rattle.std.specs.String.{string_bytes};
ghost use Rattle.gate_log.specs.declared.event.Event.TheVariants as events;
ghost use Rattle.gate_log.specs.Lines.{line_of};
ghost use Rattle.peer_half.specs.Standing.{Standing, wall_of};
ghost use Rattle.peer_half.specs.Parts.{is_due};
ghost use Rattle.gate_run.specs.Course.{Point, shows_in};
ghost use Rattle.gate_run.specs.Stages.{IsAt, Goes, StopsWriting, StopsStoring, WroteText};
ghost use Rattle.gate_run.specs.Stages.{ends_over, writes_over, shows_due, shows_over, shows_after, tells_over};

use crate::stop::Stop;
use crate::storing::install_large;
use edge_traits::Failed;
use gate_edges::Outside;
use peer_parts::HalfParts;

/// Writes a text, unless it is empty.
fn write_text<O: Outside>(text: &str, outside: &mut O) -> Result<(), Stop>
    ensures ahead { O.ahead outside.new ≡ O.ahead outside.old }
    ensures made { WroteText text.now result (O.made outside.old) (O.made outside.new) }
    ensures writes { StopsWriting result (O.writes outside.old) (O.writes outside.new) }
    ensures stores { StopsStoring result (O.stores outside.old) (O.stores outside.new) }
{
    if text.is_empty() {
        return Ok(());
    }
    match outside.write(text.as_bytes()) {
        Ok(()) => Ok(()),
        Err(Failed) => Err(Stop::Fault),
    }
}

/// Writes the lines of a half.
fn write_lines<T: HalfParts, O: Outside>(parts: &T, outside: &mut O) -> Result<(), Stop>
    ensures goes { (p : Point) → IsAt (T.Shows parts.now) (O.ahead outside.old) p
        → Goes (T.Shows parts.now) (writes_over p) result (O.ahead outside.new)
        (O.made outside.old) (O.made outside.new) }
    ensures writes { StopsWriting result (O.writes outside.old) (O.writes outside.new) }
    ensures stores { StopsStoring result (O.stores outside.old) (O.stores outside.new) }
{
    write_text(parts.text(), outside)
}

/// Writes that the metrics couldn't be put in place.
fn write_unshown<T: HalfParts, O: Outside>(
    parts: &T,
    text: &mut String,
    outside: &mut O,
) -> Result<(), Stop>
    ensures ahead { O.ahead outside.new ≡ O.ahead outside.old }
    ensures made { (s : Standing) → T.Shows parts.now s
        → WroteText (line_of (wall_of s) events.MetricsFailed) result
        (O.made outside.old) (O.made outside.new) }
    ensures writes { StopsWriting result (O.writes outside.old) (O.writes outside.new) }
    ensures stores { StopsStoring result (O.stores outside.old) (O.stores outside.new) }
{
    text.clear();
    parts.write_metrics_failed(text)?;
    write_text(text.as_str(), outside)
}

/// Puts the metrics in place, or writes that they couldn't be.
fn show<T: HalfParts, O: Outside>(
    parts: &mut T,
    text: &mut String,
    outside: &mut O,
) -> Result<(), Stop>
    ensures goes { (p : Point) → IsAt (T.Shows parts.old) (O.ahead outside.old) p
        → Goes (T.Shows parts.new) (shows_due p) result (O.ahead outside.new)
        (O.made outside.old) (O.made outside.new) }
    ensures writes { StopsWriting result (O.writes outside.old) (O.writes outside.new) }
    ensures stores { StopsStoring result (O.stores outside.old) (O.stores outside.new) }
{
    text.clear();
    parts.write_metrics(text)?;
    match outside.show(text.as_bytes()) {
        Ok(()) => Ok(()),
        Err(Failed) => write_unshown(parts, text, outside),
    }
}

/// Shows the metrics, where there is a board and they are due.
fn show_if_due<T: HalfParts, O: Outside>(
    board: bool,
    parts: &mut T,
    text: &mut String,
    outside: &mut O,
) -> Result<(), Stop>
    ensures goes { (p : Point) → IsAt (T.Shows parts.old) (O.ahead outside.old) p
        → Goes (T.Shows parts.new) (shows_over board p) result (O.ahead outside.new)
        (O.made outside.old) (O.made outside.new) }
    ensures writes { StopsWriting result (O.writes outside.old) (O.writes outside.new) }
    ensures stores { StopsStoring result (O.stores outside.old) (O.stores outside.new) }
{
    if board && parts.is_due() {
        return show(parts, text, outside);
    }
    Ok(())
}

/// Makes the journal's file anew, where it is large, and then shows the metrics.
fn show_after<T: HalfParts, O: Outside>(
    board: bool,
    parts: &mut T,
    text: &mut String,
    outside: &mut O,
) -> Result<(), Stop>
    ensures goes { (p : Point) → IsAt (T.Shows parts.old) (O.ahead outside.old) p
        → Goes (T.Shows parts.new) (shows_after board p) result (O.ahead outside.new)
        (O.made outside.old) (O.made outside.new) }
    ensures writes { StopsWriting result (O.writes outside.old) (O.writes outside.new) }
    ensures stores { StopsStoring result (O.stores outside.old) (O.stores outside.new) }
{
    install_large(parts, outside)?;
    show_if_due(board, parts, text, outside)
}

/// Tells of a half, once both faces have sent: writes its lines, makes the journal's file anew where it
/// is large, and then shows the metrics.
pub fn tell<T: HalfParts, O: Outside>(
    board: bool,
    parts: &mut T,
    text: &mut String,
    outside: &mut O,
) -> Result<(), Stop>
    ensures goes { (p : Point) → IsAt (T.Shows parts.old) (O.ahead outside.old) p
        → Goes (T.Shows parts.new) (tells_over board p) result (O.ahead outside.new)
        (O.made outside.old) (O.made outside.new) }
    ensures writes { StopsWriting result (O.writes outside.old) (O.writes outside.new) }
    ensures stores { StopsStoring result (O.stores outside.old) (O.stores outside.new) }
{
    parts.end_sending()?;
    write_lines(parts, outside)?;
    show_after(board, parts, text, outside)
}
