//! A drain in which picks say what comes next.

ghost use Rattle.std.specs.Prelude.{◌≡◌, ◌≤◌, ◌+◌, ◌-◌, ◌++◌, ◌∷◌, false, map, length, IfOk, IfSome};
ghost use Rattle.std.specs.String.{string_bytes};
ghost use Rattle.command_frame.specs.Stops.{IsStop};
ghost use Rattle.command_frame.specs.Lines.{TurnsAs};
ghost use Rattle.ltp_world.specs.Picks.{link_pick, link_picks};
ghost use Rattle.link_run.specs.Link.{LinkCourse, LinkSetup, drained, drains_by_picks, if_kept};
ghost use Rattle.link_run.specs.Picks.{said_pick, said_picks};
ghost use Rattle.link_run.specs.Shows.{StandsOn};
ghost use Rattle.link_run.specs.WrittenLines.{count_steps, end_line, octets_steps, steps_text};

use crate::counting::{add_steps, count_steps};
use crate::running::MOST_SENT;
use crate::written_lines::{write_last, write_steps};
use edge_traits::Status;
use ltp_world::{DrainRefused, Drained, Pick};
use replay_script::PickWord;
use std::alloc::{AllocError, Global};
use window_world::WindowWorld;

/// The link stops losing, and the picks say what comes next, until nothing is left to do.
pub(crate) fn drain_by(
    alloc: Global,
    world: WindowWorld,
    octets: u64,
    picks: &[PickWord],
    text: &mut String,
) -> Result<Option<Status>, AllocError>
    requires { world.spent ≡ false }
    ensures stops { IfOk result (λ ends. IfSome ends IsStop) }
    ensures turn { (s : LinkSetup) (c : LinkCourse) → StandsOn world octets s c
        → IfOk result (TurnsAs (λ state. state ≡ drained) (drains_by_picks s c (said_picks picks.now))
        (string_bytes text.old) (string_bytes text.new)) }
{
    let picks = picks_of(alloc, picks)?;
    let mut link = world.into_link();
    match link.drain_by(picks.as_slice()) {
        Ok(done) => tell_picked(alloc, octets, link.sent(), done, text),
        Err(refused) => match refused {
            DrainRefused::TooLate => Ok(Some(Status::Limit)),
            DrainRefused::Memory => Err(AllocError),
        },
    }
}

/// The picks of a line, as a link takes them.
fn picks_of(alloc: Global, words: &[PickWord]) -> Result<Vec<Pick>, AllocError>
    ensures { IfOk result (λ picks. link_picks picks.items ≡ said_picks words.now) }
{
    let mut picks = Vec::with_capacity(alloc, words.len())?;
    'each: for word in words {
        picks.push(pick_of(*word))?;
    }
    Ok(picks)
}

/// A pick of a line, as a link takes it.
fn pick_of(word: PickWord) -> Pick
    ensures { link_pick result ≡ said_pick word }
{
    match word {
        PickWord::First => Pick::First,
        PickWord::Second => Pick::Second,
        PickWord::Old { k } => Pick::Old { k: k as usize },
    }
}

/// Writes what a drain did, unless more octets were sent by then than may be. So many datagrams were
/// sent by its end.
fn tell_picked(
    alloc: Global,
    octets: u64,
    sent: usize,
    done: Drained,
    text: &mut String,
) -> Result<Option<Status>, AllocError>
    ensures stops { IfOk result (λ ends. IfSome ends IsStop) }
    ensures told { count_steps done.effects ≤ sent → IfOk result (TurnsAs (λ now. now ≡ drained)
        (if_kept (octets + octets_steps done.effects)
        (steps_text (sent - count_steps done.effects) done.effects ++ end_line done.events) drained)
        (string_bytes text.old) (string_bytes text.new)) }
{
    let steps = done.effects.as_slice();
    if add_steps(octets, steps) > MOST_SENT {
        return Ok(Some(Status::Limit));
    }
    let before = (sent as u64).saturating_sub(count_steps(0, steps));
    write_steps(alloc, text, before, steps)?;
    write_last(alloc, text, false, done.events)?;
    Ok(None)
}
