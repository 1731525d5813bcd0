//! What an end's joiner answers.

ghost use Rattle.std.specs.Prelude.{◌≡◌, ◌<◌, ◌^◌, ◌++◌, ◌∷◌, [], true, length, IfOk, OnOk};
ghost use Rattle.ltp_session.specs.Engine.{list_of};
ghost use Rattle.translate.specs.Sound.{IsSound};
ghost use Rattle.fragments.specs.Again.{answer, after};
ghost use Rattle.fragments.specs.Cutting.{octets_of};
ghost use Rattle.gate_cases.specs.Blocks.{found_at};
ghost use Rattle.gate_cases.specs.Faces.{octets_at, fits_at};
ghost use Rattle.path_laws.specs.Path.{end_joins, fragment_found};
ghost use Rattle.path_world.specs.Ties.{IsJoiner, IsTaken, JoinsAll, bodies_of};

use crate::fragment::fragment_in;
use bundle_meaning::{Content, Full};
use endpoint::Octets;
use fragments::{JoinRefused, Joined, Joiner};
use gate_cases::{Face, spelled};
use ltp_engine::Up;
use path_laws::EndJoin;
use std::alloc::{AllocError, Global};
use translate::sized;

/// Blocks that came whole at an end: each that is a fragment is added to the end's joiner. Its
/// answers come in their order.
pub(crate) fn join_all(
    alloc: Global,
    face: Face,
    joiner: &mut Joiner,
    ups: &[Up],
) -> Result<Vec<EndJoin>, AllocError>
    requires whole { IsJoiner face joiner.old }
    ensures { IfOk result (λ answers.
        JoinsAll face joiner.old joiner.new (bodies_of ups.now) [] answers.items) }
{
    let mut answers = Vec::new(alloc);
    'joining: for up in ups {
        join_block(alloc, face, joiner, up.body.as_slice(), &mut answers)?;
    }
    Ok(answers)
}

/// A block that came whole at an end.
fn join_block(
    alloc: Global,
    face: Face,
    joiner: &mut Joiner,
    block: &[u8],
    answers: &mut Vec<EndJoin>,
) -> Result<(), AllocError>
    requires whole { IsJoiner face joiner.old }
    ensures { OnOk result (JoinsAll face joiner.old joiner.new (block.now ∷ []) answers.old.items answers.new.items) }
{
    if let Some(full) = fragment_in(alloc, face, block)? {
        answers.push(join(alloc, face, joiner, &full)?)?;
    }
    Ok(())
}

/// What the joiner answers to a fragment.
fn join(alloc: Global, face: Face, joiner: &mut Joiner, full: &Full) -> Result<EndJoin, AllocError>
    requires whole { IsJoiner face joiner.old }
    requires taken { IsTaken face full.now }
    ensures told { IfOk result (λ told.
        end_joins face (answer joiner.old.joins full.now) ≡ told ∷ []) }
    ensures after { OnOk result (joiner.new.joins ≡ after joiner.old.joins full.now) }
    ensures whole { OnOk result (IsJoiner face joiner.new) }
{
    match joiner.add(full) {
        Ok(Joined::Waiting) => Ok(EndJoin::Waiting),
        Ok(Joined::Repeat) => Ok(EndJoin::Repeat),
        Ok(Joined::Whole(whole)) => {
            sized_content(&whole.shared.content);
            Ok(EndJoin::Whole {
                body: spelled_whole(alloc, face, &whole)?,
            })
        }
        Err(JoinRefused::TooLarge) => Ok(EndJoin::TooLarge),
        Err(JoinRefused::TotalDiffers) => Ok(EndJoin::TotalDiffers),
        Err(JoinRefused::NoRoom) => Ok(EndJoin::Full),
        Err(JoinRefused::NotFragment | JoinRefused::Memory) => Err(AllocError),
    }
}

/// Says that a number counts the octets of a payload.
fn sized_content(content: &Content)
    ensures { length (octets_of content.now) < 2 ^ 64 }
{
    match content {
        Content::Bytes(octets) => sized(octets.as_slice()),
        Content::Report(_) => {}
    }
}

/// The octets of a whole, which has room for its blocks in the end's version.
fn spelled_whole(alloc: Global, face: Face, whole: &Full) -> Result<Octets, AllocError>
    requires sound { IsSound whole.now }
    requires fits { fits_at face whole.now ≡ true }
    ensures { IfOk result (λ octets. octets ≡ octets_at face whole.now) }
{
    spelled(alloc, face, whole)?.ok_or(AllocError)
}
