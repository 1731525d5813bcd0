//! What a command says of a bundle.
ghost use Rattle.std.specs.Prelude.{◌≡◌, false, IfOk, OnOk, IfSome};
ghost use Rattle.std.specs.String.{string_bytes};
ghost use Rattle.fragment_lines.specs.Lines.{Writes};
ghost use Rattle.bundle_runs.specs.Answering.{step_of, leaves_of};
ghost use Rattle.bundle_runs.specs.Legal.{IsLegal};

use crate::commands::command::Command;
use crate::convert::convert;
use crate::fragmenting::{cut, join};
use crate::front::Bundle;
use crate::written_lines::{write_check, write_show};
use fragment_lines::{BundleJoiner, Telling, TurnedDown};
use std::alloc::{AllocError, Global};

/// Writes what a command says of a bundle of so many octets, of which a part may be left to be told, or says
/// why it refuses the bundle. A command that keeps going goes on after a refusal with the joiner as it is
/// then.
pub fn say(
    alloc: Global,
    command: Command,
    joiner: &mut BundleJoiner,
    bundle: Bundle,
    size: usize,
    text: &mut String,
) -> Result<Result<Telling, TurnedDown>, AllocError>
    requires legal { IsLegal bundle }
    requires memory { joiner.old.spent ≡ false }
    ensures said { IfOk result (Writes (step_of command joiner.old.joins bundle size)
        (string_bytes text.old) (string_bytes text.new) joiner.new.joins) }
    ensures leaves { OnOk result (IfSome (leaves_of command joiner.old.joins bundle)
        (λ now. joiner.new.joins ≡ now)) }
    ensures memory { OnOk result (joiner.new.spent ≡ false) }
{
    match command {
        Command::Check => {
            write_check(text, bundle.version(), size)?;
            Ok(Ok(Telling::nothing()))
        }
        Command::Show => {
            write_show(text, &bundle)?;
            Ok(Ok(Telling::nothing()))
        }
        Command::Convert | Command::KeepConverting => convert(alloc, bundle),
        Command::Cut(most) | Command::KeepCutting(most) => cut(alloc, bundle, most),
        Command::Join | Command::KeepJoining => join(joiner, text, bundle),
    }
}
