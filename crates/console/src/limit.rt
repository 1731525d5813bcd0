//! Which limit a run passed, in a line for standard error.
ghost use Rattle.std.specs.Prelude.{◌≡◌, IfOk};
ghost use Rattle.std.specs.String.{string_bytes};
ghost use Rattle.console.specs.Why.{limit_text};

use gateway_run::Passed;
use std::alloc::{AllocError, Global};

/// The line that names the limit, and where it was passed. `passes` says what passes a limit of the
/// command's own.
pub fn limit_line(alloc: Global, passes: &str, passed: Passed) -> Result<String, AllocError>
    ensures { IfOk result (λ line. string_bytes line ≡ limit_text passes.now passed) }
{
    let mut text = String::new(alloc);
    match passed {
        Passed::Size => write!(text, "fimdahol: the input has more than 67108864 octets\n")?,
        Passed::Lines => write!(text, "fimdahol: the input has more than 1000000 lines\n")?,
        Passed::LineLength { line } => {
            write!(text, "fimdahol: line {line} has more than 9000000 octets\n")?;
        }
        Passed::Own { line } => write!(text, "fimdahol: line {line} {passes}\n")?,
        Passed::Script => write!(text, "fimdahol: the script {passes}\n")?,
    }
    Ok(text)
}
