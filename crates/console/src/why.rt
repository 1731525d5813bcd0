//! Why a run ended, in a line for standard error.
ghost use Rattle.std.specs.Prelude.{◌≡◌, is_some};
ghost use Rattle.console.specs.Why.{wants_line};

use crate::table::{COMMANDS, CommandText};
use edge_traits::Status;
use gateway_run::Word;

/// The line for words that name no command.
const USAGE: &str = "these words are no command; 'fimdahol --help' lists them";

/// What standard error says of a run that ended so, where it ended otherwise than its output shows.
/// `reader_gone` says that a write failed since nobody reads any more.
pub fn reason(words: &[Word], status: Status, reader_gone: bool) -> Option<&'static str>
    ensures { is_some result ≡ wants_line status }
{
    match status {
        Status::Done => None,
        Status::Refused => None,
        Status::Usage => Some(wanted(words)),
        Status::ReadFault => Some("a read of standard input failed"),
        Status::WriteFault if reader_gone => Some("nobody reads standard output any more"),
        Status::WriteFault => Some("a write to standard output failed"),
        Status::Limit => Some("the input passes a limit; 'fimdahol --help' lists them"),
        Status::Memory => Some("memory ran out"),
    }
}

/// What the program says of the command that the first of these words is, where it is one.
pub fn text_of(words: &[Word]) -> Option<&'static CommandText> {
    let word = words.first()?;
    'commands: for command in COMMANDS {
        if word.octets() == command.word.as_bytes() {
            return Some(command);
        }
    }
    None
}

/// What to do about words that name no command. A command with other words is a slip of its own,
/// but not with an option.
fn wanted(words: &[Word]) -> &'static str {
    match words {
        [_, option] if option.octets().starts_with(b"-") => USAGE,
        _ => match text_of(words) {
            Some(command) => command.wants,
            None => USAGE,
        },
    }
}
