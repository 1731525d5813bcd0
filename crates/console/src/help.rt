//! What the program says of itself.

use crate::table::COMMANDS;
use std::io;

/// What the help begins with. The script `fimdahol` makes the same help of these texts and of the
/// table, before anything is built: each text begins after a line that ends with a backslash, and
/// ends before a line that is `";`.
const ABOUT: &str = "\
fimdahol: a gateway between bundles of BPv6 and of BPv7, over LTP

usage:
";

/// The words that are no command, after them.
const OTHERS: &str = "\
fimdahol --help | --version
";

/// What the limits begin with.
const LIMITS: &str = "\
limits: 67108864 octets of input, and
";

/// The statuses.
const STATUSES: &str = "\
status: 0 done, 1 the input was refused, 2 wrong usage, 3 a read failed, 4 a write failed,
        5 an address can't be used, 6 the input passes a limit, 7 memory ran out; standard error
        says more of 2 to 7, and what a refused input looks like
";

/// What `--version` prints.
pub const VERSION: &str = "\
fimdahol 0.1.0
";

/// Prints the help: how each command is called, what it writes, and its limits.
pub fn print_help<R: Print>(rt: &R) -> io::Result<()> {
    rt.print(ABOUT)?;
    for command in COMMANDS {
        print_block(rt, "  ", command.usage)?;
    }
    print_block(rt, "  ", OTHERS)?;
    for command in COMMANDS {
        print_block(rt, "\n", command.writes)?;
    }
    print_block(rt, "\n", LIMITS)?;
    for command in COMMANDS {
        print_block(rt, "  ", command.limits)?;
    }
    print_block(rt, "\n", STATUSES)
}

/// Prints a text with another before it, where it has one octet at least.
fn print_block<R: Print>(rt: &R, before: &str, text: &str) -> io::Result<()> {
    if text.is_empty() {
        return Ok(());
    }
    rt.print(before)?;
    rt.print(text)
}
