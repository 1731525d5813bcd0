//! What a call can be told beside why it ended: what its input looks like, and which word of `serve` is
//! wrong.

use crate::given::{Given, Tail};
use crate::hint::Hint;
use crate::hinting::{Refused, hint, hint_of_done};
use crate::reads::Reads;
use crate::refusal::{Spot, refusal};
use crate::slip::{Slip, slip_in};
use edge_traits::Status;
use gateway_run::Word;

/// What the command reads that the first word names.
pub fn reads_of(words: &[Word]) -> Option<Reads> {
    Reads::of(words.first()?.octets())
}

/// Whether the lines of its input are counted.
pub fn are_lines(reads: Option<Reads>) -> bool {
    match reads {
        Some(reads) => reads.is_lines(),
        None => false,
    }
}

/// The hint of a run that answered all of its input, or refused it. `output` is the end of what was
/// written last.
pub fn hint_of_run(
    reads: Option<Reads>,
    status: Status,
    given: &Given,
    output: &Tail,
) -> Option<Hint> {
    let reads = reads?;
    match status {
        Status::Done => hint_of_done(given.head()),
        Status::Refused => hint(reads, given.head(), refused_in(given, output)),
        _ => None,
    }
}

/// What was refused of an input, as far as it is remembered.
fn refused_in<'a>(given: &'a Given, output: &'a Tail) -> Option<Refused<'a>> {
    match refusal(output.last_line())? {
        (Spot::Line(number), cause) => Some(Refused {
            cause,
            text: given.line(number)?,
            is_first: number == 1,
        }),
        (Spot::Place(place), cause) => Some(Refused {
            cause,
            text: given.from(place)?,
            is_first: false,
        }),
    }
}

/// The word of `serve` that is wrong, where its seven words are there.
pub fn slip_of(words: &[Word]) -> Option<(Slip, &str)> {
    match words {
        [word, gate, _, _, _, _, turns] if word.octets() == b"serve".as_slice() => {
            match slip_in(gate.octets(), turns.octets())? {
                Slip::Gate => Some((Slip::Gate, gate.text())),
                Slip::Turns => Some((Slip::Turns, turns.text())),
            }
        }
        _ => None,
    }
}
