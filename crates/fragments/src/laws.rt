//! Laws of the definitions. Each function does nothing: its contract is a law.

ghost use Rattle.fragments.specs.Ends.{LieEndToEnd};
ghost use Rattle.fragments.specs.Again.{PiecesJoinAgain, WholeWhenAllCame, TotalsAreSmall};
ghost use Rattle.fragments.specs.Payload.{FragmentsGiveTheWhole, NamesStandAlone};
ghost use Rattle.fragments.specs.Repeats.{RepeatsBringNothing};

/// The octets of a record's pieces, one after another, are those of its payload.
pub fn pieces_lie_end_to_end()
    ensures { LieEndToEnd }
{}

/// The pieces of one cut of a record come in any order and with repeats, as long as one is missing: the
/// last one that was missing gives that record, and each before it gives nothing. What a piece gives after
/// that isn't said.
pub fn pieces_join_again()
    ensures { PiecesJoinAgain }
{}

/// Whichever records came before, fragments of any size, overlapping ones, the same ones again, and others'
/// between them: where each that has the name of a record is a fragment of it, one more that is answered
/// with a whole is answered with that record.
pub fn fragments_give_the_whole()
    ensures { FragmentsGiveTheWhole }
{}

/// A record of another name changes nothing of what is open under a name, whichever records came before.
pub fn names_stand_alone()
    ensures { NamesStandAlone }
{}

/// Whichever records came before: with a fragment that is taken the whole is there if and only if each
/// place below its total has an octet then.
pub fn whole_when_all_came()
    ensures { WholeWhenAllCame }
{}

/// Whichever records came before: each total that a joiner keeps is no more than
/// [`crate::TOTAL_MAX`].
pub fn totals_are_small()
    ensures { TotalsAreSmall }
{}

/// Whichever records came: one that was taken, and of whose name no whole was given since, brings nothing
/// new when it comes again. So [`crate::Joiner::add`] answers it without memory.
pub fn repeats_bring_nothing()
    ensures { RepeatsBringNothing }
{}
