//! Laws of the translation.

ghost use Rattle.translate.specs.Legal.{View6IsLegal, View7IsLegal};
ghost use Rattle.translate.specs.Normal.{ViewIsNormal};
ghost use Rattle.translate.specs.Translation.{ReadsSoundly6, ReadsSoundly7, View6Reads, View7Reads, NoMoreBlocks, ThereAndBack, LateIsRefused, SaysTheSame, PlainIsNormal};

/// A legal version 6 bundle that isn't refused reads as a sound record.
pub fn reads_soundly6()
    ensures { ReadsSoundly6 }
{}

/// A legal version 7 bundle that isn't refused reads as a sound record.
pub fn reads_soundly7()
    ensures { ReadsSoundly7 }
{}

/// A version 6 view is read as the record of which it is the view.
pub fn view6_reads()
    ensures { View6Reads }
{}

/// A version 7 view is read as the record of which it is the view.
pub fn view7_reads()
    ensures { View7Reads }
{}

/// A view has no more extension blocks than a bundle that reads as its record.
pub fn no_more_blocks()
    ensures { NoMoreBlocks }
{}

/// A bundle that is translated comes back as its normal form.
pub fn there_and_back()
    ensures { ThereAndBack }
{}

/// A version 7 bundle whose lifetime reaches 2^64 once it is lengthened to whole seconds is translated,
/// and refused on the way back.
pub fn late_is_refused()
    ensures { LateIsRefused }
{}

/// A bundle, what it becomes, and its normal form have names, expiry, payload, endpoints and fragment
/// paired.
pub fn says_the_same()
    ensures { SaysTheSame }
{}

/// A version 6 view is a legal bundle.
pub fn view6_is_legal()
    ensures { View6IsLegal }
{}

/// A version 7 view is a legal bundle.
pub fn view7_is_legal()
    ensures { View7IsLegal }
{}

/// A bundle without blocks of the gateway's own is its normal form.
pub fn plain_is_normal()
    ensures { PlainIsNormal }
{}

/// A view is its normal form.
pub fn view_is_normal()
    ensures { ViewIsNormal }
{}
