//! Laws of relabelling and of leaving out, each the contract of a function that does nothing.

ghost use Rattle.block_types.specs.Laws.{TypesSwap, RelabelledTwice, RelabelledIsLegal, NothingRelabelled, WrapsSayWireTypes, ThereAndBackRelabelled, BareViewIsPlain};

/// Residues and wraps have the types that were given, each type comes back, and others stay.
pub fn types_swap()
    ensures { TypesSwap }
{}

/// A bundle that is relabelled twice is what it was.
pub fn relabelled_twice()
    ensures { RelabelledTwice }
{}

/// A legal bundle that is relabelled is legal, and its spelling has as many octets.
pub fn relabelled_is_legal()
    ensures { RelabelledIsLegal }
{}

/// With the types 192 and 193 a bundle stays what it is.
pub fn nothing_relabelled()
    ensures { NothingRelabelled }
{}

/// A wrap in a relabelled version 6 bundle says of its block the type of the wire, and nothing else of it
/// changes.
pub fn wraps_say_wire_types()
    ensures { WrapsSayWireTypes }
{}

/// A bundle that one gateway translates comes back by another with the same types as its normal form.
pub fn there_and_back_relabelled()
    ensures { ThereAndBackRelabelled }
{}

/// The version 7 bundle of a bare record has no block of the gateway's own, is its normal form, and has
/// each version 7 block.
pub fn bare_view_is_plain()
    ensures { BareViewIsPlain }
{}
