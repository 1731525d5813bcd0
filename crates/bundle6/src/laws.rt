//! Laws of the definitions. Each function does nothing: its contract is a law.

ghost use Rattle.std.specs.Prelude.{ℕ, ◌^◌, ◌<◌, List, length};
ghost use Rattle.wire_fields.specs.Refusal.{ExactlyOne};
ghost use Rattle.wire_fields.specs.Reading.{IsOctets};
ghost use Rattle.bundle6.specs.declared.bundle.Bundle6.{Bundle6};
ghost use Rattle.bundle6.specs.Table.{bundle};
ghost use Rattle.bundle6.specs.Spelling.{canon6, IsCounted};
ghost use Rattle.bundle6.specs.Streaming.{HaveOneAnswer, CutsAlike};
ghost use Rattle.bundle6.specs.Cutting.{TellAsOne, TellTheSame};
ghost use Rattle.bundle6.specs.Legal.{IsLegal, Spells6, IsReadAgain, OnlyLegal};

/// Of each text of octets exactly one holds: one front of it spells a bundle, with one value, or it is
/// refused at one place for one reason.
pub fn exactly_one()
    ensures { (text : List ℕ) → IsOctets text → ExactlyOne (bundle 64) text }
{}

/// What octets spell by the table is a legal bundle.
pub fn only_legal()
    ensures { OnlyLegal }
{}

/// A legal bundle is spelled by its canonical spelling, which is read again, whatever follows it. A
/// number must be able to say how long its primary block is: a dictionary in which texts share their
/// ends may be far shorter than the canonical one.
pub fn canonical_spells()
    ensures spelled { (b : Bundle6) → IsLegal b → IsCounted b → Spells6 b (canon6 b) }
    ensures again { (b : Bundle6) → IsLegal b → IsCounted b → IsReadAgain b (canon6 b) }
{}

/// What two pieces give is what both give as one piece. What a piece gives is said by
/// [`crate::Reader6::feed`].
pub fn cuts_alike()
    // A piece has one answer, or memory is wanted.
    ensures one { HaveOneAnswer 67108864 }

    // A piece that completes nothing and another after it give what both give as one piece.
    ensures alike { CutsAlike 67108864 }
{}

/// Whatever pieces a stream comes in, they tell the bundles of the whole stream, and its refusal at its
/// place. [`crate::Reader6::feed`] and [`crate::Reader6::judge`] take one step of that.
pub fn cuts_make_no_difference()
    // Pieces tell what all their octets tell as one.
    ensures whole { TellAsOne 67108864 }

    // The same octets in other pieces tell the same.
    ensures same { TellTheSame 67108864 }
{}
