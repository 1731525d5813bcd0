//! Laws of the definitions, each the contract of a function that does nothing.

ghost use Rattle.std.specs.Prelude.{◌≡◌, [], ℕ, List, true};
ghost use Rattle.endpoint.specs.declared.name.Endpoint.{Endpoint};
ghost use Rattle.endpoint.specs.Endpoints.{IsEndpoint};
ghost use Rattle.wire_fields.specs.Format.{Spells};
ghost use Rattle.wire_fields.specs.Refusal.{ExactlyOne};
ghost use Rattle.wire_fields.specs.Reading.{IsOctets};
ghost use Rattle.bundle7.specs.declared.bundle.Bundle7.{Bundle7};
ghost use Rattle.bundle7.specs.Eid.{eid};
ghost use Rattle.bundle7.specs.Body.{IsBody, is_body};
ghost use Rattle.bundle7.specs.Table.{bundle};
ghost use Rattle.bundle7.specs.Spelling.{eid_octets, octets7};
ghost use Rattle.bundle7.specs.Legal.{IsLegal7, Spells7};
ghost use Rattle.bundle7.specs.Streaming.{HaveOneAnswer, CutsAlike};
ghost use Rattle.bundle7.specs.Cutting.{TellAsOne, TellTheSame};

/// Of each text of octets exactly one holds: one front of it spells a bundle, with one value, or it is
/// refused at one place for one reason.
pub fn exactly_one()
    ensures { (text : List ℕ) → IsOctets text → ExactlyOne (bundle 64) text }
{}

/// A bundle is legal if and only if octets spell it, and it has one spelling.
pub fn one_spelling()
    ensures legal { (b : Bundle7) (w : List ℕ) → IsOctets w → Spells7 b w → IsLegal7 b }
    ensures spelled { (b : Bundle7) → IsLegal7 b → Spells7 b (octets7 b) }
    ensures one { (b : Bundle7) (w : List ℕ) → Spells7 b w → w ≡ octets7 b }
{}

/// An endpoint is legal if and only if it has a spelling, and it has one; and a spelling names one
/// endpoint.
pub fn one_eid()
    ensures legal { (w : List ℕ) (e : Endpoint) → Spells eid [] w e
        → IsEndpoint e × (w ≡ eid_octets e) }
    ensures spelled { (e : Endpoint) → IsEndpoint e → Spells eid [] (eid_octets e) e }
    ensures one { (w : List ℕ) (d e : Endpoint) → Spells eid [] w d → Spells eid [] w e → d ≡ e }
{}

/// The table's test of a body finds what is spelled, and only that.
pub fn one_body()
    ensures found { (kind : ℕ) (w : List ℕ) → IsOctets w → is_body kind w ≡ true → IsBody kind w }
    ensures only { (kind : ℕ) (w : List ℕ) → IsBody kind w → is_body kind w ≡ true }
{}

/// What two pieces give is what both give as one piece. What a piece gives is said by
/// [`crate::Reader7::feed`].
pub fn cuts_alike()
    // A piece has one answer, or memory is wanted.
    ensures one { HaveOneAnswer 67108864 }

    // A piece that completes nothing and another after it give what both give as one piece.
    ensures alike { CutsAlike 67108864 }
{}

/// Whatever pieces a stream comes in, they tell the bundles of the whole stream, and its refusal at its
/// place. [`crate::Reader7::feed`] and [`crate::Reader7::judge`] take one step of that.
pub fn cuts_make_no_difference()
    // Pieces tell what all their octets tell as one.
    ensures whole { TellAsOne 67108864 }

    // The same octets in other pieces tell the same.
    ensures same { TellTheSame 67108864 }
{}
