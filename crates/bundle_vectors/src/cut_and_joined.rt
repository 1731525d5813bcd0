//! Bundles that are cut, and joined again.

ghost use Rattle.std.specs.Prelude.{◌≡◌, ◌<◌, false, OnOk};

use crate::rows::{are_lines, seven, six};
use fragment_lines::{BundleJoiner, Telling, TurnedDown, cut6, cut7};
use std::alloc::Global;
use std::test::Fail;
use translate::Refused;

/// Of version 6, from ipn:1.1 to ipn:2.1 with the payload `abc`; and its pieces of two octets.
const SIX: &str = "0681100d02010101000000008768053c00010803616263";

const SIX_FRONT: &str = "0681110f02010101000000008768053c0000030108026162";

const SIX_END: &str = "0681110f02010101000000008768053c00020301080163";

/// The same in version 7.
const SEVEN: &str =
    "9f8907000182028202018202820101820100821a000f42450019ea5b425a46850101000043616263ff";

const SEVEN_FRONT: &str =
    "9f8b07010182028202018202820101820100821a000f42450019ea5b0003426fb08501010000426162ff";

const SEVEN_END: &str =
    "9f8b07010182028202018202820101820100821a000f42450019ea5b020342793885010100004163ff";

/// As the first, and it must not be cut.
const SIX_WHOLE: &str = "0681140d02010101000000008768053c00010803616263";

/// As the first, and custody is asked for.
const SIX_KEPT: &str = "0681180d02010101000000008768053c00010803616263";

/// The lines of a bundle's pieces, or the word of what turns it down.
fn cut_of(alloc: Global, text: &str, size: u64) -> Result<String, Fail>
    requires { 0 < size }
{
    let mut lines = String::new(alloc);
    let said = if text.starts_with("06") {
        cut6(alloc, six(alloc, text)?, size)?
    } else {
        cut7(alloc, seven(alloc, text)?, size)?
    };
    tell(&mut lines, said)?;
    Ok(lines)
}

/// Appends all that is still to be told.
fn tell_all(text: &mut String, telling: &mut Telling) -> Result<(), Fail> {
    'parts: for _ in 0..8 {
        if telling.is_over() {
            return Ok(());
        }
        telling.tell(text)?;
    }
    Err(Fail::new("there are too many parts"))
}

/// Appends all that is still to be told, or the word of what turns a bundle down.
fn tell(text: &mut String, said: Result<Telling, TurnedDown>) -> Result<(), Fail> {
    match said {
        Ok(mut telling) => tell_all(text, &mut telling),
        Err(cause) => Ok(text.push_str(cause.word())?),
    }
}

/// Whether a bundle is cut into these pieces.
fn is_cut(alloc: Global, text: &str, size: u64, pieces: &[&str]) -> Result<bool, Fail>
    requires { 0 < size }
{
    Ok(are_lines(cut_of(alloc, text, size)?.as_str(), pieces))
}

#[test]
fn bundles_are_cut(rt: HostRuntime) -> Result<(), Fail> {
    assert!(rt; is_cut(rt.alloc(), SIX, 2, &[SIX_FRONT, SIX_END])?);
    assert!(rt; is_cut(rt.alloc(), SEVEN, 2, &[SEVEN_FRONT, SEVEN_END])?);
    Ok(())
}

#[test]
fn what_is_short_enough_stays_whole(rt: HostRuntime) -> Result<(), Fail> {
    for text in [SIX, SIX_WHOLE, SEVEN] {
        assert!(rt; is_cut(rt.alloc(), text, 3, &[text])?, "{text}");
    }
    Ok(())
}

#[test]
fn bundles_are_turned_down(rt: HostRuntime) -> Result<(), Fail> {
    assert!(rt; cut_of(rt.alloc(), SIX_WHOLE, 2)?.as_str() == "MustNot");
    assert!(rt; cut_of(rt.alloc(), SIX_KEPT, 2)?.as_str() == "CustodyAsked");
    Ok(())
}

/// Appends the lines of a bundle that comes.
fn join(alloc: Global, joiner: &mut BundleJoiner, said: &mut String, text: &str) -> Result<(), Fail>
    requires { joiner.old.spent ≡ false }
    ensures { OnOk result (joiner.new.spent ≡ false) }
{
    let due = if text.starts_with("06") {
        joiner.join6(said, six(alloc, text)?)?
    } else {
        joiner.join7(said, seven(alloc, text)?)?
    };
    tell(said, due)
}

/// The lines of bundles that come one after another.
fn join_of(alloc: Global, texts: &[&str]) -> Result<String, Fail> {
    let mut joiner = BundleJoiner::new(alloc);
    let mut said = String::new(alloc);
    'coming: for text in texts {
        join(alloc, &mut joiner, &mut said, text)?;
    }
    Ok(said)
}

/// What comes, the words that are said, and the whole.
const JOINED: &[([&str; 2], &str, &str)] = &[
    ([SIX_END, SIX_FRONT], "Waiting\nWhole ", SIX),
    ([SEVEN_FRONT, SEVEN_END], "Waiting\nWhole ", SEVEN),
    // The whole has the version of the bundle that completes it.
    ([SIX_FRONT, SEVEN_END], "Waiting\nWhole ", SEVEN),
    ([SEVEN_FRONT, SIX_END], "Waiting\nWhole ", SIX),
];

/// Whether these words are said of bundles that come, and then the whole.
fn is_joined(alloc: Global, texts: &[&str], words: &str, whole: &str) -> Result<bool, Fail> {
    let said = join_of(alloc, texts)?;
    match said.as_str().strip_prefix(words) {
        Some(rest) => Ok(are_lines(rest, &[whole])),
        None => Ok(false),
    }
}

#[test]
fn pieces_are_joined(rt: HostRuntime) -> Result<(), Fail> {
    for (texts, words, whole) in JOINED {
        assert!(rt; is_joined(rt.alloc(), texts, words, whole)?, "{whole}");
    }
    Ok(())
}

/// Whether exactly this is said of bundles that come.
fn is_said(alloc: Global, texts: &[&str], wanted: &str) -> Result<bool, Fail> {
    Ok(join_of(alloc, texts)?.as_str() == wanted)
}

#[test]
fn other_answers_of_the_joiner(rt: HostRuntime) -> Result<(), Fail> {
    assert!(rt; is_said(rt.alloc(), &[SIX_END, SIX_END], "Waiting\nRepeat\n")?);
    assert!(rt; is_said(rt.alloc(), &[SIX, SIX_END], "NotFragment\nWaiting\n")?);
    assert!(rt; is_said(rt.alloc(), &[SIX_KEPT], "CustodyAsked")?);
    Ok(())
}

#[test]
fn a_message_is_the_word(rt: HostRuntime) -> Result<(), Fail> {
    for (cause, name) in [
        (TurnedDown::MustNot, "MustNot"),
        (
            TurnedDown::Untranslated(Refused::TooManyBlocks),
            "TooManyBlocks",
        ),
    ] {
        let message = format!(in rt.alloc(); "{cause}")?;
        assert!(rt; message.as_str() == name && cause.word() == name, "{name}");
    }
    Ok(())
}
