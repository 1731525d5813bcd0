//! Covers beside a plain list of truth values, and at the greatest limit.

ghost use Rattle.std.specs.Prelude.{◌≡◌, ◌<◌, ◌≤◌, length};

use spans::{Run, Spans};
use std::alloc::{AllocError, Global};
use std::test::Fail;

#[test]
fn the_greatest_limit(rt: HostRuntime) -> Result<(), Fail> {
    let mut spans = Spans::new(rt.alloc(), 18446744073709551615);
    assert!(rt; spans.cover(5, 6)? == 1);
    assert!(rt; spans.cover(6, 9223372036854775808)? == 9223372036854775802);
    assert!(rt; spans.cover(0, 5)? == 5);
    let whole = Run {
        from: 0,
        to: 9223372036854775808,
    };
    assert!(rt; spans.run(0) == Some(whole) && spans.run(1).is_none());
    assert!(rt; spans.count(18446744073709551615) == 1);
    assert!(rt; spans.is_whole(9223372036854775808));
    assert!(rt; !spans.covers(9223372036854775807, 9223372036854775809));
    Ok(())
}

/// How many places the slow twin has.
const PLACES: usize = 4000;

/// The next of a row of numbers below 2^31 that look random.
fn draw(seed: u64) -> u64 {
    (seed % 2147483648 * 1103515245 + 12345) % 2147483648
}

/// Covers a range of the slow twin, and counts what is new.
fn cover_slowly(places: &mut [bool], from: usize, to: usize) -> u64
    requires order { from ≤ to }
    requires within { to ≤ length places.old }
{
    let mut fresh = 0u64;
    for place in places[from..to].iter_mut() {
        if !*place {
            *place = true;
            fresh = fresh.saturating_add(1);
        }
    }
    fresh
}

/// The maximal ranges of the slow twin.
fn runs_slowly(alloc: Global, places: &[bool]) -> Result<Vec<Run>, AllocError> {
    let mut runs = Vec::new(alloc);
    let mut begun = None;
    for (k, place) in places.iter().enumerate() {
        let k = k as u64;
        match (begun, *place) {
            (None, true) => begun = Some(k),
            (Some(from), false) => {
                runs.push(Run { from, to: k })?;
                begun = None;
            }
            _ => {}
        }
    }
    if let Some(from) = begun {
        let to = places.len() as u64;
        runs.push(Run { from, to })?;
    }
    Ok(runs)
}

/// How long the range is that a draw asks for: mostly one place, at times some, seldom many.
fn length_of(draw: u64) -> usize {
    match draw / 64 % 40 {
        0 => (draw / 4096 % 900) as usize,
        1..=4 => (draw / 4096 % 12) as usize,
        _ => 1,
    }
}

/// Whether a cover tells the same of a range as the slow twin, before and in covering it.
fn covers_alike(
    spans: &mut Spans,
    places: &mut [bool],
    from: usize,
    to: usize,
) -> Result<bool, AllocError>
    requires order { from ≤ to }
    requires within { to ≤ length places.old }
    requires below { to ≤ length spans.old }
    ensures { length spans.new ≡ length spans.old }
{
    let held = spans.covers(from as u64, to as u64);
    let fresh = cover_slowly(places, from, to);
    Ok(held == (fresh == 0) && spans.cover(from as u64, to as u64)? == fresh)
}

/// How many ranges begin below a place.
fn begun_below(runs: &[Run], to: u64) -> usize {
    let mut count = 0usize;
    for run in runs {
        if run.from < to {
            count = count.saturating_add(1);
        }
    }
    count
}

/// Whether a cover has the ranges of the slow twin, and as many of them begin below a place.
fn runs_alike(alloc: Global, spans: &Spans, places: &[bool], to: u64) -> Result<bool, AllocError>
    requires { to ≤ length spans.now }
{
    let runs = runs_slowly(alloc, places)?;
    let kept: Vec<Run> = spans.runs().collect(alloc)?;
    Ok(kept.as_slice() == runs.as_slice() && spans.count(to) == begun_below(&runs, to))
}

#[test]
fn as_a_list_of_truth_values(rt: HostRuntime) -> Result<(), Fail> {
    let mut places = vec![in rt.alloc(); false; PLACES]?;
    let mut spans = Spans::new(rt.alloc(), PLACES as u64);
    let mut seed = 7;
    for round in 0..6000 {
        seed = draw(seed);
        let from = (seed / 65536) as usize % PLACES;
        seed = draw(seed);
        let to = from.saturating_add(length_of(seed)).min(PLACES);
        assert!(rt;
            covers_alike(&mut spans, &mut places, from, to)?,
            "round {round}"
        );
        if round % 100 == 0 {
            assert!(rt;
                runs_alike(rt.alloc(), &spans, &places, from as u64)?,
                "round {round}"
            );
        }
    }
    Ok(())
}
