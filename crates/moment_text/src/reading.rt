//! The moment of a TOML date-time.

ghost use Rattle.std.specs.Prelude.{◌≡◌, ◌<◌, ◌^◌, true, IfSome, pos, ◌+ℤ◌};
ghost use Rattle.jiff_core.specs.Calendar.{IsWithin, days_from_civil};
ghost use Rattle.toml_datetime.specs.Valid.{is_valid_date, is_valid_offset, is_none_or_below};
ghost use Rattle.moment_text.specs.Moments as spec;

use jiff_core::civil;
use toml_datetime::{Date, Datetime, Offset, Time};

/// The first moment of the year 10000.
const YEAR_10000: i64 = 252_455_616_000_000;

/// The first moment of the year 2000, in milliseconds since the first day that the calendar has.
const YEAR_2000: i64 = 378_651_801_600_000;

/// The moment of a date-time with its seconds and its offset: none where one of them is left out,
/// where the second is a leap second, where the fraction isn't of whole milliseconds, and where the
/// moment is before the year 2000 or after the year 9999 in UTC. A value that no TOML text can
/// write has none.
#[tactic(auto, unfolding(crate::specs::Moments::moment_of))]
pub fn moment_of(when: &Datetime) -> Option<u64>
    ensures { result ≡ spec.moment_of when.now }
{
    if !when.is_valid() {
        return None;
    }
    match (when.date, when.time, when.offset) {
        (Some(date), Some(time), Some(offset)) => {
            let ms = seconds_ms(time)?;
            in_years(in_utc(date, time, ms, offset))
        }
        _ => None,
    }
}

fn seconds_ms(time: Time) -> Option<u32>
    requires { is_none_or_below time.nanosecond 1_000_000_000 ≡ true }
    ensures value { result ≡ spec.seconds_ms time.second time.nanosecond }
    ensures bound { IfSome result (λ ms. ms < 60_000) }
{
    let seconds = time.second?;
    let nanoseconds = time.nanosecond.unwrap_or(0);
    if seconds < 60 && nanoseconds % 1_000_000 == 0 {
        Some(u32::from(seconds) * 1000 + nanoseconds / 1_000_000)
    } else {
        None
    }
}

fn in_utc(date: Date, time: Time, ms: u32, offset: Offset) -> i64
    requires day { is_valid_date date ≡ true }
    requires time { (time.hour < 24) × (time.minute < 60) × (ms < 60_000) }
    requires offset { is_valid_offset offset ≡ true }
    ensures value { result ≡ spec.in_utc date time ms offset }
    ensures bound { IsWithin (2 ^ 60) result }
{
    let days = u64::from(since_first_day(date));
    let of_day = u64::from(time.hour) * 3_600_000 + u64::from(time.minute) * 60_000 + u64::from(ms);
    let local = days * 86_400_000 + of_day;
    local as i64 - YEAR_2000 - minutes_ahead(offset) * 60_000
}

fn minutes_ahead(offset: Offset) -> i64
    requires { is_valid_offset offset ≡ true }
    ensures value { result ≡ spec.minutes_ahead offset }
    ensures bound { IsWithin 1440 result }
{
    match offset {
        Offset::Z => 0,
        Offset::Custom { minutes } => i64::from(minutes),
    }
}

/// The days from the first day that the calendar has.
fn since_first_day(date: Date) -> u32
    requires { is_valid_date date ≡ true }
    ensures value { days_from_civil (pos date.year) date.month date.day +ℤ pos 4_371_587
        ≡ pos result }
    ensures bound { result < 2 ^ 23 }
{
    civil::Date::constrain(date.year as i16, date.month, date.day).days_since_min()
}

fn in_years(ms: i64) -> Option<u64>
    ensures { result ≡ spec.in_years ms }
{
    if 0 <= ms && ms < YEAR_10000 {
        Some(ms as u64)
    } else {
        None
    }
}
