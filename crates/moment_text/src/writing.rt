//! The text of a moment.

ghost use Rattle.std.specs.Prelude.{◌≡◌, ◌+◌, ◌%◌, ◌<◌, ◌≤◌};
ghost use Rattle.moment_text.specs.Calendar as calendar;
ghost use Rattle.moment_text.specs.Text.{moment_text, text_within, last_shown};

use jiff_core::civil;

/// How many octets the text of a moment has.
pub const TEXT_LENGTH: usize = 24;

/// The last millisecond of the year 9999.
const LAST_SHOWN: u64 = 252_455_615_999_999;

/// 1 January 2000, in days since the first day that the calendar has.
const FIRST_DAY: u32 = 4_382_544;

/// The text of a moment, `YYYY-MM-DDTHH:MM:SS.mmmZ`. A moment past the year 9999 is shown as that
/// year's last millisecond, since the text has room for four digits of a year.
#[tactic(auto, unfolding(crate::specs::Text::moment_text))]
pub fn spell(moment: u64) -> [u8; 24]
    ensures { result ≡ moment_text moment }
{
    spell_within(moment.min(LAST_SHOWN))
}

#[tactic(auto, unfolding(crate::specs::Text::text_within, crate::specs::Text::day_text, crate::specs::Text::time_text, crate::specs::Text::digits))]
fn spell_within(moment: u64) -> [u8; 24]
    requires { moment ≤ last_shown }
    ensures { result ≡ text_within moment }
{
    let day = day_after((moment / 86_400_000) as u32);
    let century = day.year / 10 / 10;
    let (hour, minute) = (moment / 3_600_000 % 24, moment / 60_000 % 60);
    let (second, ms) = (moment / 1000 % 60, moment % 1000);
    [
        digit(century / 10),
        digit(century),
        digit(day.year / 10),
        digit(day.year),
        b'-',
        digit(day.month / 10),
        digit(day.month),
        b'-',
        digit(day.day / 10),
        digit(day.day),
        b'T',
        digit(hour / 10),
        digit(hour),
        b':',
        digit(minute / 10),
        digit(minute),
        b':',
        digit(second / 10),
        digit(second),
        b'.',
        digit(ms / 10 / 10),
        digit(ms / 10),
        digit(ms),
        b'Z',
    ]
}

fn digit(number: u64) -> u8
    ensures { result ≡ 48 + number % 10 }
{
    b'0' + (number % 10) as u8
}

/// A day of the calendar, of the years 2000 to 9999.
#[derive(Clone, Copy)]
pub(crate) struct Day {
    year: u64,
    month: u64,
    day: u64,
}

/// The day so many days after 1 January 2000.
fn day_after(days: u32) -> Day
    requires { days < 2_921_940 }
    ensures { result ≡ calendar.day_after days }
{
    let date = civil::Date::from_days_since_min(FIRST_DAY + days);
    Day {
        year: u64::from(date.year.unsigned_abs()),
        month: u64::from(date.month),
        day: u64::from(date.day),
    }
}
