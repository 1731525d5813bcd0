//! What the definitions mean: a law is a function with no body, whose clause speaks of them alone.

ghost use Rattle.std.specs.Prelude.{ℕ, ◌<◌};
ghost use Rattle.moment_text.specs.Calendar.{LiesAfter, day_after};

/// The day that a moment's text shows is a day of the calendar, and lies as many days after
/// 1 January 2000 as the moment says, for each day of the years 2000 to 9999.
pub fn shows_the_calendar()
    ensures { (days : ℕ) → days < 2_921_940 → LiesAfter days (day_after days) }
{}
