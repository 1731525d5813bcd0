//! What the words of the contracts mean. Each law is the contract of a function that does nothing.

ghost use Rattle.std.specs.Prelude.{◌≡◌, ◌-◌, ◌^◌};
ghost use Rattle.session_memory.specs.declared.numbers.TheConstants.{LAST};
ghost use Rattle.session_memory.specs.Laws.{HaveNumbers, AddsRun, KeptForATime, TouchedAnew, RunsStayWithin, ForgetsByTheSecondTurn};

/// Numbers that are added are among them, and no others; the last is 2^64 - 1.
pub fn numbers_have()
    ensures have { HaveNumbers }
    ensures last { LAST ≡ 2 ^ 64 - 1 }
{}

/// A number adds one run at most, and the number after one of them none.
pub fn adds_one_run()
    ensures { AddsRun }
{}

/// A number is remembered for the time after it was closed or touched, unless runs are forgotten before
/// their time.
pub fn kept_for_a_time()
    ensures { KeptForATime }
{}

/// A number of which a red piece comes once its time is nearly over is remembered for the time after that.
pub fn touched_anew()
    ensures { TouchedAnew }
{}

/// Neither list has more runs than it may, whatever happens, where places are made.
pub fn runs_stay_within()
    ensures { RunsStayWithin }
{}

/// A number is forgotten by the second turn, where it is neither marked nor touched.
pub fn forgets_by_the_second_turn()
    ensures { ForgetsByTheSecondTurn }
{}
