//! What the words of the contracts mean, place by place and range by range. Each law is the
//! contract of a function that does nothing.

ghost use Rattle.spans.specs.Laws.{NothingIsCovered, CoversTheRange, CountsTheFresh, AllIsEach};
ghost use Rattle.spans.specs.Laws.{RunsAreMaximal, RunsReachOn, WholeIsOneRun, CountsThoseBelow};

/// Where nothing was covered no place is covered and there is no run.
pub fn nothing_is_covered()
    ensures { NothingIsCovered }
{}

/// Covering a range covers its places and no others, and the limit stays.
pub fn covers_the_range()
    ensures { CoversTheRange }
{}

/// As many places more are covered as were not covered in the range.
pub fn counts_the_fresh()
    ensures { CountsTheFresh }
{}

/// All places of a range are covered if and only if each of them is.
pub fn all_is_each()
    ensures { AllIsEach }
{}

/// The runs are the maximal covered ranges, in order, and have all covered places.
pub fn runs_are_maximal()
    ensures { RunsAreMaximal }
{}

/// The runs from a place on are the maximal covered ranges that end there or later, in order, and
/// have all covered places from there on.
pub fn runs_reach_on()
    ensures { RunsReachOn }
{}

/// All places below another are covered if and only if one run has them all.
pub fn whole_is_one_run()
    ensures { WholeIsOneRun }
{}

/// The runs that begin below a place are the first ones, and as many as are counted.
pub fn counts_those_below()
    ensures { CountsThoseBelow }
{}
