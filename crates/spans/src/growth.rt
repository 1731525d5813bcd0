//! A run that grows over those after it.

ghost use Rattle.std.specs.Prelude.{◌≡◌, ◌+◌, ◌≤◌, length, drop};
ghost use Rattle.spans.specs.Growing.{grown_over, left_after};
ghost use Rattle.spans.specs.Runs.{AreApart};

use crate::range::Run;

/// How far a growing run has come.
#[derive(Clone, Copy, Debug)]
pub(crate) struct Growth {
    /// Where it ends, before the range that is covered is counted in.
    pub end: u64,

    /// How many of the places that it has by now are newly covered.
    pub fresh: u64,
}

impl Growth {
    /// Grows over those of `runs` that begin at or before `to`, and tells how many these are.
    pub fn over(&mut self, runs: &[Run], to: u64) -> usize
        requires apart { AreApart (self.old.end + 1) runs.now }
        requires bound { self.old.fresh ≤ self.old.end }
        ensures grown { self.new ≡ grown_over to self.old runs.now }
        ensures left { drop result runs.now ≡ left_after to runs.now }
        ensures taken { result ≤ length runs.now }
        ensures bound { self.new.fresh ≤ self.new.end }
    {
        let mut taken = 0;
        for run in runs {
            if run.from > to {
                break;
            }
            self.fresh += run.from - self.end;
            self.end = run.to;
            taken += 1;
        }
        taken
    }
}
