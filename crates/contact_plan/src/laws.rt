//! What the words of a plan mean. Each law is the contract of a function that does nothing.

ghost use Rattle.contact_plan.specs.Laws.{FaultlessIsPlan, ContactHasMoments, MomentsAreApart};
ghost use Rattle.contact_plan.specs.Laws.{ContactGoesOn, ContactIsBounded};

/// Windows have no fault if and only if they are a plan: 4,096 at most, each with a moment, in order.
pub fn faultless_windows_are_a_plan()
    ensures { FaultlessIsPlan }
{}

/// Each contact time below the sum of the windows has an open moment.
pub fn contact_has_moments()
    ensures { ContactHasMoments }
{}

/// It has one alone, and from the sum of the windows on there is none.
pub fn moments_are_apart()
    ensures { MomentsAreApart }
{}

/// Contact time never goes back, and goes on after each open moment.
pub fn contact_goes_on()
    ensures { ContactGoesOn }
{}

/// It is never ahead of the clock, nor above the sum of the windows.
pub fn contact_is_bounded()
    ensures { ContactIsBounded }
{}
