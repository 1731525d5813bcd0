//! Laws of raised ages, each the contract of a function that does nothing.

ghost use Rattle.bundle_age.specs.Laws.{RaisedInViews, StaysAddUp};

/// A view of a raised record reads as that record; in version 7 it is the view with its age raised.
pub fn raised_in_views()
    ensures { RaisedInViews }
{}

/// Two stays are as one that is as long as both; no time changes nothing, and nothing but an age changes.
pub fn stays_add_up()
    ensures { StaysAddUp }
{}
