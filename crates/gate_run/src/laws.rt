//! What holds of every run, as the contract of a function that does nothing.

ghost use Rattle.gate_run.specs.Laws.{IsRunnableAsRead};

/// By what is read of a configuration file a gateway can be set up, so it may be run.
pub fn what_is_read_is_runnable()
    ensures { IsRunnableAsRead }
{}
