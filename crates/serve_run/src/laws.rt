//! Laws about runs in turns, each the contract of a function that does nothing.

ghost use Rattle.serve_run.specs.Events.{RunsKeepLaw};
ghost use Rattle.serve_run.specs.Serve.{CutsAt64KiB};
ghost use Rattle.serve_run.specs.Told.{IsExactWhereTold};

/// Where both links tell what comes and which calls fail, and the clock tells its readings, a run that
/// is done wrote exactly the text of these, and exactly these datagrams went.
pub fn told_runs_are_exact()
    ensures { IsExactWhereTold }
{}

/// A run of `serve` goes as the events have it that its calls are, each reading of the clock and each
/// datagram that a poll gave: by them its gate is what it is, its steps have their lines, and its
/// datagrams were sent or lost. At each face the receiver's law holds (RFC 5326, section 6.9).
pub fn runs_keep_law()
    ensures { RunsKeepLaw }
{
    gateway_core::laws::hands_up_red_parts();
    gateway_core::laws::hands_up_each_once();
}

/// What passes is cut into fragments of 64 KiB of payload.
pub fn cuts_at_64_kib()
    ensures { CutsAt64KiB }
{}
