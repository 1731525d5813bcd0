//! Short drains, computed.

ghost use Rattle.std.specs.Prelude.{◌≡◌, ◌∷◌, [], None};
ghost use Rattle.ltp_session.specs.World.{clock, deliver, first_end, run, second_end, submit};
ghost use Rattle.ltp_session.specs.Examples.{party, world_after};
ghost use Rattle.ltp_drain.specs.Clean.{AreCleanFrom, clean_event};
ghost use Rattle.ltp_drain.specs.Completion.{IsReady};
ghost use Rattle.ltp_drain.specs.Hopeful.{cost};

/// A link on which nothing was sent costs nothing, and has no clean event.
pub fn a_silent_link_costs_nothing()
    ensures cost { cost (party 1 2, party 2 1) (world_after []) (world_after []) ≡ 0 }
    ensures none { clean_event (world_after []) 0 ≡ None }
{}

/// A session of one segment costs 17. Of two segments, one red and one green, it costs 18.
pub fn one_segment_costs_17()
    ensures one { cost (party 1 2, party 2 1) (world_after (submit first_end (7 ∷ 8 ∷ []) 2 ∷ []))
        (world_after (submit first_end (7 ∷ 8 ∷ []) 2 ∷ [])) ≡ 17 }
    ensures two { cost (party 1 2, party 2 1) (world_after (submit first_end (7 ∷ 8 ∷ 9 ∷ []) 2 ∷ []))
        (world_after (submit first_end (7 ∷ 8 ∷ 9 ∷ []) 2 ∷ [])) ≡ 18 }
    ensures begun { cost (party 1 2, party 2 1) (world_after [])
        (world_after (submit first_end (7 ∷ 8 ∷ []) 2 ∷ [])) ≡ 17 }
{}

/// A link on which one end has sent a block is ready: from there a drain completes the session.
pub fn a_link_that_sent_a_block_is_ready()
    ensures { IsReady (party 1 2, party 2 1)
        (world_after (submit first_end (7 ∷ 8 ∷ []) 2 ∷ [])) }
{}

/// The one segment is lost. The clock moves to its deadline; it is sent again and delivered, and
/// so are the report on it and that report's acknowledgement. Then nothing is left to do.
pub fn a_lost_segment_is_sent_again()
    ensures clean { AreCleanFrom (party 1 2, party 2 1) (world_after (submit first_end (7 ∷ 8 ∷ []) 2 ∷ []))
        (clock 10 ∷ deliver 1 ∷ deliver 2 ∷ deliver 3 ∷ []) }
    ensures over { clean_event (world_after (submit first_end (7 ∷ 8 ∷ []) 2
        ∷ clock 10 ∷ deliver 1 ∷ deliver 2 ∷ deliver 3 ∷ [])) 4 ≡ None }
{}
