//! A half of a run of the gateway among other implementations, as a definition: how the run stands, what
//! comes to the half, and what is made of it, as a list of acts in the order made.
//!
//! A half reads the clocks, adds pieces of earlier runs while there is room for them, lets the sessions tick, takes
//! the datagrams that came at its face, counts those from elsewhere that were dropped there, commits its records to the journal, lets the old face send and then the new
//! one, writes the lines, makes the journal's file anew where it is large, and then shows the metrics
//! (`specs/Half.antt`). Each datagram that a step of the gate makes is put into the outbox of its face, or dropped, as
//! the step says of it (`specs/Steps.antt`). A run is halves of the old face and of the new one in
//! turn (`specs/Run.antt`), after what earlier runs kept is recovered (`specs/Starts.antt`). How a file sets up the
//! gateway says `specs/Setup.antt`. [`laws`] says of halves what doesn't stand in their definition. There is no
//! code here.
#![tactic(auto)]

pub mod laws;
