//! The tables of tests of links and paths: of worlds of one link, what each event has the ends do, and
//! drains; of a plan of windows, and a link that is open in them; and of a whole path, drains event by
//! event.
//!
//! A row of a link or of a path is an event and the lines of what it has the ends do. What is wanted
//! comes from RFC 5326 and is counted by hand from the rules and the windows, or by a model, never
//! from what the program answered; docs/vectors.md says for each table where its values come from.
//!
//! They stand apart from the crates below, since a crate with tests is proved twice. Nothing is offered
//! to other crates.
#![tactic(auto)]

#[cfg(test)]
mod copies;
#[cfg(test)]
mod drains;
#[cfg(test)]
mod greatest;
#[cfg(test)]
mod late;
#[cfg(test)]
mod lines;
#[cfg(test)]
mod links;
#[cfg(test)]
mod paths;
#[cfg(test)]
mod plans;
#[cfg(test)]
mod stories;
#[cfg(test)]
mod told;
#[cfg(test)]
mod windows;
