//! Tests of threads: of cells that threads share; of shards and objects at which two threads have a seat each, and what
//! one of them does while the other is in the middle of something; of two lanes of a node, or of a relay, each of which
//! gets its next frame only once the other has answered; and of the order in which one request steps shards and gives back
//! its object.
#![tactic(auto)]

#[cfg(test)]
mod cells;
#[cfg(test)]
mod large;
#[cfg(test)]
mod logged;
#[cfg(test)]
mod meeting;
#[cfg(test)]
mod node;
#[cfg(test)]
mod opening;
#[cfg(test)]
mod order;
#[cfg(test)]
mod pacing;
#[cfg(test)]
mod seats;
#[cfg(test)]
mod serving;
#[cfg(test)]
mod sharing;
#[cfg(test)]
mod tasks;
