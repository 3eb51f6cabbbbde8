//! A decider that finds all that is derivable about the terms of a question.
#![tactic(auto)]

mod gather;
mod held;
mod look;
mod rounds;
mod saturate;
mod saturation;
mod saturator;
mod search;

pub use saturator::Saturator;
