//! What the course of a request is, and what is so of every course: definitions, and laws, each the
//! contract of a function that does nothing.
#![tactic(auto)]

mod handled;
mod laws;

pub use handled::Handled;
pub use laws::{
    a_connection_alone_is_a_function, answers_are_whole, arrivals_are_judged, causes_are_exact,
    causes_of_pulls_are_exact, courses_exclude_each_other, courses_stay, effects_are_granted,
    going_on_goes_on, no_grant_changes_nothing, nothing_follows_a_full_journal,
    one_more_is_answered, refusals_have_causes, replies_are_verdicts, what_is_answered_stays,
};
