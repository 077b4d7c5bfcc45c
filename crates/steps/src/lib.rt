// The steps of the walk that look at no node: answers, destinations, constants, and the end of an operator.
#![tactic(auto)]

pub mod answer;
pub mod counted;
pub mod sources;
pub mod step;
