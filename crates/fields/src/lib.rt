// The fields of a net sheet before its arcs: the counts of places, transitions, colours and modes, then K and the first marking of each pair.
#![tactic(auto)]

pub mod counts;
pub mod numbers;
pub mod pairs;
pub mod read;
