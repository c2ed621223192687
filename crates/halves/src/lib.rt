// What one arc and one pair of a net become in its complement: a half that stays, and a half that is new.
#![tactic(auto)]

pub mod bounded;
pub mod entry;
pub mod half;
pub mod pairs;
