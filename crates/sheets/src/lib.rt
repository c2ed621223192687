// The part of the caller's bytes after each sheet, and a sheet as an argument of a call.
#![tactic(auto)]

pub mod lists;
pub mod nets;
pub mod whole;
pub mod written;
