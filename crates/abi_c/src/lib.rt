// The static library: each public call of include/pnet.h under its name for C. Each hands its arguments to the call of crate `abi` and states its clauses again.
#![tactic(auto)]

pub mod adding;
pub mod auditing;
pub mod complementing;
pub mod converting;
pub mod dying;
pub mod exchanging;
pub mod excluding;
pub mod moving;
pub mod reading;
pub mod salvaging;
pub mod sizing;
pub mod stating;
pub mod stripping;
pub mod version;
pub mod weighing;
