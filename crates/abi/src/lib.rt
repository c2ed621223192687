// The calls of include/pnet.h, as library functions (crate `abi_c` exports them). Each hands its arguments to its library's call, and its answer back as a struct by value.
#![tactic(auto)]

pub mod adding;
pub mod auditing;
pub mod complementing;
pub mod converting;
pub mod dying;
pub mod exchanging;
pub mod excluding;
pub mod moving;
pub mod reading;
pub mod salvaging;
pub mod sizing;
pub mod stating;
pub mod stripping;
pub mod version;
pub mod weighing;
