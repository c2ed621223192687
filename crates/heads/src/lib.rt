// The head of every sheet, its length and version, and the numbers that stand in its bytes.
// Where each field of every sheet stands is said in specs/Layout.antt.
#![tactic(auto)]

pub mod bytes;
pub mod head;
pub mod sheet;
pub mod version;
