// The fleet statement as definitions (document 02, P13): no functions, but what the call keeps. What a ship is and adds to the record stands in specs/.
#![tactic(auto)]

use model::Answer;

// "one running record that the caller lends": ships counted, movements accepted, movements refused by each number, kilograms added and removed.
#[repr(C)]
#[derive(Clone, Copy)]
pub struct Fleet {
    pub ships: u64,
    pub movements: u64,
    pub by6: u64,
    pub by11: u64,
    pub by12: u64,
    pub by13: u64,
    pub by14: u64,
    pub added: i64,
    pub removed: i64,
}

// A ship's run: how many movements were accepted, the answer to the first that was not, and the kilograms added and removed.
#[derive(Clone, Copy)]
pub struct Voyage {
    pub accepted: usize,
    pub answer: Answer,
    pub added: i64,
    pub removed: i64,
}
