// An export line by line: no functions, but what the reader of lines keeps.
#![tactic(auto)]

pub mod parts;

// What stands before a line: places, modes and arcs so far; in the mode in hand a new arc's pair is `low` or more; `half`: the last line was the Pre line of pair low - 1.
#[derive(Clone, Copy)]
pub struct State {
    pub places: u32,
    pub modes: u32,
    pub arcs: u32,
    pub low: u32,
    pub half: bool,
}
