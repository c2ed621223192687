// The sections of the complement's sheet: its places, its modes, its pairs, its arcs.
pub mod arcs;
pub mod bounded;
mod entry;
pub mod pairs;
pub mod places;
pub mod survey;
